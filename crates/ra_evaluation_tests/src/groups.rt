//! Groups stepped by hand, from the rules. The pass order of each is written out.

ghost use Rattle.std.specs.Prelude.{◌≡◌, length};
ghost use Rattle.ra_condition.specs.Chains.{pass_order};
ghost use Rattle.ra_condition.specs.Contents.{group_contents};
ghost use Rattle.ra_group.specs.Along.{pause_count};

use crate::given::with;
use ra_condition::{Condition, Flag, Group};
use ra_group::{Form, Outcome, step};
use ra_operand::Op;
use std::alloc::{AllocError, Global};

// What a group has to say at a frame.
#[derive(Clone, Copy)]
enum Told<'a> {
    // Whether it is valid, and all hits after it.
    Valid(bool, &'a [u32]),
    // All that it says, and all hits after it.
    All(Outcome, &'a [u32]),
    // All that it says.
    Outcome(Outcome),
}

fn is_told(outcome: Outcome, hits: &[u32], told: Told<'_>) -> bool {
    match told {
        Told::Valid(valid, after) => outcome.valid == valid && hits == after,
        Told::All(all, after) => outcome == all && hits == after,
        Told::Outcome(all) => outcome == all,
    }
}

// The truths of the conditions of a group at a frame, and what it then has to say.
type Frame<'a> = (&'a [bool], Told<'a>);

// The place of the first frame of a group that tells otherwise.
fn first_other(
    group: &Group,
    form: Form,
    order: &[u32],
    pauses: u32,
    lefts: &[u32],
    hits: &mut [u32],
    frames: &[Frame<'_>],
) -> Option<usize>
    requires order { order.now ≡ pass_order (group_contents group.now) }
    requires pauses { pauses ≡ pause_count (group_contents group.now) }
    requires lefts { length lefts.now ≡ length (group_contents group.now) }
    requires hits { length hits.old ≡ length (group_contents group.now) }
{
    for (place, (truths, told)) in frames.iter().enumerate() {
        if truths.len() != lefts.len() {
            return Some(place);
        }
        let outcome = step(group, form, order, pauses, truths, lefts, hits);
        if !is_told(outcome, hits, *told) {
            return Some(place);
        }
    }
    None
}

// The same of the group of these conditions.
fn other_frame(
    alloc: Global,
    conditions: &[Condition],
    form: Form,
    order: &[u32],
    pauses: u32,
    lefts: &[u32],
    hits: &mut [u32],
    frames: &[Frame<'_>],
) -> Result<Option<usize>, AllocError>
    requires order { order.now ≡ pass_order conditions.now }
    requires pauses { pauses ≡ pause_count conditions.now }
    requires lefts { length lefts.now ≡ length conditions.now }
    requires hits { length hits.old ≡ length conditions.now }
{
    let group = Group {
        conditions: conditions.to_vec(alloc)?,
    };
    Ok(first_other(&group, form, order, pauses, lefts, hits, frames))
}

const NEITHER: Outcome = Outcome {
    paused: false,
    valid: false,
    primed: false,
    reset: false,
    measured: None,
    from_hits: false,
};

const PAUSED: Outcome = Outcome {
    paused: true,
    valid: false,
    primed: false,
    reset: false,
    measured: None,
    from_hits: false,
};

const VALID: Outcome = Outcome {
    paused: false,
    valid: true,
    primed: true,
    reset: false,
    measured: None,
    from_hits: false,
};

const STOPPED: &[Frame<'static>] = &[
    (&[false, true, true], Told::Valid(false, &[0, 1, 1])),
    (&[true, false, false], Told::Valid(false, &[1, 0, 1])),
    (&[false, true, true], Told::Valid(true, &[1, 1, 2])),
];

#[test]
fn a_reset_next_stops_at_added_hits(rt: HostRuntime) -> Result<(), AllocError> {
    let conditions = [
        with(Flag::ResetNextIf, Op::Eq, 0),
        with(Flag::AddHits, Op::Eq, 0),
        with(Flag::Plain, Op::Eq, 3),
    ];
    let mut hits = [0, 0, 0];
    let other = other_frame(
        rt.alloc(),
        &conditions,
        Form::InTrigger,
        &[0, 1, 2],
        0,
        &[0, 0, 0],
        &mut hits,
        STOPPED,
    )?;
    assert_eq!(rt; other, None);
    Ok(())
}

const PAUSED_BY_HITS: &[Frame<'static>] = &[
    (&[true, true], Told::All(NEITHER, &[1, 1])),
    (&[false, false], Told::All(NEITHER, &[1, 1])),
    (&[true, true], Told::All(PAUSED, &[2, 1])),
    (&[false, false], Told::All(PAUSED, &[2, 1])),
    (&[true, true], Told::All(PAUSED, &[2, 1])),
];

#[test]
fn a_pause_stays_by_its_hits(rt: HostRuntime) -> Result<(), AllocError> {
    let conditions = [with(Flag::PauseIf, Op::Eq, 2), with(Flag::Plain, Op::Eq, 2)];
    let mut hits = [0, 0];
    let other = other_frame(
        rt.alloc(),
        &conditions,
        Form::InTrigger,
        &[0, 1],
        1,
        &[0, 0],
        &mut hits,
        PAUSED_BY_HITS,
    )?;
    assert_eq!(rt; other, None);
    Ok(())
}

const REACHED: &[Frame<'static>] = &[(&[true, true, false], Told::All(VALID, &[3, 1, 0]))];

#[test]
fn a_target_is_reached_by_added_hits_alone(rt: HostRuntime) -> Result<(), AllocError> {
    let conditions = [
        with(Flag::AddHits, Op::Eq, 0),
        with(Flag::ResetNextIf, Op::Eq, 0),
        with(Flag::Plain, Op::Eq, 3),
    ];
    let mut hits = [2, 0, 0];
    let other = other_frame(
        rt.alloc(),
        &conditions,
        Form::InTrigger,
        &[0, 1, 2],
        0,
        &[0, 0, 0],
        &mut hits,
        REACHED,
    )?;
    assert_eq!(rt; other, None);
    Ok(())
}

const NOT_RESET: &[Frame<'static>] = &[(
    &[true, true, true, true],
    Told::All(PAUSED, &[2, 0, 0, 1]),
)];

#[test]
fn a_paused_group_does_not_reset(rt: HostRuntime) -> Result<(), AllocError> {
    let conditions = [
        with(Flag::Plain, Op::Eq, 5),
        with(Flag::ResetIf, Op::Eq, 0),
        with(Flag::Remember, Op::Bare, 0),
        with(Flag::PauseIf, Op::Eq, 0),
    ];
    let mut hits = [2, 0, 0, 0];
    let other = other_frame(
        rt.alloc(),
        &conditions,
        Form::InTrigger,
        &[2, 3, 0, 1],
        2,
        &[0, 0, 0, 0],
        &mut hits,
        NOT_RESET,
    )?;
    assert_eq!(rt; other, None);
    Ok(())
}

// The place of the first frame of a new group that tells otherwise, which measures hits and a left value.
fn other_measured(
    alloc: Global,
    form: Form,
    frames: &[Frame<'_>],
) -> Result<Option<usize>, AllocError> {
    let conditions = [
        with(Flag::Measured, Op::Bare, 0),
        with(Flag::MeasuredPercent, Op::Eq, 0),
        with(Flag::MeasuredIf, Op::Eq, 0),
    ];
    let mut hits = [0, 7, 0];
    other_frame(
        alloc,
        &conditions,
        form,
        &[0, 1, 2],
        0,
        &[4, 9, 1],
        &mut hits,
        frames,
    )
}

// The frame at which hits are the greatest, that at which a left value is, and that at which nothing counts.
const BY_HITS: &[Frame<'static>] = &[(
    &[true, true, true],
    Told::Outcome(Outcome {
        paused: false,
        valid: true,
        primed: true,
        reset: false,
        measured: Some(8),
        from_hits: true,
    }),
)];

const BY_LEFT: &[Frame<'static>] = &[(
    &[true, true, true],
    Told::Outcome(Outcome {
        paused: false,
        valid: true,
        primed: true,
        reset: false,
        measured: Some(9),
        from_hits: false,
    }),
)];

const BY_NOTHING: &[Frame<'static>] = &[(
    &[true, true, false],
    Told::Outcome(Outcome {
        paused: false,
        valid: false,
        primed: false,
        reset: false,
        measured: Some(0),
        from_hits: true,
    }),
)];

#[test]
fn the_greatest_number_is_measured(rt: HostRuntime) -> Result<(), AllocError> {
    let hits = other_measured(rt.alloc(), Form::InValue, BY_HITS)?;
    let left = other_measured(rt.alloc(), Form::InTrigger, BY_LEFT)?;
    let nothing = other_measured(rt.alloc(), Form::InValue, BY_NOTHING)?;
    assert_eq!(rt; (hits, left, nothing), (None, None, None));
    Ok(())
}
