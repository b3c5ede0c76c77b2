//! Triggers stepped by hand, from the rules. The pass order of each group is written out.

ghost use Rattle.std.specs.Prelude.{◌≡◌, ◌*◌, IfOk, [], ◌∷◌, length};
ghost use Rattle.ra_condition.specs.Contents.{trigger_contents, trigger_hits};
ghost use Rattle.ra_trigger.specs.Kept.{orders_of, pauses_of};

mod told;

use crate::given::with;
use crate::triggers::told::{Told, first_other, other_frame};
use ra_condition::{Condition, Flag, Group, TriggerText};
use ra_operand::Op;
use ra_text::OutOfMemory;
use ra_trigger::{State, Trigger};
use std::alloc::{AllocError, Global};

fn core_alone(alloc: Global, core: &[Condition]) -> Result<TriggerText, AllocError>
    ensures { IfOk result (λ text. trigger_contents text ≡ record { core = core.now; alts = [] }) }
{
    Ok(TriggerText {
        core: Group {
            conditions: core.to_vec(alloc)?,
        },
        alts: Vec::new(alloc),
    })
}

fn with_alt(alloc: Global, core: &[Condition], alt: &[Condition]) -> Result<TriggerText, AllocError>
    ensures { IfOk result (λ text. trigger_contents text ≡ record { core = core.now; alts = alt.now ∷ [] }) }
{
    let mut alts = Vec::new(alloc);
    alts.push(Group {
        conditions: alt.to_vec(alloc)?,
    })?;
    Ok(TriggerText {
        core: Group {
            conditions: core.to_vec(alloc)?,
        },
        alts,
    })
}

// The place of the first frame of a new trigger of a core group alone that tells otherwise.
fn other_of_core(
    alloc: Global,
    core: &[Condition],
    orders: &[u32],
    pauses: &[u32],
    lefts: &[u32],
    frames: &[(&[bool], Told<'_>)],
) -> Result<Option<usize>, OutOfMemory>
    requires orders { orders.now ≡ orders_of (record { core = core.now; alts = [] }) }
    requires pauses { pauses.now ≡ pauses_of (record { core = core.now; alts = [] }) }
    requires lefts { length lefts.now ≡ trigger_hits (record { core = core.now; alts = [] }) }
{
    let text = core_alone(alloc, core)?;
    other_frame(alloc, &text, orders, pauses, lefts, frames)
}

// The place of the first frame of a new trigger of a core group and an alt group that tells otherwise.
fn other_with_alt(
    alloc: Global,
    core: &[Condition],
    alt: &[Condition],
    orders: &[u32],
    pauses: &[u32],
    lefts: &[u32],
    frames: &[(&[bool], Told<'_>)],
) -> Result<Option<usize>, OutOfMemory>
    requires orders { orders.now ≡ orders_of (record { core = core.now; alts = alt.now ∷ [] }) }
    requires pauses { pauses.now ≡ pauses_of (record { core = core.now; alts = alt.now ∷ [] }) }
    requires lefts { length lefts.now ≡ trigger_hits (record { core = core.now; alts = alt.now ∷ [] }) }
{
    let text = with_alt(alloc, core, alt)?;
    other_frame(alloc, &text, orders, pauses, lefts, frames)
}

const PAUSED_BY_HITS: &[(&'static [bool], Told<'static>)] = &[
    (&[true, true], Told::Hits(State::Active, &[1, 1])),
    (&[false, false], Told::Hits(State::Active, &[1, 1])),
    (&[true, true], Told::Hits(State::Paused, &[2, 1])),
    (&[false, false], Told::Hits(State::Paused, &[2, 1])),
    (&[true, true], Told::Hits(State::Paused, &[2, 1])),
];

#[test]
fn a_pause_stays_by_its_hits(rt: HostRuntime) -> Result<(), OutOfMemory> {
    let core = [with(Flag::PauseIf, Op::Eq, 2), with(Flag::Plain, Op::Eq, 2)];
    let other = other_of_core(rt.alloc(), &core, &[0, 1], &[1], &[0, 0], PAUSED_BY_HITS)?;
    assert_eq!(rt; other, None);
    Ok(())
}

const RESET_BY_ALT: &[(&'static [bool], Told<'static>)] = &[
    (&[true, false], Told::Hits(State::Active, &[1, 0])),
    (&[true, false], Told::Hits(State::Active, &[2, 0])),
    (&[true, true], Told::Hits(State::Active, &[0, 0])),
    (&[true, false], Told::Hits(State::Active, &[1, 0])),
    (&[true, false], Told::Hits(State::Active, &[2, 0])),
    (&[true, false], Told::Hits(State::Triggered, &[3, 0])),
    (&[true, true], Told::Hits(State::Triggered, &[3, 0])),
];

#[test]
fn an_alt_resets_the_core(rt: HostRuntime) -> Result<(), OutOfMemory> {
    let (core, alt) = (
        [with(Flag::Plain, Op::Eq, 3)],
        [with(Flag::ResetIf, Op::Eq, 0)],
    );
    let other = other_with_alt(
        rt.alloc(),
        &core,
        &alt,
        &[0, 0],
        &[0, 0],
        &[0, 0],
        RESET_BY_ALT,
    )?;
    assert_eq!(rt; other, None);
    Ok(())
}

const MEASURED: &[(&'static [bool], Told<'static>)] = &[
    (
        &[true, true, false],
        Told::Measured(State::Active, Some(1), 1),
    ),
    (
        &[true, false, false],
        Told::Measured(State::Active, Some(0), 0),
    ),
    (
        &[true, true, false],
        Told::Measured(State::Active, Some(3), 3),
    ),
    (&[true, true, true], Told::Measured(State::Paused, None, 3)),
    (
        &[true, true, false],
        Told::Measured(State::Triggered, Some(4), 4),
    ),
    (
        &[true, true, false],
        Told::Measured(State::Triggered, None, 4),
    ),
];

#[test]
fn a_paused_trigger_keeps_its_number(rt: HostRuntime) -> Result<(), OutOfMemory> {
    let core = [
        with(Flag::Measured, Op::Eq, 4),
        with(Flag::MeasuredIf, Op::Eq, 0),
        with(Flag::PauseIf, Op::Eq, 0),
    ];
    let other = other_of_core(rt.alloc(), &core, &[2, 0, 1], &[1], &[0, 0, 0], MEASURED)?;
    assert_eq!(rt; other, None);
    Ok(())
}

const FOLLOWING: &[(&'static [bool], Told<'static>)] = &[
    (&[true, true], Told::States(State::Waiting, State::Waiting)),
    (&[true, true], Told::States(State::Waiting, State::Waiting)),
    (&[false, false], Told::States(State::Waiting, State::Active)),
    (&[false, true], Told::States(State::Active, State::Primed)),
    (&[false, false], Told::States(State::Primed, State::Active)),
    (&[false, true], Told::States(State::Active, State::Primed)),
    (&[true, true], Told::States(State::Primed, State::Triggered)),
];

#[test]
fn states_follow_one_another(rt: HostRuntime) -> Result<(), OutOfMemory> {
    let core = [
        with(Flag::TriggerIf, Op::Eq, 0),
        with(Flag::Plain, Op::Eq, 0),
    ];
    let other = other_of_core(rt.alloc(), &core, &[0, 1], &[0], &[0, 0], FOLLOWING)?;
    assert_eq!(rt; other, None);
    Ok(())
}

// The kept hits of three conditions, the last the greatest number that there is.
const KEPT: [u8; 12] = [7, 0, 0, 0, 0, 0, 0, 0, 255, 255, 255, 255];

const PAST_THE_TARGET: &[(&'static [bool], Told<'static>)] = &[(
    &[true, false, true],
    Told::Hits(State::Active, &[8, 0, 4_294_967_295]),
)];

// Whether a trigger that takes them back has its number, and then steps so.
fn passes_target(trigger: &mut Trigger, text: &TriggerText) -> bool
    requires orders { 0 ∷ 0 ∷ 1 ∷ [] ≡ orders_of (trigger_contents text.now) }
    requires pauses { 0 ∷ 0 ∷ [] ≡ pauses_of (trigger_contents text.now) }
    requires text { trigger_hits (trigger_contents text.now) ≡ 3 }
    requires hits { length trigger.old.hits ≡ 3 }
{
    trigger.put_back(State::Active, 9, &KEPT);
    trigger.measured() == 9
        && first_other(
            trigger,
            text,
            &[0, 0, 1],
            &[0, 0],
            &[0, 0, 0],
            PAST_THE_TARGET,
        )
        .is_none()
}

fn new_passes_target(alloc: Global, text: &TriggerText) -> Result<bool, OutOfMemory>
    requires orders { 0 ∷ 0 ∷ 1 ∷ [] ≡ orders_of (trigger_contents text.now) }
    requires pauses { 0 ∷ 0 ∷ [] ≡ pauses_of (trigger_contents text.now) }
    requires text { trigger_hits (trigger_contents text.now) ≡ 3 }
{
    let mut trigger = Trigger::new(alloc, text)?;
    Ok(passes_target(&mut trigger, text))
}

#[test]
fn kept_hits_may_pass_the_target(rt: HostRuntime) -> Result<(), OutOfMemory> {
    let alt = [with(Flag::Plain, Op::Eq, 0), with(Flag::Plain, Op::Eq, 2)];
    let text = with_alt(rt.alloc(), &[with(Flag::Plain, Op::Eq, 0)], &alt)?;
    let passes = new_passes_target(rt.alloc(), &text)?;
    drop(text);
    assert!(rt; passes);
    Ok(())
}

const WITHOUT_STATES: &[(&'static [bool], Told<'static>)] = &[
    (&[true, false], Told::Truth(false, &[1, 0])),
    (&[true, false], Told::Truth(true, &[2, 0])),
    (&[true, false], Told::Truth(true, &[2, 0])),
    (&[true, true], Told::Truth(false, &[0, 0])),
    (&[true, false], Told::Truth(false, &[1, 0])),
];

#[test]
fn a_trigger_without_states_is_false_on_a_reset(rt: HostRuntime) -> Result<(), OutOfMemory> {
    let core = [with(Flag::Plain, Op::Eq, 2), with(Flag::ResetIf, Op::Eq, 0)];
    let other = other_of_core(rt.alloc(), &core, &[0, 1], &[0], &[0, 0], WITHOUT_STATES)?;
    assert_eq!(rt; other, None);
    Ok(())
}
