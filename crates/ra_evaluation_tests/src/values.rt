//! Values stepped by hand, from the rules. The pass order of each part is written out.

ghost use Rattle.std.specs.Prelude.{◌≡◌, IfOk, [], ◌∷◌, length};
ghost use Rattle.ra_condition.specs.Contents.{value_contents, value_hits, Legacy, Grouped};
ghost use Rattle.ra_value.specs.Kept.{orders_of, pauses_of};

mod frame;

use crate::given::with;
use crate::values::frame::{Frame, first_other, other_frame};
use ra_condition::{Condition, Flag, Group, Part, ValueText};
use ra_operand::Op;
use ra_text::OutOfMemory;
use ra_value::Value;
use std::alloc::{AllocError, Global};

fn two_terms(alloc: Global) -> Result<ValueText, AllocError>
    ensures { IfOk result (λ text. value_contents text ≡ Legacy [] ∷ Legacy [] ∷ []) }
{
    let mut parts = Vec::new(alloc);
    parts.push(Part::Terms(Vec::new(alloc)))?;
    parts.push(Part::Terms(Vec::new(alloc)))?;
    Ok(ValueText { parts })
}

fn two_groups(
    alloc: Global,
    first: &[Condition],
    second: &[Condition],
) -> Result<ValueText, AllocError>
    ensures { IfOk result (λ text.
        value_contents text ≡ Grouped first.now ∷ Grouped second.now ∷ Legacy [] ∷ []) }
{
    let mut parts = Vec::new(alloc);
    let conditions = first.to_vec(alloc)?;
    parts.push(Part::Conditions(Group { conditions }))?;
    let conditions = second.to_vec(alloc)?;
    parts.push(Part::Conditions(Group { conditions }))?;
    parts.push(Part::Terms(Vec::new(alloc)))?;
    Ok(ValueText { parts })
}

const SIGNED: &[Frame<'static>] = &[
    Frame {
        truths: &[],
        lefts: &[],
        sums: &[5, 4_294_967_295],
        greatest: 5,
        hits: &[],
        kept: &[5, 4_294_967_295],
    },
    Frame {
        truths: &[],
        lefts: &[],
        sums: &[4_294_967_295, 5],
        greatest: 5,
        hits: &[],
        kept: &[4_294_967_295, 5],
    },
    Frame {
        truths: &[],
        lefts: &[],
        sums: &[4_294_967_295, 2_147_483_648],
        greatest: -1,
        hits: &[],
        kept: &[4_294_967_295, 2_147_483_648],
    },
    Frame {
        truths: &[],
        lefts: &[],
        sums: &[2_147_483_648, 2_147_483_648],
        greatest: -2_147_483_648,
        hits: &[],
        kept: &[2_147_483_648, 2_147_483_648],
    },
    Frame {
        truths: &[],
        lefts: &[],
        sums: &[2_147_483_647, 2_147_483_648],
        greatest: 2_147_483_647,
        hits: &[],
        kept: &[2_147_483_647, 2_147_483_648],
    },
];

// The place of the first frame that a value tells otherwise, which is 0 before them, and after them once it is reset.
fn other_signed(value: &mut Value, text: &ValueText) -> Option<usize>
    requires text { value_contents text.now ≡ Legacy [] ∷ Legacy [] ∷ [] }
    requires hits { length value.old.hits ≡ 0 }
    requires numbers { length value.old.numbers ≡ 2 }
{
    if value.greatest() != 0 {
        return Some(0);
    }
    let other = first_other(value, text, &[], &[0, 0], SIGNED);
    value.reset();
    if other.is_none() && value.kept() != [0, 0].as_slice() {
        return Some(SIGNED.len());
    }
    other
}

fn new_other_signed(alloc: Global, text: &ValueText) -> Result<Option<usize>, OutOfMemory>
    requires { value_contents text.now ≡ Legacy [] ∷ Legacy [] ∷ [] }
{
    let mut value = Value::new(alloc, text)?;
    Ok(other_signed(&mut value, text))
}

#[test]
fn the_greatest_is_a_signed_number(rt: HostRuntime) -> Result<(), OutOfMemory> {
    let text = two_terms(rt.alloc())?;
    let other = new_other_signed(rt.alloc(), &text);
    drop(text);
    assert_eq!(rt; other?, None);
    Ok(())
}

const PAUSED: &[Frame<'static>] = &[
    Frame {
        truths: &[true, false, true],
        lefts: &[0, 0, 9],
        sums: &[0, 0, 0],
        greatest: 9,
        hits: &[1, 0, 1],
        kept: &[1, 9, 0],
    },
    Frame {
        truths: &[true, true, true],
        lefts: &[0, 0, 4],
        sums: &[0, 0, 0],
        greatest: 4,
        hits: &[1, 1, 2],
        kept: &[1, 4, 0],
    },
    Frame {
        truths: &[true, false, true],
        lefts: &[0, 0, 4_294_967_293],
        sums: &[0, 0, 0],
        greatest: 2,
        hits: &[2, 1, 3],
        kept: &[2, 4_294_967_293, 0],
    },
    Frame {
        truths: &[false, false, true],
        lefts: &[0, 0, 1],
        sums: &[0, 0, 0],
        greatest: 2,
        hits: &[2, 1, 4],
        kept: &[2, 1, 0],
    },
];

#[test]
fn a_paused_part_keeps_its_number(rt: HostRuntime) -> Result<(), OutOfMemory> {
    let counted = [
        with(Flag::Measured, Op::Eq, 0),
        with(Flag::PauseIf, Op::Eq, 0),
    ];
    let text = two_groups(rt.alloc(), &counted, &[with(Flag::Measured, Op::Bare, 0)])?;
    let other = other_frame(rt.alloc(), &text, &[1, 0, 0], &[1, 0, 0], PAUSED);
    drop(text);
    assert_eq!(rt; other?, None);
    Ok(())
}

const RESET: &[Frame<'static>] = &[
    Frame {
        truths: &[true, false, true],
        lefts: &[6, 0, 0],
        sums: &[0, 0, 7],
        greatest: 7,
        hits: &[1, 0, 5],
        kept: &[6, 5, 7],
    },
    Frame {
        truths: &[true, false, true],
        lefts: &[6, 0, 0],
        sums: &[0, 0, 7],
        greatest: 7,
        hits: &[2, 0, 5],
        kept: &[6, 5, 7],
    },
    Frame {
        truths: &[true, true, true],
        lefts: &[6, 0, 0],
        sums: &[0, 0, 7],
        greatest: 7,
        hits: &[0, 0, 0],
        kept: &[6, 0, 7],
    },
    Frame {
        truths: &[true, false, true],
        lefts: &[6, 0, 0],
        sums: &[0, 0, 7],
        greatest: 7,
        hits: &[1, 0, 1],
        kept: &[6, 1, 7],
    },
];

// The place of the first frame that a value tells otherwise, which takes back numbers before them.
fn other_reset(value: &mut Value, text: &ValueText) -> Option<usize>
    requires orders { 0 ∷ 1 ∷ 0 ∷ [] ≡ orders_of (value_contents text.now) }
    requires pauses { 0 ∷ 0 ∷ 0 ∷ [] ≡ pauses_of (value_contents text.now) }
    requires text { value_hits (value_contents text.now) ≡ 3 }
    requires parts { length (value_contents text.now) ≡ 3 }
    requires hits { length value.old.hits ≡ 3 }
    requires numbers { length value.old.numbers ≡ 3 }
{
    value.put_back(
        &[0, 0, 0, 0, 0, 0, 0, 0, 4, 0, 0, 0],
        &[1, 0, 0, 0, 2, 0, 0, 0, 3, 1, 0, 0],
    );
    if value.greatest() != 259 {
        return Some(0);
    }
    first_other(value, text, &[0, 1, 0], &[0, 0, 0], RESET)
}

fn new_other_reset(alloc: Global, text: &ValueText) -> Result<Option<usize>, OutOfMemory>
    requires orders { 0 ∷ 1 ∷ 0 ∷ [] ≡ orders_of (value_contents text.now) }
    requires pauses { 0 ∷ 0 ∷ 0 ∷ [] ≡ pauses_of (value_contents text.now) }
    requires text { value_hits (value_contents text.now) ≡ 3 }
    requires parts { length (value_contents text.now) ≡ 3 }
{
    let mut value = Value::new(alloc, text)?;
    Ok(other_reset(&mut value, text))
}

#[test]
fn a_reset_clears_all_parts(rt: HostRuntime) -> Result<(), OutOfMemory> {
    let resets = [
        with(Flag::Measured, Op::Bare, 0),
        with(Flag::ResetIf, Op::Eq, 0),
    ];
    let text = two_groups(rt.alloc(), &resets, &[with(Flag::Measured, Op::Eq, 5)])?;
    let other = new_other_reset(rt.alloc(), &text);
    drop(text);
    assert_eq!(rt; other?, None);
    Ok(())
}
