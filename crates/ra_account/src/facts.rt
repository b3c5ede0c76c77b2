ghost use Rattle.std.specs.Prelude.{◌≡◌};
ghost use Rattle.ra_operand.specs.Views.{width_of};
ghost use Rattle.ra_account.specs.Facts.{bytes_of, past_memory, is_live, facts_by, wanted_by};

use ra_condition::Condition;
use ra_group::Standing;
use ra_operand::{Operand, Size};

/// What a frame shows of a condition: docs/DEFINITIONS.md, "Account of an achievement".
#[derive(Clone, Copy, Debug, PartialEq, Eq)]
pub struct Facts {
    /// It counts.
    pub counts: bool,
    /// Its hits with those that its chain adds where it is live, else 0.
    pub total: u32,
    /// An operand of it is past memory.
    pub past: bool,
    /// The value of its left side.
    pub left: u32,
    /// The value of its right side.
    pub right: u32,
}

// What a group is at a frame for one of its conditions: whether the group is paused, whether the condition stands in a
// pause chain, the value of its pointer, and the size of the memory.
#[derive(Clone, Copy)]
pub(crate) struct Around {
    pub paused: bool,
    pub in_pause_chain: bool,
    pub pointer: u32,
    pub size: u32,
}

// How many bytes a size looks at.
fn bytes(size: Size) -> u32
    ensures { result ≡ bytes_of size }
{
    match size {
        Size::Two | Size::TwoBig => 2,
        Size::Three | Size::ThreeBig => 3,
        Size::Four | Size::FourBig => 4,
        _ => 1,
    }
}

// Whether an operand is past a memory of this many bytes, by the value of its pointer.
fn is_past(operand: Operand, pointer: u32, memory: u32) -> bool
    ensures { result ≡ past_memory operand pointer memory }
{
    match operand {
        Operand::Cell(_, size, address) => {
            let place = address.wrapping_add(pointer);
            u64::from(memory) < u64::from(place) + u64::from(bytes(size))
        }
        _ => false,
    }
}

// What a frame shows of a condition, by how it stands and the values of its sides.
#[inline(always)]
pub(crate) fn facts_of(
    condition: &Condition,
    standing: Standing,
    around: Around,
    left: u32,
    right: u32,
) -> Facts
    ensures { result ≡ facts_by condition.now standing around left right }
{
    let live = !condition.flag.hands_on() && (!around.paused || around.in_pause_chain);
    let past = is_past(condition.left, around.pointer, around.size)
        || is_past(condition.right, around.pointer, around.size);
    Facts {
        counts: live && (standing.met && !standing.reset),
        total: if live { standing.total } else { 0 },
        past,
        left,
        right,
    }
}

// Whether a frame wants a condition, by whether its group is paused and the condition is valid.
pub(crate) fn is_wanted(condition: &Condition, paused: bool, valid: bool) -> bool
    ensures { result ≡ wanted_by condition.now.flag paused valid }
{
    condition.flag.is_required() && (paused || !valid) || condition.flag.is_pause() && valid
}
