ghost use Rattle.std.specs.Prelude.{◌≡◌, length};
ghost use Rattle.ra_condition.specs.Contents.{value_contents, value_hits};
ghost use Rattle.ra_value.specs.Kept.{orders_of, pauses_of};

use ra_condition::ValueText;
use ra_text::OutOfMemory;
use ra_value::Value;
use std::alloc::Global;

/// A frame of a value, and what it has to tell.
#[derive(Clone, Copy)]
pub(crate) struct Frame<'a> {
    /// The truths of its conditions.
    pub(crate) truths: &'a [bool],
    /// Their left values.
    pub(crate) lefts: &'a [u32],
    /// The legacy sum of each part.
    pub(crate) sums: &'a [u32],
    /// The greatest number.
    pub(crate) greatest: i32,
    /// All hits.
    pub(crate) hits: &'a [u32],
    /// The number of each part.
    pub(crate) kept: &'a [u32],
}

impl Frame<'_> {
    ghost use Rattle.std.specs.Prelude.{◌≡◌, length};
    ghost use Rattle.ra_condition.specs.Contents.{value_contents, value_hits};
    ghost use Rattle.ra_value.specs.Kept.{orders_of, pauses_of};

    // Whether a value tells that.
    fn is_told(&self, value: &mut Value, text: &ValueText, orders: &[u32], pauses: &[u32]) -> bool
        requires orders { orders.now ≡ orders_of (value_contents text.now) }
        requires pauses { pauses.now ≡ pauses_of (value_contents text.now) }
        requires hits { length value.old.hits ≡ value_hits (value_contents text.now) }
        requires numbers { length value.old.numbers ≡ length (value_contents text.now) }
        ensures hits { length value.new.hits ≡ length value.old.hits }
        ensures numbers { length value.new.numbers ≡ length value.old.numbers }
    {
        let (hits, numbers) = (value.hits().len(), value.kept().len());
        if self.truths.len() != hits || self.lefts.len() != hits || self.sums.len() != numbers {
            return false;
        }
        let greatest = value.step(text, orders, pauses, self.truths, self.lefts, self.sums);
        greatest == self.greatest
            && value.greatest() == self.greatest
            && value.hits() == self.hits
            && value.kept() == self.kept
    }
}

/// The place of the first frame that a value tells otherwise.
pub(crate) fn first_other(
    value: &mut Value,
    text: &ValueText,
    orders: &[u32],
    pauses: &[u32],
    frames: &[Frame<'_>],
) -> Option<usize>
    requires orders { orders.now ≡ orders_of (value_contents text.now) }
    requires pauses { pauses.now ≡ pauses_of (value_contents text.now) }
    requires hits { length value.old.hits ≡ value_hits (value_contents text.now) }
    requires numbers { length value.old.numbers ≡ length (value_contents text.now) }
{
    for (place, frame) in frames.iter().enumerate() {
        if !frame.is_told(value, text, orders, pauses) {
            return Some(place);
        }
    }
    None
}

/// The place of the first frame that a new value tells otherwise.
pub(crate) fn other_frame(
    alloc: Global,
    text: &ValueText,
    orders: &[u32],
    pauses: &[u32],
    frames: &[Frame<'_>],
) -> Result<Option<usize>, OutOfMemory>
    requires orders { orders.now ≡ orders_of (value_contents text.now) }
    requires pauses { pauses.now ≡ pauses_of (value_contents text.now) }
{
    let mut value = Value::new(alloc, text)?;
    Ok(first_other(&mut value, text, orders, pauses, frames))
}
