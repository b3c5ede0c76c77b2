ghost use Rattle.std.specs.Prelude.{◌≡◌, ◌+◌, ◌*◌, ◌<◌, ◌≤◌, [], length, map, slice_index_or, IfOk};
ghost use Rattle.std.specs.List.{AllByRecursion, range_with_len};
ghost use Rattle.ra_explain.specs.RowLists.{row_at};
ghost use Rattle.ra_explain.specs.OrderedRows.{LiesWithin};

use ra_text::OutOfMemory;
use std::alloc::Global;
use std::marker::Model;

/// The rows of a history, the oldest first, which stand in any order in a longer list.
#[derive(Drop)]
pub(crate) struct OrderedRows<'a> {
    width: usize,
    truths: &'a [bool],
    // the index of each row
    order: Vec<u32>,
}

impl<'a> Model for OrderedRows<'a> {
    ghost use Rattle.std.specs.Prelude.{Bool, List, map};
    ghost use Rattle.std.specs.List.{AllByRecursion};
    ghost use Rattle.ra_explain.specs.OrderedRows.{LiesWithin};
    ghost use Rattle.ra_explain.specs.RowLists.{row_at};

    ghost Value = { List (List Bool) };

    ghost view = { λ rows. map (row_at rows.width rows.truths.now) rows.order.items };

    ghost invariant = { λ rows. AllByRecursion (LiesWithin rows.width rows.truths.now) rows.order.items };
}

impl<'a> OrderedRows<'a> {
    // The rows of these indices, of this many comparisons each.
    pub(crate) fn new(width: usize, truths: &'a [bool], order: Vec<u32>) -> OrderedRows<'a>
        requires { AllByRecursion (LiesWithin width truths.now) order.items }
        ensures { result ≡ map (row_at width truths.now) order.items }
    {
        OrderedRows {
            width,
            truths,
            order,
        }
    }

    // All rows of a list, in its order.
    pub(crate) fn all(
        alloc: Global,
        width: usize,
        truths: &'a [bool],
        last: u32,
    ) -> Result<OrderedRows<'a>, OutOfMemory>
        requires { length truths.now ≡ (last + 1) * width }
        ensures { IfOk result (λ rows. rows ≡ map (row_at width truths.now) (range_with_len 0 (last + 1))) }
    {
        let mut order = Vec::new(alloc);
        for index in 0..last as usize + 1 {
            order.push(index as u32)?;
        }
        Ok(OrderedRows::new(width, truths, order))
    }

    // The comparisons of the row of a place.
    pub(crate) fn row(&self, place: usize) -> &[bool]
        requires { place < length self.now }
        ensures { result.now ≡ slice_index_or self.now place [] }
    {
        let from = self.order[place] as usize * self.width;
        &self.truths[from..from + self.width]
    }
}
