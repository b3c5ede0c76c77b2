//! Names that are looked up.

ghost use Rattle.std.specs.Prelude.{◌≡◌, ◌++◌, ◌≤◌, ◌<◌, ◌^◌, length, option_to_list, ◌↔◌, ℕ, true, false, slice_index, slice_index_or, replicate};
ghost use Rattle.std.specs.Ordering.{is_lt, nat_cmp};
ghost use Rattle.std.specs.Cmp.Lexicographic.{slice_cmp};
ghost use Rattle.ra_progress.specs.Contents.{shape_contents};
ghost use Rattle.ra_progress.specs.Names.{IsOrder, IsRange, IsUsable, names_of, order_in, named_by};

use crate::named::Named;
use crate::shape::Shape;

/// The range of places in the order of such names whose names are this one.
///
/// Both ends are equal where none is.
pub fn matches(shape: &Shape, named: Named, name: &[u8; 16]) -> (u32, u32)
    requires { IsUsable shape.now }
    ensures { IsRange (names_of named (shape_contents shape.now)) (order_in named shape.now) name.now result.0 result.1 }
{
    match named {
        Named::Cell => range(&shape.cells, &None, &shape.cell_order, name),
        Named::Prior => range(&shape.priors, &None, &shape.prior_order, name),
        Named::Entry => range(
            &shape.item_names,
            &shape.presence_name,
            &shape.entry_order,
            name,
        ),
    }
}

/// The order of such names.
pub(crate) fn order_of_names(shape: &Shape, named: Named) -> &[u32]
    ensures { result.now ≡ order_in named shape.now }
{
    match named {
        Named::Cell => &shape.cell_order,
        Named::Prior => &shape.prior_order,
        Named::Entry => &shape.entry_order,
    }
}

/// Gives a value to all.
pub(crate) fn fill_all<T: Copy>(values: &mut Vec<T>, value: T)
    ensures { values.new.items ≡ replicate (length values.old.items) value }
{
    for place in 0..values.len() {
        values[place] = value;
    }
}

/// Gives a value to each number in a range of an order.
pub(crate) fn put_all<T: Copy>(values: &mut Vec<T>, order: &[u32], range: (u32, u32), value: T)
    requires rising { range.0 ≤ range.1 }
    requires most { range.1 ≤ length order.now }
    requires numbers { (k : ℕ) → k < length order.now → slice_index order.now k < length values.old.items }
    ensures long { length values.new.items ≡ length values.old.items }
    ensures there { (k : ℕ) (d : T) → range.0 ≤ k → k < range.1 → slice_index_or values.new.items (slice_index order.now k) d ≡ value }
    ensures kept { (n : ℕ) (d : T) → ((k : ℕ) → range.0 ≤ k → k < range.1 → slice_index order.now k ≡ n → ⊥) → slice_index_or values.new.items n d ≡ slice_index_or values.old.items n d }
{
    for place in range.0..range.1 {
        values[order[place as usize] as usize] = value;
    }
}

// The range of a name in an order of names, and of one more where there is one.
fn range(names: &[[u8; 16]], last: &Option<[u8; 16]>, order: &[u32], name: &[u8; 16]) -> (u32, u32)
    requires order { IsOrder (names.now ++ option_to_list last.now) order.now }
    requires few { length order.now < 2 ^ 32 }
    ensures { IsRange (names.now ++ option_to_list last.now) order.now name.now result.0 result.1 }
{
    let from = first_not_before(names, last, order, name);
    let to = first_behind(names, last, order, name);
    (from as u32, to as u32)
}

// The name of a number.
fn name_of(names: &[[u8; 16]], last: &Option<[u8; 16]>, number: u32) -> [u8; 16]
    requires { number < length (names.now ++ option_to_list last.now) }
    ensures { result ≡ named_by (names.now ++ option_to_list last.now) number }
{
    match names.get(number as usize) {
        Some(name) => *name,
        None => last.unwrap_or([0; 16]),
    }
}

// The first place whose name does not stand before this one.
fn first_not_before(
    names: &[[u8; 16]],
    last: &Option<[u8; 16]>,
    order: &[u32],
    name: &[u8; 16],
) -> usize
    requires order { IsOrder (names.now ++ option_to_list last.now) order.now }
    ensures most { result ≤ length order.now }
    ensures before { (k : ℕ) → k < result → is_lt (slice_cmp nat_cmp (named_by (names.now ++ option_to_list last.now) (slice_index order.now k)) name.now) ≡ true }
    ensures behind { (k : ℕ) → result ≤ k → k < length order.now → is_lt (slice_cmp nat_cmp (named_by (names.now ++ option_to_list last.now) (slice_index order.now k)) name.now) ≡ false }
{
    let mut low = 0;
    let mut high = order.len();
    while low < high {
        let middle = low + (high - low) / 2;
        if name_of(names, last, order[middle]).cmp(name).is_lt() {
            low = middle + 1;
        } else {
            high = middle;
        }
    }
    low
}

// The first place whose name comes after this one.
fn first_behind(
    names: &[[u8; 16]],
    last: &Option<[u8; 16]>,
    order: &[u32],
    name: &[u8; 16],
) -> usize
    requires order { IsOrder (names.now ++ option_to_list last.now) order.now }
    ensures most { result ≤ length order.now }
    ensures before { (k : ℕ) → k < result → is_lt (slice_cmp nat_cmp name.now (named_by (names.now ++ option_to_list last.now) (slice_index order.now k))) ≡ false }
    ensures behind { (k : ℕ) → result ≤ k → k < length order.now → is_lt (slice_cmp nat_cmp name.now (named_by (names.now ++ option_to_list last.now) (slice_index order.now k))) ≡ true }
{
    let mut low = 0;
    let mut high = order.len();
    while low < high {
        let middle = low + (high - low) / 2;
        if name.cmp(&name_of(names, last, order[middle])).is_lt() {
            high = middle;
        } else {
            low = middle + 1;
        }
    }
    low
}
