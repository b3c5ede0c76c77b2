//! What a progress file says of cells and tracked masks.

ghost use Rattle.std.specs.Prelude.{◌≡◌, ◌+◌, ◌*◌, ◌≤◌, length as length_of_list, map};
ghost use Rattle.ra_progress.specs.Contents.{shape_contents};
ghost use Rattle.ra_progress.specs.Layout as layout;
ghost use Rattle.ra_progress.specs.Names.{IsUsable, names_of};
ghost use Rattle.ra_progress.specs.Reading as reading;
ghost use Rattle.ra_progress.specs.Room.{IsToldOwn};
ghost use Rattle.ra_progress.specs.Saying as spec;

use crate::layout::{cell_count, prior_count};
use crate::named::Named;
use crate::names::name_at;
use crate::numbered::Numbered;
use crate::range::{fill_all, matches, order_of_names, put_all};
use crate::shape::Shape;
use ra_text::{read_words, word_at};

/// Takes up the number that the bytes say of each cell. `own` tells whether a file with names is of this set.
pub(crate) fn read_cells(numbers: &mut Vec<u32>, shape: &Shape, bytes: &[u8], own: bool)
    requires usable { IsUsable shape.now }
    requires accepted { reading.IsAccepted (shape_contents shape.now) bytes.now }
    requires own { IsToldOwn shape.now bytes.now own }
    requires room { length_of_list numbers.old.items ≡ length_of_list shape.now.cells.items }
    ensures says { numbers.new.items
        ≡ spec.said_numbers (shape_contents shape.now) bytes.now 29 shape.now.cells.items (layout.cells_in bytes.now) }
    ensures long { length_of_list numbers.new.items ≡ length_of_list numbers.old.items }
{
    if bytes[4] == 1 {
        read_words(numbers, bytes, 29);
    } else if own {
        read_numbers(numbers, bytes, 33);
    } else {
        let entries = Numbered {
            bytes,
            at: 33,
            count: cell_count(bytes),
        };
        read_named(numbers, shape, Named::Cell, &entries);
    }
}

/// The same of each tracked mask.
pub(crate) fn read_priors(numbers: &mut Vec<u32>, shape: &Shape, bytes: &[u8], own: bool)
    requires usable { IsUsable shape.now }
    requires accepted { reading.IsAccepted (shape_contents shape.now) bytes.now }
    requires own { IsToldOwn shape.now bytes.now own }
    requires room { length_of_list numbers.old.items ≡ length_of_list shape.now.priors.items }
    ensures says { numbers.new.items
        ≡ spec.said_numbers (shape_contents shape.now) bytes.now (29 + 4 * length_of_list shape.now.cells.items) shape.now.priors.items (layout.priors_in bytes.now) }
    ensures long { length_of_list numbers.new.items ≡ length_of_list numbers.old.items }
{
    if bytes[4] == 1 {
        read_words(numbers, bytes, 29 + 4 * shape.cells.len() as u64);
    } else {
        let at = 37 + 20 * u64::from(cell_count(bytes));
        if own {
            read_numbers(numbers, bytes, at);
        } else {
            let entries = Numbered {
                bytes,
                at,
                count: prior_count(bytes),
            };
            read_named(numbers, shape, Named::Prior, &entries);
        }
    }
}

/// Takes up the numbers of names with their numbers, from a place on, as many as there are numbers.
fn read_numbers(numbers: &mut [u32], bytes: &[u8], at: u64)
    requires { at + 20 * length_of_list numbers.old ≤ length_of_list bytes.now }
    ensures { numbers.new ≡ map (λ n. n.number) (layout.numbered_at bytes.now at (length_of_list numbers.old)) }
{
    for place in 0..numbers.len() {
        numbers[place] = word_at(bytes, at + 20 * place as u64 + 16);
    }
}

/// Takes up the number of the last entry of each name of the shape.
fn read_named(numbers: &mut Vec<u32>, shape: &Shape, named: Named, entries: &Numbered<'_>)
    requires usable { IsUsable shape.now }
    requires room { length_of_list numbers.old.items ≡ length_of_list (names_of named (shape_contents shape.now)) }
    requires within { entries.now.at + 20 * entries.now.count ≤ length_of_list entries.now.bytes.now }
    ensures { numbers.new.items ≡ map (λ name. spec.last_number name
        (layout.numbered_at entries.now.bytes.now entries.now.at entries.now.count) 0) (names_of named (shape_contents shape.now)) }
{
    fill_all(numbers, 0);
    let order = order_of_names(shape, named);
    for k in 0..entries.count {
        let place = entries.at + 20 * u64::from(k);
        let range = matches(shape, named, &name_at(entries.bytes, place));
        put_all(numbers, order, range, word_at(entries.bytes, place + 16));
    }
}
