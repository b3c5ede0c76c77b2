//! Where the blocks of own entries stand in a file.

ghost use Rattle.std.specs.Prelude.{◌≡◌, ◌+◌, length, map, Some, None, true, false};
ghost use Rattle.ra_progress.specs.Contents.{shape_contents, own_entries};
ghost use Rattle.ra_progress.specs.Layout as layout;
ghost use Rattle.ra_progress.specs.Names.{IsUsable};
ghost use Rattle.ra_progress.specs.Reading as reading;
ghost use Rattle.ra_progress.specs.Room.{IsToldOwn};
ghost use Rattle.ra_progress.specs.Saying as spec;

use crate::layout::{entry_after, entry_count, first_entry};
use crate::named::Named;
use crate::names::name_at;
use crate::own::{block_length, own_shape};
use crate::places::blocks_at_1;
use crate::range::{fill_all, matches, put_all};
use crate::shape::Shape;

/// Takes up where the block of each own entry stands, where there is one. `own` tells whether a file with names is of
/// this set.
pub(crate) fn read_places(places: &mut Vec<Option<u64>>, shape: &Shape, bytes: &[u8], own: bool)
    requires usable { IsUsable shape.now }
    requires accepted { reading.IsAccepted (shape_contents shape.now) bytes.now }
    requires own { IsToldOwn shape.now bytes.now own }
    requires room { length places.old.items ≡ length (own_entries (shape_contents shape.now)) }
    ensures { places.new.items ≡ spec.own_places (shape_contents shape.now) bytes.now }
{
    if bytes[4] == 1 {
        places_1(places, shape);
    } else if own {
        places_beside(places, bytes);
    } else {
        places_named(places, shape, bytes);
    }
}

/// Takes up the places of the blocks in version 1.
fn places_1(places: &mut [Option<u64>], shape: &Shape)
    requires usable { IsUsable shape.now }
    requires room { length places.old ≡ length (own_entries (shape_contents shape.now)) }
    ensures { places.new
        ≡ map (λ block. Some block.at) (reading.blocks_from (layout.blocks_at_1 (shape_contents shape.now)) (own_entries (shape_contents shape.now))) }
{
    let mut at = blocks_at_1(shape);
    for number in 0..places.len() {
        places[number] = Some(at);
        at += block_length(own_shape(shape, number as u32));
    }
}

/// Takes up the places of the blocks of a file's entries, in their order; there is a place for each.
fn places_beside(places: &mut [Option<u64>], bytes: &[u8])
    requires layout { reading.HasLayout bytes.now }
    requires room { length places.old ≡ layout.entry_count bytes.now }
    ensures { places.new ≡ map (λ entry. Some (entry.at + 20)) (layout.entries_in bytes.now) }
{
    let mut at = first_entry(bytes);
    for number in 0..places.len() {
        places[number] = Some(at + 20);
        at = entry_after(bytes, at);
    }
}

/// Takes up the place of the block of the last entry of each own name.
fn places_named(places: &mut Vec<Option<u64>>, shape: &Shape, bytes: &[u8])
    requires usable { IsUsable shape.now }
    requires layout { reading.HasLayout bytes.now }
    requires room { length places.old.items ≡ length (own_entries (shape_contents shape.now)) }
    ensures { places.new.items
        ≡ map (λ own. spec.last_block own.name (layout.entries_in bytes.now) None) (own_entries (shape_contents shape.now)) }
{
    fill_all(places, None);
    let mut at = first_entry(bytes);
    let mut left = entry_count(bytes);
    while left > 0 {
        let range = matches(shape, Named::Entry, &name_at(bytes, at));
        put_all(places, &shape.entry_order, range, Some(at + 20));
        at = entry_after(bytes, at);
        left -= 1;
    }
}
