//! The first state byte or shown index that is not in its table.

ghost use Rattle.std.specs.Prelude.{◌≡◌, ◌+◌, ◌<◌, ◌≤◌, length, None, true};
ghost use Rattle.ra_progress.specs.Contents.{OfItem, OfPresence, shape_contents, own_entries, entry_shape};
ghost use Rattle.ra_progress.specs.Layout as layout;
ghost use Rattle.ra_progress.specs.Names.{IsUsable};
ghost use Rattle.ra_progress.specs.Reading as spec;

use crate::entries::{own_in_order, own_range};
use crate::layout::{entry_after, entry_count, first_entry};
use crate::names::name_at;
use crate::own::{OwnShape, block_length, own_count, own_shape};
use crate::places::blocks_at_1;
use crate::refused::ProgressRefused;
use crate::shape::{ItemShape, Shape};
use ra_text::word_at;

/// The refusal of a block whose state byte or shown index is not in its table.
pub(crate) fn bad_state(bytes: &[u8], own: OwnShape, at: u64) -> Option<ProgressRefused>
    requires versioned { 4 < length bytes.now }
    requires within { at + layout.block_length (entry_shape own) ≤ length bytes.now }
    ensures { result ≡ spec.bad_state bytes.now (record { at = at; shape = entry_shape own }) }
{
    match own {
        OwnShape::Item(item) => {
            let state = bytes[at as usize];
            if is_state(bytes[4], item, state) {
                None
            } else {
                Some(ProgressRefused::BadState {
                    at,
                    found: u32::from(state),
                })
            }
        }
        OwnShape::Presence(p) => {
            let found = word_at(bytes, at);
            if found < p.lines {
                None
            } else {
                Some(ProgressRefused::BadState { at, found })
            }
        }
    }
}

/// Whether the state byte of an item is in the table of a version.
fn is_state(version: u8, item: ItemShape, state: u8) -> bool
    ensures { result ≡ spec.is_state version item state }
{
    match item {
        ItemShape::Achievement { hits: _ } => {
            if version == 3 {
                state < 4 || (8 <= state && state < 13)
            } else {
                state < 5
            }
        }
        ItemShape::Leaderboard { hits: _, parts: _ } => state < 5,
    }
}

/// The first bad block of a file in version 1.
pub(crate) fn bad_state_1(shape: &Shape, bytes: &[u8]) -> Option<ProgressRefused>
    requires usable { IsUsable shape.now }
    requires long { length bytes.now ≡ layout.length_1_of (shape_contents shape.now) }
    ensures { result ≡ spec.bad_states bytes.now
        (spec.blocks_from (layout.blocks_at_1 (shape_contents shape.now)) (own_entries (shape_contents shape.now))) }
{
    let mut at = blocks_at_1(shape);
    for number in 0..own_count(shape) {
        let own = own_shape(shape, number);
        if let Some(refused) = bad_state(bytes, own, at) {
            return Some(refused);
        }
        at += block_length(own);
    }
    None
}

/// The first bad block of a file of this set with names.
pub(crate) fn bad_state_beside(shape: &Shape, bytes: &[u8]) -> Option<ProgressRefused>
    requires usable { IsUsable shape.now }
    requires layout { spec.HasLayout bytes.now }
    requires sized { spec.have_sizes (own_entries (shape_contents shape.now)) (layout.entries_in bytes.now) ≡ true }
    ensures { result ≡ spec.bad_states bytes.now
        (spec.blocks_beside (own_entries (shape_contents shape.now)) (layout.entries_in bytes.now)) }
{
    let mut at = first_entry(bytes);
    for number in 0..own_count(shape) {
        if let Some(refused) = bad_state(bytes, own_shape(shape, number), at + 20) {
            return Some(refused);
        }
        at = entry_after(bytes, at);
    }
    None
}

/// The first bad block of another file, whose entries are read by their names.
pub(crate) fn bad_state_named(shape: &Shape, bytes: &[u8]) -> Option<ProgressRefused>
    requires usable { IsUsable shape.now }
    requires layout { spec.HasLayout bytes.now }
    requires sized { spec.bad_entries (own_entries (shape_contents shape.now)) (layout.entries_in bytes.now) ≡ None }
    ensures { result ≡ spec.bad_states bytes.now
        (spec.blocks_named (own_entries (shape_contents shape.now)) (layout.entries_in bytes.now)) }
{
    let mut at = first_entry(bytes);
    let mut left = entry_count(bytes);
    while left > 0 {
        if let Some(refused) = bad_state_of_entry(shape, bytes, at) {
            return Some(refused);
        }
        at = entry_after(bytes, at);
        left -= 1;
    }
    None
}

/// The refusal of the block of the entry at a place, read as each own entry of its name.
fn bad_state_of_entry(shape: &Shape, bytes: &[u8], at: u64) -> Option<ProgressRefused>
    requires usable { IsUsable shape.now }
    requires versioned { 4 < length bytes.now }
    requires within { layout.entry_after bytes.now at ≤ length bytes.now }
    requires sized { spec.bad_entry (own_entries (shape_contents shape.now)) (layout.entry_at bytes.now at) ≡ None }
    ensures { result ≡ spec.bad_states bytes.now
        (spec.blocks_of_entry (own_entries (shape_contents shape.now)) (layout.entry_at bytes.now at)) }
{
    let (from, to) = own_range(shape, &name_at(bytes, at));
    for place in from..to {
        if let Some(refused) = bad_state(bytes, own_in_order(shape, place), at + 20) {
            return Some(refused);
        }
    }
    None
}
