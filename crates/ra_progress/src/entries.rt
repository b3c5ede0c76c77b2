//! Entries whose name the set writes too.

ghost use Rattle.std.specs.Prelude.{◌≡◌, ◌+◌, ◌-◌, ◌==◌, ◌≤◌, ◌<◌, ◌^◌, not, map, take, drop, find, option_map, slice_index, length as length_of_list};
ghost use Rattle.std.specs.List.{list_any};
ghost use Rattle.ra_progress.specs.Contents.{shape_contents, own_entries, own_at, entry_shape};
ghost use Rattle.ra_progress.specs.Layout as layout;
ghost use Rattle.ra_progress.specs.Names.{IsUsable};
ghost use Rattle.ra_progress.specs.Reading as spec;

use crate::layout::{entry_after, entry_count, first_entry};
use crate::named::Named;
use crate::names::name_at;
use crate::own::{OwnShape, block_length, own_shape};
use crate::range::matches;
use crate::refused::ProgressRefused;
use crate::shape::Shape;
use ra_text::word_at;

/// The range of places in the order of own entries that have this name.
pub(crate) fn own_range(shape: &Shape, name: &[u8; 16]) -> (u32, u32)
    requires usable { IsUsable shape.now }
    ensures rising { result.0 ≤ result.1 }
    ensures most { result.1 ≤ length_of_list shape.now.entry_order.items }
    ensures named { spec.owns_named name.now (own_entries (shape_contents shape.now))
        ≡ map (own_at (own_entries (shape_contents shape.now))) (take (result.1 - result.0) (drop result.0 shape.now.entry_order.items)) }
{
    matches(shape, Named::Entry, name)
}

/// What the own entry at a place of their order keeps.
pub(crate) fn own_in_order(shape: &Shape, place: u32) -> OwnShape
    requires usable { IsUsable shape.now }
    requires place { place < length_of_list shape.now.entry_order.items }
    ensures { entry_shape result ≡ (own_at (own_entries (shape_contents shape.now)) (slice_index shape.now.entry_order.items place)).shape }
{
    own_shape(shape, shape.entry_order[place as usize])
}

/// Whether an entry has the name of an own one.
pub(crate) fn has_own(shape: &Shape, bytes: &[u8]) -> bool
    requires usable { IsUsable shape.now }
    requires layout { spec.HasLayout bytes.now }
    ensures { result ≡ list_any (λ entry. spec.has_named (own_entries (shape_contents shape.now)) entry.name) (layout.entries_in bytes.now) }
{
    let mut at = first_entry(bytes);
    let mut left = entry_count(bytes);
    while left > 0 {
        if is_own(shape, &name_at(bytes, at)) {
            return true;
        }
        at = entry_after(bytes, at);
        left -= 1;
    }
    false
}

/// Whether the set writes an entry of this name.
fn is_own(shape: &Shape, name: &[u8; 16]) -> bool
    requires usable { IsUsable shape.now }
    ensures { result ≡ spec.has_named (own_entries (shape_contents shape.now)) name.now }
{
    let (from, to) = own_range(shape, name);
    from < to
}

/// The refusal of the first entry whose block is not as long as the set's.
pub(crate) fn bad_entries(shape: &Shape, bytes: &[u8]) -> Option<ProgressRefused>
    requires usable { IsUsable shape.now }
    requires layout { spec.HasLayout bytes.now }
    ensures { result ≡ spec.bad_entries (own_entries (shape_contents shape.now)) (layout.entries_in bytes.now) }
{
    let mut at = first_entry(bytes);
    let mut left = entry_count(bytes);
    while left > 0 {
        if let Some(refused) = bad_entry(shape, bytes, at) {
            return Some(refused);
        }
        at = entry_after(bytes, at);
        left -= 1;
    }
    None
}

/// The refusal of the entry at a place where its block is not as long as the set's.
fn bad_entry(shape: &Shape, bytes: &[u8], at: u64) -> Option<ProgressRefused>
    requires usable { IsUsable shape.now }
    requires within { at + 20 ≤ length_of_list bytes.now }
    ensures { result ≡ spec.bad_entry (own_entries (shape_contents shape.now)) (layout.entry_at bytes.now at) }
{
    let found = word_at(bytes, at + 16);
    let (from, to) = own_range(shape, &name_at(bytes, at));
    match other_length(shape, from, to, found) {
        Some(wanted) => Some(ProgressRefused::BadEntry {
            at: at + 16,
            wanted,
            found,
        }),
        None => None,
    }
}

/// The length of the first own entry between two places of their order that has not this one.
fn other_length(shape: &Shape, from: u32, to: u32, size: u32) -> Option<u32>
    requires usable { IsUsable shape.now }
    requires rising { from ≤ to }
    requires most { to ≤ length_of_list shape.now.entry_order.items }
    ensures { result ≡ option_map layout.own_length (find (λ own. not (layout.own_length own == size))
        (map (own_at (own_entries (shape_contents shape.now))) (take (to - from) (drop from shape.now.entry_order.items)))) }
{
    for place in from..to {
        let wanted = block_length(own_in_order(shape, place));
        if wanted != u64::from(size) {
            return Some(wanted as u32);
        }
    }
    None
}
