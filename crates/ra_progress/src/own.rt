//! The entries that a set writes, by their numbers: the items in set order, then the script.

ghost use Rattle.std.specs.Prelude.{◌≡◌, ◌+◌, ◌<◌, ◌≤◌, ◌^◌, sum_by, length as length_of_list};
ghost use Rattle.ra_progress.specs.Contents.{shape_contents, own_entries, own_at, entry_shape};
ghost use Rattle.ra_progress.specs.Layout as layout;
ghost use Rattle.ra_progress.specs.Names.{IsPaired};

use crate::shape::{ItemShape, PresenceShape, Shape};

/// What an own entry keeps.
#[derive(Clone, Copy)]
pub(crate) enum OwnShape {
    /// An item.
    Item(ItemShape),
    /// The presence script.
    Presence(PresenceShape),
}

/// How many entries the set writes.
pub(crate) fn own_count(shape: &Shape) -> u32
    requires { IsPaired (shape_contents shape.now) }
    ensures { result ≡ length_of_list (own_entries (shape_contents shape.now)) }
{
    let items = shape.items.len() as u32;
    match &shape.presence {
        Some(_) => items + 1,
        None => items,
    }
}

/// What the own entry of a number keeps.
pub(crate) fn own_shape(shape: &Shape, number: u32) -> OwnShape
    requires paired { IsPaired (shape_contents shape.now) }
    requires number { number < length_of_list (own_entries (shape_contents shape.now)) }
    ensures { entry_shape result ≡ (own_at (own_entries (shape_contents shape.now)) number).shape }
{
    if (number as usize) < shape.items.len() {
        return OwnShape::Item(shape.items[number as usize]);
    }
    match shape.presence {
        Some(p) => OwnShape::Presence(p),
        None => OwnShape::Item(ItemShape::Achievement { hits: 0 }),
    }
}

/// How many bytes the block of an own entry takes.
pub(crate) fn block_length(own: OwnShape) -> u64
    ensures length { result ≡ layout.block_length (entry_shape own) }
    ensures most { result < 2 ^ 36 }
{
    match own {
        OwnShape::Item(item) => item_length(&item),
        OwnShape::Presence(p) => 4 + 4 * (u64::from(p.hits) + u64::from(p.parts)),
    }
}

/// How many bytes the block of an item takes.
fn item_length(item: &ItemShape) -> u64
    ensures length { result ≡ layout.item_length item.now }
    ensures most { result < 2 ^ 36 }
{
    match item {
        ItemShape::Achievement { hits } => 5 + 4 * u64::from(*hits),
        ItemShape::Leaderboard { hits, parts } => 1 + 4 * (u64::from(*hits) + u64::from(*parts)),
    }
}

/// How many bytes the blocks of some items take.
pub(crate) fn items_length(items: &[ItemShape]) -> u64
    requires { length_of_list items.now ≤ 16384 }
    ensures sum { result ≡ sum_by layout.item_length items.now }
    ensures most { result ≤ 2 ^ 50 }
{
    let mut total = 0;
    for item in items {
        total += item_length(item);
    }
    total
}

/// How many bytes the block of the script takes, where there is one.
pub(crate) fn script_length(presence: &Option<PresenceShape>) -> u64
    ensures length { result ≡ layout.script_length presence.now }
    ensures most { result < 2 ^ 36 }
{
    match presence {
        Some(p) => block_length(OwnShape::Presence(*p)),
        None => 0,
    }
}
