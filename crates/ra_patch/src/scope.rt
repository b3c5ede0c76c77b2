//! What is looked at of a list of achievements: docs/DEFINITIONS.md, "What is left of a document".

ghost use Rattle.std.specs.Prelude.{◌≡◌, ◌<◌, ◌^◌, length, map};
ghost use Rattle.serde_json.specs.View.{view};
ghost use Rattle.ra_patch.specs.Official as spec;
ghost use Rattle.ra_patch.specs.Patches.{items_of};

use crate::item_kind::ItemKind;
use crate::patches::items_or_none;
use serde_json::Value;

/// Which achievements are looked at.
#[derive(Clone, Copy)]
pub enum Scope {
    /// All of them.
    All,
    /// Those that are not unofficial.
    Official,
}

// The number in the field `Flags` of an item, where there is one.
fn flags_of(item: &Value) -> Option<u64>
    ensures { result ≡ spec.flags_in (view item.now) }
{
    item.get("Flags")?.as_u64()
}

// Whether an achievement is unofficial.
fn is_unofficial(item: &Value) -> bool
    ensures { result ≡ spec.is_unofficial (view item.now) }
{
    match flags_of(item) {
        Some(flags) => flags == 5,
        None => false,
    }
}

// Whether an achievement is looked at.
pub fn is_wanted(scope: Scope, item: &Value) -> bool
    ensures { result ≡ spec.is_wanted scope (view item.now) }
{
    match scope {
        Scope::All => true,
        Scope::Official => !is_unofficial(item),
    }
}

// How many achievements of these objects are unofficial.
pub fn unofficial_of(holders: &[Value]) -> usize
    requires { length (items_of ItemKind.Achievement (map view holders.now)) < 2 ^ 64 }
    ensures { result ≡ spec.unofficial_among (items_of ItemKind.Achievement (map view holders.now)) }
{
    let mut count = 0;
    for holder in holders {
        count += unofficial_among(items_or_none(ItemKind::Achievement, holder));
    }
    count
}

// How many of these achievements are unofficial.
fn unofficial_among(items: &[Value]) -> usize
    ensures { result ≡ spec.unofficial_among (map view items.now) }
{
    let mut count = 0;
    for item in items {
        if is_unofficial(item) {
            count += 1;
        }
    }
    count
}
