//! How many conditions a normal text has: docs/DEFINITIONS.md, "Normal text".

ghost use Rattle.std.specs.Prelude.{◌≡◌, ◌<◌, ◌^◌, map, option_map, sum_by};
ghost use Rattle.ra_condition.specs.Contents.{part_contents, value_contents};
ghost use Rattle.ra_set.specs.Contents.{item_contents, set_contents};
ghost use Rattle.ra_normal.specs.Counting.{legacy_in_item, legacy_in_optional, legacy_in_part, legacy_in_value};
ghost use Rattle.ra_normal.specs.Text as spec;

use ra_condition::{Part, ValueText};
use ra_set::{Item, Set, conditions};

/// How many conditions the normal text of a set has: docs/DEFINITIONS.md, "Normal text". There are fewer than 2^64,
/// as in every set that was read.
pub fn normal_conditions(set: &Set) -> u64
    requires { spec.normal_conditions (set_contents set.now) < 2 ^ 64 }
    ensures { result ≡ spec.normal_conditions (set_contents set.now) }
{
    conditions(set) + in_items(&set.items)
}

// How many legacy parts the values of items have.
fn in_items(items: &[Item]) -> u64
    requires { sum_by legacy_in_item (map item_contents items.now) < 2 ^ 64 }
    ensures { result ≡ sum_by legacy_in_item (map item_contents items.now) }
{
    let mut count = 0;
    for item in items {
        count += in_item(item);
    }
    count
}

fn in_item(item: &Item) -> u64
    requires { legacy_in_item (item_contents item.now) < 2 ^ 64 }
    ensures { result ≡ legacy_in_item (item_contents item.now) }
{
    match item {
        Item::Achievement { .. } => 0,
        Item::Leaderboard { text, .. } => in_value(&text.value) + in_optional_value(&text.progress),
    }
}

fn in_value(value: &ValueText) -> u64
    requires { legacy_in_value (value_contents value.now) < 2 ^ 64 }
    ensures { result ≡ legacy_in_value (value_contents value.now) }
{
    let mut count = 0;
    for part in &value.parts {
        count += in_part(part);
    }
    count
}

fn in_optional_value(value: &Option<ValueText>) -> u64
    requires { legacy_in_optional (option_map value_contents value.now) < 2 ^ 64 }
    ensures { result ≡ legacy_in_optional (option_map value_contents value.now) }
{
    match value {
        Some(value) => in_value(value),
        None => 0,
    }
}

fn in_part(part: &Part) -> u64
    ensures { result ≡ legacy_in_part (part_contents part.now) }
{
    match part {
        Part::Terms(_) => 1,
        Part::Conditions(_) => 0,
    }
}
