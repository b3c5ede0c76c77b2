//! The achievement of an id.

ghost use Rattle.std.specs.Prelude.{◌≡◌, [], ◌∷◌, option_map};
ghost use Rattle.ra_condition.specs.Contents.{trigger_contents};
ghost use Rattle.ra_set.specs.Contents.{item_contents, set_contents};
ghost use Rattle.ra_goals.specs.Choosing as spec;

use ra_condition::TriggerText;
use ra_set::{Item, Set};

// The trigger of an achievement of this id; none of another item.
fn trigger_in(item: Item, id: u32) -> Option<TriggerText>
    ensures { option_map trigger_contents result ≡ spec.trigger_of id (item_contents item ∷ []) }
{
    match item {
        Item::Achievement { id: other, text } if other == id => Some(text),
        _ => None,
    }
}

/// The trigger of the achievement of an id, where the set has one.
pub fn trigger_of(set: Set, id: u32) -> Option<TriggerText>
    ensures { option_map trigger_contents result ≡ spec.trigger_of id (set_contents set).items }
{
    let mut items = set.items;
    let mut found = None;
    while let Some(item) = items.pop() {
        found = trigger_in(item, id).or(found);
    }
    found
}
