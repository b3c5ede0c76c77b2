//! Fields of the items of a document.

ghost use Rattle.std.specs.Prelude.{◌≡◌, option_map};
ghost use Rattle.serde_json.specs.View.{view};
ghost use Rattle.ra_patch.specs.Fields.{id_in, text_in};
ghost use Rattle.ra_patch.specs.Fields as spec;
ghost use Rattle.ra_patch.specs.Faults as faults;

use serde_json::Value;

// The id of an item, where it has one.
pub fn id_of(item: &Value) -> Option<u32>
    ensures { result ≡ id_in (view item.now) }
{
    small(item.get("ID")?.as_u64()?)
}

// A number, where it is one of 32 bits.
fn small(number: u64) -> Option<u32>
    ensures { result ≡ spec.small number }
{
    u32::try_from(number).ok()
}

// The text of an item by this name, where it has one.
pub fn text_of<'v>(item: &'v Value, name: &str) -> Option<&'v str>
    ensures { option_map (λ text. text.now) result ≡ text_in name.now (view item.now) }
{
    item.get(name)?.as_str()
}

// The text of an item by this name, empty where it has none.
pub fn text_or_empty<'v>(item: &'v Value, name: &str) -> &'v str
    ensures { result.now ≡ faults.text_or_empty name.now (view item.now) }
{
    match text_of(item, name) {
        Some(text) => text,
        None => "",
    }
}
