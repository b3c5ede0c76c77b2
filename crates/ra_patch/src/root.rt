//! Fields of the root of a document.

ghost use Rattle.std.specs.Prelude.{◌≡◌, [], map, option_map, unwrap_or};
ghost use Rattle.serde_json.specs.View.{view};
ghost use Rattle.ra_patch.specs.Fields as spec;
ghost use Rattle.ra_patch.specs.Fields.{achievements_in, boards_in, presence_in};
ghost use Rattle.ra_patch.specs.Faults as faults;

use serde_json::Value;

// Whether the field `PatchData` is an object.
pub fn has_patch(document: &Value) -> bool
    ensures { result ≡ spec.has_patch (view document.now) }
{
    match document.get("PatchData") {
        Some(patch) => patch.is_object(),
        None => false,
    }
}

// The field by this name of the field `PatchData`.
fn patch_field<'v>(document: &'v Value, name: &str) -> Option<&'v Value>
    ensures { option_map (λ field. view field.now) result
        ≡ spec.patch_field name.now (view document.now) }
{
    document.get("PatchData")?.get(name)
}

// The items of a value, where it is an array.
pub fn list_in(field: &Value) -> Option<&[Value]>
    ensures { option_map (λ items. map view items.now) result ≡ spec.list_in (view field.now) }
{
    match field.as_array() {
        Some(items) => Some(items.as_slice()),
        None => None,
    }
}

// The achievements, where the document has an array of them.
pub fn achievements_of(document: &Value) -> Option<&[Value]>
    ensures { option_map (λ items. map view items.now) result ≡ achievements_in (view document.now) }
{
    list_in(patch_field(document, "Achievements")?)
}

// The leaderboards, where nothing else than an array stands for them.
pub fn boards_of(document: &Value) -> Option<&[Value]>
    ensures { option_map (λ items. map view items.now) result ≡ boards_in (view document.now) }
{
    match patch_field(document, "Leaderboards") {
        Some(field) => list_in(field),
        None => Some(&[]),
    }
}

// The text of a value, empty where it is null, where it is a string.
pub fn nullable_text(field: &Value) -> Option<&str>
    ensures { option_map (λ text. text.now) result ≡ spec.optional_text (Some (view field.now)) }
{
    if field.is_null() {
        Some("")
    } else {
        field.as_str()
    }
}

// The presence script, where nothing else than a string or null stands for it.
pub fn presence_of(document: &Value) -> Option<&str>
    ensures { option_map (λ text. text.now) result ≡ presence_in (view document.now) }
{
    match patch_field(document, "RichPresencePatch") {
        Some(field) => nullable_text(field),
        None => Some(""),
    }
}

// The achievements, none where the document has no array of them.
pub fn achievements_or_none(document: &Value) -> &[Value]
    ensures { map view result.now ≡ faults.achievements_or_none (view document.now) }
{
    match achievements_of(document) {
        Some(items) => items,
        None => &[],
    }
}

// The leaderboards, none where something else than an array stands for them.
pub fn boards_or_none(document: &Value) -> &[Value]
    ensures { map view result.now ≡ faults.boards_or_none (view document.now) }
{
    match boards_of(document) {
        Some(items) => items,
        None => &[],
    }
}

// The presence script, empty where there is none.
pub fn presence_or_empty(document: &Value) -> &str
    ensures { result.now ≡ unwrap_or (presence_in (view document.now)) [] }
{
    match presence_of(document) {
        Some(text) => text,
        None => "",
    }
}
