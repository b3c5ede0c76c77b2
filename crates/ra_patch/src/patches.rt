//! The patch of a document and its lists: docs/DEFINITIONS.md, "What is left of a document".

ghost use Rattle.std.specs.Prelude.{◌≡◌, map, option_map};
ghost use Rattle.serde_json.specs.View.{view};
ghost use Rattle.ra_patch.specs.Fields.{list_in};
ghost use Rattle.ra_patch.specs.Patches as spec;

use crate::document_refused::RootField;
use crate::item_kind::ItemKind;
use crate::root::{list_in, nullable_text};
use serde_json::Value;

// The patch of a document: its `PatchData`, or itself where it has no such field.
pub fn patch_of(document: &Value) -> Option<&Value>
    ensures { option_map (λ patch. view patch.now) result ≡ spec.patch_in (view document.now) }
{
    match document.get("PatchData") {
        Some(field) => object_of(field),
        None => bare_patch(document),
    }
}

// A value, where it is an object.
fn object_of(value: &Value) -> Option<&Value>
    ensures { option_map (λ object. view object.now) result ≡ spec.object_in (view value.now) }
{
    if value.is_object() { Some(value) } else { None }
}

// A root without `PatchData` as a patch, where it has achievements or sets.
fn bare_patch(root: &Value) -> Option<&Value>
    ensures { option_map (λ patch. view patch.now) result ≡ spec.bare_patch (view root.now) }
{
    if has_list(root, "Achievements") || has_list(root, "Sets") {
        Some(root)
    } else {
        None
    }
}

// Whether the field by this name is an array.
fn has_list(value: &Value, name: &str) -> bool
    ensures { result ≡ spec.has_list name.now (view value.now) }
{
    match value.get(name) {
        Some(field) => field.is_array(),
        None => false,
    }
}

// The objects that have the lists: the elements of `Sets`, where the patch has no lists of its own.
pub fn holders_of(patch: &Value) -> Option<&[Value]>
    ensures { option_map (λ holders. map view holders.now) result
        ≡ spec.holders_in (view patch.now) }
{
    if patch.get("Achievements").is_some() {
        return Some(std::slice::from_ref(patch));
    }
    match patch.get("Sets") {
        Some(sets) => objects_of(sets),
        None => Some(std::slice::from_ref(patch)),
    }
}

// The items of a value, where it is an array of objects.
fn objects_of(field: &Value) -> Option<&[Value]>
    ensures { option_map (λ items. map view items.now) result
        ≡ spec.only_objects (list_in (view field.now)) }
{
    let items = list_in(field)?;
    if are_objects(items) {
        Some(items)
    } else {
        None
    }
}

// Whether each of the values is an object.
fn are_objects(items: &[Value]) -> bool
    ensures { result ≡ spec.are_objects (map view items.now) }
{
    for item in items {
        if !item.is_object() {
            return false;
        }
    }
    true
}

// The items of a kind that an object lists, where its list is one.
pub fn items_of(kind: ItemKind, holder: &Value) -> Option<&[Value]>
    ensures { option_map (λ items. map view items.now) result
        ≡ spec.own_list kind (view holder.now) }
{
    match kind {
        ItemKind::Achievement => list_in(holder.get("Achievements")?),
        ItemKind::Leaderboard => match holder.get("Leaderboards") {
            Some(field) => list_in(field),
            None => Some(&[]),
        },
    }
}

// The items of a kind that an object lists, none where its list is none.
pub fn items_or_none(kind: ItemKind, holder: &Value) -> &[Value]
    ensures { map view result.now ≡ spec.own_items kind (view holder.now) }
{
    match items_of(kind, holder) {
        Some(items) => items,
        None => &[],
    }
}

// The first of the two lists that one of the objects has missing or wrong.
pub fn wrong_list(holders: &[Value]) -> Option<RootField>
    ensures { result ≡ spec.wrong_list (map view holders.now) }
{
    if !all_listed(ItemKind::Achievement, holders) {
        Some(RootField::Achievements)
    } else if !all_listed(ItemKind::Leaderboard, holders) {
        Some(RootField::Leaderboards)
    } else {
        None
    }
}

// Whether each of the objects has the list of a kind.
fn all_listed(kind: ItemKind, holders: &[Value]) -> bool
    ensures { result ≡ spec.all_listed kind (map view holders.now) }
{
    for holder in holders {
        if items_of(kind, holder).is_none() {
            return false;
        }
    }
    true
}

// The presence script of a patch, where nothing else than a string or null stands for it.
pub fn script_of(patch: &Value) -> Option<&str>
    ensures { option_map (λ text. text.now) result ≡ spec.script_in (view patch.now) }
{
    match patch.get("RichPresencePatch") {
        Some(field) => nullable_text(field),
        None => Some(""),
    }
}
