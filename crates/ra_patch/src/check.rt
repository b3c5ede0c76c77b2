//! What is wrong with a document: docs/DEFINITIONS.md, "Sets from JSON".

ghost use Rattle.std.specs.Prelude.{◌≡◌, ◌≤◌, ℕ, List, [], IfErr, OnOk, length, map};
ghost use Rattle.serde_json.specs.View.{view};
ghost use Rattle.ra_patch.specs.Answers.{IsDocument, IsFirst};
ghost use Rattle.ra_patch.specs.Faults.{unless, root_faults, faults_from, faults_of};
ghost use Rattle.ra_patch.specs.Faults as spec;
ghost use Rattle.ra_patch.specs.Checks.{faults_by};

use crate::fields::{id_of, text_of, text_or_empty};
use crate::refused::{PatchField, PatchList, PatchRefused};
use crate::root::{
    achievements_of, achievements_or_none, boards_of, boards_or_none, has_patch, presence_of,
};
use serde_json::Value;

// What is looked at in the items of a list.
#[derive(Clone, Copy)]
pub enum Check {
    AchievementFields,
    BoardFields,
    AchievementTexts,
    BoardTexts,
}

// Refuses unless the test holds.
fn want(holds: bool, why: PatchRefused) -> Result<(), PatchRefused>
    ensures ok { OnOk result (unless holds why ≡ []) }
    ensures err { IfErr result (IsFirst (unless holds why)) }
{
    if holds { Ok(()) } else { Err(why) }
}

// A field of an item or of the root that is missing or wrong.
fn field(list: PatchList, index: u32, field: PatchField) -> PatchRefused
    ensures { result ≡ PatchRefused.Field list index field }
{
    PatchRefused::Field { list, index, field }
}

// Refuses the value of a document for its first fault. A document has so few bytes that `u32` counts
// its items.
pub fn check_document(document: &Value) -> Result<(), PatchRefused>
    requires { (bytes : List ℕ) × IsDocument bytes (view document.now) }
    ensures ok { OnOk result (faults_of (view document.now) ≡ []) }
    ensures err { IfErr result (IsFirst (faults_of (view document.now))) }
{
    let achievements = achievements_or_none(document);
    let boards = boards_or_none(document);
    check_root(document)?;
    check_items(Check::AchievementFields, achievements)?;
    check_items(Check::BoardFields, boards)?;
    check_items(Check::AchievementTexts, achievements)?;
    check_items(Check::BoardTexts, boards)
}

// The fields of the root.
fn check_root(document: &Value) -> Result<(), PatchRefused>
    ensures ok { OnOk result (root_faults (view document.now) ≡ []) }
    ensures err { IfErr result (IsFirst (root_faults (view document.now))) }
{
    let root = PatchList::Root;
    want(has_patch(document), field(root, 0, PatchField::PatchData))?;
    want(
        achievements_of(document).is_some(),
        field(root, 0, PatchField::Achievements),
    )?;
    want(
        boards_of(document).is_some(),
        field(root, 0, PatchField::Leaderboards),
    )?;
    want(
        presence_of(document).is_some(),
        field(root, 0, PatchField::RichPresencePatch),
    )
}

// The items of a list, in order.
fn check_items(check: Check, items: &[Value]) -> Result<(), PatchRefused>
    requires { length items.now ≤ 16777217 }
    ensures ok { OnOk result (faults_from (faults_by check) 0 (map view items.now) ≡ []) }
    ensures err { IfErr result (IsFirst (faults_from (faults_by check) 0 (map view items.now))) }
{
    let mut index = 0u32;
    for item in items {
        check_item(check, index, item)?;
        index += 1;
    }
    Ok(())
}

// The item at this index.
pub fn check_item(check: Check, index: u32, item: &Value) -> Result<(), PatchRefused>
    ensures ok { OnOk result (faults_by check index (view item.now) ≡ []) }
    ensures err { IfErr result (IsFirst (faults_by check index (view item.now))) }
{
    match check {
        Check::AchievementFields => achievement_fields(index, item),
        Check::BoardFields => board_fields(index, item),
        Check::AchievementTexts => achievement_texts(index, item),
        Check::BoardTexts => board_texts(index, item),
    }
}

// The fields of an achievement.
fn achievement_fields(index: u32, item: &Value) -> Result<(), PatchRefused>
    ensures ok { OnOk result (spec.achievement_faults index (view item.now) ≡ []) }
    ensures err { IfErr result (IsFirst (spec.achievement_faults index (view item.now))) }
{
    let list = PatchList::Achievements;
    want(id_of(item).is_some(), field(list, index, PatchField::Id))?;
    want(
        text_of(item, "MemAddr").is_some(),
        field(list, index, PatchField::MemAddr),
    )
}

// The fields of a leaderboard.
fn board_fields(index: u32, item: &Value) -> Result<(), PatchRefused>
    ensures ok { OnOk result (spec.board_faults index (view item.now) ≡ []) }
    ensures err { IfErr result (IsFirst (spec.board_faults index (view item.now))) }
{
    let list = PatchList::Leaderboards;
    want(id_of(item).is_some(), field(list, index, PatchField::Id))?;
    want(
        text_of(item, "Mem").is_some(),
        field(list, index, PatchField::Mem),
    )?;
    want(
        text_of(item, "Format").is_some(),
        field(list, index, PatchField::Format),
    )
}

// The text of an achievement.
fn achievement_texts(index: u32, item: &Value) -> Result<(), PatchRefused>
    ensures ok { OnOk result (spec.achievement_breaks index (view item.now) ≡ []) }
    ensures err { IfErr result (IsFirst (spec.achievement_breaks index (view item.now))) }
{
    let fits = !ends_line(text_or_empty(item, "MemAddr"));
    want(
        fits,
        PatchRefused::Break {
            list: PatchList::Achievements,
            index,
        },
    )
}

// The texts of a leaderboard.
fn board_texts(index: u32, item: &Value) -> Result<(), PatchRefused>
    ensures ok { OnOk result (spec.board_breaks index (view item.now) ≡ []) }
    ensures err { IfErr result (IsFirst (spec.board_breaks index (view item.now))) }
{
    let format = text_or_empty(item, "Format");
    let fits = !ends_line(text_or_empty(item, "Mem")) && !format.is_empty() && !ends_word(format);
    want(
        fits,
        PatchRefused::Break {
            list: PatchList::Leaderboards,
            index,
        },
    )
}

// Whether a text holds CR or LF.
fn ends_line(text: &str) -> bool
    ensures { result ≡ spec.ends_line text.now }
{
    text.as_bytes()
        .iter()
        .any(|byte| *byte == b'\r' || *byte == b'\n')
}

// Whether a text holds a space, CR or LF.
fn ends_word(text: &str) -> bool
    ensures { result ≡ spec.ends_word text.now }
{
    text.as_bytes()
        .iter()
        .any(|byte| *byte == b' ' || *byte == b'\r' || *byte == b'\n')
}
