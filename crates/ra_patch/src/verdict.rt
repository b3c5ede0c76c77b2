//! Why an item or a presence string is left out: docs/DEFINITIONS.md, "What is left of a document".

ghost use Rattle.std.specs.Prelude.{◌≡◌, [], IfErr, IfOk, OnOk};
ghost use Rattle.serde_json.specs.View.{view};
ghost use Rattle.ra_condition.specs.Grammar.{trigger};
ghost use Rattle.ra_leaderboard.specs.Grammar.{board};
ghost use Rattle.ra_patch.specs.Answers.{IsFirst};
ghost use Rattle.ra_patch.specs.Leaving as spec;
ghost use Rattle.ra_patch.specs.Leaving.{IsItemPlace, IsPlace, IsScriptPlace, IsVerdict};

use crate::check::{Check, check_item};
use crate::fields::text_or_empty;
use crate::item_kind::ItemKind;
use crate::left_out::LeftCause;
use crate::refused::PatchRefused;
use ra_condition::{Refused, parse_trigger};
use ra_leaderboard::parse_board;
use ra_richpresence::parse_script;
use ra_text::OutOfMemory;
use serde_json::Value;
use std::alloc::Global;

// Why an item is left out, or none where it stays; `taken` says that an item before it that stays
// has its id.
pub fn verdict(
    alloc: Global,
    kind: ItemKind,
    taken: bool,
    item: &Value,
) -> Result<Option<LeftCause>, OutOfMemory>
    ensures { IfOk result (λ cause. IsVerdict kind taken (view item.now) cause) }
{
    if let Some(fault) = fault_of(kind, item) {
        return Ok(Some(fault));
    }
    match bad_place(alloc, kind, item_text(kind, item))? {
        Some(at) => Ok(Some(LeftCause::Syntax { at })),
        None if taken => Ok(Some(LeftCause::Again)),
        None => Ok(None),
    }
}

// The cause that the first fault of an item is, if it has one.
fn fault_of(kind: ItemKind, item: &Value) -> Option<LeftCause>
    ensures { result ≡ spec.fault_of kind (view item.now) }
{
    match check_alone(kind, item) {
        Ok(()) => None,
        Err(why) => Some(cause_of(why)),
    }
}

// The fields and then the texts of an item.
fn check_alone(kind: ItemKind, item: &Value) -> Result<(), PatchRefused>
    ensures ok { OnOk result (spec.item_faults kind (view item.now) ≡ []) }
    ensures err { IfErr result (IsFirst (spec.item_faults kind (view item.now))) }
{
    match kind {
        ItemKind::Achievement => {
            check_item(Check::AchievementFields, 0, item)?;
            check_item(Check::AchievementTexts, 0, item)
        }
        ItemKind::Leaderboard => {
            check_item(Check::BoardFields, 0, item)?;
            check_item(Check::BoardTexts, 0, item)
        }
    }
}

// The cause that a fault of an item is.
fn cause_of(why: PatchRefused) -> LeftCause
    ensures { result ≡ spec.cause_of why }
{
    match why {
        PatchRefused::Field { field, .. } => LeftCause::Field(field),
        _ => LeftCause::Break,
    }
}

// The text of an item.
fn item_text(kind: ItemKind, item: &Value) -> &str
    ensures { result.now ≡ spec.item_text kind (view item.now) }
{
    match kind {
        ItemKind::Achievement => text_or_empty(item, "MemAddr"),
        ItemKind::Leaderboard => text_or_empty(item, "Mem"),
    }
}

// The first bad place of the text of an item, none where it spells a trigger or a board.
fn bad_place(alloc: Global, kind: ItemKind, text: &str) -> Result<Option<usize>, OutOfMemory>
    ensures { IfOk result (λ at. IsItemPlace kind text.now at) }
{
    match kind {
        ItemKind::Achievement => trigger_place(alloc, text.as_bytes()),
        ItemKind::Leaderboard => board_place(alloc, text.as_bytes()),
    }
}

// The first bad place of a text that is no trigger.
fn trigger_place(alloc: Global, text: &[u8]) -> Result<Option<usize>, OutOfMemory>
    ensures { IfOk result (λ at. IsPlace trigger text.now at) }
{
    match parse_trigger(alloc, text) {
        Ok(_) => Ok(None),
        Err(Refused::Syntax { at }) => Ok(Some(at)),
        Err(Refused::Memory) => Err(OutOfMemory),
    }
}

// The first bad place of a text that is no board.
fn board_place(alloc: Global, text: &[u8]) -> Result<Option<usize>, OutOfMemory>
    ensures { IfOk result (λ at. IsPlace board text.now at) }
{
    match parse_board(alloc, text) {
        Ok(_) => Ok(None),
        Err(Refused::Syntax { at }) => Ok(Some(at)),
        Err(Refused::Memory) => Err(OutOfMemory),
    }
}

// The first bad place of a presence string, none where it is a script or empty.
pub fn script_place(alloc: Global, text: &str) -> Result<Option<usize>, OutOfMemory>
    ensures { IfOk result (λ at. IsScriptPlace text.now at) }
{
    if text.is_empty() {
        return Ok(None);
    }
    match parse_script(alloc, text.as_bytes()) {
        Ok(_) => Ok(None),
        Err(Refused::Syntax { at }) => Ok(Some(at)),
        Err(Refused::Memory) => Err(OutOfMemory),
    }
}
