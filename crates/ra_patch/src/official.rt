//! What is left of documents without their unofficial achievements: docs/DEFINITIONS.md, "What is left of a document".

ghost use Rattle.std.specs.Prelude.{◌≡◌, ◌⊎◌, ◌+◌, ◌<◌, ◌^◌, ℕ, List, IfErr, IfOk, IsErrAnd, MatchResult, Some, length};
ghost use Rattle.serde_json.specs.View.{view};
ghost use Rattle.ra_patch.specs.Answers.{IsDocument};
ghost use Rattle.ra_patch.specs.LeftAnswers.{KeepsGrammar, LeavesFew, LeavesNothing, LeavesOfficial};
ghost use Rattle.ra_patch.specs.Official.{unofficial_among};
ghost use Rattle.ra_patch.specs.Patches.{items_in, wrong_field};

use crate::document_refused::{DocumentRefused, RootField};
use crate::item_kind::ItemKind;
use crate::leave::{document_of, left_of_value};
use crate::left::Left;
use crate::patches::{holders_of, patch_of};
use crate::scope::{Scope, unofficial_of};
use serde_json::Value;
use std::alloc::Global;

/// What is left of a document without its unofficial achievements: docs/DEFINITIONS.md, "What is left of a document".
#[derive(Drop)]
pub struct CountedLeft {
    /// The set file of what stays.
    pub text: Vec<u8>,
    /// How many things are left out, the unofficial achievements among them.
    pub left_out: usize,
}

/// What is left of a document in JSON where its unofficial achievements are not looked at, and how many things are left
/// out, these achievements among them: docs/DEFINITIONS.md, "What is left of a document".
///
/// They take no id. `parse_set` accepts the set file unless it passes a limit. Nothing is left where
/// `left_of` says so, for its reasons; `Memory` comes for running out of memory alone.
pub fn official_of(alloc: Global, bytes: &[u8]) -> Result<CountedLeft, DocumentRefused>
    ensures ok { IfOk result (λ left. LeavesOfficial bytes.now left.text.items left.left_out) }
    ensures err { IfErr result (λ why. why ≡ DocumentRefused.Memory ⊎ LeavesNothing bytes.now why) }

    // No other answer is given, running out of memory aside.
    ensures left { (text : List ℕ) (left_out : ℕ) → LeavesOfficial bytes.now text left_out
        → MatchResult result (λ left. (left.text.items ≡ text) × (left.left_out ≡ left_out))
        (λ why. why ≡ DocumentRefused.Memory) }
    ensures refused { (why : DocumentRefused) → LeavesNothing bytes.now why
        → IsErrAnd result (λ e. e ≡ DocumentRefused.Memory ⊎ e ≡ why) }

    // What parse_set says of it.
    ensures accepted { IfOk result (λ left. KeepsGrammar left.text.items) }
{
    let document = document_of(alloc, bytes)?;
    official_of_value(alloc, &document)
}

// What is left of a document's value without its unofficial achievements.
fn official_of_value(alloc: Global, document: &Value) -> Result<CountedLeft, DocumentRefused>
    requires { (bytes : List ℕ) × IsDocument bytes (view document.now) }
    ensures ok { IfOk result (λ left. LeavesFew (view document.now) left.text.items left.left_out) }
    ensures err { IfErr result (λ why. why ≡ DocumentRefused.Memory
        ⊎ ((field : RootField) × (why ≡ DocumentRefused.Root field)
        × (wrong_field (view document.now) ≡ Some field))) }
{
    match left_of_value(alloc, Scope::Official, document) {
        Ok(left) => Ok(counted(left, unofficial_in(document))),
        Err(why) => Err(why),
    }
}

// What is left, with how many unofficial achievements there are.
fn counted(left: Left, unofficial: usize) -> CountedLeft
    requires { unofficial < 2 ^ 49 }
    ensures text { result.text ≡ left.text }
    ensures counted { result.left_out ≡ length left.left_out.items + unofficial }
{
    let left_out = left.left_out.len() + unofficial;
    CountedLeft {
        text: left.text,
        left_out,
    }
}

// How many achievements of a document's value are unofficial.
fn unofficial_in(document: &Value) -> usize
    requires { (bytes : List ℕ) × IsDocument bytes (view document.now) }
    ensures counted { result ≡ unofficial_among (items_in ItemKind.Achievement (view document.now)) }
    ensures few { result < 2 ^ 49 }
{
    let Some(patch) = patch_of(document) else {
        return 0;
    };
    match holders_of(patch) {
        Some(holders) => unofficial_of(holders),
        None => 0,
    }
}
