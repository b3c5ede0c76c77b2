//! What is left of documents: docs/DEFINITIONS.md, "What is left of a document".

ghost use Rattle.std.specs.Prelude.{◌≡◌, ◌⊎◌, ◌<◌, ◌^◌, ℕ, List, [], IfErr, IfOk, IsErrAnd, MatchResult, Some, length, map};
ghost use Rattle.serde_json.specs.View.{view};
ghost use Rattle.ra_set.specs.Accepted.{IsSet};
ghost use Rattle.ra_set.specs.Contents.{SetContents};
ghost use Rattle.ra_patch.specs.Answers.{Imports, IsDocument};
ghost use Rattle.ra_patch.specs.LeftAnswers.{HasOwnLists, KeepsGrammar, LeavesDocument};
ghost use Rattle.ra_patch.specs.LeftAnswers.{LeavesLists, LeavesNothing, LeavesWanted};
ghost use Rattle.ra_patch.specs.Official.{wanted};
ghost use Rattle.ra_patch.specs.Patches as spec;
ghost use Rattle.ra_patch.specs.declared.left_out.LeftOut.{LeftOut};

use crate::document_refused::{DocumentRefused, RootField};
use crate::item_kind::ItemKind;
use crate::left::Left;
use crate::patches::{holders_of, patch_of, wrong_list};
use crate::read::read_document;
use crate::refused::{MOST_BYTES, PatchRefused};
use crate::scope::Scope;
use crate::sifted::Sifted;
use ra_text::OutOfMemory;
use serde_json::Value;
use std::alloc::Global;

/// What is left of a document in JSON where each item and the presence string that its set file
/// would be refused for are left out, and what is left out: docs/DEFINITIONS.md, "What is left of a
/// document".
///
/// `parse_set` accepts the set file unless it passes a limit. Where `set_of` gives a set file,
/// nothing is left out and it is that one; where nothing is left out of a document whose `PatchData`
/// has lists of its own, and the set file passes no limit, `set_of` gives it.
///
/// Of several reasons why nothing is left the first is told, in this order: the bytes pass their
/// limit; they are no JSON; the root has no patch. `Memory` comes for running out of memory alone.
pub fn left_of(alloc: Global, bytes: &[u8]) -> Result<Left, DocumentRefused>
    ensures ok { IfOk result
        (λ left. LeavesDocument bytes.now left.text.items left.left_out.items) }
    ensures err { IfErr result (λ why. why ≡ DocumentRefused.Memory ⊎ LeavesNothing bytes.now why) }

    // No other answer is given, running out of memory aside.
    ensures left { (text : List ℕ) (left_out : List LeftOut)
        → LeavesDocument bytes.now text left_out
        → MatchResult result (λ left. (left.text.items ≡ text) × (left.left_out.items ≡ left_out))
        (λ why. why ≡ DocumentRefused.Memory) }
    ensures refused { (why : DocumentRefused) → LeavesNothing bytes.now why
        → IsErrAnd result (λ e. e ≡ DocumentRefused.Memory ⊎ e ≡ why) }

    // What parse_set and set_of say of it.
    ensures accepted { IfOk result (λ left. KeepsGrammar left.text.items) }
    ensures imported { (text : List ℕ) → Imports bytes.now text
        → MatchResult result (λ left. (left.text.items ≡ text) × (left.left_out.items ≡ []))
        (λ why. why ≡ DocumentRefused.Memory) }
    ensures whole { IfOk result (λ left. left.left_out.items ≡ [] → HasOwnLists bytes.now
        → (set : SetContents) → IsSet left.text.items set → Imports bytes.now left.text.items) }
{
    let document = document_of(alloc, bytes)?;
    left_of_value(alloc, Scope::All, &document)
}

// The value of a document.
pub(crate) fn document_of(alloc: Global, bytes: &[u8]) -> Result<Value, DocumentRefused>
    ensures ok { IfOk result (λ value. IsDocument bytes.now (view value)) }
    ensures err { IfErr result (λ why. why ≡ DocumentRefused.Memory ⊎ LeavesNothing bytes.now why) }
{
    if bytes.len() > MOST_BYTES {
        return Err(DocumentRefused::Bytes {
            found: bytes.len() as u64,
        });
    }
    match read_document(alloc, bytes) {
        Ok(document) => Ok(document),
        Err(PatchRefused::Memory) => Err(DocumentRefused::Memory),
        Err(_) => Err(DocumentRefused::NotJson),
    }
}

// What is left of a document's value, as far as its achievements are looked at.
pub(crate) fn left_of_value(
    alloc: Global,
    scope: Scope,
    document: &Value,
) -> Result<Left, DocumentRefused>
    requires { (bytes : List ℕ) × IsDocument bytes (view document.now) }
    ensures ok { IfOk result
        (λ left. LeavesWanted scope (view document.now) left.text.items left.left_out.items) }
    ensures err { IfErr result (λ why. why ≡ DocumentRefused.Memory
        ⊎ ((field : RootField) × (why ≡ DocumentRefused.Root field)
        × (spec.wrong_field (view document.now) ≡ Some field))) }
{
    let Some(patch) = patch_of(document) else {
        return Err(wrong(RootField::PatchData));
    };
    let Some(holders) = holders_of(patch) else {
        return Err(wrong(RootField::Sets));
    };
    match wrong_list(holders) {
        Some(field) => Err(wrong(field)),
        None => Ok(sift(alloc, scope, patch, holders)?),
    }
}

// The refusal for a field of the root.
fn wrong(field: RootField) -> DocumentRefused
    ensures { result ≡ DocumentRefused.Root field }
{
    DocumentRefused::Root { field }
}

// What is left of a patch whose lists these objects have, as far as the achievements are looked at.
fn sift(alloc: Global, scope: Scope, patch: &Value, holders: &[Value]) -> Result<Left, OutOfMemory>
    requires achievements { length (spec.items_of ItemKind.Achievement (map view holders.now)) < 2 ^ 64 }
    requires boards { length (spec.items_of ItemKind.Leaderboard (map view holders.now)) < 2 ^ 64 }
    ensures { IfOk result (λ left. LeavesLists
        (wanted scope (spec.items_of ItemKind.Achievement (map view holders.now)))
        (spec.items_of ItemKind.Leaderboard (map view holders.now))
        (spec.script_in (view patch.now)) left.text.items left.left_out.items) }
{
    let mut sifted = Sifted::new(alloc);
    sifted.take_list(alloc, ItemKind::Achievement, scope, holders)?;
    sifted.take_list(alloc, ItemKind::Leaderboard, Scope::All, holders)?;
    sifted.take_script(alloc, patch)?;
    Ok(sifted.left())
}
