//! Sets of documents: docs/DEFINITIONS.md, "Sets from JSON".

ghost use Rattle.std.specs.Prelude.{◌≡◌, ◌⊎◌, ℕ, List, IfErr, IfOk, IsErrAnd, MatchResult};
ghost use Rattle.serde_json.specs.View.{view};
ghost use Rattle.ra_patch.specs.Answers.{GivesSet, Imports, IsDocument, RefusesDocument, RefusesValue};
ghost use Rattle.ra_set.specs.Accepted.{IsSet};
ghost use Rattle.ra_set.specs.Contents.{set_contents};
ghost use Rattle.ra_set.specs.Refusals.{Refuses};
ghost use Rattle.ra_set.specs.Spelled.{IsSpelled};
ghost use Rattle.ra_set.specs.declared.refused.SetRefused.{SetRefused};

use crate::check::check_document;
use crate::imported::Imported;
use crate::read::read_document;
use crate::refused::{MOST_BYTES, PatchRefused};
use crate::text::text_of_document;
use ra_set::{Set, SetRefused, parse_set};
use serde_json::Value;
use std::alloc::Global;

/// The set file that a document in JSON gives, with its set: docs/DEFINITIONS.md, "Sets from
/// JSON".
///
/// Of several reasons why the document gives none the first is told, in this order: its bytes
/// pass their limit; it is no JSON; a field is missing or wrong, with the first such; a text of an
/// item would end its line or its word, with the first such item; the set file is refused, as
/// `parse_set` refuses it. `Memory` comes for running out of memory alone.
pub fn import(alloc: Global, bytes: &[u8]) -> Result<Imported, PatchRefused>
    ensures ok { IfOk result (λ given. Imports bytes.now given.text.items) }
    ensures set { IfOk result (λ given. IsSet given.text.items (set_contents given.set)) }
    ensures structure { IfOk result (λ given. IsSpelled (set_contents given.set)) }
    ensures err { IfErr result (λ why. why ≡ PatchRefused.Memory ⊎ RefusesDocument bytes.now why) }

    // No other answer is given, running out of memory aside.
    ensures imported { (text : List ℕ) → Imports bytes.now text
        → MatchResult result (λ given. given.text.items ≡ text) (λ why. why ≡ PatchRefused.Memory) }
    ensures refused { (why : PatchRefused) → RefusesDocument bytes.now why
        → IsErrAnd result (λ e. e ≡ PatchRefused.Memory ⊎ e ≡ why) }
{
    if bytes.len() > MOST_BYTES {
        return Err(PatchRefused::Bytes {
            found: bytes.len() as u64,
        });
    }
    let document = read_document(alloc, bytes)?;
    import_value(alloc, &document)
}

/// The set file that a document in JSON gives: docs/DEFINITIONS.md, "Sets from JSON". `parse_set`
/// accepts it.
///
/// A document that gives none is refused as `import` refuses it.
pub fn set_of(alloc: Global, bytes: &[u8]) -> Result<Vec<u8>, PatchRefused>
    ensures ok { IfOk result (λ text. Imports bytes.now text.items) }
    ensures err { IfErr result (λ why. why ≡ PatchRefused.Memory ⊎ RefusesDocument bytes.now why) }

    // No other answer is given, running out of memory aside.
    ensures imported { (text : List ℕ) → Imports bytes.now text
        → MatchResult result (λ given. given.items ≡ text) (λ why. why ≡ PatchRefused.Memory) }
    ensures refused { (why : PatchRefused) → RefusesDocument bytes.now why
        → IsErrAnd result (λ e. e ≡ PatchRefused.Memory ⊎ e ≡ why) }
{
    match import(alloc, bytes) {
        Ok(given) => Ok(given.text),
        Err(why) => Err(why),
    }
}

// The set file of a document's value, with its set.
fn import_value(alloc: Global, value: &Value) -> Result<Imported, PatchRefused>
    requires { (bytes : List ℕ) × IsDocument bytes (view value.now) }
    ensures ok { IfOk result (λ given. GivesSet (view value.now) given.text.items) }
    ensures set { IfOk result (λ given. IsSet given.text.items (set_contents given.set)) }
    ensures structure { IfOk result (λ given. IsSpelled (set_contents given.set)) }
    ensures err { IfErr result (λ why. why ≡ PatchRefused.Memory
        ⊎ RefusesValue (view value.now) why) }
{
    check_document(value)?;
    let text = text_of_document(alloc, value)?.into_bytes();
    let set = accept(alloc, &text)?;
    Ok(Imported { text, set })
}

// The set of a set file, which is refused as `parse_set` refuses it.
fn accept(alloc: Global, text: &[u8]) -> Result<Set, PatchRefused>
    ensures ok { IfOk result (λ set. IsSet text.now (set_contents set)) }
    ensures structure { IfOk result (λ set. IsSpelled (set_contents set)) }
    ensures err { IfErr result (λ why. why ≡ PatchRefused.Memory
        ⊎ ((cause : SetRefused) × (why ≡ PatchRefused.Set cause) × Refuses text.now cause)) }
{
    match parse_set(alloc, text) {
        Ok(set) => Ok(set),
        Err(SetRefused::Memory) => Err(PatchRefused::Memory),
        Err(cause) => Err(PatchRefused::Set(cause)),
    }
}
