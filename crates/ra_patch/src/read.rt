//! The value of a document.

ghost use Rattle.std.specs.Prelude.{◌≡◌, ◌⊎◌, IfErr, IfOk};
ghost use Rattle.serde_json.specs.Data.{Data};
ghost use Rattle.serde_json.specs.View.{view};
ghost use Rattle.ra_patch.specs.Fields.{Reads};

use crate::refused::PatchRefused;
use serde_json::Value;
use serde_json::error::Category;
use std::alloc::Global;

// The value that a text in JSON is. `NotJson` where it is none.
pub fn read_document(alloc: Global, bytes: &[u8]) -> Result<Value, PatchRefused>
    ensures ok { IfOk result (λ value. Reads bytes.now (view value)) }
    ensures err { IfErr result (λ why. why ≡ PatchRefused.Memory
        ⊎ ((why ≡ PatchRefused.NotJson) × ((d : Data) → Reads bytes.now d → ⊥))) }
{
    match Value::from_slice(alloc, bytes) {
        Ok(value) => Ok(value),
        Err(error) => match error.classify() {
            Category::Memory => Err(PatchRefused::Memory),
            _ => Err(PatchRefused::NotJson),
        },
    }
}
