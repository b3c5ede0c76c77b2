//! What holds of all documents.

ghost use Rattle.std.specs.Prelude.{◌≡◌, ◌↔◌, ◌+◌, ℕ, List, None, Some, length};
ghost use Rattle.serde_json.specs.Data.{Data};
ghost use Rattle.ra_set.specs.Places.{IsFileOutside};
ghost use Rattle.ra_patch.specs.Answers.{Imports, RefusesDocument};
ghost use Rattle.ra_patch.specs.Leaving.{IsItemPlace, before_text, fault_of, item_text, line_of};
ghost use Rattle.ra_patch.specs.declared.item_kind.ItemKind.{ItemKind};
ghost use Rattle.ra_patch.specs.declared.refused.PatchRefused.{PatchRefused};

/// A document gives at most one set file, or is refused for one reason, and never both:
/// docs/DEFINITIONS.md, "Sets from JSON".
///
/// A law; no effect at run time.
pub fn one_document_answer()
    ensures text { (bytes a b : List ℕ) → Imports bytes a → Imports bytes b → a ≡ b }
    ensures refusal { (bytes : List ℕ) (a b : PatchRefused)
        → RefusesDocument bytes a → RefusesDocument bytes b → a ≡ b }
    ensures apart { (bytes text : List ℕ) (why : PatchRefused)
        → Imports bytes text → RefusesDocument bytes why → ⊥ }
{}

/// The text of an item without faults is bad exactly where its line alone, with its end, is no set
/// file, and at the same place: docs/DEFINITIONS.md, "What is left of a document".
///
/// A law; no effect at run time.
pub fn bad_texts()
    ensures { (kind : ItemKind) (d : Data) (at : ℕ) → fault_of kind d ≡ None
        → IsItemPlace kind (item_text kind d) (Some at)
        ↔ IsFileOutside (line_of kind d) (length (before_text kind d) + at) }
{}
