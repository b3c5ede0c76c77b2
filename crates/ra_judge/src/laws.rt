//! What holds of all items.

ghost use Rattle.std.specs.Prelude.{◌≡◌, ℕ, List};
ghost use Rattle.ra_judge.specs.Judging.{IsAccepted, IsRefused};
ghost use Rattle.ra_judge.specs.declared.judging.Kind.{Kind};
ghost use Rattle.ra_judge.specs.declared.refusal.Refusal.{Refusal};

/// The text of an item is accepted, or refused for one reason, and never both: docs/DEFINITIONS.md, "Calls from C".
///
/// A law; no effect at run time.
pub fn items_have_one_answer()
    ensures refusal { (kind : Kind) (text : List ℕ) (a b : Refusal) → IsRefused kind text a → IsRefused kind text b → a ≡ b }
    ensures apart { (kind : Kind) (text : List ℕ) (why : Refusal) → IsAccepted kind text → IsRefused kind text why → ⊥ }
{}
