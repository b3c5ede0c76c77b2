//! Laws on the pass order, for whoever reads its definition.

ghost use Rattle.std.specs.Prelude.{◌≡◌, ◌↔◌, ◌<◌, ℕ, List, length, true, false, IsPermutation};
ghost use Rattle.ra_condition.specs.declared.condition.Condition.{Condition};
ghost use Rattle.ra_condition.specs.Chains.{in_pause_chain, places, pass_order};
ghost use Rattle.ra_chain.specs.Laws.{EndsInPause, AreChained, StandsBefore};

/// The pass order names each condition once, the pause chains first, and within a chain in text
/// order: docs/DEFINITIONS.md, "Chains and pass order".
///
/// A law; no effect at run time.
pub fn pass_order_holds()
    ensures pause_chain { (cs : List Condition) (j : ℕ) → (in_pause_chain cs j ≡ true) ↔ EndsInPause cs j }

    ensures each_once { (cs : List Condition) → IsPermutation (places cs) (pass_order cs) }
    ensures text_order { (cs : List Condition) (i j : ℕ) → AreChained cs i j → StandsBefore (pass_order cs) i j }
    ensures pauses_first { (cs : List Condition) (i j : ℕ) → i < length cs → j < length cs
        → in_pause_chain cs i ≡ true → in_pause_chain cs j ≡ false → StandsBefore (pass_order cs) i j }
{}
