//! Laws on the frames of an achievement, for whoever reads its definition.

ghost use Rattle.std.specs.Prelude.{◌≡◌, ◌≢◌, ℕ, Bool, List, true, false};
ghost use Rattle.ra_condition.specs.Contents.{TriggerContents};
ghost use Rattle.ra_trigger.specs.declared.state.State.TheVariants.{Waiting, Triggered};
ghost use Rattle.ra_trigger.specs.Steps.{TriggerKept, Together, together, step};
ghost use Rattle.ra_trigger.specs.Laws.{IsFrame, AreCleared, state_after_reset};

/// What a frame does to an achievement: docs/DEFINITIONS.md, "Achievement states".
///
/// A law; no effect at run time. Whether a number comes from hits does not depend on the frame.
pub fn achievement_holds()
    ensures triggered { (t : TriggerContents) (truths : List Bool) (lefts : List ℕ) (old : TriggerKept)
        → old.state ≡ Triggered → step t truths lefts old ≡ old }
    ensures from_hits { (t : TriggerContents) (truths truths' : List Bool) (lefts lefts' hits hits' : List ℕ)
        → (together t truths lefts hits).from_hits ≡ (together t truths' lefts' hits').from_hits }

    // A reset comes first, whatever else the groups say.
    ensures reset_state { (t : TriggerContents) (truths : List Bool) (lefts : List ℕ)
        (old : TriggerKept) (now : Together) (new : TriggerKept)
        → IsFrame t truths lefts old now new → old.state ≢ Triggered → now.reset ≡ true
        → new.state ≡ state_after_reset now }
    ensures reset_clears { (t : TriggerContents) (truths : List Bool) (lefts : List ℕ)
        (old : TriggerKept) (now : Together) (new : TriggerKept)
        → IsFrame t truths lefts old now new → old.state ≢ Triggered → now.reset ≡ true
        → AreCleared t now new }

    // An achievement that is valid from the start waits until it is not.
    ensures waiting_state { (t : TriggerContents) (truths : List Bool) (lefts : List ℕ)
        (old : TriggerKept) (now : Together) (new : TriggerKept)
        → IsFrame t truths lefts old now new → old.state ≡ Waiting → now.reset ≡ false
        → now.valid ≡ true → new.state ≡ Waiting }
    ensures waiting_clears { (t : TriggerContents) (truths : List Bool) (lefts : List ℕ)
        (old : TriggerKept) (now : Together) (new : TriggerKept)
        → IsFrame t truths lefts old now new → old.state ≡ Waiting → now.valid ≡ true
        → AreCleared t now new }
{}
