//! Laws on the definitions, for whoever reads them.

ghost use Rattle.std.specs.Prelude.{◌≡◌, ◌↔◌, ◌⊎◌, ℕ, Bool, List, None, Some, true, false};
ghost use Rattle.ra_condition.specs.declared.condition.Condition.{Condition};
ghost use Rattle.ra_condition.specs.Flags.{is_pause, is_reset, is_measured_if, is_wanted, is_required};
ghost use Rattle.ra_group.specs.declared.form.Form.{Form};
ghost use Rattle.ra_group.specs.Equations.{Frame, frame_of, prev_of, settled_at};
ghost use Rattle.ra_group.specs.Outcome.{outcome_of, next_hits};
ghost use Rattle.ra_group.specs.Counting.{counts_hits};
ghost use Rattle.ra_group.specs.OutcomeLaws.{SomeValid, EachValid, NoneMeasured, IsGreatestNumber};
ghost use Rattle.ra_group.specs.Handed.{AgreeWhereCounted};
ghost use Rattle.ra_group.specs.Laws.{IsPrev, HasEquationsAfter, HasEquationsFirst, HasOwnEquations};

/// The equations hold of each condition and the one before it: docs/DEFINITIONS.md, "Equations of a
/// condition".
///
/// A law; no effect at run time. The condition before is found by the text alone.
pub fn equations_hold()
    ensures prev { (f : Frame) (j i : ℕ) → IsPrev f.conditions j i → prev_of f j ≡ Some (settled_at f i) }
    ensures no_prev { (f : Frame) (j : ℕ) → ((i : ℕ) → ¬ (IsPrev f.conditions j i)) → prev_of f j ≡ None }

    ensures after { (f : Frame) (j i : ℕ) → IsPrev f.conditions j i → HasEquationsAfter f j i }
    ensures first { (f : Frame) (j : ℕ) → ((i : ℕ) → ¬ (IsPrev f.conditions j i)) → HasEquationsFirst f j }
    ensures own { (f : Frame) (j : ℕ) → HasOwnEquations f j }
{}

/// What a group says, by its conditions: docs/DEFINITIONS.md, "Group outcome".
///
/// A law; no effect at run time.
pub fn outcome_holds()
    ensures paused { (form : Form) (f : Frame) → ((outcome_of form f).paused ≡ true) ↔ SomeValid is_pause f }
    ensures reset { (form : Form) (f : Frame) → ((outcome_of form f).reset ≡ true)
        ↔ (((outcome_of form f).paused ≡ false) × SomeValid is_reset f) }
    ensures valid { (form : Form) (f : Frame) → ((outcome_of form f).valid ≡ true)
        ↔ (((outcome_of form f).paused ≡ false) × ((outcome_of form f).reset ≡ false) × EachValid is_required f) }
    ensures primed { (form : Form) (f : Frame) → ((outcome_of form f).primed ≡ true)
        ↔ (((outcome_of form f).paused ≡ false) × ((outcome_of form f).reset ≡ false) × EachValid is_wanted f) }
{}

/// What a group measures, by its conditions: docs/DEFINITIONS.md, "Group outcome".
///
/// A law; no effect at run time.
pub fn measured_holds()
    ensures unmeasured { (form : Form) (f : Frame) → ((outcome_of form f).measured ≡ None)
        ↔ (((outcome_of form f).paused ≡ true) ⊎ NoneMeasured f) }
    ensures measured { (form : Form) (f : Frame) (n : ℕ) → (outcome_of form f).measured ≡ Some n
        → EachValid is_measured_if f → IsGreatestNumber form f n }
    ensures measured_zero { (form : Form) (f : Frame) (n : ℕ) → (outcome_of form f).measured ≡ Some n
        → ¬ (EachValid is_measured_if f) → n ≡ 0 }
    ensures from_hits { (form : Form) (f : Frame)
        → (outcome_of form f).from_hits ≡ counts_hits form f.conditions }
{}

/// The comparisons of conditions that only hand a value on do not matter: docs/DEFINITIONS.md,
/// "Equations of a condition".
///
/// A law; no effect at run time.
pub fn handed_on_holds()
    ensures outcome { (form : Form) (cs : List Condition) (truths truths' : List Bool) (lefts hits : List ℕ)
        → AgreeWhereCounted cs truths truths'
        → outcome_of form (frame_of cs truths lefts hits) ≡ outcome_of form (frame_of cs truths' lefts hits) }
    ensures next { (cs : List Condition) (truths truths' : List Bool) (lefts hits : List ℕ)
        → AgreeWhereCounted cs truths truths'
        → next_hits (frame_of cs truths lefts hits) ≡ next_hits (frame_of cs truths' lefts hits) }
{}
