//! Laws on the frames of a value, for whoever reads its definition.

ghost use Rattle.std.specs.Prelude.{◌≡◌, ◌<◌, ℕ, Bool, List, true, length, replicate};
ghost use Rattle.std.specs.List.{list_any};
ghost use Rattle.ra_condition.specs.declared.condition.Condition.{Condition};
ghost use Rattle.ra_condition.specs.Contents.{PartContents, Grouped, value_hits};
ghost use Rattle.ra_group.specs.declared.form.Form.TheVariants.{InValue};
ghost use Rattle.ra_group.specs.Equations.{Frame};
ghost use Rattle.ra_group.specs.Outcome.{outcome_of};
ghost use Rattle.ra_value.specs.Laws.{AreWords, IsSignedGreatest};
ghost use Rattle.ra_value.specs.Steps.{ValueKept, part_step, part_steps, step, signed_greatest};

/// What a frame does to a value: docs/DEFINITIONS.md, "Values over frames".
///
/// A law; no effect at run time.
pub fn value_holds()
    ensures greatest { (numbers : List ℕ) → AreWords numbers → 0 < length numbers
        → IsSignedGreatest numbers (signed_greatest numbers) }
    ensures paused { (cs : List Condition) (f : Frame) (sum old : ℕ) → (outcome_of InValue f).paused ≡ true
        → (part_step (Grouped cs) f sum old).number ≡ old }
    ensures reset { (parts : List PartContents) (truths : List Bool) (lefts sums : List ℕ) (old : ValueKept)
        → list_any (λ part. part.reset) (part_steps parts truths lefts old.hits sums old.numbers) ≡ true
        → (step parts truths lefts sums old).hits ≡ replicate (value_hits parts) 0 }
{}
