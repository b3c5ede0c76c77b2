//! Laws on rest: docs/INTERNALS.md, "Rest". They do nothing.

ghost use Rattle.std.specs.Prelude.{◌≡◌, ◌+◌, ◌≤◌, ℕ, Bool, List, length, map, slice_index, true};
ghost use Rattle.ra_condition.specs.Contents.{PartContents, TriggerContents, counted_in, groups_of, trigger_hits, value_hits};
ghost use Rattle.ra_group.specs.declared.form.Form.{Form};
ghost use Rattle.ra_group.specs.declared.form.Form.TheVariants.{InTrigger, InValue};
ghost use Rattle.ra_group.specs.Equations.{Frame};
ghost use Rattle.ra_group.specs.Outcome.{outcome_of, next_hits};
ghost use Rattle.ra_trigger.specs.Steps.{TriggerKept, hits_after_truth, step as achievement_step, truth};
ghost use Rattle.ra_value.specs.Steps.{ValueKept, step as value_step};
ghost use Rattle.ra_schedule.specs.Groups.{AgreeButFree, all_keep, groups_keep, paid, rested_hits, with_hits};
ghost use Rattle.ra_schedule.specs.Triggers.{owed_trigger, rested_achievement, rested_test};
ghost use Rattle.ra_schedule.specs.Values.{owed_value, rested_value};

/// What a group says does not hang on the hits of free conditions, a group that rests goes on to rest, and it rests where
/// each of its conditions keeps its hits, or is free and has one more.
pub fn groups_rest()
    ensures outcome { (form : Form) (f : Frame) (hits : List ℕ) → AgreeButFree form f.conditions f.hits hits
        → outcome_of form (with_hits f hits) ≡ outcome_of form f }
    ensures next { (form : Form) (f : Frame) (n : ℕ) → next_hits f ≡ rested_hits 1 form f
        → next_hits (with_hits f (rested_hits n form f)) ≡ rested_hits (n + 1) form f }
    ensures seen { (form : Form) (f : Frame) → all_keep form f.conditions f.hits (next_hits f) ≡ true
        → next_hits f ≡ rested_hits 1 form f }
{}

/// An achievement that rests goes on to rest: its state and its measured number stay.
pub fn achievements_rest()
    ensures { (n : ℕ) (t : TriggerContents) (truths : List Bool) (lefts : List ℕ) (old : TriggerKept)
        → achievement_step t truths lefts old ≡ rested_achievement 1 t truths lefts old
        → achievement_step t truths lefts (rested_achievement n t truths lefts old)
        ≡ rested_achievement (n + 1) t truths lefts old }
{}

/// A trigger without states that rests goes on to rest, and says what it said.
pub fn tests_rest()
    ensures hits { (n : ℕ) (t : TriggerContents) (truths : List Bool) (lefts hits : List ℕ)
        → hits_after_truth t truths lefts hits ≡ rested_test 1 t truths lefts hits
        → hits_after_truth t truths lefts (rested_test n t truths lefts hits)
        ≡ rested_test (n + 1) t truths lefts hits }
    ensures truth { (n : ℕ) (t : TriggerContents) (truths : List Bool) (lefts hits : List ℕ)
        → truth t truths lefts (rested_test n t truths lefts hits) ≡ truth t truths lefts hits }
{}

/// A value that rests goes on to rest: its numbers stay.
pub fn values_rest()
    ensures { (n : ℕ) (parts : List PartContents) (truths : List Bool) (lefts sums : List ℕ) (old : ValueKept)
        → value_step parts truths lefts sums old ≡ rested_value 1 parts truths lefts sums old
        → value_step parts truths lefts sums (rested_value n parts truths lefts sums old)
        ≡ rested_value (n + 1) parts truths lefts sums old }
{}

/// How rest is seen, by what is kept before and after a frame: an achievement rests that keeps its state and its measured
/// number, a value that keeps its numbers, and a trigger without states, where each condition keeps its hits, or is free
/// and has one more. There are as many hits as conditions.
pub fn rest_is_seen()
    ensures achievements { (t : TriggerContents) (truths : List Bool) (lefts : List ℕ) (old : TriggerKept)
        → length old.hits ≡ trigger_hits t
        → (achievement_step t truths lefts old).state ≡ old.state
        → (achievement_step t truths lefts old).measured ≡ old.measured
        → groups_keep InTrigger (groups_of t) old.hits (achievement_step t truths lefts old).hits ≡ true
        → achievement_step t truths lefts old ≡ rested_achievement 1 t truths lefts old }
    ensures tests { (t : TriggerContents) (truths : List Bool) (lefts hits : List ℕ) → length hits ≡ trigger_hits t
        → groups_keep InTrigger (groups_of t) hits (hits_after_truth t truths lefts hits) ≡ true
        → hits_after_truth t truths lefts hits ≡ rested_test 1 t truths lefts hits }
    ensures values { (parts : List PartContents) (truths : List Bool) (lefts sums : List ℕ) (old : ValueKept)
        → length old.hits ≡ value_hits parts → (value_step parts truths lefts sums old).numbers ≡ old.numbers
        → groups_keep InValue (map counted_in parts) old.hits (value_step parts truths lefts sums old).hits ≡ true
        → value_step parts truths lefts sums old ≡ rested_value 1 parts truths lefts sums old }
{}

/// What n frames more at rest leave, by the hits before and after the first one: `paid` of these. There are as many
/// hits as conditions, of 32 bits.
pub fn hits_are_owed()
    ensures achievements { (n : ℕ) (t : TriggerContents) (truths : List Bool) (lefts : List ℕ) (old : TriggerKept)
        → length old.hits ≡ trigger_hits t → ((j : ℕ) → slice_index old.hits j ≤ 4294967295)
        → achievement_step t truths lefts old ≡ rested_achievement 1 t truths lefts old
        → rested_achievement n t truths lefts (achievement_step t truths lefts old)
        ≡ owed_trigger n old.hits (achievement_step t truths lefts old) }
    ensures tests { (n : ℕ) (t : TriggerContents) (truths : List Bool) (lefts hits : List ℕ)
        → length hits ≡ trigger_hits t → ((j : ℕ) → slice_index hits j ≤ 4294967295)
        → hits_after_truth t truths lefts hits ≡ rested_test 1 t truths lefts hits
        → rested_test n t truths lefts (hits_after_truth t truths lefts hits)
        ≡ paid n hits (hits_after_truth t truths lefts hits) }
    ensures values { (n : ℕ) (parts : List PartContents) (truths : List Bool) (lefts sums : List ℕ) (old : ValueKept)
        → length old.hits ≡ value_hits parts → ((j : ℕ) → slice_index old.hits j ≤ 4294967295)
        → value_step parts truths lefts sums old ≡ rested_value 1 parts truths lefts sums old
        → rested_value n parts truths lefts sums (value_step parts truths lefts sums old)
        ≡ owed_value n old.hits (value_step parts truths lefts sums old) }
{}

/// What rests goes on to rest, and what it owes is `paid`: each frame more adds one to what counted, and changes
/// nothing else.
///
/// Rest is seen by what is kept before and after its first frame, as `rest_is_seen` says. There are as many hits as
/// conditions, of 32 bits.
pub fn rest_goes_on()
    ensures achievements { (t : TriggerContents) (truths : List Bool) (lefts : List ℕ) (old : TriggerKept)
        → length old.hits ≡ trigger_hits t → ((j : ℕ) → slice_index old.hits j ≤ 4294967295)
        → (achievement_step t truths lefts old).state ≡ old.state
        → (achievement_step t truths lefts old).measured ≡ old.measured
        → groups_keep InTrigger (groups_of t) old.hits (achievement_step t truths lefts old).hits ≡ true
        → (n : ℕ)
        → achievement_step t truths lefts (owed_trigger n old.hits (achievement_step t truths lefts old))
        ≡ owed_trigger (n + 1) old.hits (achievement_step t truths lefts old) }
    ensures tests { (t : TriggerContents) (truths : List Bool) (lefts hits : List ℕ)
        → length hits ≡ trigger_hits t → ((j : ℕ) → slice_index hits j ≤ 4294967295)
        → groups_keep InTrigger (groups_of t) hits (hits_after_truth t truths lefts hits) ≡ true
        → (n : ℕ)
        → hits_after_truth t truths lefts (paid n hits (hits_after_truth t truths lefts hits))
        ≡ paid (n + 1) hits (hits_after_truth t truths lefts hits) }
    ensures truths { (t : TriggerContents) (truths : List Bool) (lefts hits : List ℕ)
        → length hits ≡ trigger_hits t → ((j : ℕ) → slice_index hits j ≤ 4294967295)
        → groups_keep InTrigger (groups_of t) hits (hits_after_truth t truths lefts hits) ≡ true
        → (n : ℕ)
        → truth t truths lefts (paid n hits (hits_after_truth t truths lefts hits)) ≡ truth t truths lefts hits }
    ensures values { (parts : List PartContents) (truths : List Bool) (lefts sums : List ℕ) (old : ValueKept)
        → length old.hits ≡ value_hits parts → ((j : ℕ) → slice_index old.hits j ≤ 4294967295)
        → (value_step parts truths lefts sums old).numbers ≡ old.numbers
        → groups_keep InValue (map counted_in parts) old.hits (value_step parts truths lefts sums old).hits ≡ true
        → (n : ℕ)
        → value_step parts truths lefts sums (owed_value n old.hits (value_step parts truths lefts sums old))
        ≡ owed_value (n + 1) old.hits (value_step parts truths lefts sums old) }
    ensures nothing { (before hits : List ℕ) → ((j : ℕ) → slice_index hits j ≤ 4294967295)
        → paid 0 before hits ≡ hits }
{}
