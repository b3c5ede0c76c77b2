//! Laws on the numbers that a step needs: docs/INTERNALS.md, "Numbers that a step needs". They do nothing.

ghost use Rattle.std.specs.Prelude.{◌≡◌, ℕ, Bool, List, map};
ghost use Rattle.ra_condition.specs.Contents.{PartContents, TriggerContents, counted_in, groups_of};
ghost use Rattle.ra_group.specs.declared.form.Form.{Form};
ghost use Rattle.ra_group.specs.declared.form.Form.TheVariants.{InTrigger, InValue};
ghost use Rattle.ra_group.specs.Equations.{Frame};
ghost use Rattle.ra_group.specs.Outcome.{next_hits, outcome_of};
ghost use Rattle.ra_trigger.specs.Steps.{TriggerKept, hits_after_truth, step as achievement_step, truth};
ghost use Rattle.ra_value.specs.Steps.{ValueKept, step as value_step};
ghost use Rattle.ra_schedule.specs.Given.{AgreeWhereGiven, GiveTheSame, with_lefts};

/// What a group says and keeps hangs on the comparisons of its conditions, and of their left values on those alone that a
/// measured condition gives as its number.
pub fn groups_need_few_numbers()
    ensures outcome { (form : Form) (f : Frame) (others : List ℕ) → AgreeWhereGiven form f.conditions f.lefts others
        → outcome_of form (with_lefts f others) ≡ outcome_of form f }
    ensures next { (f : Frame) (others : List ℕ) → next_hits (with_lefts f others) ≡ next_hits f }
{}

/// So do the steps of an achievement and of a trigger without states.
pub fn triggers_need_few_numbers()
    ensures achievements { (t : TriggerContents) (truths : List Bool) (lefts others : List ℕ) (old : TriggerKept)
        → GiveTheSame InTrigger (groups_of t) lefts others
        → achievement_step t truths others old ≡ achievement_step t truths lefts old }
    ensures truth { (t : TriggerContents) (truths : List Bool) (lefts others hits : List ℕ)
        → GiveTheSame InTrigger (groups_of t) lefts others → truth t truths others hits ≡ truth t truths lefts hits }
    ensures hits { (t : TriggerContents) (truths : List Bool) (lefts others hits : List ℕ)
        → GiveTheSame InTrigger (groups_of t) lefts others
        → hits_after_truth t truths others hits ≡ hits_after_truth t truths lefts hits }
{}

/// And so does the step of a value, whose legacy parts need their sums.
pub fn values_need_few_numbers()
    ensures { (parts : List PartContents) (truths : List Bool) (lefts others sums : List ℕ) (old : ValueKept)
        → GiveTheSame InValue (map counted_in parts) lefts others
        → value_step parts truths others sums old ≡ value_step parts truths lefts sums old }
{}
