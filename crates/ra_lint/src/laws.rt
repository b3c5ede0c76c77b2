//! Laws on warnings, for whoever reads their definitions.

ghost use Rattle.std.specs.Prelude.{◌≡◌, ◌↔◌, ℕ, true, List};
ghost use Rattle.ra_operand.specs.declared.op.Op.{Op};
ghost use Rattle.ra_condition.specs.Contents.{TriggerContents};
ghost use Rattle.ra_condition.specs.Spelled.{IsTrigger};
ghost use Rattle.ra_memory.specs.Image.{History};
ghost use Rattle.ra_indirect.specs.Trees.{Tree};
ghost use Rattle.ra_memref.specs.Values.{Start, value_of};
ghost use Rattle.ra_set.specs.Accepted.{IsSet};
ghost use Rattle.ra_set.specs.Contents.{SetContents};
ghost use Rattle.ra_lint.specs.declared.range.Range.{Range};
ghost use Rattle.ra_lint.specs.declared.warning.Place.{Place};
ghost use Rattle.ra_lint.specs.Fewness.{HasFewAlts};
ghost use Rattle.ra_lint.specs.Laws.{AreSound};
ghost use Rattle.ra_lint.specs.Ordered.{IsOrdered};
ghost use Rattle.ra_lint.specs.Ranges.{range_of};
ghost use Rattle.ra_lint.specs.Sound.{AllMeet, HasSmallConstants, IsIn, SomeMeet};
ghost use Rattle.ra_lint.specs.Verdicts.{all_meet, some_meet};

/// What warnings say holds after every history: docs/DEFINITIONS.md, "Warnings".
///
/// A law; no effect at run time.
pub fn warnings_hold()
    ensures { (place : Place) (t : TriggerContents) → IsTrigger t → AreSound place t }
{}

/// The value of each tree whose constants are numbers of 32 bits lies in its range, whatever stands before the first
/// frame and after every history: docs/DEFINITIONS.md, "Ranges".
///
/// A law; no effect at run time.
pub fn ranges_hold()
    ensures { (start : Start) (history : History) (tree : Tree) → HasSmallConstants tree
        → IsIn (value_of start tree history) (range_of tree) }
{}

/// Ranges are judged by all numbers in them: docs/DEFINITIONS.md, "Comparisons that never or always hold".
///
/// A law; no effect at run time.
pub fn verdicts_hold()
    ensures some { (op : Op) (left right : Range) → IsOrdered left → IsOrdered right
        → (some_meet op left right ≡ true) ↔ SomeMeet op left right }
    ensures all { (op : Op) (left right : Range) → IsOrdered left → IsOrdered right
        → (all_meet op left right ≡ true) ↔ AllMeet op left right }
{}

/// A set that a file spells has fewer than 2^32 alt groups, so each has a number of 32 bits:
/// docs/DEFINITIONS.md, "Warnings".
///
/// A law; no effect at run time.
pub fn accepted_sets_have_few_alts()
    ensures { (file : List ℕ) (set : SetContents) → IsSet file set → HasFewAlts set }
{}
