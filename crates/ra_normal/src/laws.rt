//! Laws on normal texts, for whoever reads their definitions.

ghost use Rattle.std.specs.Prelude.{ℕ, List};
ghost use Rattle.ra_condition.specs.Contents.{Legacy};
ghost use Rattle.ra_condition.specs.Spelled.{IsPart};
ghost use Rattle.ra_condition.specs.declared.part.Term.{Term};
ghost use Rattle.ra_memory.specs.Image.{History};
ghost use Rattle.ra_memref.specs.Values.{Start};
ghost use Rattle.ra_normal.specs.Laws.{IsAlike, condition_step};

/// A legacy part and its condition part give the same number at each frame of each history, whatever stands before
/// the first one and whatever hits the conditions have; the condition part resets nothing, and its number does not
/// come from hits: docs/DEFINITIONS.md, "Normal text".
///
/// A law; no effect at run time.
pub fn legacy_parts_are_condition_parts()
    ensures { (start : Start) (history : History) (terms : List Term) (hits : List ℕ) (old : ℕ)
        → IsPart (Legacy terms) → IsAlike start history terms (condition_step start history terms hits old) }
{}
