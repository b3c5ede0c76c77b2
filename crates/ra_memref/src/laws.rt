//! Laws on the values of a frame, for whoever reads their definitions.

ghost use Rattle.std.specs.Prelude.{◌≡◌, ℕ, List, ◌∷◌, ◌++◌};
ghost use Rattle.ra_memory.specs.Image.{History};
ghost use Rattle.ra_indirect.specs.Trees.{Tree, Cell, Tracked};
ghost use Rattle.ra_memref.specs.Values.{Start, prior_of, value_of, cell_number, tracked_number, start_after};
ghost use Rattle.ra_memref.specs.Laws.{IsPrior};

/// A prior is the number before the greatest frame of change, and what stands after a front of a
/// history is a new beginning for the rest of it: docs/DEFINITIONS.md, "Values at a frame".
///
/// A law; no effect at run time.
pub fn looking_back_holds()
    ensures prior { (number : History → ℕ) (opened : ℕ) (history : History)
        → IsPrior number opened history (prior_of number opened history) }

    ensures values { (start : Start) (earlier : History) (tree : Tree) (image : List ℕ) (later : History)
        → value_of start tree (image ∷ (later ++ earlier)) ≡ value_of (start_after start earlier) tree (image ∷ later) }
    ensures numbers { (start : Start) (earlier : History) (c : Cell) (later : History)
        → cell_number start c (later ++ earlier) ≡ cell_number (start_after start earlier) c later }
    ensures priors { (start : Start) (earlier : History) (t : Tracked) (later : History)
        → tracked_number start t (later ++ earlier) ≡ tracked_number (start_after start earlier) t later }
{}
