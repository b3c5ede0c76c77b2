//! Laws on truths, for whoever reads their definitions.

ghost use Rattle.std.specs.Prelude.{◌≡◌, ℕ, false, List, map, slice_index_or};
ghost use Rattle.ra_memref.specs.Table.{TableSeen};
ghost use Rattle.ra_truths.specs.Truths.{HasNone, Takes, TruthsSeen};

/// Whoever reads comparisons of which none flipped at a frame sees the truths that it saw before:
/// docs/INTERNALS.md, "Truths of comparisons".
///
/// A law; no effect at run time.
pub fn unflipped_truths_stay()
    ensures { (old new : TruthsSeen) (table : TableSeen) (numbers : List ℕ) → Takes old new table
        → HasNone new.flipped numbers
        → map (λ k. slice_index_or new.truths k false) numbers ≡ map (λ k. slice_index_or old.truths k false) numbers }
{}
