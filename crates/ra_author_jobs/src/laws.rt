//! What holds of all reviews that are printed.

ghost use Rattle.std.specs.Prelude.{◌≡◌, ◌↔◌, ℕ, List, Option, Some};
ghost use Rattle.ra_set.specs.Accepted.{IsSet};
ghost use Rattle.ra_set.specs.Contents.{SetContents};
ghost use Rattle.ra_author_jobs.specs.Expected.{Expected, ReviewSays};

/// A review of a told file has status 0 exactly where the file is a set: docs/DEFINITIONS.md,
/// "Jobs for authors".
///
/// A law; no effect at run time.
pub fn reviews_pass_sets()
    ensures { (content : List ℕ → Option (List ℕ)) (set file : List ℕ) (e : Expected) → content set ≡ Some file
        → ReviewSays content set e → (e.status ≡ 0) ↔ ((s : SetContents) × IsSet file s) }
{}
