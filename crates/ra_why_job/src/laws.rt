//! What holds of all that `why` says.

ghost use Rattle.std.specs.Prelude.{◌≡◌, ◌↔◌, ℕ, List, Option, Some};
ghost use Rattle.ra_why_job.specs.Says.{IsWatched, WhySays};

/// Of told files `why` has status 0 exactly where SET is a set, has an achievement of the id, and TRACE is within its format
/// up to its first unlock or to its end record: docs/DEFINITIONS.md, "Jobs for authors".
///
/// A law; no effect at run time.
pub fn whys_tell_accounts()
    ensures { (content : List ℕ → Option (List ℕ)) (set trace file bytes : List ℕ) (id status : ℕ) (text : List ℕ)
        → content set ≡ Some file → content trace ≡ Some bytes → WhySays content set trace id status text
        → (status ≡ 0) ↔ IsWatched file bytes id }
{}
