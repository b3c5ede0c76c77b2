//! What holds of all files and reviews.

ghost use Rattle.std.specs.Prelude.{◌≡◌, ◌↔◌, ℕ, List, None};
ghost use Rattle.ra_set.specs.Accepted.{IsSet};
ghost use Rattle.ra_set.specs.Contents.{SetContents};
ghost use Rattle.ra_review.specs.Reviews.{IsReview, Said};

/// A review refuses nothing and tells no limit exactly where the file is a set:
/// docs/DEFINITIONS.md, "Review of a set".
///
/// A law; no effect at run time.
pub fn sets_are_not_refused()
    ensures { (file : List ℕ) (said : Said) → IsReview file said
        → ((said.refused ≡ 0) × (said.limit ≡ None)) ↔ ((set : SetContents) × IsSet file set) }
{}
