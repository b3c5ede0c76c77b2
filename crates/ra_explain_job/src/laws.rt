//! What an explanation has to do with the lines of a run.

ghost use Rattle.ra_set.specs.Contents.{SetContents};
ghost use Rattle.ra_explain_job.specs.Told.{UnlocksAreTold};

/// The frame at which an explanation finds that an achievement unlocks is the one at which a run from the plain opening
/// tells its unlock: docs/DEFINITIONS.md, "Events" and "Explanations".
///
/// A law; no effect at run time. It holds for every set that repeats no id, every achievement of it that was not earned
/// before, and every history.
pub fn unlocks_are_told()
    ensures { (set : SetContents) → UnlocksAreTold set }
{}
