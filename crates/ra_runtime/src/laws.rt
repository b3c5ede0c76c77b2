//! Laws on the definitions, for whoever reads them.

ghost use Rattle.ra_set.specs.Contents.{SetContents};
ghost use Rattle.ra_runtime.specs.Keeping.{TakesAsRestored};

/// After a kept state is taken up the course stands after each history after which the course stood that kept it, and it is
/// what a restore of the bytes makes of it that a save gave where the state was kept: docs/DEFINITIONS.md, "States kept in
/// memory".
///
/// A law; no effect at run time. It holds for every set; of the second, for every one whose own bytes are no longer than a
/// progress file may be.
pub fn taken_states_are_restored()
    ensures { (set : SetContents) → TakesAsRestored set }
{}
