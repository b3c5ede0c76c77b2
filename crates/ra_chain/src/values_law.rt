//! The law of the values that a group's conditions hand on.

ghost use Rattle.std.specs.Prelude.{◌≡◌, List};
ghost use Rattle.ra_condition.specs.declared.condition.Condition.{Condition};
ghost use Rattle.ra_indirect.specs.Trees.{Tree};
ghost use Rattle.ra_chain.specs.Elaboration.{AreValues, values_of};

/// The rules of a group have exactly one solution, so whoever reads the rules knows the values:
/// docs/DEFINITIONS.md, "Trees of a group".
///
/// A law; no effect at run time.
pub fn group_values_hold()
    ensures solution { (cs : List Condition) → AreValues cs (values_of cs) }
    ensures only { (cs : List Condition) (values : List Tree) → AreValues cs values → values ≡ values_of cs }
{}
