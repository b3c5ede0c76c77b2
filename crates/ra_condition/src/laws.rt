//! What holds of all texts, triggers and values.

ghost use Rattle.std.specs.Prelude.{◌↔◌, ℕ, List};
ghost use Rattle.ra_condition.specs.Contents.{PartContents, TriggerContents};
ghost use Rattle.ra_condition.specs.Grammar.{trigger};
ghost use Rattle.ra_condition.specs.Spelled.{IsTrigger, IsValue};
ghost use Rattle.ra_condition.specs.Values.{value};
ghost use Rattle.ra_text.specs.Place.{OneSpelling};

/// A text spells at most one trigger: docs/DEFINITIONS.md, "Triggers".
///
/// A law; no effect at run time.
pub fn one_trigger()
    ensures { OneSpelling trigger }
{}

/// A text spells at most one value: docs/DEFINITIONS.md, "Values".
///
/// A law; no effect at run time.
pub fn one_value()
    ensures { OneSpelling value }
{}

/// Some text spells a trigger exactly where the trigger has its structure: docs/DEFINITIONS.md,
/// "What texts spell".
///
/// A law; no effect at run time.
pub fn spelled_triggers()
    ensures { (t : TriggerContents) → IsTrigger t ↔ ((text : List ℕ) × trigger text t) }
{}

/// Some text spells a value exactly where the value has its structure: docs/DEFINITIONS.md, "What
/// texts spell".
///
/// A law; no effect at run time.
pub fn spelled_values()
    ensures { (v : List PartContents) → IsValue v ↔ ((text : List ℕ) × value text v) }
{}
