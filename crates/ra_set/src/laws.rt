//! What holds of all files and sets.

ghost use Rattle.std.specs.Prelude.{◌≡◌, ◌↔◌, ℕ, All, List, None};
ghost use Rattle.ra_set.specs.Accepted.{IsSet};
ghost use Rattle.ra_set.specs.Contents.{SetContents};
ghost use Rattle.ra_set.specs.Grammar.{FileContents, SetFile, set_file};
ghost use Rattle.ra_set.specs.Names.{SpellsTexts};
ghost use Rattle.ra_set.specs.Refusals.{Refuses};
ghost use Rattle.ra_set.specs.Spelled.{HasSmallId, IsSpelled};
ghost use Rattle.ra_set.specs.declared.refused.SetRefused.{SetRefused};
ghost use Rattle.ra_text.specs.Place.{OneSpelling};

/// A file has its contents in one way at most: docs/DEFINITIONS.md, "Set file".
///
/// A law; no effect at run time.
pub fn one_file()
    ensures { OneSpelling set_file }
{}

/// A file is at most one set, or is refused for one reason, and never both: docs/DEFINITIONS.md,
/// "Limits of a set".
///
/// A law; no effect at run time.
pub fn one_answer()
    ensures set { (file : List ℕ) (a b : SetContents) → IsSet file a → IsSet file b → a ≡ b }
    ensures refusal { (file : List ℕ) (a b : SetRefused) → Refuses file a → Refuses file b → a ≡ b }
    ensures apart { (file : List ℕ) (set : SetContents) (why : SetRefused) → IsSet file set → Refuses file why → ⊥ }
{}

/// Some file without a presence script spells a set exactly where its items have their structure
/// and its ids are of 32 bits: docs/DEFINITIONS.md, "What texts spell".
///
/// A law; no effect at run time.
pub fn spelled_sets()
    ensures { (set : SetContents) → set.script ≡ None
        → (IsSpelled set × All HasSmallId set.items) ↔ ((file : List ℕ) × SetFile file set) }
{}

/// The texts that the names of a file are taken of spell what the file contains: each text of an
/// item its item, and the text of the script the script: docs/DEFINITIONS.md, "Names of items and
/// scripts".
///
/// A law; no effect at run time.
pub fn item_lines()
    ensures { (file : List ℕ) (contents : FileContents) → set_file file contents → SpellsTexts file contents }
{}
