ghost use Rattle.std.specs.Prelude.{ℕ, List, [], ◌∷◌, ◌++◌};
ghost use Rattle.ra_richpresence.specs.Following.{AddsUnlessFull};
ghost use Rattle.ra_richpresence.specs.Grammar.{SectionContents};
ghost use Rattle.ra_richpresence.specs.Kept.{Keeps};
ghost use Rattle.ra_richpresence.specs.Sections.{IsSectionOf};

use crate::lookup::Lookup;
use crate::section::Section;
use ra_condition::Fault;
use ra_value_format::Format;
use std::alloc::Global;
use std::collections::BTreeSet;

/// The sections of a script that are kept: of those that share a name the first. And how long the
/// first text of the kept lookups is that passes `most` bytes.
#[derive(Drop)]
pub struct Kept {
    /// The most bytes of a text that is not long.
    pub most: u64,
    /// The length of the first long text, if there is one.
    pub long: Option<u64>,
    /// The names that are taken.
    pub names: BTreeSet<Vec<u8>>,
    /// The lookups that are kept, in text order.
    pub lookups: Vec<Lookup>,
    /// The formats that are kept, each under its name, in text order.
    pub formats: Vec<(Vec<u8>, Format)>,
}

impl Kept {
    /// No sections.
    pub fn new(alloc: Global, most: u64) -> Self
        ensures { Keeps most [] result }
    {
        Kept {
            most,
            long: None,
            names: BTreeSet::new(alloc),
            lookups: Vec::new(alloc),
            formats: Vec::new(alloc),
        }
    }

    /// Adds a section, unless its name is taken.
    pub fn add(&mut self, section: Section) -> Result<(), Fault>
        ensures { (most : ℕ) (sections : List SectionContents) (s : SectionContents) → Keeps most sections self.old → IsSectionOf most s section
            → AddsUnlessFull result (Keeps most (sections ++ s ∷ []) self.new) }
    {
        let name = section.name().clone()?;
        if self.names.insert(name)? {
            match section {
                Section::Lookup(found) => {
                    self.long = self.long.or(found.long);
                    self.lookups.push(found.lookup)?;
                }
                Section::Format(name, format) => self.formats.push((name, format))?,
            }
        }
        Ok(())
    }
}
