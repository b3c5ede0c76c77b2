ghost use Rattle.std.specs.Prelude.{◌≡◌, ℕ, List, [], ◌∷◌, ◌++◌};
ghost use Rattle.ra_richpresence.specs.Following.{AddsUnlessFull};
ghost use Rattle.ra_richpresence.specs.Grammar.{EntryContents};
ghost use Rattle.ra_richpresence.specs.Sections.{IsLookupOf, entry_contents};
ghost use Rattle.ra_richpresence.specs.Texts.{first_over};

use crate::entries::Entry;
use crate::lookup::Lookup;
use ra_condition::Fault;
use std::alloc::Global;

/// A lookup, and how long the first of its texts is that is longer than a limit.
#[derive(Drop)]
pub struct ReadLookup {
    /// The lookup.
    pub lookup: Lookup,
    /// The length of its first text that is longer than the limit, if one is.
    pub long: Option<u64>,
}

impl ReadLookup {
    /// A lookup without lines.
    pub fn new(alloc: Global, name: Vec<u8>) -> Self
        ensures { (most : ℕ) → IsLookupOf most name.items [] result }
    {
        ReadLookup {
            lookup: Lookup {
                name,
                keys: Vec::new(alloc),
                rest: None,
            },
            long: None,
        }
    }

    /// Adds a line. Of the texts of all other numbers the first stays, and alone counts.
    pub fn add(&mut self, entry: Entry, most: u64) -> Result<(), Fault>
        ensures { (name : List ℕ) (entries : List EntryContents) → IsLookupOf most name entries self.old
            → AddsUnlessFull result (IsLookupOf most name (entries ++ entry_contents entry ∷ []) self.new) }
    {
        match entry {
            Entry::Keyed(keys) => {
                self.long = self.long.or(over(keys.text.len(), most));
                self.lookup.keys.push(keys)?;
            }
            Entry::Other(text) => {
                if self.lookup.rest.is_none() {
                    self.long = self.long.or(over(text.len(), most));
                    self.lookup.rest = Some(text);
                }
            }
        }
        Ok(())
    }
}

// The length, if it is greater than the limit.
fn over(length: usize, most: u64) -> Option<u64>
    ensures { result ≡ first_over most (length ∷ []) }
{
    let length = length as u64;
    if length > most { Some(length) } else { None }
}
