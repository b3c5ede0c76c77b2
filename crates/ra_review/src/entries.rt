ghost use Rattle.std.specs.Prelude.{◌≡◌, ◌+◌, IfOk};

use crate::shown::{put_again, put_format, put_macro, put_notice, put_refusal};
use ra_notices::Notice;
use ra_set::Item;
use ra_text::OutOfMemory;
use std::alloc::Global;

/// The lines of refusals or of notices, one after the other, and how many there are.
#[derive(Drop)]
pub(crate) struct Entries {
    pub text: Vec<u8>,
    pub count: usize,
}

impl Entries {
    ghost use Rattle.std.specs.Prelude.{◌≡◌, ◌++◌, ◌∷◌, [], List, ℕ, OnOk, map};
    ghost use Rattle.ra_set.specs.Contents.{item_contents};
    ghost use Rattle.ra_review.specs.Reporting.{AreEntries};
    ghost use Rattle.ra_review.specs.Shown.{again, format_line, macro_line, notice_line, refusal};

    /// None.
    pub fn none(alloc: Global) -> Self
        ensures { AreEntries result [] }
    {
        Entries {
            text: Vec::new(alloc),
            count: 0,
        }
    }

    /// Adds the refusal of a line at a place.
    pub fn refuse(&mut self, number: usize, place: usize, line: &[u8]) -> Result<(), OutOfMemory>
        ensures { OnOk result ((entries : List (List ℕ)) → AreEntries self.old entries
            → AreEntries self.new (entries ++ refusal number place line.now ∷ [])) }
    {
        put_refusal(&mut self.text, number, place, line)?;
        self.count = more(self.count, 1)?;
        Ok(())
    }

    /// Adds the line of a repeated id.
    pub fn repeat(&mut self, number: usize, id: u32, first: usize) -> Result<(), OutOfMemory>
        ensures { OnOk result ((entries : List (List ℕ)) → AreEntries self.old entries
            → AreEntries self.new (entries ++ again number id first ∷ [])) }
    {
        put_again(&mut self.text, number, id, first)?;
        self.count = more(self.count, 1)?;
        Ok(())
    }

    /// Adds the notices on an item.
    pub fn notice(&mut self, item: &Item, notices: &[Notice]) -> Result<(), OutOfMemory>
        ensures { OnOk result ((entries : List (List ℕ)) → AreEntries self.old entries
            → AreEntries self.new (entries ++ map (notice_line (item_contents item.now)) notices.now)) }
    {
        for notice in notices {
            self.add_notice(item, notice)?;
        }
        Ok(())
    }

    // Adds a notice on an item.
    fn add_notice(&mut self, item: &Item, notice: &Notice) -> Result<(), OutOfMemory>
        ensures { OnOk result ((entries : List (List ℕ)) → AreEntries self.old entries
            → AreEntries self.new (entries ++ notice_line (item_contents item.now) notice.now ∷ [])) }
    {
        put_notice(&mut self.text, item, notice)?;
        self.count = more(self.count, 1)?;
        Ok(())
    }

    /// Adds the notice on the format of a leaderboard.
    pub fn notice_format(&mut self, id: u32, name: &[u8]) -> Result<(), OutOfMemory>
        ensures { OnOk result ((entries : List (List ℕ)) → AreEntries self.old entries
            → AreEntries self.new (entries ++ format_line id name.now ∷ [])) }
    {
        put_format(&mut self.text, id, name)?;
        self.count = more(self.count, 1)?;
        Ok(())
    }

    /// Adds the notice on a macro of the display.
    pub fn notice_macro(&mut self, number: usize, name: &[u8]) -> Result<(), OutOfMemory>
        ensures { OnOk result ((entries : List (List ℕ)) → AreEntries self.old entries
            → AreEntries self.new (entries ++ macro_line number name.now ∷ [])) }
    {
        put_macro(&mut self.text, number, name)?;
        self.count = more(self.count, 1)?;
        Ok(())
    }
}

/// A count with more. One that passes 64 bits counts lines for which there is no memory.
pub(crate) fn more(count: usize, added: usize) -> Result<usize, OutOfMemory>
    ensures { IfOk result (λ all. all ≡ count + added) }
{
    match count.checked_add(added) {
        Some(all) => Ok(all),
        None => Err(OutOfMemory),
    }
}
