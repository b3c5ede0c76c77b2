ghost use Rattle.std.specs.Prelude.{◌≡◌, ◌*◌, ◌+◌, ◌≤◌, ◌^◌, ◌++◌, ℕ, List, OnOk};
ghost use Rattle.ra_set.specs.Contents.{item_contents};
ghost use Rattle.ra_set.specs.Limits.{item_conditions};
ghost use Rattle.ra_set.specs.Spelled.{IsItem};
ghost use Rattle.ra_review.specs.Lines.{item_lines};
ghost use Rattle.ra_review.specs.Reporting.{AreEntries};

use crate::entries::{Entries, more};
use crate::firsts::Firsts;
use crate::formats::{is_text, put_format_notice};
use ra_condition::Refused;
use ra_notices::{Notice, review_item};
use ra_set::{Item, read_line};
use ra_text::OutOfMemory;
use std::alloc::Global;

/// What a review keeps of the lines so far.
#[derive(Drop)]
pub(crate) struct Report {
    pub refusals: Entries,
    pub notices: Entries,
    /// The items that are accepted and repeat no id.
    pub items: Vec<Item>,
    pub firsts: Firsts,
    /// How many lines there were.
    pub lines: usize,
    /// Room for the notices on one item.
    found: Vec<Notice>,
}

impl Report {
    ghost use Rattle.std.specs.Prelude.{◌≡◌, ◌*◌, ◌+◌, ◌≤◌, ◌^◌, List, [], None, OnOk, length};
    ghost use Rattle.ra_richpresence.specs.Cut.{content_of};
    ghost use Rattle.ra_set.specs.Alone.{IsOneLine};
    ghost use Rattle.ra_set.specs.Contents.{item_contents};
    ghost use Rattle.ra_set.specs.Grammar.{Line};
    ghost use Rattle.ra_set.specs.Limits.{item_conditions, most_bytes};
    ghost use Rattle.ra_set.specs.Spelled.{IsItem};
    ghost use Rattle.ra_review.specs.Lines.{Findings, first_with, nothing};
    ghost use Rattle.ra_review.specs.Reporting.{AddsItem, AddsLine, Reports, ReportsBefore, ReportsNoted};

    /// Nothing.
    pub fn none(alloc: Global) -> Self
        ensures { Reports result [] nothing }
    {
        Report {
            refusals: Entries::none(alloc),
            notices: Entries::none(alloc),
            items: Vec::new(alloc),
            firsts: Firsts::none(alloc),
            lines: 0,
            found: Vec::new(alloc),
        }
    }

    /// Judges a line, and adds what it gives. `content` is the line without its end.
    pub fn add_line(
        &mut self,
        alloc: Global,
        line: &[u8],
        content: &[u8],
    ) -> Result<(), OutOfMemory>
        requires size { length line.now ≤ most_bytes }
        requires one { IsOneLine line.now }
        requires content { content.now ≡ content_of line.now }
        ensures { OnOk result ((rows : List Line) (found : Findings) → Reports self.old rows found → AddsLine line.now rows found self.new) }
    {
        self.lines = more(self.lines, 1)?;
        if is_text(content, b"P") {
            return Ok(());
        }
        match read_line(alloc, line) {
            Ok(None) => Ok(()),
            Ok(Some(item)) => self.add_item(alloc, line, item),
            Err(Refused::Syntax { at }) => self.refusals.refuse(self.lines, at, content),
            Err(Refused::Memory) => Err(OutOfMemory),
        }
    }

    // Adds what an accepted item gives, whose line is counted last.
    fn add_item(&mut self, alloc: Global, line: &[u8], item: Item) -> Result<(), OutOfMemory>
        requires spelled { IsItem (item_contents item) }
        requires few { 12 * item_conditions (item_contents item) + 2 ≤ 2 ^ 31 }
        ensures { OnOk result ((rows : List Line) (found : Findings) → ReportsBefore self.old rows found
            → AddsItem line.now (item_contents item) rows found self.new) }
    {
        match self.firsts.note(&item, self.lines)? {
            Some(first) => self.refusals.repeat(self.lines, item.id(), first),
            None => self.keep_item(alloc, line, item),
        }
    }

    // Keeps an item whose id is new and noted, and adds the notices on it.
    fn keep_item(&mut self, alloc: Global, line: &[u8], item: Item) -> Result<(), OutOfMemory>
        requires spelled { IsItem (item_contents item) }
        requires few { 12 * item_conditions (item_contents item) + 2 ≤ 2 ^ 31 }
        ensures { OnOk result ((rows : List Line) (found : Findings) → first_with (item_contents item) 1 rows ≡ None
            → ReportsNoted self.old (item_contents item) rows found → AddsItem line.now (item_contents item) rows found self.new) }
    {
        put_notices(alloc, &mut self.notices, line, &item, &mut self.found)?;
        self.items.push(item)?;
        Ok(())
    }
}

// Adds the notices on an item and on its line. `found` is room for the former.
fn put_notices(
    alloc: Global,
    notices: &mut Entries,
    line: &[u8],
    item: &Item,
    found: &mut Vec<Notice>,
) -> Result<(), OutOfMemory>
    requires spelled { IsItem (item_contents item.now) }
    requires few { 12 * item_conditions (item_contents item.now) + 2 ≤ 2 ^ 31 }
    ensures { OnOk result ((entries : List (List ℕ)) → AreEntries notices.old entries
        → AreEntries notices.new (entries ++ item_lines line.now (item_contents item.now))) }
{
    review_item(alloc, item, found)?;
    notices.notice(item, found)?;
    put_format_notice(notices, line, item)
}
