//! A line that stands alone in a file: docs/DEFINITIONS.md, "Set file" and "First bad place".

ghost use Rattle.std.specs.Prelude.{◌≡◌, ◌≤◌, false, length, option_map, IfErr, IfOk, OnErr, OnOk};
ghost use Rattle.ra_condition.specs.Refusals.{IfSyntax};
ghost use Rattle.ra_set.specs.Alone.{AloneUnlessFull, ContainsAlone, EndsRow, IsOneLine, OptionalItem, StopsRow};
ghost use Rattle.ra_set.specs.Alone.{is_script_line, conditions_in_line};
ghost use Rattle.ra_set.specs.Contents.{item_contents};
ghost use Rattle.ra_set.specs.Places.{IsFileOutside};

use crate::item::Item;
use crate::lines::{take_end, take_script_line};
use crate::row::take_row;
use ra_condition::{Fault, Refused};
use ra_text::{Cursor, Stop};
use std::alloc::Global;

/// The item of a line that is a file of its own, if it has one. It stands there with its own end,
/// and is not the line "P".
///
/// `Syntax` carries the first bad place of that file. It comes exactly where the file is outside the
/// grammar.
pub fn read_line(alloc: Global, line: &[u8]) -> Result<Option<Item>, Refused>
    requires one { IsOneLine line.now }
    requires other { is_script_line line.now ≡ false }
    ensures ok { IfOk result (λ item. ContainsAlone line.now (option_map item_contents item)) }
    ensures structure { IfOk result (λ item. OptionalItem (option_map item_contents item)) }
    ensures few { IfOk result (λ item. conditions_in_line (option_map item_contents item) ≤ length line.now) }
    ensures err { IfErr result (λ e. IfSyntax e (λ place. IsFileOutside line.now place)) }
{
    let mut cursor = Cursor::new(line, 0);
    match take_alone(alloc, &mut cursor) {
        Ok(item) => Ok(item),
        Err(Fault::Stop) => Err(Refused::Syntax {
            at: cursor.place(line),
        }),
        Err(Fault::Memory) => Err(Refused::Memory),
    }
}

// The item of a line to its end.
fn take_alone(alloc: Global, cursor: &mut Cursor<'_>) -> Result<Option<Item>, Fault>
    requires one { IsOneLine cursor.old.rest.now }
    requires other { is_script_line cursor.old.rest.now ≡ false }
    ensures { AloneUnlessFull result cursor.old.rest.now cursor.new.rest.now }
{
    if cursor.is_at(b'P') {
        take_script_line(cursor)?;
        return Ok(None);
    }
    let (item, wants_end) = take_row(alloc, cursor)?;
    match take_row_end(cursor, wants_end) {
        Ok(()) => Ok(item),
        Err(Stop) => Err(Fault::Stop),
    }
}

// An LF, or the end of the file after a row that wants no LF.
fn take_row_end(cursor: &mut Cursor<'_>, wants_end: bool) -> Result<(), Stop>
    ensures ok { OnOk result (EndsRow wants_end cursor.old.rest.now cursor.new.rest.now) }
    ensures err { OnErr result (StopsRow wants_end cursor.old.rest.now cursor.new.rest.now) }
{
    if cursor.skip(b'\n') {
        Ok(())
    } else {
        take_end(cursor, wants_end)
    }
}
