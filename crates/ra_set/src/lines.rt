//! The lines of a set file: docs/DEFINITIONS.md, "Set file".

ghost use Rattle.std.specs.Prelude.{◌≤◌, length};
ghost use Rattle.ra_set.specs.Kept.{KeepsUnlessFull};
ghost use Rattle.ra_set.specs.Limits.{most_bytes};
ghost use Rattle.ra_set.specs.Reading.{end_at, front_at, lines_in, script_end_at, script_line_at};
ghost use Rattle.ra_text.specs.Moves.{Moves};

use crate::file_lines::FileLines;
use crate::kept_lines::KeptLines;
use crate::row::{take_return, take_row};
use ra_condition::Fault;
use ra_text::{Cursor, Stop};
use std::alloc::Global;

// The lines of a file: all, each with its end but the last, or those up to a line `P` and that line.
pub fn take_lines(alloc: Global, cursor: &mut Cursor<'_>) -> Result<FileLines, Fault>
    requires { length cursor.old.rest.now ≤ most_bytes }
    ensures { KeepsUnlessFull result cursor.new.rest.now (lines_in (front_at cursor.old.rest.now)) }
{
    let mut kept = KeptLines::none(alloc);
    'lines: while !cursor.is_at(b'P') {
        let (line, wants_end) = take_row(alloc, cursor)?;
        kept.add(line)?;
        if !cursor.skip(b'\n') {
            take_end(cursor, wants_end)?;
            return Ok(FileLines {
                kept,
                has_script: false,
            });
        }
    }
    take_script_line(cursor)?;
    Ok(FileLines {
        kept,
        has_script: true,
    })
}

// The end of the file, after a row that wants no LF.
pub fn take_end(cursor: &Cursor<'_>, wants_end: bool) -> Result<(), Stop>
    ensures { Moves result cursor.now.rest.now (end_at wants_end cursor.now.rest.now) }
{
    if wants_end || !cursor.rest.is_empty() {
        Err(Stop)
    } else {
        Ok(())
    }
}

// A line `P` with its end, or at the end of the file.
pub fn take_script_line(cursor: &mut Cursor<'_>) -> Result<(), Stop>
    ensures { Moves result cursor.new.rest.now (script_line_at cursor.old.rest.now) }
{
    cursor.byte(b'P')?;
    take_script_end(cursor)
}

// LF or CR LF, or nothing at the end of the file.
fn take_script_end(cursor: &mut Cursor<'_>) -> Result<(), Stop>
    ensures { Moves result cursor.new.rest.now (script_end_at cursor.old.rest.now) }
{
    if cursor.rest.is_empty() {
        return Ok(());
    }
    take_return(cursor);
    cursor.byte(b'\n')
}
