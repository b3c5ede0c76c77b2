//! Bytes of a line, as long as they go: docs/DEFINITIONS.md, "Set file".

ghost use Rattle.std.specs.Prelude.{◌≡◌, false, IsFalse, IsTrue, codes};
ghost use Rattle.ra_set.specs.Reading.{PassesRun, format_at, run_at};
ghost use Rattle.ra_set.specs.Runs.{any_but};
ghost use Rattle.ra_text.specs.Moves.{Moves, PassesOne};
ghost use Rattle.ra_text.specs.Reading.{begins};
ghost use Rattle.ra_text.specs.Table.{is_in};

use ra_text::{Cursor, Stop};
use ra_value_format::Format;

// The bytes up to an LF, or to the end.
pub fn take_line_rest(cursor: &mut Cursor<'_>)
    ensures { PassesRun (any_but (codes "\n")) cursor.old.rest.now cursor.new.rest.now }
{
    'bytes: while pass_in_line(cursor) {}
}

// Goes past the next byte if it stands in the line, and says whether it does.
fn pass_in_line(cursor: &mut Cursor<'_>) -> bool
    ensures passed { IsTrue result → PassesOne (any_but (codes "\n")) cursor.old.rest.now cursor.new.rest.now }
    ensures stayed { IsFalse result → cursor.new.rest.now ≡ cursor.old.rest.now }
    ensures is_next { result ≡ begins (is_in (any_but (codes "\n"))) cursor.old.rest.now }
{
    if let [byte, after @ ..] = cursor.rest {
        if *byte != b'\n' {
            cursor.rest = after;
            return true;
        }
    }
    false
}

// The format of a name of one or more bytes of a line other than a space.
pub fn take_format(cursor: &mut Cursor<'_>) -> Result<Format, Stop>
    ensures { Moves result cursor.new.rest.now (format_at cursor.old.rest.now) }
{
    let name = take_name(cursor);
    if name.is_empty() {
        Err(Stop)
    } else {
        Ok(Format::of_name(name))
    }
}

// The bytes up to a space or an LF, or to the end.
fn take_name<'a>(cursor: &mut Cursor<'a>) -> &'a [u8]
    ensures { run_at (any_but (codes " \n")) cursor.old.rest.now ≡ Ok (result.now, cursor.new.rest.now) }
{
    let text = cursor.rest;
    let mut length = 0;
    'bytes: while pass_in_name(cursor) {
        length += 1;
    }
    let (name, _) = text.split_at(length);
    name
}

// Goes past the next byte if it stands in a name, and says whether it does.
fn pass_in_name(cursor: &mut Cursor<'_>) -> bool
    ensures passed { IsTrue result → PassesOne (any_but (codes " \n")) cursor.old.rest.now cursor.new.rest.now }
    ensures stayed { IsFalse result → cursor.new.rest.now ≡ cursor.old.rest.now }
    ensures is_next { result ≡ begins (is_in (any_but (codes " \n"))) cursor.old.rest.now }
{
    if let [byte, after @ ..] = cursor.rest {
        if !matches!(*byte, b' ' | b'\n') {
            cursor.rest = after;
            return true;
        }
    }
    false
}
