//! Where a line is bad as a line of the display: docs/DEFINITIONS.md, "Review of a set".

ghost use Rattle.std.specs.Prelude.{◌≡◌, IfOk, codes, true};
ghost use Rattle.ra_text.specs.Place.{IsBadPlace};
ghost use Rattle.ra_text.specs.Reading.{begins};
ghost use Rattle.ra_text.specs.Table.{is_in, only};
ghost use Rattle.ra_review.specs.Passing.{StopsLine, StopsPieces, TakesPiece};
ghost use Rattle.ra_review.specs.Scripts.{display_line};

use ra_condition::Fault;
use ra_richpresence::{take_character, take_macro, take_test};
use ra_text::{Cursor, OutOfMemory};
use std::alloc::Global;

/// The first bad place of what remains of a line, as a line of the display; its length where it is
/// one.
pub(crate) fn display_place(alloc: Global, line: &[u8]) -> Result<usize, OutOfMemory>
    ensures { IfOk result (λ place. IsBadPlace display_line line.now place) }
{
    let mut cursor = Cursor::new(line, 0);
    match pass_line(alloc, &mut cursor) {
        Ok(()) => Ok(cursor.place(line)),
        Err(Fault::Stop) => Ok(cursor.place(line)),
        Err(Fault::Memory) => Err(OutOfMemory),
    }
}

// Goes over a test, where one begins, and over pieces.
fn pass_line(alloc: Global, cursor: &mut Cursor<'_>) -> Result<(), Fault>
    ensures { StopsLine result cursor.old.rest.now cursor.new.rest.now }
{
    if cursor.is_at(b'?') {
        pass_tested(alloc, cursor)
    } else {
        pass_pieces(alloc, cursor)
    }
}

// Goes over a test, and over pieces.
fn pass_tested(alloc: Global, cursor: &mut Cursor<'_>) -> Result<(), Fault>
    requires { begins (is_in (only (codes "?"))) cursor.old.rest.now ≡ true }
    ensures { StopsLine result cursor.old.rest.now cursor.new.rest.now }
{
    take_test(alloc, cursor)?;
    pass_pieces(alloc, cursor)
}

// Goes over pieces, as far as they go.
fn pass_pieces(alloc: Global, cursor: &mut Cursor<'_>) -> Result<(), Fault>
    ensures { StopsPieces result cursor.old.rest.now cursor.new.rest.now }
{
    while !cursor.rest.is_empty() {
        pass_piece(alloc, cursor)?;
    }
    Ok(())
}

// Goes over a macro or a character.
fn pass_piece(alloc: Global, cursor: &mut Cursor<'_>) -> Result<(), Fault>
    ensures { TakesPiece result cursor.old.rest.now cursor.new.rest.now }
{
    if cursor.is_at(b'@') {
        take_macro(alloc, cursor)?;
    } else {
        take_character(cursor)?;
    }
    Ok(())
}
