//! Macros of the display that nothing names: docs/DEFINITIONS.md, "Review of a set".

ghost use Rattle.std.specs.Prelude.{◌≡◌, ◌<◌, ◌++◌, ℕ, IfOk, List, OnOk, drop, length, map};
ghost use Rattle.std.specs.List.{flat_map};
ghost use Rattle.ra_richpresence.specs.Contents.{piece_contents, script_contents};
ghost use Rattle.ra_richpresence.specs.Cut.{contents_of};
ghost use Rattle.ra_richpresence.specs.Meanings.{meanings_in};
ghost use Rattle.ra_richpresence.specs.Shown.{BeginsWithMeaning, values_of};
ghost use Rattle.ra_review.specs.Judging.{PassesLine, line_macros};
ghost use Rattle.ra_review.specs.Reporting.{AreEntries};
ghost use Rattle.ra_review.specs.Scripts.{display_numbers, is_unknown, macro_notices, piece_notices};

use crate::entries::{Entries, more};
use crate::formats::is_text;
use ra_richpresence::{Meaning, Piece, Script, left_of, split_line};
use ra_text::OutOfMemory;

/// Adds the notices on a script, whose first line has this number.
pub(crate) fn put_macros(
    notices: &mut Entries,
    number: usize,
    text: &[u8],
    script: &Script,
) -> Result<(), OutOfMemory>
    ensures { OnOk result ((entries : List (List ℕ)) → AreEntries notices.old entries
        → AreEntries notices.new (entries
        ++ macro_notices (script_contents script.now) (display_numbers number (contents_of text.now)) (script_contents script.now).lines)) }
{
    let mut rest = text;
    let mut at = number;
    let mut passed = Passed {
        shown: false,
        lines: 0,
    };
    while !rest.is_empty() {
        let (content, behind) = split_line(rest);
        passed = pass_line(notices, at, script, passed, content)?;
        at = more(at, 1)?;
        rest = behind;
    }
    Ok(())
}

/// How far the lines of a script were passed.
#[derive(Clone, Copy)]
pub(crate) struct Passed {
    /// The line `Display:` was.
    pub shown: bool,
    /// How many lines of the display were.
    pub lines: usize,
}

// Passes a line of the script, whose number in the file this is, and adds the notices on it.
fn pass_line(
    notices: &mut Entries,
    number: usize,
    script: &Script,
    passed: Passed,
    content: &[u8],
) -> Result<Passed, OutOfMemory>
    ensures { IfOk result (λ next. PassesLine (script_contents script.now) number content.now passed notices.old next notices.new) }
{
    let left = left_of(content);
    if !passed.shown {
        return Ok(Passed {
            shown: is_text(left, b"Display:"),
            lines: passed.lines,
        });
    }
    if left.is_empty() {
        return Ok(passed);
    }
    if passed.lines >= script.lines.len() {
        return Ok(passed);
    }
    put_line(notices, number, script, passed.lines)?;
    Ok(Passed {
        shown: true,
        lines: passed.lines + 1,
    })
}

// Adds the notices on a line of the display, whose number in the file this is.
fn put_line(
    notices: &mut Entries,
    number: usize,
    script: &Script,
    line: usize,
) -> Result<(), OutOfMemory>
    requires { line < length script.now.lines.items }
    ensures { OnOk result ((entries : List (List ℕ)) → AreEntries notices.old entries
        → AreEntries notices.new (entries ++ line_macros (script_contents script.now) number line)) }
{
    let shown = &script.lines[line];
    let meanings = &script.meanings[line];
    put_pieces(notices, number, script, &shown.pieces, meanings)?;
    Ok(())
}

// Adds the notices on pieces, by what their macros show in order.
fn put_pieces(
    notices: &mut Entries,
    number: usize,
    script: &Script,
    pieces: &[Piece],
    meanings: &[Meaning],
) -> Result<(), OutOfMemory>
    requires { meanings.now ≡ meanings_in (script_contents script.now).lookups (script_contents script.now).formats (map piece_contents pieces.now) }
    ensures { OnOk result ((entries : List (List ℕ)) → AreEntries notices.old entries
        → AreEntries notices.new (entries ++ flat_map (piece_notices (script_contents script.now) number) (map piece_contents pieces.now))) }
{
    let _ = script;
    let mut meant = meanings;
    for piece in pieces {
        put_piece(notices, number, script, piece, meant)?;
        meant = behind_meaning(piece, meant);
    }
    Ok(())
}

// Adds the notice on a piece, where it is a macro that shows that it is unknown.
fn put_piece(
    notices: &mut Entries,
    number: usize,
    script: &Script,
    piece: &Piece,
    meanings: &[Meaning],
) -> Result<(), OutOfMemory>
    requires { BeginsWithMeaning (script_contents script.now) (piece_contents piece.now) meanings.now }
    ensures { OnOk result ((entries : List (List ℕ)) → AreEntries notices.old entries
        → AreEntries notices.new (entries ++ piece_notices (script_contents script.now) number (piece_contents piece.now))) }
{
    let _ = script;
    match piece {
        Piece::Text(_) => Ok(()),
        Piece::Macro { name, .. } => {
            let meaning = meanings.first().copied().unwrap_or(Meaning::Unknown);
            if is_unknown(meaning) {
                notices.notice_macro(number, name)?;
            }
            Ok(())
        }
    }
}

// The meaning is that the macro is unknown.
fn is_unknown(meaning: Meaning) -> bool
    ensures { result ≡ is_unknown meaning }
{
    matches!(meaning, Meaning::Unknown)
}

// The meanings after that of a piece, if it has one.
fn behind_meaning<'a>(piece: &Piece, meanings: &'a [Meaning]) -> &'a [Meaning]
    ensures { result.now ≡ drop (values_of (piece_contents piece.now)) meanings.now }
{
    match (piece, meanings) {
        (Piece::Macro { .. }, [_, others @ ..]) => others,
        _ => meanings,
    }
}
