//! The limits of the items and of the script of a set: docs/DEFINITIONS.md, "Limits of a set".

ghost use Rattle.std.specs.Prelude.{◌≡◌, ◌+◌, ◌<◌, ◌^◌, IfErr, Option, OnOk, is_some, length, map, sum_by};
ghost use Rattle.std.specs.List.{filter_map};
ghost use Rattle.std.specs.Option.{option_copied};
ghost use Rattle.ra_richpresence.specs.Contents.{line_contents, piece_contents, value_in};
ghost use Rattle.ra_richpresence.specs.Grammar.{ScriptParts};
ghost use Rattle.ra_richpresence.specs.Texts.{first_over};
ghost use Rattle.ra_set.specs.Contents.{item_contents};
ghost use Rattle.ra_set.specs.Limits.{most_macros, KeepsLimits, PassesLimit, item_conditions};
ghost use Rattle.ra_set.specs.ScriptLimits.{ChecksScript, IsReadOf, macros_of, read_conditions};

use crate::counting::{in_items, in_lines};
use crate::item::Item;
use crate::refused::{SetRefused, Which};
use ra_richpresence::{Line, Piece, ReadScript};

/// Whether items and a script, if there is one, keep their limits: items, conditions, macros of each
/// display line, texts of the lookups that are kept. Else the first of these that is passed. The
/// script was read with the limit of its texts.
pub fn check_limits(items: &[Item], script: Option<&ReadScript>) -> Result<(), SetRefused>
    requires { sum_by item_conditions (map item_contents items.now) + read_conditions (option_copied script) < 2 ^ 64 }
    ensures ok { (parts : Option ScriptParts) → IsReadOf parts (option_copied script.entry) → OnOk result (KeepsLimits (map item_contents items.now) parts) }
    ensures err { (parts : Option ScriptParts) → IsReadOf parts (option_copied script.entry) → IfErr result (λ why. PassesLimit (map item_contents items.now) parts why) }
{
    if items.len() as u64 > Which::Items.most() {
        return Err(SetRefused::Limit {
            which: Which::Items,
            found: items.len() as u64,
        });
    }
    let found = in_items(items) + in_read(script);
    if found > Which::Conditions.most() {
        return Err(SetRefused::Limit {
            which: Which::Conditions,
            found,
        });
    }
    match script {
        Some(read) => check_script(read),
        None => Ok(()),
    }
}

// How many conditions a script has, if there is one.
fn in_read(script: Option<&ReadScript>) -> u64
    requires { read_conditions (option_copied script) < 2 ^ 64 }
    ensures { result ≡ read_conditions (option_copied script.entry) }
{
    match script {
        Some(read) => in_lines(&read.script.lines),
        None => 0,
    }
}

// Whether a script keeps its own limits: the macros of each line, and then its lookup texts.
fn check_script(read: &ReadScript) -> Result<(), SetRefused>
    ensures { ChecksScript result (map line_contents read.now.script.lines.items) read.now.long }
{
    if let Some(found) = crowded_line(&read.script.lines) {
        return Err(SetRefused::Limit {
            which: Which::Macros,
            found,
        });
    }
    match read.long {
        Some(found) => Err(SetRefused::Limit {
            which: Which::Lookup,
            found,
        }),
        None => Ok(()),
    }
}

// How many macros the first line has that has too many.
fn crowded_line(lines: &[Line]) -> Option<u64>
    ensures { result ≡ first_over most_macros (macros_of (map line_contents lines.now)) }
{
    for line in lines {
        let found = macros_in(&line.pieces);
        if found > Which::Macros.most() {
            return Some(found);
        }
    }
    None
}

// How many of the pieces are macros.
fn macros_in(pieces: &[Piece]) -> u64
    ensures { result ≡ length (filter_map value_in (map piece_contents pieces.now)) }
{
    let mut count = 0;
    for piece in pieces {
        if is_macro(piece) {
            count += 1;
        }
    }
    count
}

// The piece is a macro.
fn is_macro(piece: &Piece) -> bool
    ensures { result ≡ is_some (value_in (piece_contents piece.now)) }
{
    match piece {
        Piece::Macro { .. } => true,
        Piece::Text(_) => false,
    }
}
