//! The pieces of presence lines.

use ra_richpresence::{Line, Piece, Script};

/// A text, or a macro by its name.
#[derive(Clone, Copy)]
pub(crate) enum Shown<'a> {
    Text(&'a [u8]),
    Macro(&'a [u8]),
}

fn is_shown(piece: &Piece, shown: Shown<'_>) -> bool {
    match piece {
        Piece::Text(text) => match shown {
            Shown::Text(wanted) => text.as_slice() == wanted,
            Shown::Macro(_) => false,
        },
        Piece::Macro { name, .. } => match shown {
            Shown::Text(_) => false,
            Shown::Macro(wanted) => name.as_slice() == wanted,
        },
    }
}

/// The line has these pieces.
pub(crate) fn has_pieces(line: &Line, wanted: &[Shown<'_>]) -> bool {
    for (place, shown) in wanted.iter().enumerate() {
        match line.pieces.get(place) {
            Some(piece) if is_shown(piece, *shown) => {}
            _ => return false,
        }
    }
    line.pieces.len() == wanted.len()
}

/// The last line of the script has these pieces.
pub(crate) fn ends_with(script: &Script, wanted: &[Shown<'_>]) -> bool {
    match script.lines.last() {
        Some(line) => has_pieces(line, wanted),
        None => false,
    }
}
