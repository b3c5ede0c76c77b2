//! Boards of a text: docs/DEFINITIONS.md, "Boards" and "First bad place".

ghost use Rattle.std.specs.Prelude.{IfErr, IfOk};
ghost use Rattle.ra_condition.specs.Refusals.{IfSyntax};
ghost use Rattle.ra_leaderboard.specs.Contents.{board_contents};
ghost use Rattle.ra_leaderboard.specs.Grammar.{board};
ghost use Rattle.ra_leaderboard.specs.Spelled.{IsBoard};
ghost use Rattle.ra_text.specs.Place.{IsOutside};

use crate::board_text::BoardText;
use crate::boards::take_board;
use ra_condition::{Fault, Refused};
use ra_text::Cursor;
use std::alloc::Global;

/// The board that the whole text spells: docs/DEFINITIONS.md, "Boards".
///
/// `Syntax` carries the first bad place, in bytes from 0, and comes exactly where the text is
/// outside the grammar. `Memory` where there is no memory for the board.
pub fn parse_board(alloc: Global, text: &[u8]) -> Result<BoardText, Refused>
    ensures ok { IfOk result (λ b. board text.now (board_contents b)) }
    ensures structure { IfOk result (λ b. IsBoard (board_contents b)) }
    ensures err { IfErr result (λ e. IfSyntax e (λ place. IsOutside board text.now place)) }
{
    let mut cursor = Cursor::new(text, 0);
    match take_board(alloc, &mut cursor) {
        Ok(board) => {
            let at = cursor.place(text);
            if at < text.len() {
                Err(Refused::Syntax { at })
            } else {
                Ok(board)
            }
        }
        Err(Fault::Stop) => Err(Refused::Syntax {
            at: cursor.place(text),
        }),
        Err(Fault::Memory) => Err(Refused::Memory),
    }
}
