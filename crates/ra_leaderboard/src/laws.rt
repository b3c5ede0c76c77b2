//! What holds of all texts and boards.

ghost use Rattle.std.specs.Prelude.{◌↔◌, ℕ, List};
ghost use Rattle.ra_leaderboard.specs.Contents.{BoardContents};
ghost use Rattle.ra_leaderboard.specs.Grammar.{board};
ghost use Rattle.ra_leaderboard.specs.Spelled.{IsBoard};
ghost use Rattle.ra_text.specs.Place.{OneSpelling};

/// A text spells at most one board: docs/DEFINITIONS.md, "Boards".
///
/// A law; no effect at run time.
pub fn one_board()
    ensures { OneSpelling board }
{}

/// Some text spells a board exactly where the board has its structure: docs/DEFINITIONS.md, "What
/// texts spell".
///
/// A law; no effect at run time.
pub fn spelled_boards()
    ensures { (b : BoardContents) → IsBoard b ↔ ((text : List ℕ) × board text b) }
{}
