//! Lines of a set file: docs/DEFINITIONS.md, "Set file".

ghost use Rattle.std.specs.Prelude.{◌≡◌, ◌∷◌, [], true, false, option_map, Some, codes};
ghost use Rattle.ra_condition.specs.Fault.{GivesUnlessFull};
ghost use Rattle.ra_set.specs.Contents.{item_contents};
ghost use Rattle.ra_set.specs.Reading.{achievement_at, comment_at, comment_row_at, head_at, item_line_at, item_row_at, leaderboard_at, leaderboard_or_empty_at, row_at};
ghost use Rattle.ra_text.specs.Moves.{Moves};
ghost use Rattle.ra_text.specs.Reading.{optional_at};
ghost use Rattle.ra_text.specs.Table.{bytes_for, lookup};

use crate::exact_id::take_id;
use crate::item::Item;
use crate::runs::{take_format, take_line_rest};
use ra_condition::{Fault, take_trigger};
use ra_leaderboard::take_board;
use ra_text::{Cursor, Stop};
use std::alloc::Global;

// What stands before an LF, and whether it wants one, as a CR stands at its end.
#[tactic(auto, unfolding(crate::specs::Reading::row_at))]
pub fn take_row(alloc: Global, cursor: &mut Cursor<'_>) -> Result<(Option<Item>, bool), Fault>
    ensures { GivesUnlessFull (λ row. (option_map item_contents row.0, row.1)) result cursor.new.rest.now (row_at cursor.old.rest.now) }
{
    if cursor.is_at(b'#') {
        take_comment_row(cursor)
    } else {
        take_item_row(alloc, cursor)
    }
}

// A comment.
#[tactic(auto, unfolding(crate::specs::Reading::comment_row_at, crate::specs::Reading::comment_at))]
fn take_comment_row(cursor: &mut Cursor<'_>) -> Result<(Option<Item>, bool), Fault>
    ensures { GivesUnlessFull (λ row. (option_map item_contents row.0, row.1)) result cursor.new.rest.now (comment_row_at cursor.old.rest.now) }
{
    cursor.byte(b'#')?;
    take_line_rest(cursor);
    Ok((None, false))
}

// A line that is no comment, and whether a CR comes after it.
#[tactic(auto, unfolding(crate::specs::Reading::item_row_at))]
fn take_item_row(alloc: Global, cursor: &mut Cursor<'_>) -> Result<(Option<Item>, bool), Fault>
    ensures { GivesUnlessFull (λ row. (option_map item_contents row.0, row.1)) result cursor.new.rest.now (item_row_at cursor.old.rest.now) }
{
    let item = take_item_line(alloc, cursor)?;
    Ok((item, take_return(cursor)))
}

// A CR, where one is next.
pub fn take_return(cursor: &mut Cursor<'_>) -> bool
    ensures { optional_at (lookup (bytes_for (codes "\r") true)) false cursor.old.rest.now ≡ Ok (result, cursor.new.rest.now) }
{
    match cursor.rest {
        [b'\r', after @ ..] => {
            cursor.rest = after;
            true
        }
        _ => false,
    }
}

// An achievement, a leaderboard, or nothing.
#[tactic(auto, unfolding(crate::specs::Reading::item_line_at, crate::specs::Reading::leaderboard_or_empty_at))]
fn take_item_line(alloc: Global, cursor: &mut Cursor<'_>) -> Result<Option<Item>, Fault>
    ensures { GivesUnlessFull (option_map item_contents) result cursor.new.rest.now (item_line_at cursor.old.rest.now) }
{
    if cursor.is_at(b'A') {
        Ok(Some(take_achievement(alloc, cursor)?))
    } else if cursor.is_at(b'L') {
        Ok(Some(take_leaderboard(alloc, cursor)?))
    } else {
        Ok(None)
    }
}

// "A" " " id " " trigger
#[tactic(auto, unfolding(crate::specs::Reading::achievement_at))]
fn take_achievement(alloc: Global, cursor: &mut Cursor<'_>) -> Result<Item, Fault>
    ensures { GivesUnlessFull (λ item. Some (item_contents item)) result cursor.new.rest.now (achievement_at cursor.old.rest.now) }
{
    let id = take_head(cursor, b'A')?;
    let text = take_trigger(alloc, cursor)?;
    Ok(Item::Achievement { id, text })
}

// "L" " " id " " format " " board
#[tactic(auto, unfolding(crate::specs::Reading::leaderboard_at))]
fn take_leaderboard(alloc: Global, cursor: &mut Cursor<'_>) -> Result<Item, Fault>
    ensures { GivesUnlessFull (λ item. Some (item_contents item)) result cursor.new.rest.now (leaderboard_at cursor.old.rest.now) }
{
    let id = take_head(cursor, b'L')?;
    let format = take_format(cursor)?;
    cursor.byte(b' ')?;
    let text = take_board(alloc, cursor)?;
    let text = Box::new(alloc, text)?;
    Ok(Item::Leaderboard { id, format, text })
}

// The letter, a space, an id and a space.
#[tactic(auto, unfolding(crate::specs::Reading::head_at))]
fn take_head(cursor: &mut Cursor<'_>, letter: u8) -> Result<u32, Stop>
    ensures { Moves result cursor.new.rest.now (head_at letter cursor.old.rest.now) }
{
    cursor.byte(letter)?;
    cursor.byte(b' ')?;
    let id = take_id(cursor)?;
    cursor.byte(b' ')?;
    Ok(id)
}
