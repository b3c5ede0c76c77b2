ghost use Rattle.std.specs.Prelude.{◌≡◌, ◌≢◌, ◌⊎◌, IsSomeAnd, MatchResult, option_map};
ghost use Rattle.ra_calls.specs.Answers.{AnswersTold, AreEventsOf, AreLinesOf, Calls};
ghost use Rattle.ra_judge.specs.Codes.{done, memory, no_room, empty};
ghost use Rattle.ra_judge.specs.Giving.{GivesText};
ghost use Rattle.ra_calls.specs.Handles.{held_in, recorded_in, slots_in};
ghost use Rattle.ra_calls.specs.Most.{IsWithinMost};
ghost use Rattle.ra_calls.specs.Shows.{IsShownBy};
ghost use Rattle.ra_calls.specs.ToldCells.{AreCellsOf};
ghost use Rattle.ra_calls.specs.ToldItems.{AnswersNumber, AreItemsOf};

use crate::board_number::BoardNumber;
use crate::handle::Handle;
use crate::told_cell::ToldCell;
use crate::told_event::ToldEvent;
use crate::told_item::ToldItem;
use ra_judge::codes::{EMPTY, MEMORY, RANGE};
use ra_judge::{give, give_whole};
use ra_text::OutOfMemory;
use std::alloc::Global;

/// The events of the last frame, items in set order: docs/DEFINITIONS.md, "Calls from C" and "Events".
///
/// None where no frame came, and at most three of each achievement and two of each leaderboard. `ROOM` where there is too
/// little room; the count is that of all of them. `MEMORY` where memory runs out.
pub fn events(alloc: Global, handle: &mut Handle, out: &mut [ToldEvent], count: &mut usize) -> u32
    ensures told { Calls (AnswersTold AreEventsOf out.old out.new count.new result)
        result (held_in handle.old) (held_in handle.new) }
    ensures recording { recorded_in handle.new ≡ recorded_in handle.old }
    ensures slots { slots_in handle.new ≡ slots_in handle.old }
    ensures most { (result ≡ done) ⊎ (result ≡ no_room)
        → IsSomeAnd (held_in handle.old) (IsWithinMost count.new) }
    ensures unwritten { result ≢ done → out.new ≡ out.old }
    ensures uncounted { (result ≡ memory) ⊎ (result ≡ empty) → count.new ≡ count.old }
{
    match handle.take(alloc) {
        Some(game) => {
            let code = give(game.events(alloc), out, count);
            handle.put(game);
            code
        }
        None => EMPTY,
    }
}

/// The lines of the events of the last frame: docs/DEFINITIONS.md, "Calls from C" and "Printed lines".
///
/// `ROOM` where there is too little room; the count is that of the whole. `MEMORY` where memory runs out.
pub fn lines(alloc: Global, handle: &mut Handle, out: &mut [u8], count: &mut usize) -> u32
    ensures told { Calls (AnswersTold AreLinesOf out.old out.new count.new result) result (held_in handle.old) (held_in handle.new) }
    ensures recording { recorded_in handle.new ≡ recorded_in handle.old }
    ensures slots { slots_in handle.new ≡ slots_in handle.old }
    ensures unwritten { result ≢ done → out.new ≡ out.old }
    ensures uncounted { (result ≡ memory) ⊎ (result ≡ empty) → count.new ≡ count.old }
{
    match handle.take(alloc) {
        Some(game) => {
            let code = give(game.lines(alloc), out, count);
            handle.put(game);
            code
        }
        None => EMPTY,
    }
}

/// How the items stand, in the order of the set: docs/DEFINITIONS.md, "Calls from C".
///
/// `ROOM` where there is too little room; the count is that of all of them. `MEMORY` where memory runs out.
pub fn items(alloc: Global, handle: &mut Handle, out: &mut [ToldItem], count: &mut usize) -> u32
    ensures told { Calls (AnswersTold AreItemsOf out.old out.new count.new result) result (held_in handle.old) (held_in handle.new) }
    ensures recording { recorded_in handle.new ≡ recorded_in handle.old }
    ensures slots { slots_in handle.new ≡ slots_in handle.old }
    ensures unwritten { result ≢ done → out.new ≡ out.old }
    ensures uncounted { (result ≡ memory) ⊎ (result ≡ empty) → count.new ≡ count.old }
{
    match handle.take(alloc) {
        Some(game) => {
            let code = give(game.items(alloc), out, count);
            handle.put(game);
            code
        }
        None => EMPTY,
    }
}

/// The direct cells of the set, in order of first occurrence: docs/DEFINITIONS.md, "Calls from C".
///
/// `ROOM` where there is too little room; the count is that of all of them. `MEMORY` where memory runs out.
pub fn cells(alloc: Global, handle: &mut Handle, out: &mut [ToldCell], count: &mut usize) -> u32
    ensures told { Calls (AnswersTold AreCellsOf out.old out.new count.new result) result (held_in handle.old) (held_in handle.new) }
    ensures recording { recorded_in handle.new ≡ recorded_in handle.old }
    ensures slots { slots_in handle.new ≡ slots_in handle.old }
    ensures unwritten { result ≢ done → out.new ≡ out.old }
    ensures uncounted { (result ≡ memory) ⊎ (result ≡ empty) → count.new ≡ count.old }
{
    match handle.take(alloc) {
        Some(game) => {
            let code = give(game.cells(alloc), out, count);
            handle.put(game);
            code
        }
        None => EMPTY,
    }
}

/// The presence text after the last frame: docs/DEFINITIONS.md, "Calls from C" and "Presence over frames".
///
/// Empty where the set has no script. `ROOM` where there is too little room; the count is that of the whole. `MEMORY`
/// where memory runs out.
pub fn presence(alloc: Global, handle: &mut Handle, out: &mut [u8], count: &mut usize) -> u32
    ensures told { Calls (AnswersTold IsShownBy out.old out.new count.new result) result (held_in handle.old) (held_in handle.new) }
    ensures recording { recorded_in handle.new ≡ recorded_in handle.old }
    ensures slots { slots_in handle.new ≡ slots_in handle.old }
    ensures unwritten { result ≢ done → out.new ≡ out.old }
    ensures uncounted { (result ≡ memory) ⊎ (result ≡ empty) → count.new ≡ count.old }
{
    match handle.take(alloc) {
        Some(game) => {
            let code = give(game.presence(alloc), out, count);
            handle.put(game);
            code
        }
        None => EMPTY,
    }
}

/// The number in the format of the leaderboard of an id: docs/DEFINITIONS.md, "Calls from C" and "Formats".
///
/// `RANGE` where no leaderboard has the id; `ROOM` where there is too little room; the count is that of the whole.
/// `MEMORY` where memory runs out.
pub fn number(
    alloc: Global,
    handle: &mut Handle,
    asked: BoardNumber,
    out: &mut [u8],
    count: &mut usize,
) -> u32
    ensures told { Calls (AnswersNumber asked.id asked.number out.old out.new count.new result) result (held_in handle.old) (held_in handle.new) }
    ensures recording { recorded_in handle.new ≡ recorded_in handle.old }
    ensures slots { slots_in handle.new ≡ slots_in handle.old }
    ensures unwritten { result ≢ done → out.new ≡ out.old }
    ensures uncounted { result ≢ done → result ≢ no_room → count.new ≡ count.old }
{
    match handle.take(alloc) {
        Some(game) => {
            let code = give_number(game.number(alloc, asked.id, asked.number), out, count);
            handle.put(game);
            code
        }
        None => EMPTY,
    }
}

// Gives the text of a number, where there is one.
fn give_number(told: Result<Option<Vec<u8>>, OutOfMemory>, out: &mut [u8], count: &mut usize) -> u32
    ensures given { MatchResult told (λ text. GivesText (option_map (λ t. t.items) text) out.old out.new count.new result) (λ _. result ≡ memory) }
    ensures unwritten { result ≢ done → out.new ≡ out.old }
    ensures uncounted { result ≢ done → result ≢ no_room → count.new ≡ count.old }
{
    match told {
        Ok(Some(text)) => give_whole(text.as_slice(), out, count),
        Ok(None) => RANGE,
        Err(_) => MEMORY,
    }
}
