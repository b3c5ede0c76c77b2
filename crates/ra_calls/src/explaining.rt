//! An achievement is recorded, and its unlock explained.
ghost use Rattle.std.specs.Prelude.{◌≡◌, ◌≢◌, ◌⊎◌};
ghost use Rattle.ra_calls.specs.Answers.{Calls};
ghost use Rattle.ra_judge.specs.Codes.{done, no_room};
ghost use Rattle.ra_calls.specs.Handles.{held_in, recorded_in, slots_in};
ghost use Rattle.ra_calls.specs.Recordings.{AnswersExplain, AnswersRecord};
ghost use Rattle.ra_calls.specs.Tellings.{GivesTold, GivesUnlock};

use crate::handle::Handle;
use crate::recording::Told;
use crate::told_unlock::{ToldHits, ToldUnlock};
use ra_judge::codes::{DONE, EMPTY, MEMORY, NOTHING};
use ra_judge::give_whole;
use ra_text::OutOfMemory;
use std::alloc::Global;

/// Records the achievement of this id from now on, before the first frame: docs/DEFINITIONS.md, "Calls from C".
///
/// `RANGE` where the set has no achievement of the id, or the count of frames is not 0; `MEMORY` where memory runs out. Then
/// what was recorded stays.
pub fn record(alloc: Global, handle: &mut Handle, id: u32) -> u32
    ensures stays { Calls (λ old new. new ≡ old) result (held_in handle.old) (held_in handle.new) }
    ensures recorded { Calls (λ old _. AnswersRecord id old result (recorded_in handle.old) (recorded_in handle.new)) result (held_in handle.old) (held_in handle.new) }
    ensures slots { slots_in handle.new ≡ slots_in handle.old }
{
    match handle.take(alloc) {
        Some(mut game) => {
            let code = game.record(alloc, id);
            handle.put(game);
            code
        }
        None => EMPTY,
    }
}

/// Why the recorded achievement unlocked at the last frame: docs/DEFINITIONS.md, "Calls from C" and "Explanations".
///
/// `NOTHING` where nothing is recorded, or the last frame was no unlock of it. `ROOM` where there is too little room; the count
/// is that of all events. `MEMORY` where memory runs out.
pub fn explain(
    alloc: Global,
    handle: &mut Handle,
    out: &mut [ToldHits],
    count: &mut usize,
    unlock: &mut ToldUnlock,
) -> u32
    ensures stays { Calls (λ old new. new ≡ old) result (held_in handle.old) (held_in handle.new) }
    ensures recording { recorded_in handle.new ≡ recorded_in handle.old }
    ensures slots { slots_in handle.new ≡ slots_in handle.old }
    ensures told { Calls (λ _ _. AnswersExplain (recorded_in handle.old) out.old out.new count.new unlock.new result) result (held_in handle.old) (held_in handle.new) }
    ensures unwritten { result ≢ done → out.new ≡ out.old }
    ensures unheaded { result ≢ done → unlock.new ≡ unlock.old }
    ensures uncounted { result ≢ done → result ≢ no_room → count.new ≡ count.old }
{
    match handle.take(alloc) {
        Some(game) => {
            let code = give_told(game.explain(alloc), out, count, unlock);
            handle.put(game);
            code
        }
        None => EMPTY,
    }
}

// Gives what is told of an unlock.
fn give_told(
    told: Result<Option<Told>, OutOfMemory>,
    out: &mut [ToldHits],
    count: &mut usize,
    unlock: &mut ToldUnlock,
) -> u32
    ensures given { GivesTold told out.old out.new count.new unlock.new result }
    ensures unwritten { result ≢ done → out.new ≡ out.old }
    ensures unheaded { result ≢ done → unlock.new ≡ unlock.old }
    ensures uncounted { result ≢ done → result ≢ no_room → count.new ≡ count.old }
{
    match told {
        Ok(Some(told)) => give_unlock(&told, out, count, unlock),
        Ok(None) => NOTHING,
        Err(_) => MEMORY,
    }
}

// Gives an explanation, its rows where its events have room.
fn give_unlock(told: &Told, out: &mut [ToldHits], count: &mut usize, unlock: &mut ToldUnlock) -> u32
    ensures given { GivesUnlock told.now out.old out.new count.new unlock.new result }
    ensures unwritten { result ≢ done → out.new ≡ out.old }
    ensures unheaded { result ≢ done → unlock.new ≡ unlock.old }
{
    let code = give_whole(told.hits.as_slice(), out, count);
    if code == DONE {
        *unlock = told.head;
    }
    code
}
