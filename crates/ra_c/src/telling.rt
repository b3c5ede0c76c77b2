ghost use Rattle.std.specs.Prelude.{◌≡◌, ◌≢◌, ◌⊎◌, IsSomeAnd};
ghost use Rattle.ra_calls.specs.Answers.{AnswersTold, AreEventsOf, AreLinesOf, Calls};
ghost use Rattle.ra_judge.specs.Codes.{done, memory, no_room, empty};
ghost use Rattle.ra_calls.specs.Handles.{held_in, recorded_in, slots_in};
ghost use Rattle.ra_calls.specs.Most.{IsWithinMost};
ghost use Rattle.ra_calls.specs.Shows.{IsShownBy};
ghost use Rattle.ra_calls.specs.ToldCells.{AreCellsOf};
ghost use Rattle.ra_calls.specs.ToldItems.{AnswersNumber, AreItemsOf};

use ra_calls::{BoardNumber, Handle, ToldCell, ToldEvent, ToldItem};
use std::alloc::Global;

/// The events of the last frame, items in set order: docs/DEFINITIONS.md, "Calls from C" and "Events".
///
/// None where no frame came, and at most three of each achievement and two of each leaderboard. `MEERKAT_ROOM` where
/// there is too little room; the count is that of all of them. `MEERKAT_MEMORY` where memory runs out.
#[unsafe(no_mangle)]
pub extern "C" fn meerkat_events(
    alloc: Global,
    handle: &mut Handle,
    out: &mut [ToldEvent],
    count: &mut usize,
) -> u32
    ensures told { Calls (AnswersTold AreEventsOf out.old out.new count.new result)
        result (held_in handle.old) (held_in handle.new) }
    ensures recording { recorded_in handle.new ≡ recorded_in handle.old }
    ensures slots { slots_in handle.new ≡ slots_in handle.old }
    ensures most { (result ≡ done) ⊎ (result ≡ no_room)
        → IsSomeAnd (held_in handle.old) (IsWithinMost count.new) }
    ensures unwritten { result ≢ done → out.new ≡ out.old }
    ensures uncounted { (result ≡ memory) ⊎ (result ≡ empty) → count.new ≡ count.old }
{
    ra_calls::events(alloc, handle, out, count)
}

/// The lines of the events of the last frame: docs/DEFINITIONS.md, "Calls from C" and "Printed lines".
///
/// `MEERKAT_ROOM` where there is too little room; the count is that of the whole. `MEERKAT_MEMORY` where memory runs out.
#[unsafe(no_mangle)]
pub extern "C" fn meerkat_lines(
    alloc: Global,
    handle: &mut Handle,
    out: &mut [u8],
    count: &mut usize,
) -> u32
    ensures told { Calls (AnswersTold AreLinesOf out.old out.new count.new result) result (held_in handle.old) (held_in handle.new) }
    ensures recording { recorded_in handle.new ≡ recorded_in handle.old }
    ensures slots { slots_in handle.new ≡ slots_in handle.old }
    ensures unwritten { result ≢ done → out.new ≡ out.old }
    ensures uncounted { (result ≡ memory) ⊎ (result ≡ empty) → count.new ≡ count.old }
{
    ra_calls::lines(alloc, handle, out, count)
}

/// How the items stand, in the order of the set: docs/DEFINITIONS.md, "Calls from C".
///
/// `MEERKAT_ROOM` where there is too little room; the count is that of all of them. `MEERKAT_MEMORY` where memory runs out.
#[unsafe(no_mangle)]
pub extern "C" fn meerkat_items(
    alloc: Global,
    handle: &mut Handle,
    out: &mut [ToldItem],
    count: &mut usize,
) -> u32
    ensures told { Calls (AnswersTold AreItemsOf out.old out.new count.new result) result (held_in handle.old) (held_in handle.new) }
    ensures recording { recorded_in handle.new ≡ recorded_in handle.old }
    ensures slots { slots_in handle.new ≡ slots_in handle.old }
    ensures unwritten { result ≢ done → out.new ≡ out.old }
    ensures uncounted { (result ≡ memory) ⊎ (result ≡ empty) → count.new ≡ count.old }
{
    ra_calls::items(alloc, handle, out, count)
}

/// The direct cells of the set, in order of first occurrence: docs/DEFINITIONS.md, "Calls from C".
///
/// `MEERKAT_ROOM` where there is too little room; the count is that of all of them. `MEERKAT_MEMORY` where memory runs out.
#[unsafe(no_mangle)]
pub extern "C" fn meerkat_cells(
    alloc: Global,
    handle: &mut Handle,
    out: &mut [ToldCell],
    count: &mut usize,
) -> u32
    ensures told { Calls (AnswersTold AreCellsOf out.old out.new count.new result) result (held_in handle.old) (held_in handle.new) }
    ensures recording { recorded_in handle.new ≡ recorded_in handle.old }
    ensures slots { slots_in handle.new ≡ slots_in handle.old }
    ensures unwritten { result ≢ done → out.new ≡ out.old }
    ensures uncounted { (result ≡ memory) ⊎ (result ≡ empty) → count.new ≡ count.old }
{
    ra_calls::cells(alloc, handle, out, count)
}

/// The presence text after the last frame: docs/DEFINITIONS.md, "Calls from C" and "Presence over frames".
///
/// Empty where the set has no script. `MEERKAT_ROOM` where there is too little room; the count is that of the whole. `MEERKAT_MEMORY`
/// where memory runs out.
#[unsafe(no_mangle)]
pub extern "C" fn meerkat_presence(
    alloc: Global,
    handle: &mut Handle,
    out: &mut [u8],
    count: &mut usize,
) -> u32
    ensures told { Calls (AnswersTold IsShownBy out.old out.new count.new result) result (held_in handle.old) (held_in handle.new) }
    ensures recording { recorded_in handle.new ≡ recorded_in handle.old }
    ensures slots { slots_in handle.new ≡ slots_in handle.old }
    ensures unwritten { result ≢ done → out.new ≡ out.old }
    ensures uncounted { (result ≡ memory) ⊎ (result ≡ empty) → count.new ≡ count.old }
{
    ra_calls::presence(alloc, handle, out, count)
}

/// The number in the format of the leaderboard of an id: docs/DEFINITIONS.md, "Calls from C" and "Formats".
///
/// `MEERKAT_RANGE` where no leaderboard has the id; `MEERKAT_ROOM` where there is too little room; the count is that of the whole.
/// `MEERKAT_MEMORY` where memory runs out.
#[unsafe(no_mangle)]
pub extern "C" fn meerkat_number(
    alloc: Global,
    handle: &mut Handle,
    id: u32,
    number: i32,
    out: &mut [u8],
    count: &mut usize,
) -> u32
    ensures told { Calls (AnswersNumber id number out.old out.new count.new result) result (held_in handle.old) (held_in handle.new) }
    ensures recording { recorded_in handle.new ≡ recorded_in handle.old }
    ensures slots { slots_in handle.new ≡ slots_in handle.old }
    ensures unwritten { result ≢ done → out.new ≡ out.old }
    ensures uncounted { result ≢ done → result ≢ no_room → count.new ≡ count.old }
{
    ra_calls::number(alloc, handle, BoardNumber { id, number }, out, count)
}
