//! States of a game that are kept in slots, as rewind and run-ahead want them.
ghost use Rattle.std.specs.Prelude.{◌≡◌, ◌≢◌, None};
ghost use Rattle.ra_calls.specs.Answers.{Calls};
ghost use Rattle.ra_calls.specs.Handles.{held_in, recorded_in, slots_in};
ghost use Rattle.ra_calls.specs.Slots.{AnswersKeep, AnswersSlots, AnswersTake};
ghost use Rattle.ra_judge.specs.Codes.{done};

use ra_calls::Handle;
use std::alloc::Global;

/// Makes this many slots for kept states, in place of those that were there: docs/DEFINITIONS.md, "Calls from C"
/// and "States kept in memory".
///
/// The present state is kept in each of them. `MEERKAT_RANGE` where they are more than 65,536; `MEERKAT_MEMORY` where
/// memory runs out. Then nothing changes. No other call on slots takes memory.
#[unsafe(no_mangle)]
pub extern "C" fn meerkat_slots(alloc: Global, handle: &mut Handle, count: u32) -> u32
    ensures stays { Calls (λ old new. new ≡ old)
        result (held_in handle.old) (held_in handle.new) }
    ensures recording { recorded_in handle.new ≡ recorded_in handle.old }
    ensures made { Calls (λ old _. AnswersSlots count old result (slots_in handle.old) (slots_in handle.new))
        result (held_in handle.old) (held_in handle.new) }
{
    ra_calls::slots(alloc, handle, count)
}

/// Keeps the present state in a slot, counted from 0: docs/DEFINITIONS.md, "Calls from C" and "States kept in
/// memory".
///
/// `MEERKAT_RANGE` where there is no such slot, and then nothing changes. No memory is taken.
#[unsafe(no_mangle)]
pub extern "C" fn meerkat_keep(alloc: Global, handle: &mut Handle, slot: u32) -> u32
    ensures stays { Calls (λ old new. new ≡ old)
        result (held_in handle.old) (held_in handle.new) }
    ensures recording { recorded_in handle.new ≡ recorded_in handle.old }
    ensures kept { Calls (λ old _. AnswersKeep slot old result (slots_in handle.old) (slots_in handle.new))
        result (held_in handle.old) (held_in handle.new) }
{
    ra_calls::keep(alloc, handle, slot)
}

/// Takes up the state that was kept in a slot, as a restore does: docs/DEFINITIONS.md, "Calls from C" and "States
/// kept in memory".
///
/// Then nothing is recorded, and what was earned stays earned. `MEERKAT_RANGE` where there is no such slot, and then
/// nothing changes. No memory is taken.
#[unsafe(no_mangle)]
pub extern "C" fn meerkat_take(alloc: Global, handle: &mut Handle, slot: u32) -> u32
    ensures taken { Calls (AnswersTake slot (slots_in handle.old) result)
        result (held_in handle.old) (held_in handle.new) }
    ensures slots { slots_in handle.new ≡ slots_in handle.old }
    ensures unrecorded { result ≡ done → recorded_in handle.new ≡ None }
    ensures recording { result ≢ done → recorded_in handle.new ≡ recorded_in handle.old }
{
    ra_calls::take(alloc, handle, slot)
}
