//! An achievement is recorded, and its unlock explained.
ghost use Rattle.std.specs.Prelude.{◌≡◌, ◌≢◌, ◌⊎◌};
ghost use Rattle.ra_calls.specs.Answers.{Calls};
ghost use Rattle.ra_judge.specs.Codes.{done, no_room};
ghost use Rattle.ra_calls.specs.Handles.{held_in, recorded_in, slots_in};
ghost use Rattle.ra_calls.specs.Recordings.{AnswersExplain, AnswersRecord};

use ra_calls::{Handle, ToldHits, ToldUnlock};
use std::alloc::Global;

/// Records the achievement of this id from now on, before the first frame: docs/DEFINITIONS.md, "Calls from C".
///
/// `MEERKAT_RANGE` where the set has no achievement of the id, or the count of frames is not 0; `MEERKAT_MEMORY` where memory runs out. Then
/// what was recorded stays.
#[unsafe(no_mangle)]
pub extern "C" fn meerkat_record(alloc: Global, handle: &mut Handle, id: u32) -> u32
    ensures stays { Calls (λ old new. new ≡ old) result (held_in handle.old) (held_in handle.new) }
    ensures recorded { Calls (λ old _. AnswersRecord id old result (recorded_in handle.old) (recorded_in handle.new)) result (held_in handle.old) (held_in handle.new) }
    ensures slots { slots_in handle.new ≡ slots_in handle.old }
{
    ra_calls::record(alloc, handle, id)
}

/// Why the recorded achievement unlocked at the last frame: docs/DEFINITIONS.md, "Calls from C" and "Explanations".
///
/// `MEERKAT_NOTHING` where nothing is recorded, or the last frame was no unlock of it. `MEERKAT_ROOM` where there is too little room; the count
/// is that of all events. `MEERKAT_MEMORY` where memory runs out.
#[unsafe(no_mangle)]
pub extern "C" fn meerkat_explain(
    alloc: Global,
    handle: &mut Handle,
    out: &mut [ToldHits],
    count: &mut usize,
    unlock: &mut ToldUnlock,
) -> u32
    ensures stays { Calls (λ old new. new ≡ old) result (held_in handle.old) (held_in handle.new) }
    ensures recording { recorded_in handle.new ≡ recorded_in handle.old }
    ensures slots { slots_in handle.new ≡ slots_in handle.old }
    ensures told { Calls (λ _ _. AnswersExplain (recorded_in handle.old) out.old out.new count.new unlock.new result) result (held_in handle.old) (held_in handle.new) }
    ensures unwritten { result ≢ done → out.new ≡ out.old }
    ensures unheaded { result ≢ done → unlock.new ≡ unlock.old }
    ensures uncounted { result ≢ done → result ≢ no_room → count.new ≡ count.old }
{
    ra_calls::explain(alloc, handle, out, count, unlock)
}
