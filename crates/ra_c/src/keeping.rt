ghost use Rattle.std.specs.Prelude.{◌≡◌, ◌≢◌, ◌⊎◌, None, IsSomeAnd};
ghost use Rattle.ra_calls.specs.Answers.{AnswersEarn, AnswersReset, AnswersRestore, AnswersSize, AnswersTold, Calls, IsSaveOf};
ghost use Rattle.ra_judge.specs.Codes.{done, memory, no_progress, no_room, empty};
ghost use Rattle.ra_calls.specs.Lengths.{IsSaveLength};
ghost use Rattle.ra_calls.specs.Handles.{held_in, recorded_in, slots_in};

use ra_calls::Handle;
use ra_judge::Refusal;
use std::alloc::Global;

/// The progress bytes of the present state: docs/DEFINITIONS.md, "Calls from C" and "Progress file".
///
/// They are as many as `meerkat_save_size` tells. `MEERKAT_ROOM` where there is too little room; the count is that of
/// the whole. `MEERKAT_MEMORY` where memory runs out.
#[unsafe(no_mangle)]
pub extern "C" fn meerkat_save(
    alloc: Global,
    handle: &mut Handle,
    out: &mut [u8],
    count: &mut usize,
) -> u32
    ensures told { Calls (AnswersTold IsSaveOf out.old out.new count.new result) result (held_in handle.old) (held_in handle.new) }
    ensures recording { recorded_in handle.new ≡ recorded_in handle.old }
    ensures slots { slots_in handle.new ≡ slots_in handle.old }
    ensures long { (result ≡ done) ⊎ (result ≡ no_room)
        → IsSomeAnd (held_in handle.old) (IsSaveLength count.new) }
    ensures unwritten { result ≢ done → out.new ≡ out.old }
    ensures uncounted { (result ≡ memory) ⊎ (result ≡ empty) → count.new ≡ count.old }
{
    ra_calls::save(alloc, handle, out, count)
}

/// How many bytes a save has, which stays so for a game: docs/DEFINITIONS.md, "Calls from C" and "Progress file".
#[unsafe(no_mangle)]
pub extern "C" fn meerkat_save_size(alloc: Global, handle: &mut Handle, size: &mut usize) -> u32
    ensures told { Calls (AnswersSize size.new result) result (held_in handle.old) (held_in handle.new) }
    ensures recording { recorded_in handle.new ≡ recorded_in handle.old }
    ensures slots { slots_in handle.new ≡ slots_in handle.old }
    ensures untold { result ≢ done → size.new ≡ size.old }
{
    ra_calls::save_size(alloc, handle, size)
}

/// Takes up what progress bytes say, of this set or of a changed one: docs/DEFINITIONS.md, "Calls from C".
///
/// Then nothing is recorded. `MEERKAT_PROGRESS` where the bytes are refused, with the reason, and then nothing changes. No memory is
/// taken.
#[unsafe(no_mangle)]
pub extern "C" fn meerkat_restore(
    alloc: Global,
    handle: &mut Handle,
    bytes: &[u8],
    why: &mut Refusal,
) -> u32
    ensures taken { Calls (AnswersRestore bytes.now why.new result) result (held_in handle.old) (held_in handle.new) }
    ensures unrecorded { result ≡ done → recorded_in handle.new ≡ None }
    ensures recording { result ≢ done → recorded_in handle.new ≡ recorded_in handle.old }
    ensures slots { slots_in handle.new ≡ slots_in handle.old }
    ensures unsaid { result ≢ no_progress → why.new ≡ why.old }
{
    ra_calls::restore(alloc, handle, bytes, why)
}

/// Begins anew over the present memory, as when the emulated machine is reset: docs/DEFINITIONS.md, "Calls from C".
///
/// It is a restore of what a save gives before the first frame, which is never refused. Nothing is
/// recorded then. No memory is taken.
#[unsafe(no_mangle)]
pub extern "C" fn meerkat_reset(alloc: Global, handle: &mut Handle) -> u32
    ensures begun { Calls (AnswersReset result) result (held_in handle.old) (held_in handle.new) }
    ensures unrecorded { recorded_in handle.new ≡ None }
    ensures slots { slots_in handle.new ≡ slots_in handle.old }
{
    ra_calls::reset(alloc, handle)
}

/// Adds the achievements of these ids to what is earned, as the service says it: docs/DEFINITIONS.md, "Calls from C" and
/// "Earned achievements".
///
/// They are silent from the next frame on, and nothing else changes; an id of no achievement is passed over.
/// `MEERKAT_MEMORY` where memory runs out, and then nothing changes.
#[unsafe(no_mangle)]
pub extern "C" fn meerkat_earn(alloc: Global, handle: &mut Handle, ids: &[u32]) -> u32
    ensures earned { Calls (AnswersEarn ids.now result) result (held_in handle.old) (held_in handle.new) }
    ensures recording { recorded_in handle.new ≡ recorded_in handle.old }
    ensures slots { slots_in handle.new ≡ slots_in handle.old }
{
    ra_calls::earn(alloc, handle, ids)
}
