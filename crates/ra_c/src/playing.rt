ghost use Rattle.std.specs.Prelude.{◌≡◌};
ghost use Rattle.ra_banks.specs.Banks.{bytes_of};
ghost use Rattle.ra_calls.specs.Answers.{AnswersFrame, Calls};
ghost use Rattle.ra_calls.specs.Handles.{held_in, recorded_in, slots_in};
ghost use Rattle.ra_calls.specs.Recordings.{RecordsCall};

use ra_banks::Bank;
use ra_calls::Handle;
use std::alloc::Global;

/// Takes one frame of the memory that the banks are, one after another: docs/DEFINITIONS.md, "Calls from C".
///
/// `MEERKAT_RANGE` where they have not as many bytes together as the game. Nothing of them is kept. Where an achievement
/// is recorded its rows grow; where they are too many, or memory runs out, it is recorded no longer.
#[unsafe(no_mangle)]
pub extern "C" fn meerkat_frame(alloc: Global, handle: &mut Handle, banks: &[Bank<'_>]) -> u32
    ensures played { Calls (AnswersFrame banks.now result) result (held_in handle.old) (held_in handle.new) }
    ensures recorded { RecordsCall (bytes_of banks.now) result (recorded_in handle.old) (recorded_in handle.new) }
    ensures slots { slots_in handle.new ≡ slots_in handle.old }
{
    ra_calls::frame(alloc, handle, banks)
}
