//! The records of a trace, played one after the other.

ghost use Rattle.std.specs.Prelude.{◌≡◌, ◌≤◌, ◌<◌, ⊤, ℕ, List, Some, IfOk, IsErrOf, OnOk};
ghost use Rattle.ra_io.specs.Causes.{Rose};
ghost use Rattle.ra_io.specs.Files.{OnlyRead};
ghost use Rattle.ra_set.specs.Contents.{SetContents};
ghost use Rattle.ra_progress.specs.Contents.{Opening};
ghost use Rattle.ra_trace.specs.Cutting.{Pieces};
ghost use Rattle.ra_meaning.specs.Earned.{Earned};
ghost use Rattle.ra_meaning.specs.Play.{Moment, earned_after, moment_after};
ghost use Rattle.ra_replay.specs.Left.{IsLeft};
ghost use Rattle.ra_session.specs.Closing.{EndsBefore};
ghost use Rattle.ra_session.specs.Failures.{ending_at};
ghost use Rattle.ra_session.specs.Playing.{MayPlay, StandsAt, TakesNext, says_from};

use crate::failures::TraceFailed;
use crate::player::{Player, Unplayed};
use ra_io::{Files, Sink};
use ra_jobs::write_all;
use ra_trace::{Reader, Record, Why};
use std::alloc::Global;

// Reads and plays the next record, and writes what it prints, which is left in the text. Answers whether it is the end
// record.
#[inline(always)]
fn play_next<F: Files, K: Sink>(
    reader: &mut Reader,
    player: &mut Player,
    text: &mut Vec<u8>,
    files: &mut F,
    out: &mut K,
) -> Result<bool, TraceFailed>
    requires { MayPlay reader.old player.old.runtime player.old.slots.items }

    // What was played and printed, where the bytes of the trace are told.
    ensures next { (bytes : List ℕ) (set : SetContents) (o : Opening) (m : Moment) (earned : Earned) (left : Pieces) → F.content files.old reader.old.name ≡ Some bytes
        → StandsAt set o m earned player.old.runtime player.old.slots.items → IsLeft bytes m reader.old left
        → TakesNext bytes set o m earned left reader.new player.new.runtime player.new.slots.items (K.text out.old) (K.text out.new) result }

    // What stays, and why it stops.
    ensures may { IfOk result (λ end. MayPlay reader.new player.new.runtime player.new.slots.items) }
    ensures name { reader.new.name ≡ reader.old.name }
    ensures further { IfOk result (λ end. (reader.old.next < reader.new.next) × (reader.new.next ≤ reader.new.limit) × (reader.new.limit ≡ reader.old.limit)) }
    ensures read { IsErrOf result TraceFailed.Read → Rose (F.read_faults files.old reader.old.name) (F.read_faults files.new reader.old.name) }
    ensures write { IsErrOf result TraceFailed.Write → Rose (K.faults out.old) (K.faults out.new) }
    ensures stays { OnlyRead F.content F.read_faults F.put_faults files.old files.new }
    ensures later { K.faults out.old ≤ K.faults out.new }
{
    text.clear();
    let alloc = *text.allocator();
    let record = reader.next_record(files)?;
    match player.play(alloc, &record, text) {
        Ok(()) => {
            let end = matches!(record, Record::End);
            write_all(text.as_slice(), out)?;
            Ok(end)
        }
        Err(Unplayed::EmptySlot) => Err(TraceFailed::Refused {
            at: reader.place(),
            why: Why::EmptySlot,
        }),
        Err(Unplayed::Memory) => Err(TraceFailed::Memory),
    }
}

/// Plays the records up to the end record, and writes what each prints before the next is read.
///
/// It stops at a record that is refused, after the last byte that the limit lets be read, at a read or a write that
/// failed, and where memory ran out. No file changes.
#[inline(never)]
pub fn play_records<F: Files, K: Sink>(
    alloc: Global,
    reader: &mut Reader,
    player: &mut Player,
    files: &mut F,
    out: &mut K,
) -> Result<(), TraceFailed>
    requires { MayPlay reader.old player.old.runtime player.old.slots.items }

    // What was printed, where the bytes of the trace are told.
    ensures printed { (bytes : List ℕ) (set : SetContents) (o : Opening) (m : Moment) (earned : Earned) (left : Pieces) → F.content files.old reader.old.name ≡ Some bytes
        → StandsAt set o m earned player.old.runtime player.old.slots.items → IsLeft bytes m reader.old left
        → EndsBefore (says_from bytes set o m earned left) ⊤ ⊤ ⊤ (ending_at result) (K.text out.old) (K.text out.new) }
    ensures ends { OnOk result ((bytes : List ℕ) (set : SetContents) (o : Opening) (m : Moment) (earned : Earned) (left : Pieces) → F.content files.old reader.old.name ≡ Some bytes
        → StandsAt set o m earned player.old.runtime player.old.slots.items → IsLeft bytes m reader.old left
        → StandsAt set o (moment_after m left.entries) (earned_after set o m earned left.entries) player.new.runtime player.new.slots.items) }

    // Why it stops, and what stays.
    ensures read { IsErrOf result TraceFailed.Read → Rose (F.read_faults files.old reader.old.name) (F.read_faults files.new reader.old.name) }
    ensures write { IsErrOf result TraceFailed.Write → Rose (K.faults out.old) (K.faults out.new) }
    ensures stays { OnlyRead F.content F.read_faults F.put_faults files.old files.new }
    ensures later { K.faults out.old ≤ K.faults out.new }
{
    let mut text = Vec::new(alloc);
    while !play_next(reader, player, &mut text, files, out)? {}
    Ok(())
}
