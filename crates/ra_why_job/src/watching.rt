//! The records of a trace, taken one after the other up to the first unlock.

ghost use Rattle.std.specs.Prelude.{◌≡◌, ◌≤◌, ◌<◌, ◌+◌, ℕ, List, Some, length, IfOk, IsErrOf};
ghost use Rattle.std.specs.Result.{OnOk};
ghost use Rattle.ra_condition.specs.Contents.{TriggerContents, trigger_contents, trigger_hits};
ghost use Rattle.ra_condition.specs.Spelled.{IsTrigger};
ghost use Rattle.ra_io.specs.Causes.{Rose};
ghost use Rattle.ra_io.specs.Files.{OnlyRead};
ghost use Rattle.ra_meaning.specs.Play.{Moment};
ghost use Rattle.ra_trace.specs.Cutting.{Pieces};
ghost use Rattle.ra_trace.specs.declared.error.TraceError.TheVariants as error;
ghost use Rattle.ra_why.specs.Taking.{Follows};
ghost use Rattle.ra_why.specs.Watching.{MayStep, trigger_in};
ghost use Rattle.ra_why_job.specs.Says.{frames_to};
ghost use Rattle.ra_replay.specs.Left.{IsLeft, stop_of, trace_limit};
ghost use Rattle.ra_why_job.specs.Watching.{EndsFor, EndsWatch, IsReady, TakesNext, Watches};
ghost use Rattle.ra_why_job.specs.declared.failed.WatchFailed.TheVariants as failed;

use crate::failed::WatchFailed;
use ra_condition::TriggerText;
use ra_io::Files;
use ra_replay::TRACE_LIMIT;
use ra_trace::{Reader, TraceError, Why};
use ra_why::{Taken, Watcher, take_record};
use std::alloc::Global;

// Reads and takes the next record, and answers whether others come after it.
fn watch_next<F: Files>(
    alloc: Global,
    reader: &mut Reader,
    watcher: &mut Watcher,
    files: &mut F,
) -> Result<bool, WatchFailed>
    requires size { reader.old.size ≡ Some (length watcher.old.memory) }
    requires watches { MayStep watcher.old }

    // What was taken, where the bytes of the trace are told.
    ensures next { (bytes : List ℕ) (m : Moment) (left : Pieces) → F.content files.old reader.old.name ≡ Some bytes
        → Follows watcher.old m → IsLeft bytes m reader.old left
        → TakesNext bytes m left reader.new watcher.old watcher.new result }

    // What stays, and why it stops.
    ensures watches { (t : TriggerContents) (size most : ℕ) → Watches t size most watcher.old
        → OnOk result (Watches t size (most + 1) watcher.new) }
    ensures size { OnOk result (reader.new.size ≡ reader.old.size) }
    ensures name { reader.new.name ≡ reader.old.name }
    ensures further { OnOk result ((reader.old.next < reader.new.next) × (reader.new.next ≤ reader.new.limit)
        × (reader.new.limit ≡ reader.old.limit)) }
    ensures read { IsErrOf result (failed.Trace error.Read)
        → Rose (F.read_faults files.old reader.old.name) (F.read_faults files.new reader.old.name) }
    ensures stays { OnlyRead F.content F.read_faults F.put_faults files.old files.new }
{
    let record = reader.next_record(files)?;
    match take_record(alloc, watcher, &record)? {
        Taken::On => Ok(true),
        Taken::Unlock => Ok(false),
        Taken::End => Ok(false),
        Taken::Empty => Err(WatchFailed::Trace(TraceError::Refused {
            at: reader.place(),
            why: Why::EmptySlot,
        })),
    }
}

// Takes the records up to the first unlock or to the end record.
fn watch<F: Files>(
    alloc: Global,
    reader: &mut Reader,
    watcher: &mut Watcher,
    files: &mut F,
) -> Result<(), WatchFailed>
    requires ready { IsReady reader.old watcher.old }

    // Why it ends, where the bytes of the trace are told.
    ensures ends { (bytes : List ℕ) (m : Moment) (left : Pieces) → F.content files.old reader.old.name ≡ Some bytes
        → Follows watcher.old m → IsLeft bytes m reader.old left
        → EndsFor (frames_to (trigger_in watcher.old) m left.entries) (stop_of bytes left) watcher.new result }

    // What stays, and why it stops.
    ensures watches { OnOk result (Watches (trigger_in watcher.old) (length watcher.old.memory) trace_limit watcher.new) }
    ensures read { IsErrOf result (failed.Trace error.Read)
        → Rose (F.read_faults files.old reader.old.name) (F.read_faults files.new reader.old.name) }
    ensures stays { OnlyRead F.content F.read_faults F.put_faults files.old files.new }
{
    while watch_next(alloc, reader, watcher, files)? {}
    Ok(())
}

/// Watches a trace for an achievement from the plain opening on, up to its first unlock, after which nothing is read, or to
/// its end record: docs/DEFINITIONS.md, "Account of an achievement".
///
/// At most 65,536 conditions. It stops where the trace is refused or has no end within the limit, at a read that failed,
/// and where memory runs out. No file changes.
pub(crate) fn watch_trace<F: Files>(
    alloc: Global,
    text: TriggerText,
    trace: &str,
    files: &mut F,
) -> Result<Watcher, WatchFailed>
    requires few { trigger_hits (trigger_contents text) ≤ 65536 }
    requires spelled { IsTrigger (trigger_contents text) }

    // Why it ends, where the bytes of the trace are told.
    ensures ends { (bytes : List ℕ) → F.content files.old trace.now ≡ Some bytes → EndsWatch (trigger_contents text) bytes result }

    // What was watched, and what stays.
    ensures watches { IfOk result (λ w. Watches (trigger_contents text) (length w.memory) trace_limit w) }
    ensures read { IsErrOf result (failed.Trace error.Read)
        → Rose (F.read_faults files.old trace.now) (F.read_faults files.new trace.now) }
    ensures stays { OnlyRead F.content F.read_faults F.put_faults files.old files.new }
{
    let mut reader = Reader::open(alloc, trace, TRACE_LIMIT)?;
    let size = reader.header(files)?;
    let mut watcher = Watcher::new(alloc, text, size)?;
    watch(alloc, &mut reader, &mut watcher, files)?;
    Ok(watcher)
}
