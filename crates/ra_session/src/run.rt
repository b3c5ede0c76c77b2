//! A run of a set and a trace, and a check of a set, up to their last lines.

ghost use Rattle.std.specs.Prelude.{◌≡◌, ◌≢◌, ◌≤◌, ⊤, ℕ, List, None, Some, option_map, IfOk, IsErrOf, OnOk};
ghost use Rattle.std.specs.List.{AllByRecursion};
ghost use Rattle.ra_io.specs.Causes.{Rose, NoneFell};
ghost use Rattle.ra_io.specs.Files.{OnlyRead, SameContent};
ghost use Rattle.ra_memory.specs.Image.{History};
ghost use Rattle.ra_progress.specs.Contents.{Opening};
ghost use Rattle.ra_set.specs.Contents.{set_contents};
ghost use Rattle.ra_meaning.specs.Earned.{Earned};
ghost use Rattle.ra_session.specs.Closing.{EndsBefore};
ghost use Rattle.ra_session.specs.Expected.{played};
ghost use Rattle.ra_session.specs.Failures.{ending_at};
ghost use Rattle.ra_session.specs.Loading.{BeginsAt, MayBegin, progress_in};
ghost use Rattle.ra_jobs.specs.Outside.{AnyRose, outside_of};
ghost use Rattle.ra_session.specs.Playing.{kept_bytes};
ghost use Rattle.ra_session.specs.RunFiles.{run_of};
ghost use Rattle.ra_session.specs.Running.{HasBytes, Leaves, Ran};
ghost use Rattle.ra_args.specs.Words.{Check, file_in};

use crate::beginning::Beginning;
use crate::check_line::check_line;
use crate::ending::Ending;
use crate::failures::TraceFailed;
use crate::loading::{load, load_set, load_unnamed};
use crate::player::Player;
use crate::playing::play_records;
use crate::run_files::RunFiles;
use crate::writing::print_line;
use ra_io::{Files, PutFailed, Sink};
use ra_replay::TRACE_LIMIT;
use ra_trace::Reader;
use std::alloc::Global;

/// Plays a trace from what a run begins with, and answers the player at its end.
///
/// It stops where the trace is refused or has no end within the limit, at a read or a write that failed, and for want of
/// memory. No file changes.
pub fn play_trace<F: Files, K: Sink>(
    alloc: Global,
    beginning: Beginning,
    trace: &str,
    files: &mut F,
    out: &mut K,
) -> Result<Player, TraceFailed>
    requires { MayBegin beginning }

    // What was printed, and what is kept at the end, where the bytes of the trace are told.
    ensures printed { (bytes : List ℕ) (o : Opening) (behind : History) (earned : Earned) → F.content files.old trace.now ≡ Some bytes → BeginsAt (set_contents beginning.set) (progress_in beginning) o behind earned
        → EndsBefore (played (set_contents beginning.set) o behind earned bytes) ⊤ ⊤ ⊤ (ending_at result) (K.text out.old) (K.text out.new) }
    ensures kept { IfOk result (λ p. (bytes : List ℕ) (o : Opening) (behind : History) (earned : Earned) → F.content files.old trace.now ≡ Some bytes → BeginsAt (set_contents beginning.set) (progress_in beginning) o behind earned
        → kept_bytes p.runtime ≡ (played (set_contents beginning.set) o behind earned bytes).saved) }

    // Why it stops, and what stays.
    ensures read { IsErrOf result TraceFailed.Read → Rose (F.read_faults files.old trace.now) (F.read_faults files.new trace.now) }
    ensures write { IsErrOf result TraceFailed.Write → Rose (K.faults out.old) (K.faults out.new) }
    ensures stays { OnlyRead F.content F.read_faults F.put_faults files.old files.new }
    ensures later { K.faults out.old ≤ K.faults out.new }
{
    let mut reader = Reader::open(alloc, trace, TRACE_LIMIT)?;
    let size = reader.header(files)?;
    let mut player = Player::new(alloc, beginning, size)?;
    match play_records(alloc, &mut reader, &mut player, files, out) {
        Ok(()) => Ok(player),
        Err(failed) => {
            // One drop by a call: an implicit one would be written out on each way out.
            drop(player);
            Err(failed)
        }
    }
}

// Puts what a player keeps into the file that is named, where one is.
fn put_kept<F: Files>(
    alloc: Global,
    player: &Player,
    save: Option<&str>,
    files: &mut F,
) -> Result<(), PutFailed>
    ensures saved { OnOk result (AllByRecursion (HasBytes (kept_bytes player.now.runtime) (F.content files.old) (F.content files.new)) (file_in (option_map (λ name. name.now) save.entry))) }
    ensures others { (name : List ℕ) → AllByRecursion (λ put. name ≢ put) (file_in (option_map (λ name. name.now) save.entry)) → F.content files.new name ≡ F.content files.old name }

    // What a fault shows, and what stays.
    ensures failed { IsErrOf result PutFailed.Failed → AnyRose (F.put_faults files.old) (F.put_faults files.new) (file_in (option_map (λ name. name.now) save.entry)) }
    ensures memory { IsErrOf result PutFailed.Memory → SameContent (F.content files.old) (F.content files.new) }
    ensures reads { NoneFell (F.read_faults files.old) (F.read_faults files.new) }
    ensures puts { NoneFell (F.put_faults files.old) (F.put_faults files.new) }
{
    let Some(name) = save else {
        return Ok(());
    };
    match player.progress(alloc) {
        Ok(bytes) => files.put(name, bytes.as_slice()),
        Err(_) => Err(PutFailed::Memory),
    }
}

// Puts what a player keeps into the file that is named, where one is, and gives the player up.
fn put_progress<F: Files>(
    alloc: Global,
    player: Player,
    save: Option<&str>,
    files: &mut F,
) -> Result<(), PutFailed>
    ensures saved { OnOk result (AllByRecursion (HasBytes (kept_bytes player.runtime) (F.content files.old) (F.content files.new)) (file_in (option_map (λ name. name.now) save.entry))) }
    ensures others { (name : List ℕ) → AllByRecursion (λ put. name ≢ put) (file_in (option_map (λ name. name.now) save.entry)) → F.content files.new name ≡ F.content files.old name }

    // What a fault shows, and what stays.
    ensures failed { IsErrOf result PutFailed.Failed → AnyRose (F.put_faults files.old) (F.put_faults files.new) (file_in (option_map (λ name. name.now) save.entry)) }
    ensures memory { IsErrOf result PutFailed.Memory → SameContent (F.content files.old) (F.content files.new) }
    ensures reads { NoneFell (F.read_faults files.old) (F.read_faults files.new) }
    ensures puts { NoneFell (F.put_faults files.old) (F.put_faults files.new) }
{
    let put = put_kept(alloc, &player, save, files);
    // One drop by a call: an implicit one costs the proof ten times as much.
    drop(player);
    put
}

// Runs a set and a trace where no progress file is named: no name of the set is made.
fn run_unnamed<F: Files, K: Sink>(
    alloc: Global,
    run: &RunFiles<'_>,
    files: &mut F,
    out: &mut K,
) -> Ending
    requires restore { run.now.restore ≡ None }
    requires save { run.now.save ≡ None }
    ensures ran { Ran (run_of run.now)
        (outside_of (F.content files.old) (F.read_faults files.old) (F.put_faults files.old) (K.text out.old) (K.faults out.old))
        (outside_of (F.content files.new) (F.read_faults files.new) (F.put_faults files.new) (K.text out.new) (K.faults out.new))
        result }
    ensures leaves { Leaves (run_of run.now)
        (outside_of (F.content files.old) (F.read_faults files.old) (F.put_faults files.old) (K.text out.old) (K.faults out.old))
        (outside_of (F.content files.new) (F.read_faults files.new) (F.put_faults files.new) (K.text out.new) (K.faults out.new))
        result }
    ensures later { K.faults out.old ≤ K.faults out.new }
{
    let set = match load_unnamed(alloc, run.set, files) {
        Ok(set) => set,
        Err(no_set) => return Ending::from(no_set),
    };
    let beginning = Beginning {
        set,
        progress: None,
    };
    match play_trace(alloc, beginning, run.trace, files, out) {
        Ok(player) => {
            // One drop by a call: an implicit one costs the proof ten times as much.
            drop(player);
            Ending::Done
        }
        Err(failed) => Ending::from(failed),
    }
}

/// Runs a set and a trace, up to the last line: docs/DEFINITIONS.md, "A run".
///
/// Its lines are printed up to where it ends. No file changes but the one of `save`, and that one only where the run is
/// done, or where its put failed.
pub fn run_job<F: Files, K: Sink>(
    alloc: Global,
    run: &RunFiles<'_>,
    files: &mut F,
    out: &mut K,
) -> Ending
    ensures ran { Ran (run_of run.now)
        (outside_of (F.content files.old) (F.read_faults files.old) (F.put_faults files.old) (K.text out.old) (K.faults out.old))
        (outside_of (F.content files.new) (F.read_faults files.new) (F.put_faults files.new) (K.text out.new) (K.faults out.new))
        result }
    ensures leaves { Leaves (run_of run.now)
        (outside_of (F.content files.old) (F.read_faults files.old) (F.put_faults files.old) (K.text out.old) (K.faults out.old))
        (outside_of (F.content files.new) (F.read_faults files.new) (F.put_faults files.new) (K.text out.new) (K.faults out.new))
        result }
    ensures later { K.faults out.old ≤ K.faults out.new }
{
    if run.restore.is_none() && run.save.is_none() {
        return run_unnamed(alloc, run, files, out);
    }
    let beginning = match load(alloc, run, files) {
        Ok(beginning) => beginning,
        Err(unloaded) => return Ending::from(unloaded),
    };
    let player = match play_trace(alloc, beginning, run.trace, files, out) {
        Ok(player) => player,
        Err(failed) => return Ending::from(failed),
    };
    match put_progress(alloc, player, run.save, files) {
        Ok(()) => Ending::Done,
        Err(failed) => Ending::from(failed),
    }
}

/// Counts what a set has, up to the last line: docs/DEFINITIONS.md, "Counts of a set". No file changes.
pub fn check_job<F: Files, K: Sink>(alloc: Global, name: &str, files: &mut F, out: &mut K) -> Ending
    ensures ran { Ran (Check name.now)
        (outside_of (F.content files.old) (F.read_faults files.old) (F.put_faults files.old) (K.text out.old) (K.faults out.old))
        (outside_of (F.content files.new) (F.read_faults files.new) (F.put_faults files.new) (K.text out.new) (K.faults out.new))
        result }
    ensures same { SameContent (F.content files.old) (F.content files.new) }
    ensures later { K.faults out.old ≤ K.faults out.new }
{
    let set = match load_set(alloc, name, files) {
        Ok(set) => set,
        Err(unset) => return Ending::from(unset),
    };
    match check_line(alloc, &set) {
        Ok(line) => print_line(line.as_str(), out),
        Err(_) => Ending::NoMemory,
    }
}
