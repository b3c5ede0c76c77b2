//! What a run begins with: its set, and the progress file that it goes on from.

ghost use Rattle.std.specs.Prelude.{◌≡◌, Some, None, OnOk, option_map, IfOk, IfErr};
ghost use Rattle.ra_io.specs.Causes.{Rose};
ghost use Rattle.ra_io.specs.Files.{OnlyRead};
ghost use Rattle.ra_set.specs.Contents.{set_contents};
ghost use Rattle.ra_progress.specs.Contents.{shape_contents};
ghost use Rattle.ra_progress.specs.Names.{IsUsable};
ghost use Rattle.ra_progress.specs.Reading.{refusal};
ghost use Rattle.ra_memory.specs.Image.{AreBytes};
ghost use Rattle.ra_meaning.specs.Order as order;
ghost use Rattle.ra_session.specs.Expected.{progress_limit};
ghost use Rattle.ra_session.specs.Loading.{AreAccepted, AreOfFile, HasNoProgress, HasNoSet, IsLoaded, IsNotLoaded, IsTaken, IsTakenUnnamed, progress_in};
ghost use Rattle.ra_jobs.specs.Outside.{AnyRose};
ghost use Rattle.ra_session.specs.Playing.{IsPlayable};
ghost use Rattle.ra_args.specs.Words.{file_in};

use crate::beginning::Beginning;
use crate::failures::{LoadFailed, ProgressFailed, SetFailed};
use crate::run_files::RunFiles;
use ra_io::Files;
use ra_jobs::read_whole;
use ra_progress::{ProgressRefused, Shape, check};
use ra_runtime::shape_of;
use ra_set::{Set, SetRefused, parse_set, read_unnamed};
use std::alloc::Global;

/// A byte more than a set may have.
pub(crate) const SET_READ: usize = 4_194_305;

// How many bytes of a progress file are read: a byte more than it may have.
fn progress_read() -> usize
    ensures { result ≡ progress_limit }
{
    8_388_609
}

/// The set of a file: docs/DEFINITIONS.md, "Set file". No file changes.
pub fn load_set<F: Files>(alloc: Global, name: &str, files: &mut F) -> Result<Set, SetFailed>
    ensures set { IfOk result (λ s. IsTaken (F.content files.old name.now) (set_contents s)) }
    ensures failed { IfErr result (HasNoSet (F.content files.old name.now) (Rose (F.read_faults files.old name.now) (F.read_faults files.new name.now))) }

    ensures stays { OnlyRead F.content F.read_faults F.put_faults files.old files.new }
{
    let bytes = read_whole(alloc, name, SET_READ, files)?;
    match parse_set(alloc, bytes.as_slice()) {
        Ok(set) => Ok(set),
        Err(SetRefused::Memory) => Err(SetFailed::Memory),
        Err(why) => Err(SetFailed::Refused(why)),
    }
}

/// The set of a file, without its names, which a run needs only for progress files. No file changes.
pub fn load_unnamed<F: Files>(alloc: Global, name: &str, files: &mut F) -> Result<Set, SetFailed>
    ensures set { IfOk result (λ s. IsTakenUnnamed (F.content files.old name.now) (set_contents s)) }
    ensures failed { IfErr result (HasNoSet (F.content files.old name.now) (Rose (F.read_faults files.old name.now) (F.read_faults files.new name.now))) }

    ensures stays { OnlyRead F.content F.read_faults F.put_faults files.old files.new }
{
    let bytes = read_whole(alloc, name, SET_READ, files)?;
    match read_unnamed(alloc, bytes.as_slice()) {
        Ok(set) => Ok(set),
        Err(SetRefused::Memory) => Err(SetFailed::Memory),
        Err(why) => Err(SetFailed::Refused(why)),
    }
}

// Judges bytes as a progress file of a set, by its shape.
fn judge(set: &Set, shape: &Shape, bytes: &[u8]) -> Result<(), ProgressRefused>
    requires usable { IsUsable shape.now }
    requires shape { shape_contents shape.now ≡ order.shape_of (set_contents set.now) }
    ensures bytes { AreBytes bytes.now }
    ensures accepted { OnOk result (refusal (order.shape_of (set_contents set.now)) bytes.now ≡ None) }
    ensures refused { IfErr result (λ why. refusal (order.shape_of (set_contents set.now)) bytes.now ≡ Some why) }
{
    match check(shape, bytes) {
        Ok(()) => Ok(()),
        Err(why) => Err(why),
    }
}

// The bytes of a progress file of a set: one byte more than it may have is read at most.
fn read_progress<F: Files>(
    alloc: Global,
    set: &Set,
    name: &str,
    files: &mut F,
) -> Result<Vec<u8>, ProgressFailed>
    requires { IsPlayable (set_contents set.now) }
    ensures accepted { IfOk result (λ bytes. AreAccepted (set_contents set.now) (Some bytes.items)) }
    ensures of_file { IfOk result (λ bytes. AreOfFile (F.content files.old) (Some name.now) (Some bytes.items)) }
    ensures failed { IfErr result (HasNoProgress (set_contents set.now) (F.content files.old) (Some name.now)
        (Rose (F.read_faults files.old name.now) (F.read_faults files.new name.now))) }

    ensures stays { OnlyRead F.content F.read_faults F.put_faults files.old files.new }
{
    let shape = shape_of(alloc, set)?;
    let bytes = read_whole(alloc, name, progress_read(), files)?;
    match judge(set, &shape, bytes.as_slice()) {
        Ok(()) => Ok(bytes),
        Err(why) => Err(ProgressFailed::Refused(why)),
    }
}

// The progress bytes that a run goes on from, where it names a file of them.
fn load_progress<F: Files>(
    alloc: Global,
    set: &Set,
    restore: Option<&str>,
    files: &mut F,
) -> Result<Option<Vec<u8>>, ProgressFailed>
    requires { IsPlayable (set_contents set.now) }
    ensures accepted { IfOk result (λ progress. AreAccepted (set_contents set.now) (option_map (λ bytes. bytes.items) progress)) }
    ensures of_file { IfOk result (λ progress. AreOfFile (F.content files.old) (option_map (λ name. name.now) restore.entry) (option_map (λ bytes. bytes.items) progress)) }
    ensures failed { IfErr result (HasNoProgress (set_contents set.now) (F.content files.old) (option_map (λ name. name.now) restore.entry)
        (AnyRose (F.read_faults files.old) (F.read_faults files.new) (file_in (option_map (λ name. name.now) restore.entry)))) }

    ensures stays { OnlyRead F.content F.read_faults F.put_faults files.old files.new }
{
    match restore {
        Some(name) => Ok(Some(read_progress(alloc, set, name, files)?)),
        None => Ok(None),
    }
}

/// What a run begins with: its set is read and judged, and then its progress file, where one is named. No file changes.
pub fn load<F: Files>(
    alloc: Global,
    run: &RunFiles<'_>,
    files: &mut F,
) -> Result<Beginning, LoadFailed>
    ensures loaded { IfOk result (λ b. IsLoaded (F.content files.old) run.now.set.now (option_map (λ name. name.now) run.now.restore) (set_contents b.set) (progress_in b)) }
    ensures failed { IfErr result (IsNotLoaded (F.content files.old) (F.read_faults files.old) (F.read_faults files.new) run.now.set.now (option_map (λ name. name.now) run.now.restore)) }

    ensures stays { OnlyRead F.content F.read_faults F.put_faults files.old files.new }
{
    let set = load_set(alloc, run.set, files)?;
    let progress = load_progress(alloc, &set, run.restore, files)?;
    Ok(Beginning { set, progress })
}
