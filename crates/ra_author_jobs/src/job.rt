//! A job of the program for authors, up to its text: docs/DEFINITIONS.md, "Jobs for authors".

ghost use Rattle.std.specs.Prelude.{◌≡◌, ◌≢◌, ℕ, List, Ok, IfOk, IsErrOf, OnOk, option_map};
ghost use Rattle.std.specs.List.{AllByRecursion};
ghost use Rattle.ra_args.specs.AuthorWords.{author_contents, author_puts, author_reads};
ghost use Rattle.ra_author_jobs.specs.Expected.{IsAnswer, IsOwn, IsPut, expected_of};
ghost use Rattle.ra_io.specs.Causes.{NoneFell};
ghost use Rattle.ra_io.specs.Files.{OnlyRead, SameContent};
ghost use Rattle.ra_jobs.specs.Outside.{AnyRose};

use crate::answer::Answer;
use crate::importing::import_answer;
use crate::reviewing::review_answer;
use crate::texts::{help_answer, version_answer};
use crate::why::why_answer;
use ra_args::AuthorJob;
use ra_io::{Files, PutFailed};
use ra_jobs::ReadFailed;
use ra_text::OutOfMemory;
use std::alloc::Global;

// An answer for which no file is read.
fn unread(answer: Result<Answer, OutOfMemory>) -> Result<Answer, ReadFailed>
    ensures ok { IfOk result (λ a. answer ≡ Ok a) }
    ensures err { IsErrOf result ReadFailed.Failed → ⊥ }
{
    match answer {
        Ok(answer) => Ok(answer),
        Err(OutOfMemory) => Err(ReadFailed::Memory),
    }
}

/// What a job says over files: docs/DEFINITIONS.md, "Jobs for authors". No file changes.
///
/// `Failed` where a read of a file failed that the job reads.
pub fn answer_job<F: Files>(
    alloc: Global,
    job: &AuthorJob<'_>,
    files: &mut F,
) -> Result<Answer, ReadFailed>
    ensures says { IfOk result (λ a. IsAnswer (F.content files.old) (author_contents job.now) (expected_of a)) }
    ensures own { IfOk result (λ a. IsOwn (expected_of a)) }
    ensures stays { OnlyRead F.content F.read_faults F.put_faults files.old files.new }
    ensures failed { IsErrOf result ReadFailed.Failed → AnyRose (F.read_faults files.old) (F.read_faults files.new) (author_reads (author_contents job.now)) }
{
    match *job {
        AuthorJob::Review { set } => review_answer(alloc, set, files),
        AuthorJob::Why { set, trace, id } => why_answer(alloc, set, trace, id, files),
        AuthorJob::Import { file, .. } => import_answer(alloc, file, files),
        AuthorJob::Help => unread(help_answer(alloc)),
        AuthorJob::Version => unread(version_answer(alloc)),
    }
}

/// Puts the file that a job says, where it puts one: docs/DEFINITIONS.md, "Jobs for authors".
///
/// No other file changes. `Memory` leaves that one too.
pub fn put_saved<F: Files>(
    job: &AuthorJob<'_>,
    saved: &Option<Vec<u8>>,
    files: &mut F,
) -> Result<(), PutFailed>
    ensures put { OnOk result (IsPut (author_contents job.now) (option_map (λ bytes. bytes.items) saved.now) (F.content files.old) (F.content files.new)) }
    ensures others { (name : List ℕ) → AllByRecursion (λ put. name ≢ put) (author_puts (author_contents job.now)) → F.content files.new name ≡ F.content files.old name }
    ensures failed { IsErrOf result PutFailed.Failed → AnyRose (F.put_faults files.old) (F.put_faults files.new) (author_puts (author_contents job.now)) }
    ensures memory { IsErrOf result PutFailed.Memory → SameContent (F.content files.old) (F.content files.new) }
    ensures reads { NoneFell (F.read_faults files.old) (F.read_faults files.new) }
    ensures puts { NoneFell (F.put_faults files.old) (F.put_faults files.new) }
{
    match (*job, saved) {
        (AuthorJob::Import { set, .. }, Some(bytes)) => files.put(set, bytes.as_slice()),
        _ => Ok(()),
    }
}
