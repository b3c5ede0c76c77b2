//! The job `review`: docs/DEFINITIONS.md, "Review of a set".

ghost use Rattle.std.specs.Prelude.{◌≡◌, ◌⊎◌, ℕ, List, Some, IfOk, IsErrOf};
ghost use Rattle.ra_author_jobs.specs.Expected as spec;
ghost use Rattle.ra_author_jobs.specs.Expected.{IsOwn, ReviewSays, expected_of, prints};
ghost use Rattle.ra_io.specs.Causes.{Rose};
ghost use Rattle.ra_io.specs.Files.{OnlyRead};
ghost use Rattle.ra_review.specs.Reporting.{said_by};

use crate::answer::Answer;
use ra_io::Files;
use ra_jobs::{ReadFailed, read_whole};
use ra_review::{Reviewed, review};
use ra_set::SetRefused;
use ra_text::OutOfMemory;
use std::alloc::Global;

// A byte more than a set may have.
const SET_READ: usize = 4_194_305;

// The status of a review.
fn status_of(refused: usize, limit: Option<SetRefused>) -> u8
    ensures status { result ≡ spec.review_status refused limit }
    ensures own { (result ≡ 0) ⊎ (result ≡ 3) }
{
    match (refused, limit) {
        (0, None) => 0,
        _ => 3,
    }
}

// What is said of a review.
fn reviewed_answer(reviewed: Reviewed) -> Answer
    ensures says { expected_of result ≡ prints (spec.review_status reviewed.refused reviewed.limit) reviewed.text.items }
    ensures own { IsOwn (expected_of result) }
{
    let status = status_of(reviewed.refused, reviewed.limit);
    Answer {
        status,
        text: reviewed.text,
        saved: None,
    }
}

/// What `review` says of a set: docs/DEFINITIONS.md, "Review of a set". No file changes.
pub fn review_answer<F: Files>(
    alloc: Global,
    name: &str,
    files: &mut F,
) -> Result<Answer, ReadFailed>
    ensures says { IfOk result (λ a. (file : List ℕ) → F.content files.old name.now ≡ Some file → ReviewSays (F.content files.old) name.now (expected_of a)) }
    ensures own { IfOk result (λ a. IsOwn (expected_of a)) }
    ensures stays { OnlyRead F.content F.read_faults F.put_faults files.old files.new }
    ensures failed { IsErrOf result ReadFailed.Failed → Rose (F.read_faults files.old name.now) (F.read_faults files.new name.now) }
{
    let bytes = read_whole(alloc, name, SET_READ, files)?;
    match review(alloc, bytes.as_slice()) {
        Ok(reviewed) => Ok(reviewed_answer(reviewed)),
        Err(OutOfMemory) => Err(ReadFailed::Memory),
    }
}
