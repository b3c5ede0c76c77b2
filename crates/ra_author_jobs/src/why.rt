//! The job `why`: docs/DEFINITIONS.md, "Account of an achievement".

ghost use Rattle.std.specs.Prelude.{◌≡◌, [], ◌∷◌, IfOk, IsErrOf};
ghost use Rattle.ra_args.specs.AuthorWords.{Why};
ghost use Rattle.ra_author_jobs.specs.Expected.{IsAnswer, IsOwn, expected_of};
ghost use Rattle.ra_io.specs.Files.{OnlyRead};
ghost use Rattle.ra_jobs.specs.Outside.{AnyRose};

use crate::answer::Answer;
use ra_io::Files;
use ra_jobs::ReadFailed;
use ra_why_job::why_job;
use std::alloc::Global;

/// What `why` says of the achievement of an id over a trace: docs/DEFINITIONS.md, "Jobs for authors". No file changes.
pub fn why_answer<F: Files>(
    alloc: Global,
    set: &str,
    trace: &str,
    id: u32,
    files: &mut F,
) -> Result<Answer, ReadFailed>
    ensures says { IfOk result (λ a. IsAnswer (F.content files.old) (Why set.now trace.now id) (expected_of a)) }
    ensures own { IfOk result (λ a. IsOwn (expected_of a)) }
    ensures stays { OnlyRead F.content F.read_faults F.put_faults files.old files.new }
    ensures failed { IsErrOf result ReadFailed.Failed → AnyRose (F.read_faults files.old) (F.read_faults files.new) (set.now ∷ trace.now ∷ []) }
{
    match why_job(alloc, set, trace, id, files) {
        Ok(reply) => Ok(Answer {
            status: reply.status,
            text: reply.text,
            saved: None,
        }),
        Err(failed) => Err(failed),
    }
}
