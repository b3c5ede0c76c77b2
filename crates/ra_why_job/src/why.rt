//! The job `why`.

ghost use Rattle.std.specs.Prelude.{◌≡◌, ◌≤◌, ℕ, List, Some, [], ◌∷◌, true, IfOk, IsErrOf};
ghost use Rattle.ra_condition.specs.Contents.{trigger_contents, trigger_hits};
ghost use Rattle.ra_condition.specs.Spelled.{IsTrigger};
ghost use Rattle.ra_io.specs.Causes.{Rose};
ghost use Rattle.ra_io.specs.Files.{OnlyRead};
ghost use Rattle.ra_jobs.specs.Outside.{AnyRose, AreTold};
ghost use Rattle.ra_why_job.specs.Says.{TraceSays, WhySays, decided_by, is_own, is_traced};

use crate::choosing::{Chosen, choose};
use crate::reply::Reply;
use crate::telling::{account_reply, failed_reply, lacks_reply, set_reply};
use crate::watching::watch_trace;
use ra_condition::TriggerText;
use ra_io::Files;
use ra_jobs::{ReadFailed, read_whole};
use ra_text::OutOfMemory;
use std::alloc::Global;

// A byte more than a set may have.
const SET_READ: usize = 4_194_305;

// What is said of an achievement over a trace.
fn trace_reply<F: Files>(
    alloc: Global,
    text: TriggerText,
    trace: &str,
    id: u32,
    files: &mut F,
) -> Result<Reply, ReadFailed>
    requires few { trigger_hits (trigger_contents text) ≤ 65536 }
    requires spelled { IsTrigger (trigger_contents text) }
    ensures says { IfOk result (λ r. (bytes : List ℕ) → F.content files.old trace.now ≡ Some bytes
        → TraceSays id (trigger_contents text) bytes r.status r.text.items) }
    ensures own { IfOk result (λ r. is_traced r.status ≡ true) }
    ensures failed { IsErrOf result ReadFailed.Failed → Rose (F.read_faults files.old trace.now) (F.read_faults files.new trace.now) }
    ensures stays { OnlyRead F.content F.read_faults F.put_faults files.old files.new }
{
    match watch_trace(alloc, text, trace, files) {
        Ok(watcher) => account_reply(alloc, id, &watcher),
        Err(failed) => failed_reply(alloc, failed),
    }
}

/// What `why` says of the achievement of an id over a trace: docs/DEFINITIONS.md, "Jobs for authors". No file changes.
///
/// The set is read first; the trace only where the set has the achievement, and nothing of it after the frame at which the
/// achievement unlocks. `Failed` where a read of one of the two failed.
pub fn why_job<F: Files>(
    alloc: Global,
    set: &str,
    trace: &str,
    id: u32,
    files: &mut F,
) -> Result<Reply, ReadFailed>
    ensures says { IfOk result (λ r. AreTold (F.content files.old) (decided_by set.now trace.now r.status)
        → WhySays (F.content files.old) set.now trace.now id r.status r.text.items) }
    ensures one { IfOk result (λ r. (status : ℕ) (text : List ℕ) → WhySays (F.content files.old) set.now trace.now id status text
        → (r.status ≡ status) × (r.text.items ≡ text)) }
    ensures own { IfOk result (λ r. is_own r.status ≡ true) }
    ensures failed { IsErrOf result ReadFailed.Failed
        → AnyRose (F.read_faults files.old) (F.read_faults files.new) (set.now ∷ trace.now ∷ []) }
    ensures stays { OnlyRead F.content F.read_faults F.put_faults files.old files.new }
{
    let bytes = read_whole(alloc, set, SET_READ, files)?;
    match choose(alloc, bytes.as_slice(), id) {
        Ok(Chosen::Found(text)) => trace_reply(alloc, text, trace, id, files),
        Ok(Chosen::Lacking) => Ok(lacks_reply(alloc, id)?),
        Ok(Chosen::Refused(why)) => Ok(set_reply(alloc, why)?),
        Err(OutOfMemory) => Err(ReadFailed::Memory),
    }
}
