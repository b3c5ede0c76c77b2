//! What `why` says where a set is refused, has no such achievement, or a trace was watched.

ghost use Rattle.std.specs.Prelude.{◌≡◌, ℕ, List, true, IfOk, IsErrOf, length};
ghost use Rattle.ra_condition.specs.Contents.{TriggerContents};
ghost use Rattle.ra_condition.specs.Spelled.{IsTrigger};
ghost use Rattle.ra_memory.specs.Image.{History};
ghost use Rattle.ra_why.specs.Text.{why_text};
ghost use Rattle.ra_why.specs.Watching.{MayStep, Stands, trigger_in};
ghost use Rattle.ra_why_job.specs.Says.{TraceSays, history_in, is_traced, lacks_line, long_line, refused_line, set_line, trace_in};
ghost use Rattle.ra_why_job.specs.Watching.{IsReason, IsReply};

use crate::failed::WatchFailed;
use crate::reply::Reply;
use ra_jobs::ReadFailed;
use ra_set::SetRefused;
use ra_trace::{TraceError, Why};
use ra_why::{Watcher, account_text};
use std::alloc::{AllocError, Global};
use std::fmt::Write;

// What is said where the set is refused.
pub(crate) fn set_reply(alloc: Global, why: SetRefused) -> Result<Reply, AllocError>
    ensures { IfOk result (IsReply 3 (set_line why)) }
{
    let mut text = String::new(alloc);
    writeln!(text, "set refused: {why}")?;
    Ok(Reply {
        status: 3,
        text: text.into_bytes(),
    })
}

// What is said where the set has no achievement of the id.
pub(crate) fn lacks_reply(alloc: Global, id: u32) -> Result<Reply, AllocError>
    ensures { IfOk result (IsReply 12 (lacks_line id)) }
{
    let mut text = String::new(alloc);
    writeln!(text, "why refused: no achievement {id}")?;
    Ok(Reply {
        status: 12,
        text: text.into_bytes(),
    })
}

// What is said where the trace is refused.
fn refused_reply(alloc: Global, at: u64, why: Why) -> Result<Reply, AllocError>
    ensures { IfOk result (IsReply 7 (refused_line at why)) }
{
    let mut text = String::new(alloc);
    writeln!(text, "trace refused at {at}: {why}")?;
    Ok(Reply {
        status: 7,
        text: text.into_bytes(),
    })
}

// What is said where the trace is too long.
fn long_reply(alloc: Global) -> Result<Reply, AllocError>
    ensures { IfOk result (IsReply 8 long_line) }
{
    let mut text = Vec::new(alloc);
    text.extend_from_slice(b"trace too long\n")?;
    Ok(Reply { status: 8, text })
}

// What is said where the header or the next record of a trace is not read, or not taken.
fn stopped_reply(alloc: Global, error: TraceError) -> Result<Reply, ReadFailed>
    ensures says { (id : ℕ) (t : TriggerContents) (bytes : List ℕ) → IsReason (history_in t bytes) (trace_in bytes).stop (WatchFailed.Trace error)
        → IfOk result (λ r. TraceSays id t bytes r.status r.text.items) }
    ensures own { IfOk result (λ r. is_traced r.status ≡ true) }
    ensures failed { IsErrOf result ReadFailed.Failed → error ≡ TraceError.Read }
{
    match error {
        TraceError::Refused { at, why } => Ok(refused_reply(alloc, at, why)?),
        TraceError::TooLong => Ok(long_reply(alloc)?),
        TraceError::Read => Err(ReadFailed::Failed),
    }
}

/// What is said where a trace was watched no further.
pub(crate) fn failed_reply(alloc: Global, failed: WatchFailed) -> Result<Reply, ReadFailed>
    ensures says { (id : ℕ) (t : TriggerContents) (bytes : List ℕ) → IsReason (history_in t bytes) (trace_in bytes).stop failed
        → IfOk result (λ r. TraceSays id t bytes r.status r.text.items) }
    ensures own { IfOk result (λ r. is_traced r.status ≡ true) }
    ensures failed { IsErrOf result ReadFailed.Failed → failed ≡ WatchFailed.Trace TraceError.Read }
{
    match failed {
        WatchFailed::Trace(error) => stopped_reply(alloc, error),
        WatchFailed::Memory => Err(ReadFailed::Memory),
    }
}

/// What is said where a trace was watched to the unlock or to its end record: the account of the frames after.
///
/// Fewer than 2^60 frames lie behind.
pub(crate) fn account_reply(alloc: Global, id: u32, watcher: &Watcher) -> Result<Reply, ReadFailed>
    requires watches { MayStep watcher.now }
    requires spelled { IsTrigger (trigger_in watcher.now) }
    ensures says { (history : History) → Stands watcher.now history
        → IfOk result (λ r. r.text.items ≡ why_text id (trigger_in watcher.now) (length watcher.now.memory) history) }
    ensures own { IfOk result (λ r. r.status ≡ 0) }
    ensures failed { IsErrOf result ReadFailed.Failed → ⊥ }
{
    match account_text(
        alloc,
        id,
        &watcher.text,
        &watcher.run.trigger,
        &watcher.account,
    ) {
        Ok(text) => Ok(Reply { status: 0, text }),
        Err(_) => Err(ReadFailed::Memory),
    }
}
