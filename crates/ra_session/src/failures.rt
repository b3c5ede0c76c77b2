//! What each phase of a job can end with before it is done.

ghost use Rattle.std.specs.Prelude.{◌≡◌};
ghost use Rattle.ra_session.specs.Failures.{document_refused, document_unread, normal_unread, progress_unread, set_unread, trace_failed, trace_unwritten};
ghost use Rattle.ra_session.specs.declared.failures.DocumentFailed.TheVariants as document;
ghost use Rattle.ra_session.specs.declared.failures.LoadFailed.TheVariants as load;
ghost use Rattle.ra_session.specs.declared.failures.NormalFailed.TheVariants as no_normal;
ghost use Rattle.ra_session.specs.declared.failures.ProgressFailed.TheVariants as progress;
ghost use Rattle.ra_session.specs.declared.failures.TraceFailed.TheVariants as trace;

use ra_io::SinkFailed;
use ra_jobs::ReadFailed;
use ra_normal::NormalRefused;
use ra_patch::PatchRefused;
use ra_progress::ProgressRefused;
use ra_set::SetRefused;
use ra_text::OutOfMemory;
use ra_trace::{TraceError, Why};
use std::alloc::AllocError;

/// Why there is no set.
#[derive(Clone, Copy, Debug, PartialEq, Eq)]
pub enum SetFailed {
    /// There was no memory.
    Memory,
    /// A read of the file failed.
    Read,
    /// The file is refused.
    Refused(SetRefused),
}

/// Why a document gives no set.
#[derive(Clone, Copy, Debug, PartialEq, Eq)]
pub enum DocumentFailed {
    /// There was no memory.
    Memory,
    /// A read of the file failed.
    Read,
    /// The document is refused.
    Refused(PatchRefused),
}

/// Why a set gives no normal text.
#[derive(Clone, Copy, Debug, PartialEq, Eq)]
pub enum NormalFailed {
    /// There is no set.
    Set(SetFailed),
    /// Its normal text passes a limit, or there was no memory for it.
    Refused(NormalRefused),
}

/// Why there are no progress bytes.
#[derive(Clone, Copy, Debug, PartialEq, Eq)]
pub enum ProgressFailed {
    /// There was no memory.
    Memory,
    /// A read of the file failed.
    Read,
    /// The file is refused.
    Refused(ProgressRefused),
}

/// Why a run does not begin.
#[derive(Clone, Copy, Debug, PartialEq, Eq)]
pub enum LoadFailed {
    /// There is no set.
    Set(SetFailed),
    /// There is a set, and there are no progress bytes.
    Progress(ProgressFailed),
}

/// Why a trace is not played to its end.
#[derive(Clone, Copy, Debug, PartialEq, Eq)]
pub enum TraceFailed {
    /// There was no memory.
    Memory,
    /// A read of the file failed.
    Read,
    /// A write to the output failed.
    Write,
    /// The trace is refused: the place of its header or of its first bad record, and the reason.
    Refused { at: u64, why: Why },
    /// The trace has no end record within the limit.
    TooLong,
}

impl From<ReadFailed> for SetFailed {
    ghost from_gives = { λ failed e. e ≡ set_unread failed };

    fn from(failed: ReadFailed) -> SetFailed {
        match failed {
            ReadFailed::Memory => SetFailed::Memory,
            ReadFailed::Failed => SetFailed::Read,
        }
    }
}

impl From<ReadFailed> for DocumentFailed {
    ghost from_gives = { λ failed e. e ≡ document_unread failed };

    fn from(failed: ReadFailed) -> DocumentFailed {
        match failed {
            ReadFailed::Memory => DocumentFailed::Memory,
            ReadFailed::Failed => DocumentFailed::Read,
        }
    }
}

impl From<PatchRefused> for DocumentFailed {
    ghost from_gives = { λ why e. e ≡ document_refused why };

    fn from(why: PatchRefused) -> DocumentFailed {
        match why {
            PatchRefused::Memory => DocumentFailed::Memory,
            why => DocumentFailed::Refused(why),
        }
    }
}

impl From<OutOfMemory> for DocumentFailed {
    ghost from_gives = { λ _ e. e ≡ document.Memory };

    fn from(_error: OutOfMemory) -> DocumentFailed {
        DocumentFailed::Memory
    }
}

impl From<ReadFailed> for NormalFailed {
    ghost from_gives = { λ failed e. e ≡ normal_unread failed };

    fn from(failed: ReadFailed) -> NormalFailed {
        NormalFailed::Set(SetFailed::from(failed))
    }
}

impl From<SetFailed> for NormalFailed {
    ghost from_gives = { λ failed e. e ≡ no_normal.Set failed };

    fn from(failed: SetFailed) -> NormalFailed {
        NormalFailed::Set(failed)
    }
}

impl From<NormalRefused> for NormalFailed {
    ghost from_gives = { λ why e. e ≡ no_normal.Refused why };

    fn from(why: NormalRefused) -> NormalFailed {
        NormalFailed::Refused(why)
    }
}

impl From<ReadFailed> for ProgressFailed {
    ghost from_gives = { λ failed e. e ≡ progress_unread failed };

    fn from(failed: ReadFailed) -> ProgressFailed {
        match failed {
            ReadFailed::Memory => ProgressFailed::Memory,
            ReadFailed::Failed => ProgressFailed::Read,
        }
    }
}

impl From<OutOfMemory> for ProgressFailed {
    ghost from_gives = { λ _ e. e ≡ progress.Memory };

    fn from(_error: OutOfMemory) -> ProgressFailed {
        ProgressFailed::Memory
    }
}

impl From<SetFailed> for LoadFailed {
    ghost from_gives = { λ failed e. e ≡ load.Set failed };

    fn from(failed: SetFailed) -> LoadFailed {
        LoadFailed::Set(failed)
    }
}

impl From<ProgressFailed> for LoadFailed {
    ghost from_gives = { λ failed e. e ≡ load.Progress failed };

    fn from(failed: ProgressFailed) -> LoadFailed {
        LoadFailed::Progress(failed)
    }
}

impl From<OutOfMemory> for TraceFailed {
    ghost from_gives = { λ _ e. e ≡ trace.Memory };

    fn from(_error: OutOfMemory) -> TraceFailed {
        TraceFailed::Memory
    }
}

impl From<SinkFailed> for TraceFailed {
    ghost from_gives = { λ failed e. e ≡ trace_unwritten failed };

    fn from(failed: SinkFailed) -> TraceFailed {
        match failed {
            SinkFailed::Failed => TraceFailed::Write,
            SinkFailed::Memory => TraceFailed::Memory,
        }
    }
}

impl From<TraceError> for TraceFailed {
    ghost from_gives = { λ error e. e ≡ trace_failed error };

    fn from(error: TraceError) -> TraceFailed {
        match error {
            TraceError::Refused { at, why } => TraceFailed::Refused { at, why },
            TraceError::TooLong => TraceFailed::TooLong,
            TraceError::Read => TraceFailed::Read,
        }
    }
}
