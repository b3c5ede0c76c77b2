//! Why a trace is not watched to an unlock or to its end record.

ghost use Rattle.std.specs.Prelude.{◌≡◌};
ghost use Rattle.ra_explain_job.specs.Failures.{ending_of_watch, untaken_by};
ghost use Rattle.ra_explain_job.specs.declared.failed.Untaken.TheVariants as untaken;
ghost use Rattle.ra_explain_job.specs.declared.failed.WatchFailed.TheVariants as watch;

use ra_explain::ExplainRefused;
use ra_session::{Ending, TraceFailed};
use ra_text::OutOfMemory;
use ra_trace::TraceError;

/// Why a record is not taken.
#[derive(Clone, Copy, Debug, PartialEq, Eq)]
pub(crate) enum Untaken {
    /// It restores an empty slot.
    EmptySlot,
    /// The rows of one frame more are too many, and how many rows and comparisons they would be.
    Rows { found: u64 },
    /// There was no memory.
    Memory,
}

/// Why a trace is watched no further.
#[derive(Clone, Copy, Debug, PartialEq, Eq)]
pub(crate) enum WatchFailed {
    /// Its header or its next record is not read, or not played.
    Trace(TraceError),
    /// The rows of one frame more are too many, and how many rows and comparisons they would be.
    Rows { found: u64 },
    /// There was no memory.
    Memory,
}

impl From<ExplainRefused> for Untaken {
    ghost from_gives = { λ why e. e ≡ untaken_by why };

    fn from(why: ExplainRefused) -> Untaken {
        match why {
            ExplainRefused::Rows { found } => Untaken::Rows { found },
            ExplainRefused::Memory => Untaken::Memory,
        }
    }
}

impl From<OutOfMemory> for Untaken {
    ghost from_gives = { λ _ e. e ≡ untaken.Memory };

    fn from(_error: OutOfMemory) -> Untaken {
        Untaken::Memory
    }
}

impl From<OutOfMemory> for WatchFailed {
    ghost from_gives = { λ _ e. e ≡ watch.Memory };

    fn from(_error: OutOfMemory) -> WatchFailed {
        WatchFailed::Memory
    }
}

impl From<TraceError> for WatchFailed {
    ghost from_gives = { λ error e. e ≡ watch.Trace error };

    fn from(error: TraceError) -> WatchFailed {
        WatchFailed::Trace(error)
    }
}

impl From<WatchFailed> for Ending {
    ghost from_gives = { λ failed e. e ≡ ending_of_watch failed };

    fn from(failed: WatchFailed) -> Ending {
        match failed {
            WatchFailed::Trace(error) => Ending::from(TraceFailed::from(error)),
            WatchFailed::Rows { found } => Ending::ManyRows { found },
            WatchFailed::Memory => Ending::NoMemory,
        }
    }
}
