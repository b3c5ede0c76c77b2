//! Why a trace is watched no further.

ghost use Rattle.std.specs.Prelude.{◌≡◌};
ghost use Rattle.ra_why_job.specs.declared.failed.WatchFailed.TheVariants as watch;

use ra_text::OutOfMemory;
use ra_trace::TraceError;

/// Why a trace is watched no further.
#[derive(Clone, Copy, Debug, PartialEq, Eq)]
pub(crate) enum WatchFailed {
    /// Its header or its next record is not read, or not taken.
    Trace(TraceError),
    /// Out of memory.
    Memory,
}

impl From<OutOfMemory> for WatchFailed {
    ghost from_gives = { λ _ e. e ≡ watch.Memory };

    fn from(_error: OutOfMemory) -> WatchFailed {
        WatchFailed::Memory
    }
}

impl From<TraceError> for WatchFailed {
    ghost from_gives = { λ error e. e ≡ watch.Trace error };

    fn from(error: TraceError) -> WatchFailed {
        WatchFailed::Trace(error)
    }
}
