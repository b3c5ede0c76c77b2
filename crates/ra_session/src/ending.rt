ghost use Rattle.std.specs.Prelude.{◌≡◌};
ghost use Rattle.ra_session.specs.Failures.{ending_of_document, ending_of_load, ending_of_normal, ending_of_put, ending_of_set, ending_of_trace};
ghost use Rattle.ra_session.specs.declared.ending.Ending.TheVariants as ends;

use crate::failures::{
    DocumentFailed, LoadFailed, NormalFailed, ProgressFailed, SetFailed, TraceFailed,
};
use ra_io::PutFailed;
use ra_normal::NormalRefused;
use ra_patch::PatchRefused;
use ra_progress::ProgressRefused;
use ra_set::{SetRefused, Which};
use ra_text::OutOfMemory;
use ra_trace::Why;

/// How a job ends: docs/DEFINITIONS.md, "Statuses".
#[derive(Clone, Copy, Debug, PartialEq, Eq)]
pub enum Ending {
    /// The job was done.
    Done,
    /// There was no memory.
    NoMemory,
    /// The words are no job.
    NoJob,
    /// The set is refused.
    BadSet(SetRefused),
    /// A read of a file failed.
    ReadFault,
    /// A write to the output failed.
    SinkFault,
    /// The progress file is refused.
    BadProgress(ProgressRefused),
    /// The trace is refused: the place of its header or of its first bad record, and the reason.
    BadTrace { at: u64, why: Why },
    /// The trace has no end record within the limit.
    LongTrace,
    /// A put of the file to save into failed.
    SaveFault,
    /// A document gives no set, for another reason than that its set file is refused.
    BadDocument(PatchRefused),
    /// The normal text of a set passes a limit, with how many there are.
    LongNormal { which: Which, found: u64 },
    /// The set has no achievement of this id.
    NoAchievement { id: u32 },
    /// The rows of the frames are too many to be explained, with how many rows and comparisons there are.
    ManyRows { found: u64 },
}

impl From<OutOfMemory> for Ending {
    ghost from_gives = { λ _ e. e ≡ ends.NoMemory };

    fn from(_error: OutOfMemory) -> Ending {
        Ending::NoMemory
    }
}

impl From<SetFailed> for Ending {
    ghost from_gives = { λ failed e. e ≡ ending_of_set failed };

    fn from(failed: SetFailed) -> Ending {
        match failed {
            SetFailed::Memory => Ending::NoMemory,
            SetFailed::Read => Ending::ReadFault,
            SetFailed::Refused(why) => Ending::BadSet(why),
        }
    }
}

impl From<DocumentFailed> for Ending {
    ghost from_gives = { λ failed e. e ≡ ending_of_document failed };

    fn from(failed: DocumentFailed) -> Ending {
        match failed {
            DocumentFailed::Memory | DocumentFailed::Refused(PatchRefused::Memory) => {
                Ending::NoMemory
            }
            DocumentFailed::Read => Ending::ReadFault,
            DocumentFailed::Refused(PatchRefused::Set(why)) => Ending::BadSet(why),
            DocumentFailed::Refused(why) => Ending::BadDocument(why),
        }
    }
}

impl From<NormalFailed> for Ending {
    ghost from_gives = { λ failed e. e ≡ ending_of_normal failed };

    fn from(failed: NormalFailed) -> Ending {
        match failed {
            NormalFailed::Set(failed) => Ending::from(failed),
            NormalFailed::Refused(NormalRefused::Limit { which, found }) => {
                Ending::LongNormal { which, found }
            }
            NormalFailed::Refused(NormalRefused::Memory) => Ending::NoMemory,
        }
    }
}

impl From<LoadFailed> for Ending {
    ghost from_gives = { λ failed e. e ≡ ending_of_load failed };

    fn from(failed: LoadFailed) -> Ending {
        match failed {
            LoadFailed::Set(failed) => Ending::from(failed),
            LoadFailed::Progress(ProgressFailed::Memory) => Ending::NoMemory,
            LoadFailed::Progress(ProgressFailed::Read) => Ending::ReadFault,
            LoadFailed::Progress(ProgressFailed::Refused(why)) => Ending::BadProgress(why),
        }
    }
}

impl From<TraceFailed> for Ending {
    ghost from_gives = { λ failed e. e ≡ ending_of_trace failed };

    fn from(failed: TraceFailed) -> Ending {
        match failed {
            TraceFailed::Memory => Ending::NoMemory,
            TraceFailed::Read => Ending::ReadFault,
            TraceFailed::Write => Ending::SinkFault,
            TraceFailed::Refused { at, why } => Ending::BadTrace { at, why },
            TraceFailed::TooLong => Ending::LongTrace,
        }
    }
}

impl From<PutFailed> for Ending {
    ghost from_gives = { λ failed e. e ≡ ending_of_put failed };

    fn from(failed: PutFailed) -> Ending {
        match failed {
            PutFailed::Failed => Ending::SaveFault,
            PutFailed::Memory => Ending::NoMemory,
        }
    }
}
