//! Trace files: the records of a run, read in whatever pieces the file gives them, and written; and the workload.
#![tactic(auto)]

mod draws;
mod error;
mod four_digits;
mod front;
mod head;
mod laws;
mod made_set;
mod made_trace;
mod reader;
mod record;
mod window;
mod writer;

pub use error::{TraceError, Why};
pub use laws::{made_traces_reach_their_end, written_records_are_cut};
pub use made_set::make_set;
pub use made_trace::make_trace;
pub use reader::Reader;
pub use record::Record;
pub use writer::Writer;
