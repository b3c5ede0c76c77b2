//! Why an unlock came: an achievement is recorded frame by frame, with the comparisons of its conditions.
#![tactic(auto)]

mod beginning;
mod checking;
mod compact;
mod explanation;
mod hit_change;
mod hit_changes;
mod indices;
mod laws;
mod laying;
mod ordered_rows;
mod orders;
mod recorder;
mod recording;
mod refused;
mod replay;
mod row;
mod row_list;
mod slot;
mod tracing;

pub use checking::verify;
pub use compact::CompactExplanation;
pub use explanation::{Event, Events, Explanation};
pub use hit_changes::HitChanges;
pub use laws::explained_rows_unlock;
pub use recorder::Recorder;
pub use recording::Recording;
pub use refused::ExplainRefused;
