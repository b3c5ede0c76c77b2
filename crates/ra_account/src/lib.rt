//! Why an achievement did not unlock: what each of its conditions did over the frames of a history.
#![tactic(auto)]

mod best;
mod columns;
mod condition;
mod copying;
mod facts;
mod frame_row;
mod gathering;
mod group;
mod group_account;
mod groups;
mod laws;
mod mark;
mod moment;
mod nearest;
mod noting;
mod range;
mod row;
mod running;
mod sight;
mod stands;
mod stops;
mod text;
mod times;
mod trigger_account;

pub use best::Best;
pub use columns::Columns;
pub use condition::ConditionAccount;
pub use facts::Facts;
pub use frame_row::FrameRow;
pub use group_account::GroupAccount;
pub use laws::{accounts_tell_their_frames, widths_are_least};
pub use mark::Mark;
pub use moment::Moment;
pub use nearest::Nearest;
pub use range::Range;
pub use row::Row;
pub use running::Running;
pub use sight::Sight;
pub use stops::Stops;
pub use text::{write_account, write_times};
pub use times::Times;
pub use trigger_account::TriggerAccount;
