//! Who is due at a frame, and what those at rest owe.
//!
//! Who reads a comparison is due where it came out otherwise, and who reads the number of a node where that changed. What changes nothing but hits at which nothing looks rests, and owes one
//! hit more of these for each frame: as groups, triggers and values, and as the members that are made of them.
#![tactic(auto)]

mod counts;
mod laws;
mod member_counts;
mod needed;
mod noted_readers;
mod paying;
mod readers;
mod reads;
mod room;
mod schedule;
mod seen;
mod signals;
mod waking;

pub use counts::{Counts, pay};
pub use laws::{
    achievements_rest, groups_rest, hits_are_owed, rest_goes_on, rest_is_seen, tests_rest,
    values_rest,
};
pub use member_counts::{Judged, MemberCounts, counted_row, pay_member};
pub use needed::{groups_need_few_numbers, triggers_need_few_numbers, values_need_few_numbers};
pub use noted_readers::NotedReaders;
pub use readers::Readers;
pub use reads::{note_trigger, note_value};
pub use room::{Room, ValueRoom, note_row};
pub use schedule::Schedule;
pub use seen::is_free;
pub use signals::Signals;
