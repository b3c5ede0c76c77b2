//! The set file: achievements, leaderboards and a presence script.
#![tactic(auto)]

mod alone;
mod counting;
mod exact_id;
mod file;
mod file_lines;
mod ids;
mod item;
mod kept_lines;
mod laws;
mod limits;
mod lines;
mod names;
mod parse;
mod read_file;
mod refused;
mod row;
mod runs;
mod seen_ids;
mod set;

pub use alone::read_line;
pub use counting::conditions;
pub use item::Item;
pub use laws::{item_lines, one_answer, one_file, spelled_sets};
pub use limits::check_limits;
pub use parse::{parse_set, read_unnamed};
pub use refused::{SetRefused, Which};
pub use set::Set;
