//! The display of a set: its lines, the one that is shown, and the presence line.
#![tactic(auto)]

mod counted;
mod keeping;
mod kept_display;
mod line_counts;
mod line_reads;
mod line_rests;
mod line_run;
mod presence_run;
mod restored_presence;
mod saved_presence;
mod shape;
mod shown;

pub use counted::counted_presence;
pub use keeping::{put_byte, put_hits, put_member_hits, put_member_numbers, put_word};
pub use kept_display::keep_display;
pub use line_rests::LineRests;
pub use presence_run::{PresenceRun, new_presence, rest_lines, step_presence};
pub use restored_presence::put_back_presence;
pub use saved_presence::put_display;
pub use shape::presence_shape;
pub use shown::shown_line;
