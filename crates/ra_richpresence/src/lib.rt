//! Presence scripts, and the line that they show.
#![tactic(auto)]

mod builtin;
mod cut;
mod display;
mod display_lines;
mod entries;
mod heads;
mod kept;
mod keys;
mod laid_over;
mod laws;
mod line;
mod lines;
mod looked_up;
mod lookup;
mod meaning;
mod names;
mod naming;
mod parse;
mod piece;
mod pieces;
mod read;
mod read_lookup;
mod script;
mod script_line;
mod section;
mod sections;
mod shown_line;
mod span;
mod spans;
mod text;
mod walk;

pub use cut::{left_of, split_line};
pub use display_lines::take_test;
pub use laws::one_script;
pub use line::Line;
pub use lookup::{Keys, Lookup};
pub use meaning::Meaning;
pub use parse::{parse_script, read_script};
pub use piece::Piece;
pub use pieces::take_macro;
pub use read::ReadScript;
pub use script::Script;
pub use span::Span;
pub use text::take_character;
