//! The jobs of the program for authors, up to their texts: a set is reviewed, an achievement accounted for, and what is left
//! of a document is put.
#![tactic(auto)]

mod answer;
mod importing;
mod job;
mod laws;
mod left_lines;
mod reviewing;
mod texts;
mod why;

pub use answer::Answer;
pub use job::{answer_job, put_saved};
pub use laws::reviews_pass_sets;
