//! The words of the command line, and the job that they ask for: docs/DEFINITIONS.md, "Jobs".
#![tactic(auto)]

mod author_words;
mod job_words;

pub use author_words::{AuthorJob, read_author_job};
pub use job_words::{Job, read_job};
