//! A job from its files to its last line: a set is loaded, a trace played, a progress file put, a set counted, a workload
//! made, a set taken of a document, a set warned of, and a normal text put.
#![tactic(auto)]

mod beginning;
mod check_line;
mod closing;
mod counts;
mod document;
mod ending;
mod failures;
mod importing;
mod laws;
mod linting;
mod loading;
mod make;
mod normalizing;
mod player;
mod playing;
mod run;
mod run_files;
mod writing;

pub use closing::finish;
pub use ending::Ending;
pub use failures::{SetFailed, TraceFailed};
pub use importing::import_job;
pub use laws::runs_print_their_texts;
pub use linting::lint_job;
pub use loading::load_set;
pub use make::make_job;
pub use normalizing::normal_job;
pub use run::{check_job, run_job};
pub use run_files::RunFiles;
pub use writing::print_line;
