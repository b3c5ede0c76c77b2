//! The job `explain`: a trace is watched for one achievement up to its first unlock, and why it came is printed.
#![tactic(auto)]

mod explaining;
mod failed;
mod laws;
mod printing;
mod taking;
mod watch;
mod watching;

pub use explaining::{AskedUnlock, explain_job};
pub use laws::unlocks_are_told;
