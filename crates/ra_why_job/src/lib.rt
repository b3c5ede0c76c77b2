//! The job `why`: a trace is watched for one achievement up to its first unlock, and the account of its frames is told.
#![tactic(auto)]

mod choosing;
mod failed;
mod laws;
mod reply;
mod telling;
mod watching;
mod why;

pub use laws::whys_tell_accounts;
pub use reply::Reply;
pub use why::why_job;
