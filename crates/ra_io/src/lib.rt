//! Files and output as two traits, whose contracts say what a call gives and when it may fail.
//!
//! Types in memory keep these contracts exactly; thin adapters over the system keep what can be
//! kept there.
#![tactic(auto)]

mod calls;
mod copies;
mod files;
mod mem_files;
mod mem_sink;
mod real_files;
mod real_put;
mod real_sink;
mod sink;
mod sure_files;
mod sure_sink;

pub use files::{Failed, Files, PutFailed};
pub use mem_files::MemFiles;
pub use mem_sink::MemSink;
pub use real_files::RealFiles;
pub use real_sink::RealSink;
pub use sink::{Sink, SinkFailed};
pub use sure_files::SureFiles;
pub use sure_sink::SureSink;
