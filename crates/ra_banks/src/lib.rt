//! The memory of the machine as banks that lie apart, read as one image.
#![tactic(auto)]

mod bank;
mod banks;
mod row;

pub use bank::{Bank, size_of};
pub use banks::Banks;
pub use row::Row;
