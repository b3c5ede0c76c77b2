//! Lists of numbers in a few vectors: lists that are linked through their own nodes by index, and rows that never change.
//!
//! Each node of linked lists keeps its list and its neighbours, each list its first node: every call but `new` takes
//! constant time.
#![tactic(auto)]

mod entry;
mod flat_rows;
mod late_rows;
mod links;

pub use entry::Entry;
pub use flat_rows::FlatRows;
pub use late_rows::LateRows;
pub use links::Links;
