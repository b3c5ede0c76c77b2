//! The pool of expressions: each operand's tree as shared nodes.
#![tactic(auto)]

mod buckets;
mod node;
mod pool;

pub use node::Node;
pub use pool::Pool;
