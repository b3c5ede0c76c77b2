//! The order in which a group's conditions pass, and their trees as nodes of a pool.
#![tactic(auto)]

mod laws;
mod nodes;
mod order;
mod plan;
mod sides;
mod terms;
mod trees;
mod values_law;

pub use laws::pass_order_holds;
pub use order::{order_of, pausing_of};
pub use plan::GroupPlan;
pub use terms::elaborate_terms;
pub use trees::elaborate;
pub use values_law::group_values_hold;
