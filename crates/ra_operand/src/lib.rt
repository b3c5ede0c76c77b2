//! Operands: what they name, what a size views of a number, and what the operators do.
#![tactic(auto)]

mod kind;
mod op;
mod operand;
mod operators;
mod parse;
mod print;
mod reading;
mod size;
mod tables;
mod views;

pub use kind::Kind;
pub use op::Op;
pub use operand::Operand;
pub use operators::{compare, compute, holds};
pub use parse::{one_operand, parse_operand};
pub use print::{print_operand, write_operand};
pub use reading::take_operand;
pub use size::Size;
pub use tables::{begins_operand, kind_of};
pub use views::{mask, transform, view, width};
