//! Conditions, groups, triggers and values: what their texts spell.
#![tactic(auto)]

mod classes;
mod comparison;
mod condition;
mod conditions;
mod fault;
mod flag;
mod group;
mod groups;
mod laws;
mod parse;
mod parse_values;
mod part;
mod print;
mod refused;
mod setting;
mod tables;
mod tail;
mod tails;
mod trigger_text;
mod value_text;
mod values;
mod write;

pub use condition::Condition;
pub use fault::Fault;
pub use flag::Flag;
pub use group::Group;
pub use groups::take_trigger;
pub use laws::{one_trigger, one_value, spelled_triggers, spelled_values};
pub use parse::{parse_trigger, read_trigger};
pub use parse_values::{parse_value, read_value};
pub use part::{Part, Term};
pub use print::{print_trigger, print_value};
pub use refused::Refused;
pub use setting::Setting;
pub use tail::Tail;
pub use trigger_text::TriggerText;
pub use value_text::ValueText;
pub use values::take_value;
