//! Tests of the readers of texts over their public calls: numbers, operands, conditions, boards, scripts and sets.
//!
//! They stand apart so that the crates that they show are not proved once more with them.
#![tactic(auto)]

#[cfg(test)]
mod boards;
#[cfg(test)]
mod conditions;
#[cfg(test)]
mod formats;
#[cfg(test)]
mod numbers;
#[cfg(test)]
mod operands;
#[cfg(test)]
mod pieces;
#[cfg(test)]
mod reading;
#[cfg(test)]
mod script_limits;
#[cfg(test)]
mod scripts;
#[cfg(test)]
mod set_names;
#[cfg(test)]
mod sets;
#[cfg(test)]
mod sets_with_scripts;
#[cfg(test)]
mod shown_lines;
