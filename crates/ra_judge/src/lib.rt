//! What C is told of texts: codes, reasons of refusals, judgements of one item, and sets from documents.
//!
//! No call here needs a game.
#![tactic(auto)]

mod breaks;
pub mod codes;
mod given;
mod importing;
mod judging;
mod laws;
mod place;
mod refusal;
mod texts;

pub use given::{give, give_whole};
pub use importing::{Document, LeftCounts, import};
pub use judging::judge;
pub use laws::items_have_one_answer;
pub use refusal::{Refusal, of_document, of_progress, of_set};
pub use texts::{error, reason};
