//! Numbers in text and in bytes, the cursor that parsers read by, and the two refusals that all of them share.
#![tactic(auto)]

mod base;
mod cursor;
mod read_numbers;
mod refusals;
mod words;

pub use base::Base;
pub use cursor::{Cursor, Stop};
pub use read_numbers::{read_decimal, read_hex, read_signed};
pub use refusals::{OutOfMemory, Syntax};
pub use words::{read_words, word_at, words_at, write_words};
