//! The runtime for emulators that are written in C: a static library, whose header is include/meerkat.h.
//!
//! Each export calls the function of `ra_calls` of its name, and states its clauses again.
#![tactic(auto)]

mod explaining;
mod judging;
mod keeping;
mod making;
mod playing;
mod rewinding;
mod telling;
#[cfg(test)]
mod tests;

pub use explaining::{meerkat_explain, meerkat_record};
pub use judging::{meerkat_error, meerkat_import, meerkat_judge, meerkat_refusal_text};
pub use keeping::{meerkat_earn, meerkat_reset, meerkat_restore, meerkat_save, meerkat_save_size};
pub use making::{meerkat_free, meerkat_new, meerkat_version};
pub use playing::meerkat_frame;
pub use ra_banks::Bank;
pub use ra_calls::{Handle, ToldCell, ToldEvent, ToldHits, ToldItem, ToldUnlock};
pub use ra_judge::Refusal;
pub use rewinding::{meerkat_keep, meerkat_slots, meerkat_take};
pub use telling::{
    meerkat_cells, meerkat_events, meerkat_items, meerkat_lines, meerkat_number, meerkat_presence,
};
