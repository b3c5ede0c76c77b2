//! Sets from JSON: the set file that a document gives, after the service's form.
//!
//! A document is read with `serde_json`. It gives one set file, or one refusal; or what is left of
//! it where the items that would be refused are left out.
#![tactic(auto)]

mod check;
mod document;
mod document_refused;
mod fields;
mod imported;
mod item_kind;
mod laws;
mod leave;
mod left;
mod left_out;
mod official;
mod patches;
mod read;
mod refused;
mod root;
mod scope;
mod sifted;
mod text;
mod verdict;

pub use document::{import, set_of};
pub use document_refused::{DocumentRefused, RootField};
pub use imported::Imported;
pub use laws::{bad_texts, one_document_answer};
pub use leave::left_of;
pub use left::Left;
pub use left_out::{LeftCause, LeftList, LeftOut};
pub use official::{CountedLeft, official_of};
pub use refused::{PatchField, PatchList, PatchRefused};
