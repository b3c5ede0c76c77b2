//! Whether a set with one item alone is accepted.

ghost use Rattle.std.specs.Prelude.{◌≡◌, ◌≢◌, ◌⊎◌, ◌++◌, ◌≤◌, ◌<◌, ◌↔◌, ℕ, None, length, IfErr, IfOk, OnOk};
ghost use Rattle.ra_judge.specs.Codes.{done, memory, no_set, out_of_range};
ghost use Rattle.ra_judge.specs.Judging as spec;
ghost use Rattle.ra_judge.specs.Judging.{AcceptsKind, IsAccepted, IsRefused, RefusesKind, break_in, file_of, item_reason, kind_of, most_for};

use crate::breaks::break_at;
use crate::codes::{DONE, MEMORY, RANGE, SET};
use crate::refusal::{Refusal, of_set, of_syntax, too_long};
use ra_set::{SetRefused, parse_set};
use ra_text::OutOfMemory;
use std::alloc::Global;

/// What an item is.
#[derive(Clone, Copy)]
pub enum Kind {
    /// An achievement: a trigger.
    Achievement,
    /// A leaderboard: its four parts.
    Leaderboard,
    /// A rich presence script.
    Presence,
}

impl Kind {
    // The kind of a number, where it is one.
    fn of(number: u32) -> Option<Kind>
        ensures { result ≡ kind_of number }
    {
        match number {
            1 => Some(Kind::Achievement),
            2 => Some(Kind::Leaderboard),
            3 => Some(Kind::Presence),
            _ => None,
        }
    }

    // What stands before the text of an item in a set file.
    fn head(self) -> &'static [u8]
        ensures { result.now ≡ spec.head_of self }
    {
        match self {
            Kind::Achievement => b"A 1 ",
            Kind::Leaderboard => b"L 1 VALUE ",
            Kind::Presence => b"P\n",
        }
    }

    // What follows it.
    fn tail(self) -> &'static [u8]
        ensures { result.now ≡ spec.tail_of self }
    {
        match self {
            Kind::Achievement | Kind::Leaderboard => b"\n",
            Kind::Presence => b"",
        }
    }

    // The most bytes of the text of an item that is a set alone.
    fn most(self) -> usize
        ensures { result ≡ most_for self }
    {
        match self {
            Kind::Achievement => 4_194_299,
            Kind::Leaderboard => 4_194_293,
            Kind::Presence => 4_194_302,
        }
    }

    // Where the text of an item would end its line.
    fn break_in(self, text: &[u8]) -> Option<usize>
        ensures { result ≡ break_in self text.now }
    {
        match self {
            Kind::Achievement | Kind::Leaderboard => break_at(text),
            Kind::Presence => None,
        }
    }

    // The set file of one item.
    fn file(self, alloc: Global, text: &[u8]) -> Result<Vec<u8>, OutOfMemory>
        ensures { IfOk result (λ file. file.items ≡ file_of self text.now) }
    {
        let mut file = Vec::new(alloc);
        file.extend_from_slice(self.head())?;
        file.extend_from_slice(text)?;
        file.extend_from_slice(self.tail())?;
        Ok(file)
    }

    // Why the set file of an item is refused, with the place in the item's text.
    fn reason(self, text: &[u8], file: &[u8], why: SetRefused) -> Refusal
        requires { file.now ≡ file_of self text.now }
        ensures { result ≡ item_reason self text.now why }
    {
        match why {
            SetRefused::Syntax { at } => of_syntax(text, at.saturating_sub(self.head().len())),
            _ => of_set(file, why),
        }
    }
}

/// Whether a set with this one item alone is accepted: docs/DEFINITIONS.md, "Calls from C".
///
/// `RANGE` where the number is no kind; `SET` where it is not accepted, with the reason and the place in the text;
/// `MEMORY` where memory runs out.
pub fn judge(alloc: Global, kind: u32, text: &[u8], why: &mut Refusal) -> u32
    ensures range { result ≡ out_of_range ↔ kind_of kind ≡ None }
    ensures accepted { result ≡ done → AcceptsKind (kind_of kind) text.now }
    ensures refused { result ≡ no_set → RefusesKind (kind_of kind) text.now why.new }
    ensures unsaid { result ≢ no_set → why.new ≡ why.old }
    ensures other { (result ≡ done) ⊎ ((result ≡ memory) ⊎ ((result ≡ no_set) ⊎ (result ≡ out_of_range))) }
{
    match Kind::of(kind) {
        Some(kind) => match judged(alloc, kind, text) {
            Ok(None) => DONE,
            Ok(Some(reason)) => {
                *why = reason;
                SET
            }
            Err(_) => MEMORY,
        },
        None => RANGE,
    }
}

// Why an item of a kind is not accepted, where it is not.
fn judged(alloc: Global, kind: Kind, text: &[u8]) -> Result<Option<Refusal>, OutOfMemory>
    ensures { IfOk result (spec.IsJudged kind text.now) }
{
    if text.len() > kind.most() {
        return Ok(Some(too_long(text.len(), kind.most())));
    }
    if let Some(at) = kind.break_in(text) {
        return Ok(Some(of_syntax(text, at)));
    }
    let file = kind.file(alloc, text)?;
    match parse_set(alloc, &file) {
        Ok(_) => Ok(None),
        Err(SetRefused::Memory) => Err(OutOfMemory),
        Err(why) => Ok(Some(kind.reason(text, &file, why))),
    }
}
