//! What codes and reasons say, as text.

ghost use Rattle.std.specs.Prelude.{◌≡◌, ◌≢◌, ◌++◌, None, decimal, option_map, IfOk, MatchResult};
ghost use Rattle.ra_judge.specs.Codes.{done, memory, no_room};
ghost use Rattle.ra_judge.specs.Giving.{GivesText};
ghost use Rattle.ra_judge.specs.Texts as spec;

use crate::codes::{MEMORY, RANGE};
use crate::given::give_whole;
use crate::refusal::Refusal;
use ra_text::OutOfMemory;
use ra_value_format::put_unsigned;
use std::alloc::Global;

/// What a code says: docs/DEFINITIONS.md, "Calls from C".
///
/// `RANGE` where the number is no code; `ROOM` where there is too little room; the count is that of the whole.
pub fn error(code: u32, out: &mut [u8], count: &mut usize) -> u32
    ensures told { GivesText (spec.code_text code) out.old out.new count.new result }
    ensures unwritten { result ≢ done → out.new ≡ out.old }
    ensures uncounted { result ≢ done → result ≢ no_room → count.new ≡ count.old }
{
    match code_text(code) {
        Some(text) => give_whole(text.as_bytes(), out, count),
        None => RANGE,
    }
}

// What a code says, where the number is one.
fn code_text(code: u32) -> Option<&'static str>
    ensures { option_map (λ text. text.now) result ≡ spec.code_text code }
{
    match code {
        0 => Some("done"),
        1 => Some("memory ran out"),
        2 => Some("the text is no set"),
        3 => Some("the bytes are no progress of the set"),
        4 => Some("a size, an id, a kind or a flag is out of range"),
        5 => Some("there is too little room"),
        6 => Some("the handle holds no game"),
        7 => Some("the handle holds a game already"),
        8 => Some("there is no unlock to explain"),
        9 => Some("nothing is left of the document"),
        _ => None,
    }
}

/// What a reason says: docs/DEFINITIONS.md, "Calls from C".
///
/// `RANGE` where its kind is none; `ROOM` where there is too little room; the count is that of the whole. `MEMORY` where
/// memory runs out.
pub fn reason(alloc: Global, why: &Refusal, out: &mut [u8], count: &mut usize) -> u32
    ensures told { result ≢ memory → GivesText (spec.reason_text why.now) out.old out.new count.new result }
    ensures unwritten { result ≢ done → out.new ≡ out.old }
    ensures uncounted { result ≢ done → result ≢ no_room → count.new ≡ count.old }
{
    match reason_text(alloc, why) {
        Ok(Some(text)) => give_whole(text.as_slice(), out, count),
        Ok(None) => RANGE,
        Err(_) => MEMORY,
    }
}

// What a reason says, where its kind is one.
fn reason_text(alloc: Global, why: &Refusal) -> Result<Option<Vec<u8>>, OutOfMemory>
    ensures { IfOk result (λ text. option_map (λ t. t.items) text ≡ spec.reason_text why.now) }
{
    if why.kind < 11 {
        set_text(alloc, why)
    } else {
        other_text(alloc, why)
    }
}

// Why a text is no set.
fn set_text(alloc: Global, why: &Refusal) -> Result<Option<Vec<u8>>, OutOfMemory>
    ensures { IfOk result (λ text. option_map (λ t. t.items) text ≡ spec.set_text why.now) }
{
    match why.kind {
        1 => in_two(
            alloc,
            (why.line, why.column),
            "line ",
            ", column ",
            ": outside the grammar",
        ),
        2 => in_two(
            alloc,
            (why.line, u64::from(why.id)),
            "line ",
            ": the id ",
            " stands twice",
        ),
        3 => of_found(alloc, why, "", " bytes, where ", " are the most"),
        4 => of_found(alloc, why, "", " items, where ", " are the most"),
        5 => of_found(alloc, why, "", " conditions, where ", " are the most"),
        6 => of_found(
            alloc,
            why,
            "",
            " macros in a display line, where ",
            " are the most",
        ),
        7 => of_found(
            alloc,
            why,
            "",
            " bytes in a lookup text, where ",
            " are the most",
        ),
        _ => Ok(None),
    }
}

// Why bytes are no progress, or nothing is left of a document.
fn other_text(alloc: Global, why: &Refusal) -> Result<Option<Vec<u8>>, OutOfMemory>
    ensures { IfOk result (λ text. option_map (λ t. t.items) text ≡ spec.other_text why.now) }
{
    match why.kind {
        11 => of_found(alloc, why, "progress of ", " bytes in place of ", ""),
        12 => in_one(alloc, "progress that does not begin with RAPG"),
        13 => in_two(
            alloc,
            (why.found, 3),
            "progress of version ",
            ", where ",
            " is the newest",
        ),
        14 => in_one(alloc, "progress whose sum is not that of its bytes"),
        15 => in_one(alloc, "progress of another set"),
        16 => in_two(
            alloc,
            (why.at, why.wanted),
            "byte ",
            ": an entry of another length than ",
            " bytes",
        ),
        17 => in_two(
            alloc,
            (why.at, why.found),
            "byte ",
            ": the state ",
            ", which is none",
        ),
        21 => of_found(
            alloc,
            why,
            "a document of ",
            " bytes, where ",
            " are the most",
        ),
        22 => in_one(alloc, "the document is no JSON"),
        23 => in_one(alloc, "the document has no patch"),
        _ => Ok(None),
    }
}

// A text of its own.
fn in_one(alloc: Global, text: &str) -> Result<Option<Vec<u8>>, OutOfMemory>
    ensures { IfOk result (λ whole. option_map (λ t. t.items) whole ≡ spec.in_one text.now) }
{
    let mut whole = Vec::new(alloc);
    whole.extend_from_slice(text.as_bytes())?;
    Ok(Some(whole))
}

// The number that was found and the one that was wanted, in a text.
fn of_found(
    alloc: Global,
    why: &Refusal,
    before: &str,
    between: &str,
    behind: &str,
) -> Result<Option<Vec<u8>>, OutOfMemory>
    ensures { IfOk result (λ whole. option_map (λ t. t.items) whole ≡ spec.in_two before.now why.now.found between.now why.now.wanted behind.now) }
{
    in_two(alloc, (why.found, why.wanted), before, between, behind)
}

// Two numbers in a text: what stands before, between and behind them.
fn in_two(
    alloc: Global,
    numbers: (u64, u64),
    before: &str,
    between: &str,
    behind: &str,
) -> Result<Option<Vec<u8>>, OutOfMemory>
    ensures { IfOk result (λ whole. option_map (λ t. t.items) whole ≡ spec.in_two before.now numbers.0 between.now numbers.1 behind.now) }
{
    let mut whole = Vec::new(alloc);
    whole.extend_from_slice(before.as_bytes())?;
    put_unsigned(&mut whole, numbers.0)?;
    whole.extend_from_slice(between.as_bytes())?;
    put_unsigned(&mut whole, numbers.1)?;
    whole.extend_from_slice(behind.as_bytes())?;
    Ok(Some(whole))
}
