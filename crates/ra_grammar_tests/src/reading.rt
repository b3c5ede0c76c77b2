//! Where readers refuse texts, what they make of set files, and long texts.

use ra_condition::{Refused, parse_trigger, parse_value};
use ra_leaderboard::parse_board;
use ra_operand::parse_operand;
use ra_richpresence::parse_script;
use ra_set::{SetRefused, conditions, parse_set};
use ra_text::{OutOfMemory, Syntax};
use std::alloc::Global;

/// What a text is read as.
#[derive(Clone, Copy)]
pub(crate) enum Reader {
    Operand,
    Trigger,
    Value,
    Board,
    Script,
    Set,
}

fn place_of(refused: Option<Refused>) -> Option<usize> {
    match refused {
        Some(Refused::Syntax { at }) => Some(at),
        _ => None,
    }
}

fn operand_refused_at(text: &[u8]) -> Option<usize> {
    match parse_operand(text, 0) {
        Ok(_) => None,
        Err(Syntax { at }) => Some(at),
    }
}

fn set_refused_at(alloc: Global, text: &[u8]) -> Option<usize> {
    match parse_set(alloc, text).err() {
        Some(SetRefused::Syntax { at }) => Some(at),
        _ => None,
    }
}

// The first bad place of a text, if it is refused for one.
fn refused_at(alloc: Global, reader: Reader, text: &[u8]) -> Option<usize> {
    match reader {
        Reader::Operand => operand_refused_at(text),
        Reader::Trigger => place_of(parse_trigger(alloc, text).err()),
        Reader::Value => place_of(parse_value(alloc, text).err()),
        Reader::Board => place_of(parse_board(alloc, text).err()),
        Reader::Script => place_of(parse_script(alloc, text).err()),
        Reader::Set => set_refused_at(alloc, text),
    }
}

/// The place of the first of these texts that is not refused at its first bad place.
pub(crate) fn other_refusal(
    alloc: Global,
    reader: Reader,
    rows: &[(&str, usize)],
) -> Option<usize> {
    for (place, (text, at)) in rows.iter().enumerate() {
        if refused_at(alloc, reader, text.as_bytes()) != Some(*at) {
            return Some(place);
        }
    }
    None
}

/// The file is refused for this reason.
pub(crate) fn is_refused(alloc: Global, text: &[u8], why: SetRefused) -> bool {
    parse_set(alloc, text).err() == Some(why)
}

/// The file is a set of this many items and conditions.
pub(crate) fn counts(alloc: Global, text: &[u8], items: usize, count: u64) -> bool {
    match parse_set(alloc, text) {
        Ok(set) => set.items.len() == items && conditions(&set) == count,
        Err(_) => false,
    }
}

fn push_all(
    text: &mut Vec<u8>,
    front: &[u8],
    middle: &[u8],
    count: u32,
    end: &[u8],
) -> Result<(), OutOfMemory> {
    text.extend_from_slice(front)?;
    for _ in 0..count {
        text.extend_from_slice(middle)?;
    }
    text.extend_from_slice(end)?;
    Ok(())
}

/// These texts one after the other, the middle one this many times.
pub(crate) fn repeated(
    alloc: Global,
    front: &[u8],
    middle: &[u8],
    count: u32,
    end: &[u8],
) -> Result<Vec<u8>, OutOfMemory> {
    let mut text = Vec::new(alloc);
    push_all(&mut text, front, middle, count, end)?;
    Ok(text)
}
