//! The lines of a review: docs/DEFINITIONS.md, "Review of a set".

ghost use Rattle.std.specs.Prelude.{◌≡◌, ◌+◌, ◌<◌, ◌≤◌, ◌^◌, ◌++◌, OnOk, codes, decimal, replicate};
ghost use Rattle.ra_review.specs.Shown.{again, blanks_at, format_line, is_whole, item_text, last_line, macro_line};
ghost use Rattle.ra_review.specs.Shown.{notice_line, place_text, refusal, shown, shown_at, shown_byte, where_text, word_text};
ghost use Rattle.ra_set.specs.Contents.{item_contents};

use crate::entries::more;
use ra_lint::Place;
use ra_notices::{Notice, Word};
use ra_set::Item;
use ra_text::OutOfMemory;
use ra_value_format::put_unsigned;

/// The most bytes of a line that are shown.
const MOST: usize = 120;

/// The most bytes that are shown before a place.
const BEFORE: usize = 60;

/// Puts the lines of a refusal: the number of the line, the place in it, and the line without its end.
pub(crate) fn put_refusal(
    out: &mut Vec<u8>,
    number: usize,
    place: usize,
    line: &[u8],
) -> Result<(), OutOfMemory>
    ensures { OnOk result (out.new.items ≡ out.old.items ++ refusal number place line.now) }
{
    put_number(out, b"line ", number)?;
    put_number(out, b" column ", more(place, 1)?)?;
    out.extend_from_slice(b" refused\n")?;
    put_place(out, place, line)
}

// Puts a line as it is shown for a place in it, and a mark below the place.
fn put_place(out: &mut Vec<u8>, place: usize, line: &[u8]) -> Result<(), OutOfMemory>
    ensures { OnOk result (out.new.items
        ≡ out.old.items ++ shown_at place line.now ++ codes "\n" ++ blanks_at place line.now ++ codes "^\n") }
{
    let start = place.saturating_sub(BEFORE);
    let (_, left) = line.split_at(start.min(line.len()));
    put_shown(out, left)?;
    out.push(b'\n')?;
    put_blanks(out, (place - start).min(left.len()).min(MOST))?;
    out.extend_from_slice(b"^\n")?;
    Ok(())
}

// Puts as many blanks.
fn put_blanks(out: &mut Vec<u8>, count: usize) -> Result<(), OutOfMemory>
    requires { count ≤ 120 }
    ensures { OnOk result (out.new.items ≡ out.old.items ++ replicate count 32) }
{
    out.resize(out.len() + count, b' ')?;
    Ok(())
}

// Puts bytes as they are shown.
fn put_shown(out: &mut Vec<u8>, bytes: &[u8]) -> Result<(), OutOfMemory>
    ensures { OnOk result (out.new.items ≡ out.old.items ++ shown bytes.now) }
{
    let (front, _) = bytes.split_at(MOST.min(bytes.len()));
    for byte in front {
        out.push(shown_byte(*byte))?;
    }
    Ok(())
}

// A byte as it is shown.
fn shown_byte(byte: u8) -> u8
    ensures { result ≡ shown_byte byte }
{
    if 32 <= byte && byte <= 126 {
        byte
    } else {
        b'.'
    }
}

// Puts words and a number.
fn put_number(out: &mut Vec<u8>, words: &[u8], number: usize) -> Result<(), OutOfMemory>
    ensures { OnOk result (out.new.items ≡ out.old.items ++ words.now ++ decimal number) }
{
    out.extend_from_slice(words)?;
    put_unsigned(out, number as u64)?;
    Ok(())
}

/// Puts the line of a repeated id.
pub(crate) fn put_again(
    out: &mut Vec<u8>,
    number: usize,
    id: u32,
    first: usize,
) -> Result<(), OutOfMemory>
    ensures { OnOk result (out.new.items ≡ out.old.items ++ again number id first) }
{
    put_number(out, b"line ", number)?;
    put_number(out, b" id ", id as usize)?;
    put_number(out, b" again, first on line ", first)?;
    out.push(b'\n')?;
    Ok(())
}

/// Puts the line of a notice on an item.
pub(crate) fn put_notice(out: &mut Vec<u8>, item: &Item, notice: &Notice) -> Result<(), OutOfMemory>
    ensures { OnOk result (out.new.items ≡ out.old.items ++ notice_line (item_contents item.now) notice.now) }
{
    out.extend_from_slice(b"notice ")?;
    put_item(out, item)?;
    out.push(b' ')?;
    put_where(out, notice)?;
    out.extend_from_slice(word_of(notice.word))?;
    out.push(b'\n')?;
    Ok(())
}

// Puts the letter and the id of an item.
fn put_item(out: &mut Vec<u8>, item: &Item) -> Result<(), OutOfMemory>
    ensures { OnOk result (out.new.items ≡ out.old.items ++ item_text (item_contents item.now)) }
{
    match item {
        Item::Achievement { id, .. } => put_number(out, b"A ", *id as usize),
        Item::Leaderboard { id, .. } => put_number(out, b"L ", *id as usize),
    }
}

// Puts where the condition of a notice stands, and nothing for a notice on a trigger.
fn put_where(out: &mut Vec<u8>, notice: &Notice) -> Result<(), OutOfMemory>
    ensures { OnOk result (out.new.items ≡ out.old.items ++ where_text notice.now) }
{
    if is_whole(notice.word) {
        return Ok(());
    }
    put_number(out, place_of(notice.place), notice.group)?;
    put_number(out, b".", notice.condition)?;
    out.push(b' ')?;
    Ok(())
}

// The word is one on the trigger of an achievement.
fn is_whole(word: Word) -> bool
    ensures { result ≡ is_whole word }
{
    matches!(
        word,
        Word::NoMeasured | Word::Empty | Word::NoNeed | Word::NoUnlock
    )
}

// The field of a board, with a blank after it.
fn place_of(place: Place) -> &'static [u8]
    ensures { result.now ≡ place_text place }
{
    match place {
        Place::Trigger => b"",
        Place::Start => b"STA ",
        Place::Cancel => b"CAN ",
        Place::Submit => b"SUB ",
    }
}

// The word of a notice.
fn word_of(word: Word) -> &'static [u8]
    ensures { result.now ≡ word_text word }
{
    match word {
        Word::OpenChain => b"open-chain",
        Word::Twice => b"twice",
        Word::MemoryRight => b"memory-right",
        Word::ResetsAlways => b"resets-always",
        Word::PausesAlways => b"pauses-always",
        Word::NoMeasured => b"no-measured",
        Word::Empty => b"empty",
        Word::NoNeed => b"no-need",
        Word::NoUnlock => b"no-unlock",
    }
}

/// Puts the line of a notice on the format of a leaderboard.
pub(crate) fn put_format(out: &mut Vec<u8>, id: u32, name: &[u8]) -> Result<(), OutOfMemory>
    ensures { OnOk result (out.new.items ≡ out.old.items ++ format_line id name.now) }
{
    put_number(out, b"notice L ", id as usize)?;
    out.push(b' ')?;
    put_shown(out, name)?;
    out.extend_from_slice(b" format\n")?;
    Ok(())
}

/// Puts the line of a notice on a macro of the display.
pub(crate) fn put_macro(out: &mut Vec<u8>, number: usize, name: &[u8]) -> Result<(), OutOfMemory>
    ensures { OnOk result (out.new.items ≡ out.old.items ++ macro_line number name.now) }
{
    put_number(out, b"notice P line ", number)?;
    out.extend_from_slice(b" macro ")?;
    put_shown(out, name)?;
    out.push(b'\n')?;
    Ok(())
}

/// Puts the last line.
pub(crate) fn put_last(
    out: &mut Vec<u8>,
    lines: usize,
    refused: usize,
    notices: usize,
) -> Result<(), OutOfMemory>
    ensures { OnOk result (out.new.items ≡ out.old.items ++ last_line lines refused notices) }
{
    put_number(out, b"reviewed lines ", lines)?;
    put_number(out, b" refused ", refused)?;
    put_number(out, b" notices ", notices)?;
    out.push(b'\n')?;
    Ok(())
}
