//! Steps that are taken with a set that is played, and what they tell.

use crate::played::Played;
use ra_progress::Shape;
use ra_text::OutOfMemory;
use std::alloc::Global;
use std::test::Fail;

/// What is done, and what it tells.
#[derive(Clone, Copy)]
pub enum Step {
    /// Writes one byte.
    Write(u8, u8),
    /// Takes a frame: its lines.
    Frame,
    /// Writes the byte at 0x10 and takes a frame: its lines.
    At(u8),
    /// Takes a frame: its number with each of its events.
    Advance,
    /// The lines of the last frame.
    Lines,
    /// Where the item at a place stands.
    Item(usize),
    /// How many bytes and frames there are, and the index of the shown line.
    Numbers,
    /// The presence line.
    Show,
    /// Numbers of a save, from a place on, each with a blank after it.
    Words(usize, usize),
    /// Keeps a save.
    Save,
    /// Keeps these bytes in place of a save.
    Keep(&'static [u8]),
    /// Replaces one byte of the kept save.
    Put(usize, u8),
    /// Keeps this many bytes of the kept save.
    Cut(usize),
    /// Closes the kept save anew with its sum.
    Close,
    /// Restores the kept save: `taken`, or why it is refused.
    Restore,
    /// How many of the kept saves with one bit turned are accepted.
    Flips,
    /// Whether a save is the kept one.
    Same,
    /// The shape.
    Shape,
}

/// What the steps tell, one after the other, over a set of this file.
pub(crate) fn told(alloc: Global, file: &str, steps: &[Step]) -> Result<Vec<u8>, Fail> {
    let mut out = Vec::new(alloc);
    let mut played = Played::new(alloc, file)?;
    take_all(alloc, &mut played, steps, &mut out)?;
    Ok(out)
}

/// The bytes of the save that the steps keep, over a set of this file.
pub(crate) fn saved(alloc: Global, file: &str, steps: &[Step]) -> Result<Vec<u8>, Fail> {
    let mut out = Vec::new(alloc);
    let mut played = Played::new(alloc, file)?;
    take_and_keep(alloc, &mut played, steps, &mut out)?;
    Ok(out)
}

/// Whether that is what the steps tell.
pub(crate) fn tells(
    alloc: Global,
    file: &str,
    steps: &[Step],
    wanted: &[u8],
) -> Result<bool, Fail> {
    let found = told(alloc, file, steps)?;
    Ok(found.as_slice() == wanted)
}

/// What a row shows, the file of its set, its steps, and what they tell.
pub(crate) type Row = (&'static str, &'static str, &'static [Step], &'static str);

/// What the first row shows whose steps tell something else; each set stands after these lines.
pub(crate) fn other_row(
    alloc: Global,
    before: &str,
    rows: &'static [Row],
) -> Result<Option<&'static str>, Fail> {
    for row in rows {
        if !tells_row(alloc, before, row)? {
            return Ok(Some(row.0));
        }
    }
    Ok(None)
}

fn tells_row(alloc: Global, before: &str, row: &Row) -> Result<bool, Fail> {
    let (_, lines, steps, wanted) = *row;
    let file = format!(in alloc; "{before}{lines}")?;
    tells(alloc, &file, steps, wanted.as_bytes())
}

/// Whether these are the bytes of the save that the steps keep.
pub(crate) fn saves(
    alloc: Global,
    file: &str,
    steps: &[Step],
    wanted: &[u8],
) -> Result<bool, Fail> {
    let found = saved(alloc, file, steps)?;
    Ok(found.as_slice() == wanted)
}

fn take_and_keep(
    alloc: Global,
    played: &mut Played,
    steps: &[Step],
    out: &mut Vec<u8>,
) -> Result<(), OutOfMemory> {
    take_all(alloc, played, steps, out)?;
    out.truncate(0);
    out.extend_from_slice(played.kept())?;
    Ok(())
}

fn take_all(
    alloc: Global,
    played: &mut Played,
    steps: &[Step],
    out: &mut Vec<u8>,
) -> Result<(), OutOfMemory> {
    for step in steps {
        take(alloc, played, *step, out)?;
    }
    Ok(())
}

fn take(
    alloc: Global,
    played: &mut Played,
    step: Step,
    out: &mut Vec<u8>,
) -> Result<(), OutOfMemory> {
    match step {
        Step::Write(at, byte) => played.write(at, byte),
        Step::Put(at, byte) => played.put(at, byte),
        Step::Cut(count) => played.cut(count),
        Step::Save => played.save(alloc)?,
        Step::Keep(bytes) => played.keep(alloc, bytes)?,
        Step::Close => played.close()?,
        other => tell(alloc, played, other, out)?,
    }
    Ok(())
}

fn tell(
    alloc: Global,
    played: &mut Played,
    step: Step,
    out: &mut Vec<u8>,
) -> Result<(), OutOfMemory> {
    match step {
        Step::At(byte) => {
            played.write(0x10, byte);
            tell_frame(alloc, played, out)
        }
        Step::Frame => tell_frame(alloc, played, out),
        Step::Advance => tell_events(alloc, played, out),
        Step::Lines => tell_lines(alloc, played, out),
        Step::Item(place) => tell_item(alloc, played, place, out),
        Step::Numbers => tell_numbers(alloc, played, out),
        Step::Show => tell_shown(alloc, played, out),
        Step::Words(at, count) => tell_words(alloc, played, at, count, out),
        Step::Restore => tell_restore(alloc, played, out),
        Step::Flips => tell_flips(alloc, played, out),
        Step::Same => tell_same(alloc, played, out),
        Step::Shape => put_shape(alloc, played.runtime().shape(), out),
        _ => Ok(()),
    }
}

fn put(out: &mut Vec<u8>, text: &[u8]) -> Result<(), OutOfMemory> {
    out.extend_from_slice(text)?;
    Ok(())
}

fn tell_frame(alloc: Global, played: &mut Played, out: &mut Vec<u8>) -> Result<(), OutOfMemory> {
    played.frame();
    tell_lines(alloc, played, out)
}

fn tell_lines(alloc: Global, played: &Played, out: &mut Vec<u8>) -> Result<(), OutOfMemory> {
    let lines = played.runtime().lines(alloc)?;
    put(out, lines.as_slice())
}

fn tell_events(alloc: Global, played: &mut Played, out: &mut Vec<u8>) -> Result<(), OutOfMemory> {
    let frame = played.runtime().frames();
    played.advance();
    for event in played.runtime().events() {
        let text = format!(in alloc; "{frame} {event:?}\n")?;
        put(out, text.as_bytes())?;
    }
    Ok(())
}

fn tell_item(
    alloc: Global,
    played: &Played,
    place: usize,
    out: &mut Vec<u8>,
) -> Result<(), OutOfMemory> {
    let text = format!(in alloc; "{:?}\n", played.runtime().item(place))?;
    put(out, text.as_bytes())
}

fn tell_numbers(alloc: Global, played: &Played, out: &mut Vec<u8>) -> Result<(), OutOfMemory> {
    let runtime = played.runtime();
    let (size, frames) = (runtime.size(), runtime.frames());
    let text = format!(in alloc; "{size} bytes {frames} frames {:?}\n", runtime.shown())?;
    put(out, text.as_bytes())
}

fn tell_shown(alloc: Global, played: &Played, out: &mut Vec<u8>) -> Result<(), OutOfMemory> {
    let line = played.runtime().show(alloc)?;
    put(out, line.as_slice())
}

// The number at a place; 0 past the end.
fn word_at(bytes: &[u8], at: usize) -> u32 {
    let mut word = [0, 0, 0, 0];
    for (place, byte) in word.iter_mut().enumerate() {
        *byte = bytes.get(at.wrapping_add(place)).copied().unwrap_or(0);
    }
    u32::from_le_bytes(word)
}

fn tell_words(
    alloc: Global,
    played: &Played,
    at: usize,
    count: usize,
    out: &mut Vec<u8>,
) -> Result<(), OutOfMemory> {
    let bytes = played.runtime().save(alloc)?;
    for place in 0..count {
        put_word(alloc, &bytes, at.wrapping_add(place.wrapping_mul(4)), out)?;
    }
    put(out, b"\n")
}

/// The number at a place of bytes, with a blank after it.
pub(crate) fn put_word(
    alloc: Global,
    bytes: &[u8],
    at: usize,
    out: &mut Vec<u8>,
) -> Result<(), OutOfMemory> {
    let word = word_at(bytes, at);
    let text = format!(in alloc; "{word} ")?;
    put(out, text.as_bytes())
}

fn tell_restore(alloc: Global, played: &mut Played, out: &mut Vec<u8>) -> Result<(), OutOfMemory> {
    match played.restore() {
        Ok(()) => put(out, b"taken\n"),
        Err(refused) => {
            let text = format!(in alloc; "{refused}\n")?;
            put(out, text.as_bytes())
        }
    }
}

fn tell_flips(alloc: Global, played: &mut Played, out: &mut Vec<u8>) -> Result<(), OutOfMemory> {
    let accepted = played.accepted_flips();
    let text = format!(in alloc; "{accepted} accepted\n")?;
    put(out, text.as_bytes())
}

fn tell_same(alloc: Global, played: &Played, out: &mut Vec<u8>) -> Result<(), OutOfMemory> {
    let bytes = played.runtime().save(alloc)?;
    if bytes.as_slice() == played.kept() {
        put(out, b"same\n")
    } else {
        put(out, b"another\n")
    }
}

/// Tells a shape.
pub(crate) fn put_shape(
    alloc: Global,
    shape: &Shape,
    out: &mut Vec<u8>,
) -> Result<(), OutOfMemory> {
    let (cells, priors) = (shape.cells.len(), shape.priors.len());
    let counts = format!(in alloc; "cells {cells} priors {priors}\n")?;
    put(out, counts.as_bytes())?;
    for item in shape.items.as_slice() {
        let text = format!(in alloc; "{item:?}\n")?;
        put(out, text.as_bytes())?;
    }
    let presence = format!(in alloc; "{:?}\n", shape.presence)?;
    put(out, presence.as_bytes())
}
