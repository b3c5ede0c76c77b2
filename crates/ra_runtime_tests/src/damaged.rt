//! Damaged progress files are refused, and what is played after a refusal goes on as without it.

use crate::played::Played;
use crate::steps::put_word;
use md5::{Digest, Md5};
use ra_text::OutOfMemory;
use std::alloc::Global;
use std::test::Fail;

// Two runtimes over one set. One is handed damaged files, and the other never sees them.
#[derive(Drop)]
struct Pair {
    tried: Box<Played>,
    other: Box<Played>,
}

impl Pair {
    fn new(alloc: Global, file: &str) -> Result<Pair, Fail> {
        let tried = Played::new(alloc, file)?;
        let other = Played::new(alloc, file)?;
        Ok(Pair { tried, other })
    }

    // Writes the byte at 0x10 and takes a frame.
    fn frame(&mut self, byte: u8) {
        self.tried.write(0x10, byte);
        self.tried.frame();
        self.other.write(0x10, byte);
        self.other.frame();
    }

    // Whether both printed the same, show the same and keep the same.
    fn agrees(&self, alloc: Global) -> Result<bool, OutOfMemory> {
        let lines = self.tried.runtime().lines(alloc)? == self.other.runtime().lines(alloc)?;
        let shown = self.tried.runtime().show(alloc)? == self.other.runtime().show(alloc)?;
        let saved = self.tried.runtime().save(alloc)? == self.other.runtime().save(alloc)?;
        Ok(lines && shown && saved)
    }

    // Restores the kept bytes, and tells the refusal.
    fn tell_refusal(&mut self, alloc: Global, out: &mut Vec<u8>) -> Result<(), OutOfMemory> {
        let text = match self.tried.restore() {
            Ok(()) => format!(in alloc; "taken\n")?,
            Err(refused) => format!(in alloc; "{refused}\n")?,
        };
        out.extend_from_slice(text.as_bytes())?;
        Ok(())
    }

    // Takes a frame, and tells these numbers of a save after it, and whether both agree.
    fn tell_frame(
        &mut self,
        alloc: Global,
        byte: u8,
        places: &[usize],
        out: &mut Vec<u8>,
    ) -> Result<(), OutOfMemory> {
        self.frame(byte);
        let bytes = self.tried.runtime().save(alloc)?;
        for place in places {
            put_word(alloc, bytes.as_slice(), *place, out)?;
        }
        let agrees = self.agrees(alloc)?;
        let text = format!(in alloc; "{agrees}\n")?;
        out.extend_from_slice(text.as_bytes())?;
        Ok(())
    }
}

// How a file is damaged.
#[derive(Clone, Copy, Debug)]
enum Damage {
    // It is cut to each shorter length, one after the other.
    Cut,
    // The lowest bit of each byte is turned, and turned back after its refusal.
    Flip,
}

// What is told of a progress file of the moment after a frame at which the byte is 5, damaged in each of these ways: the
// refusal, and a frame after it, at which the byte is 6 and 5 by turns.
fn damaged(
    alloc: Global,
    file: &str,
    kept: &[u8],
    damage: Damage,
    places: &[usize],
) -> Result<Vec<u8>, Fail> {
    let mut out = Vec::new(alloc);
    let mut pair = Pair::new(alloc, file)?;
    pair.tried.keep(alloc, kept)?;
    take_damaged(alloc, &mut pair, damage, places, &mut out)?;
    Ok(out)
}

fn take_damaged(
    alloc: Global,
    pair: &mut Pair,
    damage: Damage,
    places: &[usize],
    out: &mut Vec<u8>,
) -> Result<(), OutOfMemory> {
    pair.frame(5);
    let mut byte = 6u8;
    let length = pair.tried.kept().len();
    for at in 0..length {
        match damage {
            Damage::Cut => {
                pair.tried.cut(length.saturating_sub(at).saturating_sub(1));
                pair.tell_refusal(alloc, out)?;
            }
            Damage::Flip => {
                pair.tried.flip(at);
                pair.tell_refusal(alloc, out)?;
                pair.tried.flip(at);
            }
        }
        pair.tell_frame(alloc, byte, places, out)?;
        byte ^= 3;
    }
    Ok(())
}

// The words of a refusal of bytes of a file whose byte at this place has its lowest bit turned.
fn put_flip(alloc: Global, file: &[u8], at: usize, out: &mut Vec<u8>) -> Result<(), OutOfMemory> {
    let mut bytes = file.to_vec(alloc)?;
    if let Some(place) = bytes.get_mut(at) {
        *place ^= 1;
    }
    let (before, kept) = bytes.split_at(bytes.len().saturating_sub(16));
    let text = match at {
        0 => format!(in alloc; "mark 53415047 wanted 52415047\n")?,
        1 => format!(in alloc; "mark 52405047 wanted 52415047\n")?,
        2 => format!(in alloc; "mark 52415147 wanted 52415047\n")?,
        3 => format!(in alloc; "mark 52415046 wanted 52415047\n")?,
        4 => format!(in alloc; "version 0 wanted 1, 2 or 3\n")?,
        _ => {
            let (kept, found) = (hex_of(alloc, kept)?, hex_of(alloc, &Md5::digest(before))?);
            format!(in alloc; "sum {kept} is {found}\n")?
        }
    };
    out.extend_from_slice(text.as_bytes())?;
    Ok(())
}

// Bytes in hexadecimal.
fn hex_of(alloc: Global, bytes: &[u8]) -> Result<String, OutOfMemory> {
    let mut text = String::new(alloc);
    for byte in bytes {
        let digits = format!(in alloc; "{byte:02x}")?;
        text.push_str(digits.as_str())?;
    }
    Ok(text)
}

const THREE_HITS: &str = "A 1 0xH0010=5.3.\n";

// What is kept of it after that frame, in the first version: mark and version, digest, 1 frame, the cell 5, active, measured
// 0, 1 hit, sum.
const THREE_HITS_KEPT: &[u8] =
    b"RAPG\x01\x95\xc3\x20\x26\xa3\xa7\xb6\xfc\x1a\xa5\x3d\x35\x5d\x82\xba\x02\x01\0\0\0\0\0\0\0\x05\0\0\0\x01\0\0\0\0\x01\0\0\0\x53\x4e\x06\x04\x58\xee\x51\xc5\xc6\xf4\xa1\xa9\xb3\xd8\x3a\x44";

// The same in the third version, with the names of the cell and of the line.
const THREE_HITS_NAMED: &[u8] =
    b"RAPG\x03\x95\xc3\x20\x26\xa3\xa7\xb6\xfc\x1a\xa5\x3d\x35\x5d\x82\xba\x02\x01\0\0\0\0\0\0\0\x01\0\0\0\x59\x74\x9b\xd5\xca\x8a\xbe\x76\x8e\xb1\x37\x06\x1a\x4f\x30\xc6\x05\0\0\0\0\0\0\0\x01\0\0\0\x79\x8a\x55\xfc\x59\x9d\x9d\x9b\x40\x6c\x25\xa6\x42\xfa\x8a\x9a\x09\0\0\0\x01\0\0\0\0\x01\0\0\0\xea\xf0\xf8\x08\x02\xaf\x9a\xc2\x52\x07\xb4\x0e\x7d\x06\xf4\x2e";

// How long the first version has to be, once its first 45 bytes are there.
const THREE_HITS_NEEDS: &[usize] = &[45, 58];

// How long the third has to be, once this many bytes tell it: the counts of cells, priors and entries, and the length.
const THREE_HITS_NAMED_NEEDS: &[usize] = &[45, 49, 73, 77, 97, 106];

// A count, a prior and the shown line move at each frame at which the byte is 6 and 5 by turns.
const MOVING: &str = "A 1 0xH0010<9.1000._p0xH0010=9
P
Display:
?0xH0010=5?Five
Six
";

// What is kept of it in the first version: as above, with the prior 0 after the cell, 2 hits, and the shown line 0 with
// its hit.
const MOVING_KEPT: &[u8] =
    b"RAPG\x01\xc5\x07\x12\x6f\xc7\xcd\xbd\x79\xfa\xef\xa3\x37\x27\xb4\xcd\0\x01\0\0\0\0\0\0\0\x05\0\0\0\0\0\0\0\x01\0\0\0\0\x01\0\0\0\0\0\0\0\0\0\0\0\x01\0\0\0\x7a\xb6\xbd\x1e\x71\xf4\x89\xac\xfd\x06\xe5\x30\xc7\x53\x48\x9a";

const MOVING_NEEDS: &[usize] = &[45, 74];

// The prior, the count and the shown line in a save of it.
const PLACES: [usize; 3] = [73, 106, 134];

// Each of them after the row of this number, counted from 0.
fn put_moved(alloc: Global, row: usize, out: &mut Vec<u8>) -> Result<(), OutOfMemory> {
    let (prior, shown) = if row % 2 == 0 { (5, 1) } else { (6, 0) };
    let count = row.saturating_add(2);
    let text = format!(in alloc; "{prior} {count} {shown} true\n")?;
    out.extend_from_slice(text.as_bytes())?;
    Ok(())
}

// The first of these lengths that this many bytes do not have.
fn need(left: usize, needs: &[usize]) -> usize {
    needs.iter().copied().find(|need| left < *need).unwrap_or(0)
}

// The words of each cut of a file of this many bytes, by the lengths that it has to have.
fn wanted_cuts(
    alloc: Global,
    length: usize,
    needs: &[usize],
    moves: bool,
) -> Result<Vec<u8>, OutOfMemory> {
    let mut out = Vec::new(alloc);
    for row in 0..length {
        let left = length.saturating_sub(row).saturating_sub(1);
        let wanted = need(left, needs);
        let text = format!(in alloc; "length {left} wanted {wanted}\n")?;
        out.extend_from_slice(text.as_bytes())?;
        put_behind(alloc, row, moves, &mut out)?;
    }
    Ok(out)
}

fn wanted_flips(alloc: Global, file: &[u8], moves: bool) -> Result<Vec<u8>, OutOfMemory> {
    let mut out = Vec::new(alloc);
    for at in 0..file.len() {
        put_flip(alloc, file, at, &mut out)?;
        put_behind(alloc, at, moves, &mut out)?;
    }
    Ok(out)
}

fn put_behind(
    alloc: Global,
    row: usize,
    moves: bool,
    out: &mut Vec<u8>,
) -> Result<(), OutOfMemory> {
    if moves {
        return put_moved(alloc, row, out);
    }
    out.extend_from_slice(b"true\n")?;
    Ok(())
}

// Whether that is told of each cut of a file.
fn cuts_tell(
    alloc: Global,
    file: &str,
    kept: &[u8],
    needs: &[usize],
    moves: bool,
) -> Result<bool, Fail> {
    let places = if moves { PLACES.as_slice() } else { &[] };
    let found = damaged(alloc, file, kept, Damage::Cut, places)?;
    let wanted = wanted_cuts(alloc, kept.len(), needs, moves)?;
    Ok(found.as_slice() == wanted.as_slice())
}

// Whether that is told of each turned bit of a file.
fn flips_tell(alloc: Global, file: &str, kept: &[u8], moves: bool) -> Result<bool, Fail> {
    let places = if moves { PLACES.as_slice() } else { &[] };
    let found = damaged(alloc, file, kept, Damage::Flip, places)?;
    let wanted = wanted_flips(alloc, kept, moves)?;
    Ok(found.as_slice() == wanted.as_slice())
}

#[test]
fn each_cut_is_refused_by_its_length(rt: HostRuntime) -> Result<(), Fail> {
    let first = cuts_tell(
        rt.alloc(),
        THREE_HITS,
        THREE_HITS_KEPT,
        THREE_HITS_NEEDS,
        false,
    )?;
    let third = cuts_tell(
        rt.alloc(),
        THREE_HITS,
        THREE_HITS_NAMED,
        THREE_HITS_NAMED_NEEDS,
        false,
    )?;
    assert!(rt; first && third);
    Ok(())
}

#[test]
fn each_flip_is_refused_by_its_field(rt: HostRuntime) -> Result<(), Fail> {
    assert!(rt; flips_tell(rt.alloc(), THREE_HITS, THREE_HITS_KEPT, false)?);
    Ok(())
}

#[test]
fn counts_priors_and_lines_go_on_behind_a_cut(rt: HostRuntime) -> Result<(), Fail> {
    assert!(rt; MOVING_KEPT.len() == 74);
    assert!(rt; cuts_tell(rt.alloc(), MOVING, MOVING_KEPT, MOVING_NEEDS, true)?);
    Ok(())
}

#[test]
fn counts_priors_and_lines_go_on_behind_a_flip(rt: HostRuntime) -> Result<(), Fail> {
    assert!(rt; flips_tell(rt.alloc(), MOVING, MOVING_KEPT, true)?);
    Ok(())
}
