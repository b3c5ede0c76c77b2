//! Images: what is read past the end, and what fits.

ghost use Rattle.std.specs.Prelude.{◌≡◌, ◌<◌, ◌≤◌, ◌^◌};

use ra_memory::{Counted, Image, Memory, OutOfRange, Steps};
use ra_text::OutOfMemory;
use std::alloc::Global;
use std::marker::Brand;
use std::sync::ledger::{Blank, Ledger};

// The numbers of 1, 2 and 4 bytes at an address.
fn numbers<L: Ledger>(blank: Blank, memory: &Memory, at: u32) -> (u32, u32, u32)
    requires name { blank.name ≡ L.name }
    requires parts { blank.parts ≡ L.parts }
    requires held { 0 < blank.parts }
{
    let mut steps = Steps::<L>::open(blank);
    let mut image = Counted {
        memory,
        steps: &mut steps,
    };
    let one = image.read(at, 1);
    let two = image.read(at, 2);
    let four = image.read(at, 4);
    (one, two, four)
}

// The place of the first of these addresses at which the memory has other numbers.
fn other_numbers(memory: &Memory, rows: &[(u32, (u32, u32, u32))]) -> Option<usize> {
    for (place, (at, wanted)) in rows.iter().enumerate() {
        if numbers::<Brand>(Blank::new(1), memory, *at) != *wanted {
            return Some(place);
        }
    }
    None
}

// The same of a memory of this many bytes with these written at an address; where they do not fit, all are other.
fn other_behind(
    alloc: Global,
    size: u32,
    written: (u32, &[u8]),
    rows: &[(u32, (u32, u32, u32))],
) -> Result<Option<usize>, OutOfMemory>
    requires { size ≤ 2 ^ 27 }
{
    let mut memory = Memory::new(alloc, size)?;
    if memory.size() != size || memory.write(written.0, written.1).is_err() {
        return Ok(Some(0));
    }
    Ok(other_numbers(&memory, rows))
}

#[test]
fn reads_zeros_past_the_end(rt: HostRuntime) -> Result<(), OutOfMemory> {
    let rows = [
        (0, (0, 0, 0)),
        (59, (0, 0x1100, 0x3322_1100)),
        (60, (0x11, 0x2211, 0xf433_2211)),
        (62, (0x33, 0xf433, 0xf433)),
        (63, (0xf4, 0xf4, 0xf4)),
        (64, (0, 0, 0)),
        (u32::MAX, (0, 0, 0)),
    ];
    let written = (60, [0x11, 0x22, 0x33, 0xf4].as_slice());
    assert_eq!(rt; other_behind(rt.alloc(), 64, written, &rows)?, None);
    Ok(())
}

// Whether these bytes fit into a memory of this many.
fn fit(alloc: Global, size: u8, at: u32, bytes: &[u8]) -> Result<bool, OutOfMemory> {
    let mut memory = Memory::new(alloc, u32::from(size))?;
    Ok(memory.write(at, bytes) != Err(OutOfRange))
}

// A size, an address, bytes, and whether they fit.
type Fit = (u8, u32, &'static [u8], bool);

const FITS: &[Fit] = &[
    (16, 8, &[9; 8], true),
    (16, 9, &[9; 8], false),
    (16, 0, &[9; 8], true),
    (7, 0, &[9; 8], false),
    (16, u32::MAX, &[9; 8], false),
    // nothing at the end, and nothing past it
    (16, 16, &[], true),
    (16, 17, &[], false),
];

fn other_fit(alloc: Global, rows: &[Fit]) -> Result<Option<usize>, OutOfMemory> {
    for (place, (size, at, bytes, fits)) in rows.iter().enumerate() {
        if fit(alloc, *size, *at, *bytes)? != *fits {
            return Ok(Some(place));
        }
    }
    Ok(None)
}

#[test]
fn writes_up_to_the_size(rt: HostRuntime) -> Result<(), OutOfMemory> {
    assert_eq!(rt; other_fit(rt.alloc(), FITS)?, None);
    Ok(())
}

#[test]
fn the_largest_memory_is_read_at_its_end(rt: HostRuntime) -> Result<(), OutOfMemory> {
    let rows = [(134_217_724, (0, 0, 0x0700_0000))];
    let written = (134_217_727, [7].as_slice());
    assert_eq!(rt;
        other_behind(rt.alloc(), 134_217_728, written, &rows)?,
        None
    );
    Ok(())
}
