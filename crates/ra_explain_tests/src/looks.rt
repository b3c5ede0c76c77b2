//! Recordings over a memory that is written behind their back: docs/DEFINITIONS.md, "A frame that looks".

use crate::watched::Step::{Frame, Restore, Save, Write};
use crate::watched::{Step, other_step};
use std::test::Fail;

// The byte at 0x30, moved by the byte at 0x20.
const MOVED: &str = "I:0xH0020_0xH0030=7.2.";

// The pointer moves twice onto bytes that changed while no cell lay there.
const ONTO_BYTES: &[Step<'static>] = &[
    // all are marked, so the look reads none of them
    Frame(2, ""),
    Write(0x33, 7),
    Frame(2, ""),
    Write(0x20, 3),
    Frame(4, ""),
    Write(0x33, 8),
    Frame(3, ""),
    Write(0x36, 7),
    Frame(2, ""),
    Write(0x20, 6),
    Frame(4, "501|| 2:1 5:2"),
];

#[test]
fn a_pointer_moves_onto_bytes_that_nobody_watched(rt: HostRuntime) -> Result<(), Fail> {
    assert_eq!(rt; other_step(rt.alloc(), MOVED, ONTO_BYTES)?, None);
    Ok(())
}

// The hits are cleared at the third frame.
const CLEARED: &[Step<'static>] = &[
    Frame(2, ""),
    Write(1, 1),
    Frame(3, ""),
    Write(2, 1),
    Frame(3, ""),
    Write(2, 0),
    Frame(3, ""),
    Frame(2, "430| 3:1 4:2|"),
];

#[test]
fn rows_begin_after_a_reset_that_was_looked_for(rt: HostRuntime) -> Result<(), Fail> {
    let found = other_step(rt.alloc(), "0xH0001=1.2._R:0xH0002=1", CLEARED)?;
    assert_eq!(rt; found, None);
    Ok(())
}

// A restore marks the cell; the delta is the number of the slot, and not that of the memory.
const RESTORED: &[Step<'static>] = &[
    Frame(1, ""),
    Save(3),
    Write(1, 1),
    Frame(2, "101| 0:1 1:2| 1:1"),
    Write(1, 2),
    Restore(3),
    Frame(1, ""),
    Write(1, 1),
    Frame(2, ""),
    Restore(3),
    Frame(1, "101| 0:1 1:2| 1:1"),
];

#[test]
fn a_slot_is_taken_up_over_a_memory_that_changed(rt: HostRuntime) -> Result<(), Fail> {
    let found = other_step(rt.alloc(), "d0xH0001=0_0xH0001=1", RESTORED)?;
    assert_eq!(rt; found, None);
    Ok(())
}
