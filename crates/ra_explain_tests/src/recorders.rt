//! Rows of a history, and slots that are restored.

use crate::recorded::Step::{Frame, Restore, Save, Write};
use crate::recorded::{Recorded, Step, told};
use std::test::Fail;

// Three hits over five frames, of which the byte is 5 at the second, the third and the last.
const THREE_HITS: [Step; 8] = [
    Frame,
    Write(0x10, 5),
    Frame,
    Frame,
    Write(0x10, 0),
    Frame,
    Write(0x10, 5),
    Frame,
];

#[test]
fn tells_each_row_and_the_unlock(rt: HostRuntime) -> Result<(), Fail> {
    let mut recorded = Recorded::new(rt.alloc(), "0xH0010=5.3.")?;
    let found = told(rt.alloc(), &mut recorded, &THREE_HITS)?;
    assert_eq!(rt; found.as_slice(), b"00001 01101".as_slice());
    Ok(())
}

// Two hits are wanted. The slot is filled after the first frame, and each restore takes up that history.
const TWICE: [Step; 13] = [
    Frame,
    Save(3),
    Write(1, 1),
    Frame,
    Write(1, 0),
    Frame,
    Restore(3),
    Write(1, 1),
    Frame,
    Frame,
    Restore(3),
    Frame,
    Frame,
];

#[test]
fn a_slot_is_restored_twice(rt: HostRuntime) -> Result<(), Fail> {
    let mut recorded = Recorded::new(rt.alloc(), "0xH0001=1.2.")?;
    let found = told(rt.alloc(), &mut recorded, &TWICE)?;
    assert_eq!(rt; found.as_slice(), b"000r01r01 011".as_slice());
    Ok(())
}

// A write between a save and its restore stays, and so does what another slot keeps.
const TWO_SLOTS: [Step; 9] = [
    Save(0),
    Frame,
    Save(15),
    Write(1, 1),
    Restore(0),
    Frame,
    Save(0),
    Restore(15),
    Frame,
];

#[test]
fn slots_stand_apart(rt: HostRuntime) -> Result<(), Fail> {
    let mut recorded = Recorded::new(rt.alloc(), "0xH0001=1_0xH0001>d0xH0001")?;
    let found = told(rt.alloc(), &mut recorded, &TWO_SLOTS)?;
    assert_eq!(rt; found.as_slice(), b"0r0r1 0011".as_slice());
    Ok(())
}
