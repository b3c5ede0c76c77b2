//! Courses over a memory that is written behind their back: docs/DEFINITIONS.md, "A frame that looks".

mod banked;
pub(crate) mod watched;

use crate::courses::banked::{lines_over, other_banks};
use crate::courses::watched::Step::{Filled, Looked, Told};
use crate::courses::watched::{Step, other_step};
use ra_banks::Bank;
use std::test::Fail;

const SET: &str = "A 1 M:0xH0010=99\nA 2 I:0xH0020_M:0xH0030=99\n";

// What is done, how often that reads the memory, and what it tells. The cells are the bytes at 0x10, 0x20, and 0x30
// moved by the byte at 0x20.
const FRAMES: &[(Step<'static>, u32, &str)] = &[
    // all are marked, so the look reads none of them
    (Looked(0x10, &[5]), 3, "measured 0 1 5\n"),
    (Looked(0x10, &[5]), 3, ""),
    // a byte that no cell looks at, and then the pointer moves onto it
    (Looked(0x33, &[7]), 3, ""),
    (Looked(0x20, &[3]), 5, "measured 3 2 7\n"),
    // the moved cell is marked by its new page
    (Told(0x33, &[8]), 1, "measured 4 2 8\n"),
    (Looked(0x33, &[9]), 4, "measured 5 2 9\n"),
    // a marked cell with its kept number
    (Told(0x1f, &[1]), 1, ""),
    (Told(0x20, &[0]), 2, "measured 7 2 0\n"),
    // all bytes change at each frame
    (Filled(1), 6, "measured 8 1 1\nmeasured 8 2 1\n"),
    (Filled(2), 6, "measured 9 1 2\nmeasured 9 2 2\n"),
    (Filled(255), 6, "measured 10 1 255\nmeasured 10 2 0\n"),
    (Filled(255), 3, ""),
];

#[test]
fn looks_and_writes_that_are_told_go_in_turns(rt: HostRuntime) -> Result<(), Fail> {
    let with_lists = other_step(rt.alloc(), SET, 256, false, FRAMES)?;
    let without = other_step(rt.alloc(), SET, 256, true, FRAMES)?;
    assert_eq!(rt; (with_lists, without), (None, None));
    Ok(())
}

const OVER_BANKS: &str = "A 1 M:0xX0001=99\n";

// The bytes of the banks, and the lines of two frames over them.
const BANKS: &[(&[&[u8]], &str)] = &[
    (&[], ""),
    (&[&[0, 1, 2, 3, 4]], "measured 0 1 67305985\n"),
    (&[&[0, 1, 2], &[3, 4]], "measured 0 1 67305985\n"),
    // across three of them, and past the end
    (&[&[0, 1], &[2, 3], &[4, 5]], "measured 0 1 67305985\n"),
    (&[&[0, 1], &[], &[2]], "measured 0 1 513\n"),
    (
        &[
            &[0],
            &[1],
            &[0],
            &[0],
            &[1],
            &[5],
            &[6],
            &[7],
            &[8],
            &[9],
            &[10],
            &[11],
            &[12],
            &[13],
            &[14],
            &[15],
            &[16],
        ],
        "measured 0 1 16777217\n",
    ),
];

#[test]
fn banks_are_read_as_one_image(rt: HostRuntime) -> Result<(), Fail> {
    assert_eq!(rt; other_banks(rt.alloc(), OVER_BANKS, BANKS)?, None);
    Ok(())
}

const AT_THE_END: &str = "A 1 M:0xX7fffffe=99\n";

#[test]
fn banks_have_the_greatest_size(rt: HostRuntime) -> Result<(), Fail> {
    let alloc = rt.alloc();
    let mut bytes = vec![in alloc; 0; 65536]?;
    bytes[65534] = 1;
    bytes[65535] = 2;
    let bank = Bank {
        bytes: bytes.as_slice(),
    };
    let banks = vec![in alloc; bank; 2048]?;
    let lines = lines_over(alloc, AT_THE_END, banks.as_slice())?;
    assert_eq!(rt; lines.as_slice(), b"measured 0 1 513\n".as_slice());
    Ok(())
}
