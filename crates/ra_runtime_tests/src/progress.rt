//! Progress files of small sets: their bytes, and each refusal.

use crate::steps::Step::{At, Close, Cut, Flips, Item, Lines, Put, Restore, Same, Save};
use crate::steps::{Row, other_row, saves};
use std::test::Fail;

const THREE_HITS: &str = "A 1 0xH0010=5.3.\n";

// The file of the set after the byte was 0, 5, 5, 0 and 5: mark and version, digest, 5 frames, one cell with its name and
// 5, no priors, one entry with its name and nine bytes, which are triggered and earned, measured 0 and 3 hits, and the sum.
const THREE_HITS_FILE: &[u8] =
    b"RAPG\x03\x95\xc3\x20\x26\xa3\xa7\xb6\xfc\x1a\xa5\x3d\x35\x5d\x82\xba\x02\x05\0\0\0\0\0\0\0\x01\0\0\0\x59\x74\x9b\xd5\xca\x8a\xbe\x76\x8e\xb1\x37\x06\x1a\x4f\x30\xc6\x05\0\0\0\0\0\0\0\x01\0\0\0\x79\x8a\x55\xfc\x59\x9d\x9d\x9b\x40\x6c\x25\xa6\x42\xfa\x8a\x9a\x09\0\0\0\x0c\0\0\0\0\x03\0\0\0\x0f\x6e\x03\x50\xbb\xea\x97\x1c\xff\xa0\x49\x3d\xd7\x38\xd4\x41";

#[test]
fn a_saved_file_has_its_fields_in_order(rt: HostRuntime) -> Result<(), Fail> {
    let steps = [At(0), At(5), At(5), At(0), At(5), Save];
    assert!(rt; saves(rt.alloc(), THREE_HITS, &steps, THREE_HITS_FILE)?);
    Ok(())
}

const REFUSALS: &str = "length 57 wanted 73
mark 00415047 wanted 52415047
version 9 wanted 1, 2 or 3
taken
set 00c32026a3a7b6fc1aa53d355d82ba02 wanted 95c32026a3a7b6fc1aa53d355d82ba02
state 7 at 81
taken
";

const LAST_NUMBERS: &str = "A 1 0xH0010=1S0xH0010=0_0xH0011=1.2.\n";

const ROWS: &[Row] = &[
    // What was earned after the save is earned still: its state byte is 9.
    (
        "refused_bytes_change_nothing",
        THREE_HITS,
        &[
            At(0),
            At(5),
            At(5),
            At(0),
            Save,
            Flips,
            At(5),
            Flips,
            Lines,
            Restore,
            Lines,
            Put(81, 9),
            Close,
            Same,
        ],
        "0 accepted\nunlock 4 1\n0 accepted\nunlock 4 1\ntaken\nsame\n",
    ),
    // The save from before the unlock is restored: the achievement is active again and earned, and steps in silence.
    (
        "what_was_earned_is_told_no_more",
        "A 1 M:0xH0010=5.2.\n",
        &[
            At(0),
            Save,
            At(5),
            At(5),
            Restore,
            Put(81, 9),
            Close,
            Same,
            At(5),
            At(5),
            Item(0),
        ],
        "measured 1 1 1\nmeasured 2 1 2\nunlock 2 1\ntaken\nsame\nSome(Achievement { state: Triggered, measured: 2 })\n",
    ),
    // Each change is taken back by the next save. With another digest the entry is found by its name, and with another name too
    // the file is one of another set.
    (
        "each_refusal_tells_what_differs",
        THREE_HITS,
        &[
            Save,
            Cut(57),
            Restore,
            Save,
            Put(0, 0),
            Restore,
            Save,
            Put(4, 9),
            Restore,
            Save,
            Put(5, 0),
            Close,
            Restore,
            Put(61, 0),
            Close,
            Restore,
            Save,
            Put(81, 7),
            Close,
            Restore,
            Save,
            Restore,
        ],
        REFUSALS,
    ),
    // The frame count and a hit stand at their last numbers; the first cell is 1 then, and the first hit is one more.
    (
        "counts_stand_still_at_their_ends",
        LAST_NUMBERS,
        &[
            Save,
            Put(21, 255),
            Put(22, 255),
            Put(23, 255),
            Put(24, 255),
            Put(25, 255),
            Put(26, 255),
            Put(27, 255),
            Put(28, 255),
            Put(114, 255),
            Put(115, 255),
            Put(116, 255),
            Put(117, 255),
            Put(101, 1),
            Close,
            Restore,
            At(1),
            Put(49, 1),
            Put(106, 1),
            Close,
            Same,
        ],
        "taken\nsame\n",
    ),
];

#[test]
fn progress_files_keep_and_refuse(rt: HostRuntime) -> Result<(), Fail> {
    assert_eq!(rt; other_row(rt.alloc(), "", ROWS)?, None);
    Ok(())
}
