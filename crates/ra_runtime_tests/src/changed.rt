//! Progress files of a set that was changed, and of the older versions.

use crate::steps::Step::{At, Close, Keep, Put, Restore, Same, Show, Write};
use crate::steps::{Row, other_row, tells};
use std::alloc::Global;
use std::test::Fail;

const THREE_HITS: &str = "A 1 0xH0010=5.3.\n";

// What is kept of the three hits after the byte was 0, 5 and 5: 3 frames, the cell 5, active, measured 0, 2 hits.
const TWO_OF_THREE: &[u8] =
    b"RAPG\x03\x95\xc3\x20\x26\xa3\xa7\xb6\xfc\x1a\xa5\x3d\x35\x5d\x82\xba\x02\x03\0\0\0\0\0\0\0\x01\0\0\0\x59\x74\x9b\xd5\xca\x8a\xbe\x76\x8e\xb1\x37\x06\x1a\x4f\x30\xc6\x05\0\0\0\0\0\0\0\x01\0\0\0\x79\x8a\x55\xfc\x59\x9d\x9d\x9b\x40\x6c\x25\xa6\x42\xfa\x8a\x9a\x09\0\0\0\x01\0\0\0\0\x02\0\0\0\x0b\x5a\xde\x0f\x79\x2a\x01\x83\xd6\xe1\xa1\x61\x39\x01\xc5\x5f";

const WITH_ANOTHER: &str = "A 2 0xH0011=1\nA 1 0xH0010=5.3.\n";

// The cell and the achievement that the file does not name are 0 and waiting, the others go on.
const WITH_ANOTHER_KEPT: &[u8] =
    b"RAPG\x03\x30\x36\x9c\x0b\x2b\x1a\x8a\x93\x8a\x3c\x14\x81\x08\xe2\xf7\x02\x03\0\0\0\0\0\0\0\x02\0\0\0\xa6\xcc\xac\x7d\x84\x86\xed\xe9\x78\x19\x79\x2e\x86\xc3\xa9\x3f\0\0\0\0\x59\x74\x9b\xd5\xca\x8a\xbe\x76\x8e\xb1\x37\x06\x1a\x4f\x30\xc6\x05\0\0\0\0\0\0\0\x02\0\0\0\xcb\x1f\xa8\x59\x35\x92\x04\xbe\x58\x80\x41\xfd\x0f\x32\x60\x64\x09\0\0\0\0\0\0\0\0\0\0\0\0\x79\x8a\x55\xfc\x59\x9d\x9d\x9b\x40\x6c\x25\xa6\x42\xfa\x8a\x9a\x09\0\0\0\x01\0\0\0\0\x02\0\0\0\x8c\x6a\x26\x38\x76\x69\x1f\xb5\x11\x8f\x79\x75\xee\x6e\x67\xcc";

const WITH_DISPLAY: &str = "A 1 0xH0010=5.3.\nP\nDisplay:\n?0xH0010=5?Five\nSix\n";

// A file of another set with two entries of the name of the line: the first has a state that is none, the second has a
// hit too many.
const BAD_ENTRY: &[u8] =
    b"RAPG\x03\xd4\x1d\x8c\xd9\x8f\0\xb2\x04\xe9\x80\x09\x98\xec\xf8\x42\x7e\0\0\0\0\0\0\0\0\0\0\0\0\0\0\0\0\x02\0\0\0\x79\x8a\x55\xfc\x59\x9d\x9d\x9b\x40\x6c\x25\xa6\x42\xfa\x8a\x9a\x09\0\0\0\x07\0\0\0\0\0\0\0\0\x79\x8a\x55\xfc\x59\x9d\x9d\x9b\x40\x6c\x25\xa6\x42\xfa\x8a\x9a\x0d\0\0\0\0\0\0\0\0\0\0\0\0\0\0\0\0\x9a\xce\xc3\xb1\xdb\xe9\x1c\x83\x52\xed\x69\xe2\x75\xe6\xd2\xb4";

// What is kept after the byte was 0 and 5.
const ONE_OF_THREE: &[u8] =
    b"RAPG\x03\x95\xc3\x20\x26\xa3\xa7\xb6\xfc\x1a\xa5\x3d\x35\x5d\x82\xba\x02\x02\0\0\0\0\0\0\0\x01\0\0\0\x59\x74\x9b\xd5\xca\x8a\xbe\x76\x8e\xb1\x37\x06\x1a\x4f\x30\xc6\x05\0\0\0\0\0\0\0\x01\0\0\0\x79\x8a\x55\xfc\x59\x9d\x9d\x9b\x40\x6c\x25\xa6\x42\xfa\x8a\x9a\x09\0\0\0\x01\0\0\0\0\x01\0\0\0\x45\xa6\xd4\xc7\x29\x97\x0d\xec\x98\x4f\xfb\x93\xc6\xac\x26\x54";

const ONE_BYTE: &str = "A 1 0xH0010=5\n";

// Active and earned after 2 frames, and after one more.
const EARNED: &[u8] =
    b"RAPG\x03\xff\xb0\x8c\xcd\x70\x8b\xe6\x15\x77\xfd\xc9\xee\x47\x2d\x01\xda\x02\0\0\0\0\0\0\0\x01\0\0\0\x59\x74\x9b\xd5\xca\x8a\xbe\x76\x8e\xb1\x37\x06\x1a\x4f\x30\xc6\0\0\0\0\0\0\0\0\x01\0\0\0\x3e\xb6\xe8\xbb\x67\x59\x13\xb8\x2e\x29\x33\xb3\x8d\xb2\x11\x60\x09\0\0\0\x09\0\0\0\0\0\0\0\0\x60\xe8\xb0\x14\xe1\x6a\xa5\x6d\x41\x67\x87\xd4\x7a\xfc\x88\xe6";

const EARNED_LATER: &[u8] =
    b"RAPG\x03\xff\xb0\x8c\xcd\x70\x8b\xe6\x15\x77\xfd\xc9\xee\x47\x2d\x01\xda\x03\0\0\0\0\0\0\0\x01\0\0\0\x59\x74\x9b\xd5\xca\x8a\xbe\x76\x8e\xb1\x37\x06\x1a\x4f\x30\xc6\0\0\0\0\0\0\0\0\x01\0\0\0\x3e\xb6\xe8\xbb\x67\x59\x13\xb8\x2e\x29\x33\xb3\x8d\xb2\x11\x60\x09\0\0\0\x09\0\0\0\0\0\0\0\0\x8e\xbf\x06\x17\x3a\x52\xd4\x15\x2b\xba\xb4\x02\xdd\x03\x5e\x7a";

// Triggered after 5 frames, in the three versions.
const TRIGGERED_1: &[u8] =
    b"RAPG\x01\x95\xc3\x20\x26\xa3\xa7\xb6\xfc\x1a\xa5\x3d\x35\x5d\x82\xba\x02\x05\0\0\0\0\0\0\0\x05\0\0\0\x04\0\0\0\0\x03\0\0\0\x38\x7d\x76\x84\x89\x35\xcb\x04\xa4\x62\x48\xfe\xdd\xd5\x9e\xa9";

const TRIGGERED_2: &[u8] =
    b"RAPG\x02\x95\xc3\x20\x26\xa3\xa7\xb6\xfc\x1a\xa5\x3d\x35\x5d\x82\xba\x02\x05\0\0\0\0\0\0\0\x01\0\0\0\x59\x74\x9b\xd5\xca\x8a\xbe\x76\x8e\xb1\x37\x06\x1a\x4f\x30\xc6\x05\0\0\0\0\0\0\0\x01\0\0\0\x79\x8a\x55\xfc\x59\x9d\x9d\x9b\x40\x6c\x25\xa6\x42\xfa\x8a\x9a\x09\0\0\0\x04\0\0\0\0\x03\0\0\0\xb8\x82\xac\xcd\x4a\x51\xd9\x88\x2e\xf2\xd4\x16\x0f\xda\xb8\xc9";

const TRIGGERED_3: &[u8] =
    b"RAPG\x03\x95\xc3\x20\x26\xa3\xa7\xb6\xfc\x1a\xa5\x3d\x35\x5d\x82\xba\x02\x05\0\0\0\0\0\0\0\x01\0\0\0\x59\x74\x9b\xd5\xca\x8a\xbe\x76\x8e\xb1\x37\x06\x1a\x4f\x30\xc6\x05\0\0\0\0\0\0\0\x01\0\0\0\x79\x8a\x55\xfc\x59\x9d\x9d\x9b\x40\x6c\x25\xa6\x42\xfa\x8a\x9a\x09\0\0\0\x0c\0\0\0\0\x03\0\0\0\x0f\x6e\x03\x50\xbb\xea\x97\x1c\xff\xa0\x49\x3d\xd7\x38\xd4\x41";

// Whether a restore of a file leaves what the third version keeps.
fn is_third(alloc: Global, kept: &'static [u8]) -> Result<bool, Fail> {
    let steps = [Keep(kept), Restore, Keep(TRIGGERED_3), Same];
    tells(alloc, THREE_HITS, &steps, b"taken\nsame\n")
}

#[test]
fn each_version_is_read_and_the_third_is_written(rt: HostRuntime) -> Result<(), Fail> {
    let (first, second) = (
        is_third(rt.alloc(), TRIGGERED_1)?,
        is_third(rt.alloc(), TRIGGERED_2)?,
    );
    assert!(rt; first && second && is_third(rt.alloc(), TRIGGERED_3)?);
    Ok(())
}

const ROWS: &[Row] = &[
    // Before the restore the new achievement is triggered and its cell is 1. It stays earned, and the hits go on after
    // it.
    (
        "what_a_file_does_not_name_begins_anew",
        WITH_ANOTHER,
        &[
            At(0),
            Write(0x11, 1),
            At(5),
            Keep(TWO_OF_THREE),
            Restore,
            Keep(WITH_ANOTHER_KEPT),
            Put(101, 8),
            Close,
            Same,
            At(5),
        ],
        "unlock 1 2\ntaken\nsame\nunlock 3 1\n",
    ),
    // A file without an entry of the script shows the last line.
    (
        "a_script_that_a_file_does_not_name_shows_its_last_line",
        WITH_DISPLAY,
        &[At(5), Show, Keep(TWO_OF_THREE), Restore, Show],
        "presence 1 Five\ntaken\npresence 3 Six\n",
    ),
    (
        "a_bad_entry_changes_nothing",
        THREE_HITS,
        &[
            At(0),
            At(5),
            Keep(BAD_ENTRY),
            Restore,
            Keep(ONE_OF_THREE),
            Same,
            At(5),
            At(5),
        ],
        "entry 13 wanted 9 at 86\nsame\nunlock 3 1\n",
    ),
    (
        "an_earned_achievement_is_kept_as_earned",
        ONE_BYTE,
        &[Keep(EARNED), Restore, Same, At(0), Keep(EARNED_LATER), Same],
        "taken\nsame\nsame\n",
    ),
];

#[test]
fn files_of_a_changed_set_go_on_by_names(rt: HostRuntime) -> Result<(), Fail> {
    assert_eq!(rt; other_row(rt.alloc(), "", ROWS)?, None);
    Ok(())
}
