//! States that are kept in memory and taken again: docs/DEFINITIONS.md, "States kept in memory".

mod rewound;

use crate::keeping::rewound::Step::{At, Keep, KeepOther, Restore, Save, Show, Take, TakeOther};
use crate::keeping::rewound::{Row, other_row};
use std::test::Fail;

const COUNTED: &str = "A 1 0xH0010=5_0=1_M:0xH0010=9.7.\n";

const UNLOCKED: &str = "A 1 0xH0010=5\nA 2 M:0xH0010=99\n";

const BOARD: &str = "L 3 VALUE STA:0xH0010=5::CAN:0xH0010=6::SUB:0xH0010=7::VAL:0xH0011\n";

const LINES: &str = "P\nDisplay:\n?0xH0010=5.3.?Three @Number(0xH0011)\nElse\n";

const ROWS: &[Row] = &[
    // What comes after the take is what came after the keep: the count of frames and the hits are those of the keep.
    (
        "what_was_kept_goes_on",
        COUNTED,
        &[
            At(0x10, 9),
            Keep,
            At(0x10, 9),
            At(0x10, 9),
            Take,
            At(0x10, 9),
            At(0x10, 9),
        ],
        "measured 0 1 1\nkept\nmeasured 1 1 2\nmeasured 2 1 3\ntaken\nmeasured 1 1 2\nmeasured 2 1 3\n",
    ),
    // An unlock that came after the keep stays earned, and is told no more.
    (
        "what_is_earned_stays",
        UNLOCKED,
        &[
            At(0x10, 1),
            Keep,
            At(0x10, 5),
            Take,
            At(0x10, 5),
            At(0x10, 6),
        ],
        "measured 0 2 1\nkept\nunlock 1 1\nmeasured 1 2 5\ntaken\nmeasured 1 2 5\nmeasured 2 2 6\n",
    ),
    // The last of many keeps counts, and one may be taken often.
    (
        "one_room_keeps_one_state",
        COUNTED,
        &[
            Keep,
            At(0x10, 9),
            Keep,
            At(0x10, 9),
            Keep,
            At(0x10, 9),
            Take,
            At(0x10, 9),
            Take,
            At(0x10, 9),
        ],
        "kept\nmeasured 0 1 1\nkept\nmeasured 1 1 2\nkept\nmeasured 2 1 3\ntaken\nmeasured 2 1 3\ntaken\nmeasured 2 1 3\n",
    ),
    // A state of another set is refused, and nothing changes.
    (
        "another_set_is_refused",
        COUNTED,
        &[At(0x10, 9), KeepOther, TakeOther, At(0x10, 9)],
        "measured 0 1 1\nother\nother\nmeasured 1 1 2\n",
    ),
    // A frame tells the same after a take as after a restore of the bytes that were saved at the keep.
    (
        "a_take_is_a_restore",
        UNLOCKED,
        &[
            At(0x10, 1),
            Keep,
            Save,
            At(0x10, 2),
            Take,
            At(0x10, 3),
            Restore,
            At(0x10, 3),
        ],
        "measured 0 2 1\nkept\nmeasured 1 2 2\ntaken\nmeasured 1 2 3\nrestored\nmeasured 1 2 3\n",
    ),
    (
        "an_attempt_goes_on",
        BOARD,
        &[
            At(0x11, 3),
            At(0x10, 5),
            Keep,
            At(0x10, 7),
            Take,
            At(0x10, 5),
            At(0x11, 4),
            At(0x10, 7),
        ],
        "start 1 3\ntrack 1 3 3\nkept\nsubmit 2 3 3 3\ntaken\ntrack 3 3 4\nsubmit 4 3 4 4\n",
    ),
    (
        "lines_go_on",
        LINES,
        &[
            At(0x10, 5),
            At(0x10, 5),
            Keep,
            At(0x11, 8),
            Show,
            Take,
            Show,
            At(0x11, 9),
            Show,
        ],
        "kept\npresence 3 Three 8\ntaken\npresence 2 Else\npresence 3 Three 9\n",
    ),
];

#[test]
fn kept_states_are_taken(rt: HostRuntime) -> Result<(), Fail> {
    assert_eq!(rt; other_row(rt.alloc(), ROWS)?, None);
    Ok(())
}
