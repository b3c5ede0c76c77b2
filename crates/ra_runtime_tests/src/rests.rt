//! Items and lines that rest while nothing that they look at changes, and go on when it does.

use crate::steps::Step::{At, Close, Frame, Put, Restore, Save, Show, Words, Write};
use crate::steps::{Row, other_row};
use std::test::Fail;

// An item of eight cells that no step writes, so that the nodes that change at a frame are few among all.
const STILL: &str =
    "A 9 0xH0040=1_0xH0041=1_0xH0042=1_0xH0043=1_0xH0044=1_0xH0045=1_0xH0046=1_0xH0047=1\n";

const POINTED: &str = "A 1 I:0xH0010_M:0xH0020=99\nA 2 I:0xH0010_M:d0xH0020=99\n";

const POINTED_LINES: &str = "measured 0 1 3
measured 1 2 3
measured 2 1 4
measured 3 2 4
measured 4 1 3
measured 5 2 3
measured 6 1 8
measured 7 1 7
measured 7 2 8
";

const PRIORS: &str = "A 1 M:p0xH0010=99\nA 2 M:p0xL0010=99\n";

const PRIORS_LINES: &str = "measured 2 1 5
measured 2 2 5
measured 5 1 7
measured 5 2 7
measured 7 1 5
measured 7 2 5
measured 8 1 7
measured 9 1 23
measured 9 2 7
";

const MEASURED_IF: &str = "A 1 M:0xH0010=99_Q:0xH0011=0\nA 2 M:0xH0010=99_Q:0xH0011=0.3.\n";

const MEASURED_IF_LINES: &str = "measured 0 1 5
measured 2 1 0
measured 5 1 7
measured 5 2 7
measured 6 1 0
";

const COUNTED: &str = "A 1 0xH0010=5_0xH0010!=6_0=1\n";

const LAST_HITS: &str = "taken
4294967294 4294967290 \n4294967295 4294967291 \n4294967295 4294967293 \n4294967295 4294967295 \n4294967295 4294967295 \n";

const EACH_COUNTS: &str = "A 1 0xH0010=5_P:0xH0011=1_0=1
L 2 VALUE STA:0xH0010=5_0=1::CAN:0=1::SUB:0=1::VAL:0xH0010
P
Display:
?0xH0010=5_0=1?Five
Else
";

// The hits of the achievement, of the leaderboard's start, and of the test of the display. The achievement is paused for
// three frames, and then the byte is another for one.
const EACH_COUNT: &str =
    "1 0 \n1 0 \n1 0 \n7 0 \n7 0 \n7 0 \n7 3 \n10 0 \n10 0 \n8 3 \n11 0 \n11 0 \n";

const TWO_LINES: &str = "P
Display:
?0xH0010=5?Five @Number(0xH0011)
Else @Number(0xH0012)
";

const TWO_LINES_SHOWN: &str = "presence 1 Five 0
presence 2 Five 0
presence 3 Five 3
presence 5 Else 0
presence 6 Else 8
presence 7 Five 3
presence 9 Five 3
presence 10 Else 9
";

const ROWS: &[Row] = &[
    // The number at the frame before is seen without a write, and once.
    (
        "a_delta_moves_on_two_frames_after_a_write",
        "A 1 M:d0xH0010=99\n",
        &[
            Frame,
            Frame,
            At(5),
            Frame,
            Frame,
            Frame,
            At(7),
            At(7),
            Frame,
        ],
        "measured 3 1 5\nmeasured 7 1 7\n",
    ),
    // The byte at 0x21 is written while the pointer has moved back to 0x20, and is seen when it moves there again.
    (
        "a_pointer_moves_back",
        POINTED,
        &[
            Write(0x20, 3),
            Write(0x21, 4),
            At(0),
            Frame,
            At(1),
            Frame,
            At(0),
            Write(0x21, 7),
            Frame,
            Write(0x20, 8),
            Frame,
            At(1),
        ],
        POINTED_LINES,
    ),
    // The bytes are 5, 5, 7, 7, 7, 5, 5, 7, 23 and 6. The lower nibble of 23 is 7 as well.
    (
        "a_prior_stays_until_the_next_change",
        PRIORS,
        &[
            At(5),
            Frame,
            At(7),
            Frame,
            At(7),
            At(5),
            Frame,
            At(7),
            At(23),
            At(6),
        ],
        PRIORS_LINES,
    ),
    // The MeasuredIf of the second has its third hit at frame 5, and holds from there on.
    (
        "a_measured_if_holds_the_number_back",
        MEASURED_IF,
        &[
            At(5),
            Frame,
            Write(0x11, 1),
            Frame,
            Frame,
            At(7),
            Write(0x11, 0),
            Frame,
            Write(0x11, 1),
            Frame,
            Frame,
        ],
        MEASURED_IF_LINES,
    ),
    // Both hits of the achievement after that of eight cells. The first began three frames later.
    (
        "a_restore_ends_what_is_owed",
        COUNTED,
        &[
            Frame,
            Frame,
            Frame,
            At(5),
            Frame,
            Frame,
            Save,
            Frame,
            Frame,
            Words(303, 2),
            Restore,
            Words(303, 2),
            Frame,
            Words(303, 2),
        ],
        "5 8 \ntaken\n3 6 \n4 7 \n",
    ),
    // The hits are restored as 4294967294 and 4294967290, and rest from there on. After the last write only the second
    // is met.
    (
        "owed_hits_stop_at_the_last_number",
        COUNTED,
        &[
            At(5),
            Save,
            Put(303, 254),
            Put(304, 255),
            Put(305, 255),
            Put(306, 255),
            Put(307, 250),
            Put(308, 255),
            Put(309, 255),
            Put(310, 255),
            Close,
            Restore,
            Words(303, 2),
            Frame,
            Words(303, 2),
            Frame,
            Frame,
            Words(303, 2),
            Frame,
            Frame,
            Frame,
            Words(303, 2),
            At(4),
            Words(303, 2),
        ],
        LAST_HITS,
    ),
    (
        "a_save_has_the_hits_that_are_owed",
        EACH_COUNTS,
        &[
            At(5),
            Words(323, 2),
            Words(356, 2),
            Words(400, 2),
            Frame,
            Frame,
            Frame,
            Frame,
            Frame,
            Frame,
            Words(323, 2),
            Words(356, 2),
            Words(400, 2),
            Write(0x11, 1),
            Frame,
            Frame,
            Frame,
            Words(323, 2),
            Words(356, 2),
            Words(400, 2),
            Write(0x11, 0),
            Frame,
            At(6),
            Frame,
            Words(323, 2),
            Words(356, 2),
            Words(400, 2),
        ],
        EACH_COUNT,
    ),
    // Its hits are cleared at each frame while it waits.
    (
        "a_valid_start_owes_nothing",
        "A 1 0xH0010=5\n",
        &[
            At(5),
            Frame,
            Frame,
            Words(303, 1),
            Frame,
            At(6),
            Frame,
            At(5),
            Words(303, 1),
        ],
        "0 \nunlock 6 1\n1 \n",
    ),
    // A number changes while its line is shown, and another while it is not.
    (
        "a_line_at_rest_goes_on",
        TWO_LINES,
        &[
            At(5),
            Show,
            Frame,
            Show,
            Write(0x11, 3),
            Frame,
            Show,
            Frame,
            At(6),
            Show,
            Write(0x12, 8),
            Frame,
            Show,
            At(5),
            Show,
            Write(0x12, 9),
            Frame,
            Frame,
            Show,
            At(6),
            Show,
        ],
        TWO_LINES_SHOWN,
    ),
];

#[test]
fn what_rests_goes_on_where_it_has_to(rt: HostRuntime) -> Result<(), Fail> {
    assert_eq!(rt; other_row(rt.alloc(), STILL, ROWS)?, None);
    Ok(())
}
