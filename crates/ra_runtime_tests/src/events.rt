//! Events of worked sets, and where their items stand.

use crate::steps::Step::{Advance, At, Item, Numbers, Restore, Save, Write};
use crate::steps::{Row, other_row};
use std::test::Fail;

const PAUSED: &str = "A 1 M:0xH0001=1.4._Q:0xH0002=0_P:0xH0003=1\n";

const PAUSED_EVENTS: &str = "0 Measured { id: 1, number: 1 }
1 Measured { id: 1, number: 0 }
2 Measured { id: 1, number: 3 }
4 Measured { id: 1, number: 4 }
4 Unlock { id: 1 }
";

const RECALLED: &str = "A 1 0xH0001={recall}_K:0xH0002_P:0xH0003=9\n";

const ATTEMPTS: &str = "L 7 VALUE STA:0xH0001=1::CAN:0=1::SUB:0xH0002=1::VAL:0xH0003*2\n";

const ATTEMPTS_EVENTS: &str = "1 Submit { id: 7, number: 42, format: Value }
4 Start { id: 7 }
4 Track { id: 7, number: 42, format: Value }
5 Track { id: 7, number: 60, format: Value }
6 Submit { id: 7, number: 60, format: Value }
";

const STANDING: &str = "A 1 0xH0010=5
L 2 VALUE STA:0xH0010=5::CAN:0xH0010=9::SUB:0xH0010=7::VAL:0xH0010*2
P
Display:
?0xH0010=5?Five
Other
";

const STANDS: &str = "256 bytes 0 frames Some(1)
unlock 1 1
start 1 2
track 1 2 10
256 bytes 2 frames Some(0)
Some(Achievement { state: Triggered, measured: 0 })
Some(Leaderboard { state: Started, tracked: 10 })
None
taken
Some(Leaderboard { state: Started, tracked: 10 })
";

const ROWS: &[Row] = &[
    (
        "a_paused_group_keeps_its_measured_number",
        PAUSED,
        &[
            Write(1, 1),
            Advance,
            Write(2, 1),
            Advance,
            Write(2, 0),
            Advance,
            Write(3, 1),
            Advance,
            Write(3, 0),
            Advance,
        ],
        PAUSED_EVENTS,
    ),
    (
        "a_remembered_number_unlocks",
        RECALLED,
        &[Write(1, 4), Write(2, 3), Advance, Write(2, 4), Advance],
        "1 Unlock { id: 1 }\n",
    ),
    (
        "an_attempt_tells_its_numbers",
        ATTEMPTS,
        &[
            Advance,
            Write(1, 1),
            Write(2, 1),
            Write(3, 0x15),
            Advance,
            Advance,
            Write(1, 0),
            Advance,
            Write(1, 1),
            Write(2, 0),
            Advance,
            Write(3, 0x1e),
            Advance,
            Write(2, 1),
            Advance,
            Save,
        ],
        ATTEMPTS_EVENTS,
    ),
    (
        "items_stand_where_they_stopped",
        STANDING,
        &[
            Numbers,
            At(0),
            At(5),
            Numbers,
            Item(0),
            Item(1),
            Item(2),
            Save,
            Restore,
            Item(1),
        ],
        STANDS,
    ),
];

#[test]
fn events_and_items_are_told(rt: HostRuntime) -> Result<(), Fail> {
    assert_eq!(rt; other_row(rt.alloc(), "", ROWS)?, None);
    Ok(())
}
