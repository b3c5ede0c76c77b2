//! What a display keeps and shows, and that a save and a restore keep it.

use crate::steps::Step::{At, Close, Frame, Lines, Put, Restore, Save, Show, Words, Write};
use crate::steps::{Row, Step, other_row, tells};
use ra_text::OutOfMemory;
use std::alloc::Global;
use std::test::Fail;

const TWICE: &str = "P\nDisplay:\n?0xH0010=5.2._R:0xH0010=9?Twice\nAt @Number(0xH0010)\n";

// The shown line, the hits of both conditions, and the number of the macro; the last line is shown before any frame.
const TWICE_WORDS: &str = "1 0 0 0 \n1 0 0 0 \n1 1 0 5 \n0 2 0 5 \n0 2 0 7 \n1 0 0 9 \n1 1 0 5 \n";

const THREE_LINES: &str = "P
Display:
?0xH0010=1.2.?One @Number(0xH0010)
?0xH0010=1.1.?Two @Number(0xH0010*2)
Three @Number(0xH0010*3)
";

// The shown line, the hits of both tests, and the numbers of three macros.
const THREE_WORDS: &str = "2 0 0 0 0 0 \n1 1 1 1 2 3 \n0 2 1 1 2 3 \n0 2 1 4 8 12 \n";

// A line of a display, how many cells stand before what it keeps, how many numbers that are, and these.
type Kept = (&'static str, usize, usize, &'static str);

const KEPT: &[Kept] = &[
    ("@Number(v5$v-1)", 0, 3, "0 5 4294967295 \n"),
    ("@Number(v-1$h80000000)", 0, 3, "0 4294967295 2147483648 \n"),
    ("@Number(A:7/0_M:5)", 0, 4, "0 0 1 5 \n"),
    ("@Number(B:1_M:0)", 0, 4, "0 0 1 4294967295 \n"),
    ("@Number(0xH0010*3_v2)", 1, 2, "0 14 \n"),
    ("@Number(A:0xH0010=9.3._M:1)", 1, 4, "0 0 1 5 \n"),
    ("\\@@Foo(5)\\\\", 0, 2, "0 5 \n"),
    ("@Number(1)@Number(0xH0010)", 1, 3, "0 1 4 \n"),
];

// Whether a display of one line keeps that after a frame at which the byte is 4.
fn keeps_so(alloc: Global, kept: &Kept) -> Result<bool, Fail> {
    let (line, cells, count, wanted) = *kept;
    let file = format!(in alloc; "P\nDisplay:\n{line}\n")?;
    let place = 61usize.wrapping_add(cells.wrapping_mul(20));
    tells(
        alloc,
        &file,
        &[At(4), Words(place, count)],
        wanted.as_bytes(),
    )
}

// The place of the first line that keeps something else.
fn other_kept(alloc: Global, rows: &[Kept]) -> Result<Option<usize>, Fail> {
    for (place, kept) in rows.iter().enumerate() {
        if !keeps_so(alloc, kept)? {
            return Ok(Some(place));
        }
    }
    Ok(None)
}

#[test]
fn macros_keep_their_hits_and_numbers(rt: HostRuntime) -> Result<(), Fail> {
    assert_eq!(rt; other_kept(rt.alloc(), KEPT)?, None);
    Ok(())
}

// A value, and what a display whose last line is its macro shows.
type Shown = (&'static str, &'static str);

const SHOWN: &[Shown] = &[
    ("v5$v-1", "presence 1 5\n"),
    ("v-1$h80000000", "presence 1 -1\n"),
    ("A:7/0_M:5", "presence 1 5\n"),
    ("B:1_M:0", "presence 1 -1\n"),
    ("0xH0010*3_v2", "presence 1 14\n"),
    ("A:0xH0010=9.3._M:1", "presence 1 5\n"),
];

// Whether that is shown at a frame at which the byte is 4.
fn shows_so(alloc: Global, value: &str, wanted: &str) -> Result<bool, Fail> {
    let file = format!(in alloc; "P\nDisplay:\n?0=1?@Number(0xH0010)\n@Number({value})\n")?;
    tells(alloc, &file, &[At(4), Show], wanted.as_bytes())
}

// The place of the first value that is shown as something else.
fn other_shown(alloc: Global, rows: &[Shown]) -> Result<Option<usize>, Fail> {
    for (place, (value, wanted)) in rows.iter().enumerate() {
        if !shows_so(alloc, *value, *wanted)? {
            return Ok(Some(place));
        }
    }
    Ok(None)
}

#[test]
fn values_are_shown_as_signed_numbers(rt: HostRuntime) -> Result<(), Fail> {
    assert_eq!(rt; other_shown(rt.alloc(), SHOWN)?, None);
    Ok(())
}

const REALISTIC: &str = "A 101 0xH00fe=3_d0xH0010=4_0xH0010=5S0xH0020=1S0xH0020=2
L 9 FRAMES STA:0xH0010=1_d0xH0010=0::CAN:0xH00fe=0::SUB:0xH0010=2_d0xH0010=1::VAL:M:0xH00fe=3
P
Lookup:Stage
0=Title
1-4=Forest
*=Castle

Format:Pts
FormatType=SCORE

Display:
?0xH00fe=0?In the menu
@Stage(0xH0010) with @Pts(0x 0030) points // stage and points
";

const BEGINNING: &str = "presence 0 Title with 000000 points
presence 1 In the menu
start 1 9
track 1 9 0:00.01
presence 2 Forest with 000000 points
track 2 9 0:00.03
presence 3 Forest with 000000 points
";

const ENDING: &str = "submit 3 9 3 0:00.05
presence 4 Forest with 000000 points
presence 5 Forest with 000000 points
unlock 5 101
presence 6 Castle with 001000 points
";

// The same where the achievement was earned before.
const ENDING_AGAIN: &str = "submit 3 9 3 0:00.05
presence 4 Forest with 000000 points
presence 5 Forest with 000000 points
presence 6 Castle with 001000 points
";

const BEGIN: [Step; 11] = [
    Show,
    Frame,
    Show,
    Write(0xfe, 3),
    Write(0x10, 1),
    Write(0x20, 2),
    Frame,
    Show,
    Frame,
    Show,
    Save,
];

const END: [Step; 8] = [
    At(2),
    Show,
    At(4),
    Show,
    Write(0x30, 0xe8),
    Write(0x31, 3),
    At(5),
    Show,
];

// The image stays as it is at a restore, so what the machine had there is written again.
const BACK: [Step; 8] = [
    Restore,
    Lines,
    Show,
    Write(0xfe, 3),
    Write(0x10, 1),
    Write(0x20, 2),
    Write(0x30, 0),
    Write(0x31, 0),
];

// All these steps.
fn steps_of(alloc: Global, parts: &[&[Step]]) -> Result<Vec<Step>, OutOfMemory> {
    let mut steps = Vec::new(alloc);
    for part in parts {
        steps.extend_from_slice(*part)?;
    }
    Ok(steps)
}

// Whether the set goes on after its restore as the uncut one did.
fn goes_on(alloc: Global) -> Result<bool, Fail> {
    let steps = steps_of(alloc, &[&BEGIN, &END, &BACK, &END])?;
    let back = "taken\npresence 3 Forest with 000000 points\n";
    let wanted = format!(in alloc; "{BEGINNING}{ENDING}{back}{ENDING_AGAIN}")?;
    tells(alloc, REALISTIC, &steps, wanted.as_bytes())
}

#[test]
fn a_restored_set_goes_on_as_the_uncut_one(rt: HostRuntime) -> Result<(), Fail> {
    assert!(rt; goes_on(rt.alloc())?);
    Ok(())
}

// Whether this is shown at a frame after a save, after the restore of it, and a write that is not seen before the next
// frame, and at that frame.
fn shows_twice(alloc: Global, byte: u8, shown: &str) -> Result<bool, Fail> {
    let steps = [
        At(5),
        Save,
        At(byte),
        Show,
        Restore,
        Show,
        Write(0x10, 3),
        Show,
        At(byte),
        Show,
    ];
    let wanted = format!(in alloc;
        "presence 2 {shown}\ntaken\npresence 1 At 5\npresence 1 At 5\npresence 2 {shown}\n"
    )?;
    tells(alloc, TWICE, &steps, wanted.as_bytes())
}

#[test]
fn a_restore_takes_back_line_hits_and_numbers(rt: HostRuntime) -> Result<(), Fail> {
    let (five, seven) = (
        shows_twice(rt.alloc(), 5, "Twice")?,
        shows_twice(rt.alloc(), 7, "At 7")?,
    );
    assert!(rt; five && seven && shows_twice(rt.alloc(), 9, "At 9")?);
    Ok(())
}

const ANOTHER_LINE: &str = "state 2 at 81
presence 2 Twice
state 255 at 81
presence 2 Twice
taken
presence 1 Twice
";

const ROWS: &[Row] = &[
    (
        "a_test_keeps_its_hits",
        TWICE,
        &[
            Words(81, 4),
            At(0),
            Words(81, 4),
            At(5),
            Words(81, 4),
            At(5),
            Words(81, 4),
            At(7),
            Words(81, 4),
            At(9),
            Words(81, 4),
            At(5),
            Words(81, 4),
        ],
        TWICE_WORDS,
    ),
    (
        "the_first_line_that_holds_is_shown",
        THREE_LINES,
        &[
            At(0),
            Words(81, 6),
            At(1),
            Words(81, 6),
            At(1),
            Words(81, 6),
            At(4),
            Words(81, 6),
        ],
        THREE_WORDS,
    ),
    (
        "a_name_that_no_format_has_is_told",
        "P\nDisplay:\n\\@@Foo(5)\\\\\n",
        &[At(0), Show],
        "presence 1 @[Unknown macro]Foo\\\n",
    ),
    (
        "a_set_without_a_script_shows_nothing",
        "A 1 0xH0010=5\n",
        &[Show, At(5), Show],
        "",
    ),
    (
        "a_line_that_is_not_there_is_refused",
        TWICE,
        &[
            At(5),
            Save,
            At(5),
            Put(81, 2),
            Close,
            Restore,
            Show,
            Put(81, 255),
            Close,
            Restore,
            Show,
            Put(81, 0),
            Close,
            Restore,
            Show,
        ],
        ANOTHER_LINE,
    ),
];

#[test]
fn displays_keep_and_show_their_lines(rt: HostRuntime) -> Result<(), Fail> {
    assert_eq!(rt; other_row(rt.alloc(), "", ROWS)?, None);
    Ok(())
}
