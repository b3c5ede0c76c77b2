//! Traces that are cut at every byte.

use crate::jobs::{Call, FIVES, RUN, THREE_HITS, ends_so};
use ra_io::SureFiles;
use ra_text::OutOfMemory;
use std::alloc::Global;
use std::fmt::Write;

// An achievement, a leaderboard and a script with a lookup and a format.
const FOREST: &[u8] =
    b"A 101 0xH00fe=3_d0xH0010=4_0xH0010=5S0xH0020=1S0xH0020=2\nL 9 FRAMES STA:0xH0010=1_d0xH0010=0::CAN:0xH00fe=0::SUB:0xH0010=2_d0xH0010=1::VAL:M:0xH00fe=3\nP\nLookup:Stage\n0=Title\n1-4=Forest\n*=Castle\n\nFormat:Pts\nFormatType=SCORE\n\nDisplay:\n?0xH00fe=0?In the menu\n@Stage(0xH0010) with @Pts(0x 0030) points // stage and points\n";

// Its six frames, with a show after the first and the last.
const FOREST_TRACE: &[u8] =
    b"RATR\x01\0\0 \0FPW\xfe\0\0\0\x01\0\x03W\x10\0\0\0\x01\0\x01W \0\0\0\x01\0\x02FFW\x10\0\0\0\x01\0\x02FW\x10\0\0\0\x01\0\x04FW\x10\0\0\0\x01\0\x05W0\0\0\0\x02\0\xe8\x03FPE";

// What they print.
const FOREST_TEXT: &[u8] =
    b"presence 1 In the menu\nstart 1 9\ntrack 1 9 0:00.01\ntrack 2 9 0:00.03\nsubmit 3 9 3 0:00.05\nunlock 5 101\npresence 6 Castle with 001000 points\n";

// A set, a trace and its text, and where each record starts, with how much is printed before it.
#[derive(Clone, Copy, Debug)]
struct Cuts<'a> {
    set: &'a [u8],
    trace: &'a [u8],
    text: &'a [u8],
    records: &'a [(usize, usize)],
}

// The text of a run over the first bytes of the trace: below nine it has no header, and then the last record that
// starts there is cut.
fn cut_text(alloc: Global, cuts: &Cuts<'_>, len: usize) -> Result<Vec<u8>, OutOfMemory> {
    let mut line = String::from_str(alloc, "trace refused at 0: header\n")?;
    let mut printed = 0;
    for (at, before) in cuts.records {
        if *at <= len {
            line.clear();
            writeln!(line, "trace refused at {at}: cut")?;
            printed = *before;
        }
    }
    let mut text = cuts
        .text
        .iter()
        .take(printed)
        .copied()
        .collect::<Vec<u8>>(alloc)?;
    text.extend_from_slice(line.as_bytes())?;
    Ok(text)
}

// The files of a run over the first bytes of the trace.
fn files_of(alloc: Global, cuts: &Cuts<'_>, len: usize) -> Result<SureFiles, OutOfMemory> {
    let mut files = SureFiles::new(alloc)?;
    files.add("S", cuts.set)?;
    files.add("T", &cuts.trace[..len.min(cuts.trace.len())])?;
    Ok(files)
}

// The first length at which the cut trace does not end so.
fn other_cut(alloc: Global, cuts: &Cuts<'_>) -> Result<Option<usize>, OutOfMemory> {
    for (len, _) in cuts.trace.iter().enumerate() {
        let text = cut_text(alloc, cuts, len)?;
        let mut files = files_of(alloc, cuts, len)?;
        if !ends_so(alloc, &Call::Run(RUN), &mut files, 7, text.as_slice()) {
            return Ok(Some(len));
        }
    }
    Ok(None)
}

// Each record of three traces: hits in a row, a save that is restored, and what the forest tells.
const ROWS: [Cuts<'static>; 3] = [
    Cuts {
        set: THREE_HITS,
        trace: FIVES,
        text: b"unlock 4 1\n",
        records: &[
            (9, 0),
            (10, 0),
            (18, 0),
            (19, 0),
            (20, 0),
            (28, 0),
            (29, 0),
            (37, 0),
            (38, 11),
        ],
    },
    Cuts {
        set: b"A 1 d0xH0010=1_0xH0010=2\n",
        trace: b"RATR\x01\x40\0\0\0W\x10\0\0\0\x01\0\x01FS\0W\x10\0\0\0\x01\0\x05FW\x10\0\0\0\x01\0\x02R\0FE",
        text: b"unlock 1 1\n",
        records: &[
            (9, 0),
            (17, 0),
            (18, 0),
            (20, 0),
            (28, 0),
            (29, 0),
            (37, 0),
            (39, 0),
            (40, 11),
        ],
    },
    Cuts {
        set: FOREST,
        trace: FOREST_TRACE,
        text: FOREST_TEXT,
        records: &[
            (9, 0),
            (10, 0),
            (11, 23),
            (19, 23),
            (27, 23),
            (35, 23),
            (36, 51),
            (37, 69),
            (45, 69),
            (46, 90),
            (54, 90),
            (55, 90),
            (63, 90),
            (72, 90),
            (73, 103),
            (74, 140),
        ],
    },
];

// The place of the first of these traces that does not end so at a length, with that length.
fn other_trace(alloc: Global, rows: &[Cuts<'_>]) -> Result<Option<(usize, usize)>, OutOfMemory> {
    for (place, cuts) in rows.iter().enumerate() {
        if let Some(len) = other_cut(alloc, cuts)? {
            return Ok(Some((place, len)));
        }
    }
    Ok(None)
}

#[test]
fn a_cut_trace_prints_what_lies_before_the_cut(rt: HostRuntime) -> Result<(), OutOfMemory> {
    assert_eq!(rt; other_trace(rt.alloc(), &ROWS)?, None);
    Ok(())
}
