//! Traces that come in pieces, and a read of one that fails at a place.

use crate::jobs::{Call, FIVES, RUN, THREE_HITS, ends_so};
use ra_io::{Failed, Files, PutFailed, SureFiles};
use ra_text::OutOfMemory;
use std::alloc::Global;

// Files that give this many bytes a read at most, and of which the read of the trace at one place fails.
#[derive(Drop)]
struct PiecedFiles {
    files: SureFiles,
    most: usize,
    failing: u64,
    faults: u64,
}

impl Files for PiecedFiles {
    ghost use Rattle.std.specs.Prelude.{Some};
    ghost use Rattle.ra_io.specs.Held.{bytes_under};
    ghost use Rattle.ra_io.specs.SureFiles.{names_of};

    ghost content = { λ s name. Some (bytes_under (names_of s.files) name) };

    ghost read_faults = { λ s _. s.faults };

    ghost put_faults = { λ _ _. 0 };

    fn read_at(&mut self, name: &str, at: u64, buf: &mut [u8]) -> Result<usize, Failed> {
        if name == "T" && at == self.failing {
            self.faults = self.faults.saturating_add(1);
            return Err(Failed);
        }
        let most = buf.len().min(self.most.max(1));
        self.files.read_at(name, at, &mut buf[..most])
    }

    fn put(&mut self, name: &str, bytes: &[u8]) -> Result<(), PutFailed> {
        self.files.put(name, bytes)
    }
}

// A job over a set and a trace.
#[derive(Clone, Copy)]
struct Over<'a> {
    call: Call<'static>,
    set: &'a [u8],
    trace: &'a [u8],
}

// A place at which no read begins.
const NOWHERE: u64 = u64::MAX;

// How many bytes a read gives, the place of a read that fails, and the status and the text.
type Row = (usize, u64, u8, &'static [u8]);

// The files of a job.
fn pieced(alloc: Global, over: &Over<'_>, row: &Row) -> Result<PiecedFiles, OutOfMemory> {
    let mut files = SureFiles::new(alloc)?;
    files.add("S", over.set)?;
    files.add("T", over.trace)?;
    Ok(PiecedFiles {
        files,
        most: row.0,
        failing: row.1,
        faults: 0,
    })
}

// The place of the first row that does not end so.
fn other_pieces(
    alloc: Global,
    over: &Over<'_>,
    rows: &[Row],
) -> Result<Option<usize>, OutOfMemory> {
    for (place, row) in rows.iter().enumerate() {
        let mut files = pieced(alloc, over, row)?;
        if !ends_so(alloc, &over.call, &mut files, row.2, row.3) {
            return Ok(Some(place));
        }
    }
    Ok(None)
}

// The trace has 39 bytes, the last of which is its end record.
const PLAYED: &[Row] = &[
    (1, NOWHERE, 0, b"unlock 4 1\n"),
    (7, NOWHERE, 0, b"unlock 4 1\n"),
    (65_536, NOWHERE, 0, b"unlock 4 1\n"),
    (1, 38, 4, b"unlock 4 1\nread fault\n"),
];

// The unlock is the frame at 37, and the record after it is never asked for.
const EXPLAINED: &[Row] = &[
    (1, 37, 4, b"read fault\n"),
    (1, 38, 0, b"unlock 4 1\nsince 0\n0.0 1:1 2:2 4:3\n"),
    (1, 39, 0, b"unlock 4 1\nsince 0\n0.0 1:1 2:2 4:3\n"),
];

#[test]
fn a_trace_is_read_in_any_pieces(rt: HostRuntime) -> Result<(), OutOfMemory> {
    let played = Over {
        call: Call::Run(RUN),
        set: THREE_HITS,
        trace: FIVES,
    };
    let explained = Over {
        call: Call::Explain,
        ..played
    };
    assert_eq!(rt; other_pieces(rt.alloc(), &played, PLAYED)?, None);
    assert_eq!(rt; other_pieces(rt.alloc(), &explained, EXPLAINED)?, None);
    Ok(())
}

// A memory of 131,072 bytes whose halves are filled with 5, each before a frame.
fn filled_twice(alloc: Global) -> Result<Vec<u8>, OutOfMemory> {
    let fives = vec![in alloc; 5u8; 65_535]?;
    let mut trace = b"RATR\x01\0\0\x02\0".to_vec(alloc)?;
    for place in [b"W\0\0\0\0\xff\xff", b"W\0\0\x01\0\xff\xff"] {
        trace.extend_from_slice(place)?;
        trace.extend_from_slice(fives.as_slice())?;
        trace.push(b'F')?;
    }
    trace.push(b'E')?;
    Ok(trace)
}

const LONGEST: &[Row] = &[
    (7, NOWHERE, 0, b"unlock 1 1\n"),
    (65_536, NOWHERE, 0, b"unlock 1 1\n"),
];

#[test]
fn the_longest_writes_are_read_in_pieces(rt: HostRuntime) -> Result<(), OutOfMemory> {
    let trace = filled_twice(rt.alloc())?;
    let over = Over {
        call: Call::Run(RUN),
        set: b"A 1 d0xH0010=5\n",
        trace: trace.as_slice(),
    };
    assert_eq!(rt; other_pieces(rt.alloc(), &over, LONGEST)?, None);
    Ok(())
}
