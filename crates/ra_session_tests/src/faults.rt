//! Faults of the files and of the output, at every call.

use crate::jobs::{Call, FIVES, RUN, THREE_HITS, holds, status_of};
use ra_io::{MemFiles, MemSink, Sink, SinkFailed};
use ra_session::RunFiles;
use ra_text::OutOfMemory;
use std::alloc::Global;

// Names and their bytes.
type Given = &'static [(&'static str, &'static [u8])];

// A job over these names: its reads, puts and writes of these numbers fail, and a write takes so many bytes at most. Then
// its status, its text, and what a name holds after it.
#[derive(Clone, Copy)]
struct Fault<'a> {
    call: Call<'static>,
    given: Given,
    reads: &'static [u64],
    puts: &'static [u64],
    writes: &'a [u64],
    most: usize,
    status: u8,
    text: &'a [u8],
    left: (&'static str, &'static [u8]),
}

const UNLOCK: &[u8] = b"unlock 4 1\n";

const READ_FAULT: &[u8] = b"read fault\n";

const SAVE_FAULT: &[u8] = b"save fault\n";

// What the file that is put has before.
const OLDER: &[u8] = b"an older file";

// What is kept of the fives.
const WRITTEN: &[u8] =
    b"RAPG\x03\x95\xc3\x20\x26\xa3\xa7\xb6\xfc\x1a\xa5\x3d\x35\x5d\x82\xba\x02\x05\0\0\0\0\0\0\0\x01\0\0\0\x59\x74\x9b\xd5\xca\x8a\xbe\x76\x8e\xb1\x37\x06\x1a\x4f\x30\xc6\x05\0\0\0\0\0\0\0\x01\0\0\0\x79\x8a\x55\xfc\x59\x9d\x9d\x9b\x40\x6c\x25\xa6\x42\xfa\x8a\x9a\x09\0\0\0\x0c\0\0\0\0\x03\0\0\0\x0f\x6e\x03\x50\xbb\xea\x97\x1c\xff\xa0\x49\x3d\xd7\x38\xd4\x41";

// The names of a run that puts the file p.
const SAVED: Given = &[("S", THREE_HITS), ("T", FIVES), ("p", OLDER)];

// A run that puts the file p.
const SAVE: Fault<'static> = Fault {
    call: Call::Run(RunFiles {
        save: Some("p"),
        ..RUN
    }),
    given: SAVED,
    reads: &[],
    puts: &[],
    writes: &[],
    most: 11,
    status: 0,
    text: UNLOCK,
    left: ("p", WRITTEN),
};

// A run that goes on from a file p that is not there.
const RESTORE: Fault<'static> = Fault {
    call: Call::Run(RunFiles {
        restore: Some("p"),
        ..RUN
    }),
    given: &[("S", THREE_HITS), ("T", FIVES)],
    status: 4,
    text: READ_FAULT,
    left: ("S", THREE_HITS),
    ..SAVE
};

// A read of a run that saves failed.
const UNREAD: Fault<'static> = Fault {
    status: 4,
    text: READ_FAULT,
    left: ("p", OLDER),
    ..SAVE
};

// An achievement and a leaderboard in letters of either case, with a comment and a legacy part, and their normal text.
const LEGACY: &[u8] =
    b"# note\nA 1 r:0Xh10==05(3)\nL 2 POINTS val:0xh10*3_v2::STA:0=1::can:0=1::Sub:0=1\n";

const NORMAL_TEXT: &[u8] =
    b"A 1 R:0xH0010=5.3.\nL 2 SCORE STA:0=1::CAN:0=1::SUB:0=1::VAL:A:0xH0010*3_A:2_M:0\n";

// A normal text that is put over another file.
const NORMAL: Fault<'static> = Fault {
    call: Call::Normal,
    given: &[("S", LEGACY), ("N", OLDER)],
    most: 16,
    status: 5,
    text: b"",
    left: ("N", NORMAL_TEXT),
    ..SAVE
};

// A document of two items and a script, and fields that no set needs.
const DOCUMENT: &[u8] =
    br#"{"Success":true,"PatchData":{"Title":"Demo","Achievements":[{"ID":7,"MemAddr":"0xH0010=5.3.","Points":5}],"Leaderboards":[{"ID":9,"Mem":"STA:0=1::CAN:0=1::SUB:0=1::VAL:0xH0001","Format":"VALUE"}],"RichPresencePatch":"Display:\r\nHi\r\n"}}"#;

// Its set file.
const SET: &[u8] =
    b"A 7 0xH0010=5.3.\nL 9 VALUE STA:0=1::CAN:0=1::SUB:0=1::VAL:0xH0001\nP\nDisplay:\r\nHi\r\n";

// An import over another set.
const IMPORT: Fault<'static> = Fault {
    call: Call::Import,
    given: &[("F", DOCUMENT), ("S", OLDER)],
    left: ("S", SET),
    ..NORMAL
};

// The set is read once, and once more at its end, and the trace once: nothing after its end record is asked for. Of a read
// and a write that fail the line of the one is not written. A put comes before the line that tells it, so of a put and a
// write that fail the status is that of the put, and after a put a write that fails leaves the file.
const RUNS: &[Fault<'static>] = &[
    Fault {
        reads: &[1],
        ..UNREAD
    },
    Fault {
        reads: &[2],
        ..UNREAD
    },
    Fault {
        reads: &[3],
        ..UNREAD
    },
    Fault {
        reads: &[5],
        ..SAVE
    },
    Fault {
        puts: &[1],
        status: 9,
        text: b"unlock 4 1\nsave fault\n",
        left: ("p", OLDER),
        ..SAVE
    },
    Fault { puts: &[2], ..SAVE },
    Fault {
        reads: &[1],
        writes: &[1],
        status: 5,
        text: b"",
        ..UNREAD
    },
    Fault {
        puts: &[1],
        writes: &[2],
        status: 5,
        left: ("p", OLDER),
        ..SAVE
    },
    Fault {
        puts: &[1],
        ..RESTORE
    },
    Fault {
        call: Call::Run(RUN),
        left: ("p", OLDER),
        ..SAVE
    },
];

const PUTS: &[Fault<'static>] = &[
    Fault {
        reads: &[1],
        status: 4,
        text: READ_FAULT,
        left: ("N", OLDER),
        ..NORMAL
    },
    Fault {
        puts: &[1],
        status: 9,
        text: SAVE_FAULT,
        left: ("N", OLDER),
        ..NORMAL
    },
    Fault {
        writes: &[1],
        ..NORMAL
    },
    Fault {
        writes: &[2],
        text: b"normal bytes 80 ",
        ..NORMAL
    },
    Fault {
        reads: &[2],
        status: 4,
        text: READ_FAULT,
        left: ("S", OLDER),
        ..IMPORT
    },
    Fault {
        puts: &[1],
        status: 9,
        text: SAVE_FAULT,
        left: ("S", OLDER),
        ..IMPORT
    },
    Fault {
        writes: &[1],
        ..IMPORT
    },
    Fault {
        writes: &[2],
        text: b"imported achieve",
        ..IMPORT
    },
    Fault {
        puts: &[1],
        writes: &[1],
        left: ("S", OLDER),
        ..IMPORT
    },
    Fault {
        given: &[("F", b"{"), ("S", OLDER)],
        writes: &[1],
        left: ("S", OLDER),
        ..IMPORT
    },
];

// The files of a job.
fn failing(alloc: Global, fault: &Fault<'_>) -> Result<MemFiles, OutOfMemory> {
    let mut files = MemFiles::new(alloc)?;
    for (name, bytes) in fault.given {
        files.add(*name, *bytes)?;
    }
    let reads = fault.reads.to_vec(alloc)?;
    files.fail(reads, fault.puts.to_vec(alloc)?);
    Ok(files)
}

// Whether a job ends so.
fn ends_so(alloc: Global, fault: &Fault<'_>) -> Result<bool, OutOfMemory> {
    let mut files = failing(alloc, fault)?;
    let mut out = MemSink::new(alloc, fault.most.max(1), fault.writes.to_vec(alloc)?);
    let status = status_of(alloc, &fault.call, &mut files, &mut out);
    let (name, left) = fault.left;
    Ok(status == fault.status && out.taken() == fault.text && holds(&mut files, name, left))
}

// The place of the first job that does not end so.
fn other_fault(alloc: Global, rows: &[Fault<'_>]) -> Result<Option<usize>, OutOfMemory> {
    for (place, fault) in rows.iter().enumerate() {
        if !ends_so(alloc, fault)? {
            return Ok(Some(place));
        }
    }
    Ok(None)
}

// The first call whose write fails, where a write takes a byte, that leaves something else than what was written before.
fn other_front(alloc: Global) -> Result<Option<u8>, OutOfMemory> {
    for call in 1..=12u8 {
        let written = usize::from(call) - 1;
        let calls = [u64::from(call)];
        let ends = written >= UNLOCK.len();
        let fault = Fault {
            writes: &calls,
            most: 1,
            status: if ends { 0 } else { 5 },
            text: &UNLOCK[..written.min(UNLOCK.len())],
            left: ("p", if ends { WRITTEN } else { OLDER }),
            ..SAVE
        };
        if !ends_so(alloc, &fault)? {
            return Ok(Some(call));
        }
    }
    Ok(None)
}

#[test]
fn a_fault_ends_a_run(rt: HostRuntime) -> Result<(), OutOfMemory> {
    assert_eq!(rt; other_fault(rt.alloc(), RUNS)?, None);
    Ok(())
}

#[test]
fn a_fault_ends_a_job_that_puts_a_file(rt: HostRuntime) -> Result<(), OutOfMemory> {
    assert_eq!(rt; other_fault(rt.alloc(), PUTS)?, None);
    Ok(())
}

// No write is tried again.
#[test]
fn a_failing_write_leaves_a_front(rt: HostRuntime) -> Result<(), OutOfMemory> {
    assert_eq!(rt; other_front(rt.alloc())?, None);
    Ok(())
}

// An output that fails at an empty piece, or at its first write, and else takes all.
#[derive(Drop)]
struct Wary {
    text: Vec<u8>,
    fresh: bool,
    faults: u64,
}

impl Sink for Wary {
    ghost use Rattle.std.specs.Prelude.{Some};

    ghost text = { λ s. Some s.text.items };

    ghost faults = { λ s. s.faults };

    fn write(&mut self, bytes: &[u8]) -> Result<usize, SinkFailed> {
        if self.fresh || bytes.is_empty() {
            self.fresh = false;
            self.faults = self.faults.saturating_add(1);
            return Err(SinkFailed::Failed);
        }
        match self.text.extend_from_slice(bytes) {
            Ok(()) => Ok(bytes.len()),
            Err(_) => Err(SinkFailed::Memory),
        }
    }
}

// The names of a run whose trace prints nothing.
const SIXES: Given = &[("S", b"A 1 0xH0010=6\n"), ("T", FIVES)];

// Names, whether the first write fails, and the status and the text of a run that saves.
type Wariness = (Given, bool, u8, &'static [u8]);

const WARY: [Wariness; 4] = [
    (SAVED, false, 0, UNLOCK),
    (SAVED, true, 5, b""),
    (SIXES, false, 0, b""),
    (SIXES, true, 0, b""),
];

// The place of the first run that does not end so.
fn other_wary(alloc: Global) -> Result<Option<usize>, OutOfMemory> {
    for (place, (given, fresh, status, text)) in WARY.iter().enumerate() {
        let mut files = failing(
            alloc,
            &Fault {
                given: *given,
                ..SAVE
            },
        )?;
        let mut out = Wary {
            text: Vec::new(alloc),
            fresh: *fresh,
            faults: 0,
        };
        let found = status_of(alloc, &SAVE.call, &mut files, &mut out);
        if found != *status || out.text.as_slice() != *text {
            return Ok(Some(place));
        }
    }
    Ok(None)
}

// Frames that print nothing write no piece, and a write that failed is not tried again.
#[test]
fn no_piece_is_empty_and_no_write_comes_again(rt: HostRuntime) -> Result<(), OutOfMemory> {
    assert_eq!(rt; other_wary(rt.alloc())?, None);
    Ok(())
}
