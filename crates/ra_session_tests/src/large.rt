//! Files at their limits and one past them, which are too long to stand in a folder.

use crate::jobs::{Call, FIVES, RUN, THREE_HITS, ends_so, holds};
use ra_io::SureFiles;
use ra_review::review;
use ra_session::RunFiles;
use ra_text::OutOfMemory;
use std::alloc::Global;
use std::fmt::Write;

// A text, a piece as many times, and a text. Where something comes after a piece, the number of the piece, from 1, stands
// between them.
#[derive(Clone, Copy)]
struct Long {
    front: &'static str,
    piece: &'static str,
    after: Option<&'static str>,
    times: u32,
    back: &'static str,
}

// Puts the pieces of a text.
fn put_pieces(text: &mut String, long: &Long) -> Result<(), OutOfMemory> {
    for number in 1..=long.times {
        text.push_str(long.piece)?;
        if let Some(after) = long.after {
            write!(text, "{number}{after}")?;
        }
    }
    Ok(())
}

fn text_of(alloc: Global, long: &Long) -> Result<String, OutOfMemory> {
    let mut text = String::from_str(alloc, long.front)?;
    put_pieces(&mut text, long)?;
    text.push_str(long.back)?;
    Ok(text)
}

const NOTHING: Long = Long {
    front: "",
    piece: "",
    after: None,
    times: 0,
    back: "",
};

const CONDITIONS: Long = Long {
    front: "A 1 0=1",
    piece: "_0=1",
    times: 65_535,
    back: "\n",
    ..NOTHING
};

const ITEMS: Long = Long {
    piece: "A ",
    after: Some(" 0=1\n"),
    times: 16_384,
    ..NOTHING
};

const BYTES: Long = Long {
    piece: "#",
    times: 4_194_304,
    ..NOTHING
};

// Pointers each of which moves the next, and one comparison.
const POINTERS: Long = Long {
    front: "A 1 ",
    piece: "I:0xX0000_",
    times: 65_534,
    back: "0xH0000=1\n",
    ..NOTHING
};

// A legacy value of terms of one part, and of parts; one part has a condition more than terms, and as many parts have twice
// as many conditions.
const TERMS: Long = Long {
    front: "L 1 VALUE STA:::CAN:::SUB:::VAL:1",
    piece: "_1",
    times: 65_535,
    back: "\n",
    ..NOTHING
};

const PARTS: Long = Long {
    piece: "$1",
    times: 32_767,
    ..TERMS
};

// A leaderboard with a term, which grows by six bytes, and a script of 4,194,298 bytes with it.
const SCRIPT: Long = Long {
    front: "L 1 VALUE STA:::CAN:::SUB:::VAL:1\nP\nDisplay:\n",
    piece: "a",
    times: 4_194_253,
    ..NOTHING
};

// A document of 16,777,216 bytes: white space after a value is no part of it.
const DOCUMENT: Long = Long {
    front: "{\"PatchData\":{\"Achievements\":[]}}",
    piece: " ",
    times: 16_777_183,
    ..NOTHING
};

// Brackets that are no document.
const BRACKETS: Long = Long {
    piece: "[",
    times: 16_777_216,
    ..NOTHING
};

// A document of an achievement more than a set may have.
const ACHIEVEMENTS: Long = Long {
    front: "{\"PatchData\":{\"Achievements\":[",
    piece: "{\"MemAddr\":\"\",\"ID\":",
    after: Some("},"),
    times: 16_384,
    back: "{\"ID\":0,\"MemAddr\":\"\"}]}}",
};

// A progress file of the most bytes.
const ZEROS: Long = Long {
    piece: "\0",
    times: 8_388_608,
    ..NOTHING
};

// An achievement of 65,535 conditions that never hold, and frames.
const WIDE: Long = Long {
    times: 65_534,
    ..CONDITIONS
};

const FRAMES: Long = Long {
    front: "RATR\x01\0\0\0\0",
    piece: "F",
    times: 1_025,
    back: "E",
    ..NOTHING
};

// What the name N holds before a job.
const BEFORE: &[u8] = b"before\n";

// Names and their bytes.
type Given = &'static [(&'static str, &'static [u8])];

// Names and their long texts.
type Longs = &'static [(&'static str, Long)];

// A job over short files and long ones, of so many pieces more; its status and its text, and whether the name N holds what
// it held before.
#[derive(Clone, Copy)]
struct Large {
    call: Call<'static>,
    given: Given,
    long: Longs,
    more: u32,
    status: u8,
    text: &'static [u8],
    stays: bool,
}

const NONE: Given = &[("T", FIVES), ("N", BEFORE)];

const CHECK: Large = Large {
    call: Call::Check,
    given: NONE,
    long: &[("S", CONDITIONS)],
    more: 0,
    status: 0,
    text: b"achievements 1 leaderboards 0 conditions 65536 cells 0 priors 0 md5 96a1dbd7072801fc940afc5af54b4c2f\n",
    stays: true,
};

const MANY_CONDITIONS: Large = Large {
    more: 1,
    status: 3,
    text: b"set refused: conditions 65537 over 65536\n",
    ..CHECK
};

const MANY_ITEMS: Large = Large {
    long: &[("S", ITEMS)],
    more: 1,
    status: 3,
    text: b"set refused: items 16385 over 16384\n",
    ..CHECK
};

const MANY_BYTES: Large = Large {
    long: &[("S", BYTES)],
    more: 1,
    status: 3,
    text: b"set refused: bytes 4194305 over 4194304\n",
    ..CHECK
};

const SETS: &[Large] = &[
    CHECK,
    MANY_CONDITIONS,
    Large {
        call: Call::Run(RUN),
        ..MANY_CONDITIONS
    },
    Large {
        long: &[("S", ITEMS)],
        text: b"achievements 16384 leaderboards 0 conditions 16384 cells 0 priors 0 md5 1c2f9ae79011b6a3dd593efac64395f0\n",
        ..CHECK
    },
    MANY_ITEMS,
    Large {
        call: Call::Run(RUN),
        ..MANY_ITEMS
    },
    Large {
        long: &[("S", BYTES)],
        text: b"achievements 0 leaderboards 0 conditions 0 cells 0 priors 0 md5 ce70448db8cf459598d4ac36ade4a68c\n",
        ..CHECK
    },
    MANY_BYTES,
    Large {
        call: Call::Run(RUN),
        ..MANY_BYTES
    },
];

const DEEP: &[Large] = &[
    Large {
        long: &[("S", POINTERS)],
        text: b"achievements 1 leaderboards 0 conditions 65535 cells 65535 priors 0 md5 ac4c792c032c6818aa6a6ed3933cadbf\n",
        ..CHECK
    },
    Large {
        call: Call::Run(RUN),
        given: &[
            ("T", b"RATR\x01\x40\0\0\0FW\0\0\0\0\x01\0\x01FE"),
            ("N", BEFORE),
        ],
        long: &[("S", POINTERS)],
        text: b"unlock 1 1\n",
        ..CHECK
    },
    // the frame after 1,024 others is one too many for the rows of an explanation
    Large {
        call: Call::Explain,
        given: &[("N", BEFORE)],
        long: &[("S", WIDE), ("T", FRAMES)],
        status: 12,
        text: b"explain refused: rows 67174400 over 67108864\n",
        ..CHECK
    },
];

const NORMAL: Large = Large {
    call: Call::Normal,
    status: 11,
    ..CHECK
};

const MANY_PARTS: Large = Large {
    long: &[("S", PARTS)],
    more: 1,
    text: b"normal refused: conditions 65538 over 65536\n",
    ..NORMAL
};

const LONG_SCRIPT: Large = Large {
    long: &[("S", SCRIPT)],
    more: 1,
    text: b"normal refused: bytes 4194305 over 4194304\n",
    ..NORMAL
};

const NORMALS: &[Large] = &[
    Large {
        long: &[("S", TERMS)],
        text: b"normal refused: conditions 65537 over 65536\n",
        ..NORMAL
    },
    Large {
        more: 0,
        status: 0,
        text: b"normal bytes 262176 conditions 65536\n",
        stays: false,
        ..MANY_PARTS
    },
    MANY_PARTS,
    Large {
        more: 0,
        status: 0,
        text: b"normal bytes 4194304 conditions 2\n",
        stays: false,
        ..LONG_SCRIPT
    },
    LONG_SCRIPT,
];

const IMPORT: Large = Large {
    call: Call::Import,
    long: &[("F", DOCUMENT)],
    status: 10,
    text: b"import refused: bytes 16777217 over 16777216\n",
    ..CHECK
};

const DOCUMENTS: &[Large] = &[
    Large {
        status: 0,
        text: b"imported achievements 0 leaderboards 0 presence 0\n",
        ..IMPORT
    },
    Large { more: 1, ..IMPORT },
    Large { more: 84, ..IMPORT },
];

const IMPORTS: &[Large] = &[
    Large {
        long: &[("F", BRACKETS)],
        text: b"import refused: json\n",
        ..IMPORT
    },
    Large {
        long: &[("F", ACHIEVEMENTS)],
        status: 3,
        text: b"set refused: items 16385 over 16384\n",
        ..IMPORT
    },
];

// A run that goes on from a file of zeros, which is read up to a byte more than it may have.
const RESTORE: Large = Large {
    call: Call::Run(RunFiles {
        restore: Some("p"),
        ..RUN
    }),
    given: &[("S", THREE_HITS), ("T", FIVES), ("N", BEFORE)],
    long: &[("p", ZEROS)],
    status: 6,
    text: b"progress refused: length 8388609 wanted 8388608\n",
    ..CHECK
};

const PROGRESS: &[Large] = &[
    Large {
        text: b"progress refused: mark 00000000 wanted 52415047\n",
        ..RESTORE
    },
    Large { more: 1, ..RESTORE },
    Large {
        more: 92,
        ..RESTORE
    },
];

// Puts the long files of a job.
fn put_longs(alloc: Global, files: &mut SureFiles, row: &Large) -> Result<(), OutOfMemory> {
    for (name, long) in row.long {
        let times = long.times.saturating_add(row.more);
        let text = text_of(alloc, &Long { times, ..*long })?;
        files.add(*name, text.as_bytes())?;
    }
    Ok(())
}

fn files_of(alloc: Global, row: &Large) -> Result<SureFiles, OutOfMemory> {
    let mut files = SureFiles::new(alloc)?;
    for (name, bytes) in row.given {
        files.add(*name, *bytes)?;
    }
    put_longs(alloc, &mut files, row)?;
    Ok(files)
}

// The place of the first job that does not end so.
fn other_large(alloc: Global, rows: &[Large]) -> Result<Option<usize>, OutOfMemory> {
    for (place, row) in rows.iter().enumerate() {
        let mut files = files_of(alloc, row)?;
        let ends = ends_so(alloc, &row.call, &mut files, row.status, row.text);
        if !ends || holds(&mut files, "N", BEFORE) != row.stays {
            return Ok(Some(place));
        }
    }
    Ok(None)
}

#[test]
fn sets_have_limits(rt: HostRuntime) -> Result<(), OutOfMemory> {
    assert_eq!(rt; other_large(rt.alloc(), SETS)?, None);
    Ok(())
}

#[test]
fn deep_sets_are_played(rt: HostRuntime) -> Result<(), OutOfMemory> {
    assert_eq!(rt; other_large(rt.alloc(), DEEP)?, None);
    Ok(())
}

#[test]
fn normal_texts_have_limits(rt: HostRuntime) -> Result<(), OutOfMemory> {
    assert_eq!(rt; other_large(rt.alloc(), NORMALS)?, None);
    Ok(())
}

#[test]
fn documents_have_a_limit(rt: HostRuntime) -> Result<(), OutOfMemory> {
    assert_eq!(rt; other_large(rt.alloc(), DOCUMENTS)?, None);
    Ok(())
}

#[test]
fn documents_that_are_refused_may_be_long(rt: HostRuntime) -> Result<(), OutOfMemory> {
    assert_eq!(rt; other_large(rt.alloc(), IMPORTS)?, None);
    Ok(())
}

#[test]
fn progress_files_have_a_limit(rt: HostRuntime) -> Result<(), OutOfMemory> {
    assert_eq!(rt; other_large(rt.alloc(), PROGRESS)?, None);
    Ok(())
}

// A file, and its review.
const REVIEWS: &[(Long, &[u8])] = &[
    (LINES, b"set refused: bytes 4194305 over 4194304\n"),
    (
        MORE_ITEMS,
        b"set refused: items 16385 over 16384\nreviewed lines 16385 refused 0 notices 0\n",
    ),
    (
        UNLIKE,
        b"set refused: conditions 65537 over 65536\nreviewed lines 1 refused 0 notices 0\n",
    ),
];

const LINES: Long = Long {
    piece: "\n",
    times: 4_194_305,
    ..NOTHING
};

const MORE_ITEMS: Long = Long {
    times: 16_385,
    ..ITEMS
};

// Conditions no two of which are equal.
const UNLIKE: Long = Long {
    front: "A 1 ",
    after: Some("=1_"),
    times: 65_536,
    back: "0=0\n",
    ..NOTHING
};

// The place of the first file that has another review.
fn other_review(alloc: Global, rows: &[(Long, &[u8])]) -> Result<Option<usize>, OutOfMemory> {
    for (place, (long, wanted)) in rows.iter().enumerate() {
        let file = text_of(alloc, long)?;
        let review = review(alloc, file.as_bytes())?;
        if review.text.as_slice() != *wanted {
            return Ok(Some(place));
        }
    }
    Ok(None)
}

#[test]
fn a_review_tells_each_limit(rt: HostRuntime) -> Result<(), OutOfMemory> {
    assert_eq!(rt; other_review(rt.alloc(), REVIEWS)?, None);
    Ok(())
}
