//! Set files with a presence script.

use crate::pieces::{Shown, ends_with};
use crate::reading::{Reader, counts, is_refused, other_refusal, repeated};
use ra_set::{Set, SetRefused, Which, conditions, parse_set};
use ra_text::OutOfMemory;
use std::alloc::Global;

// Files whose script is none, and their first bad place.
const BAD_SCRIPTS: &[(&str, usize)] = &[
    ("P", 1),
    ("P\r", 2),
    ("P\rX", 2),
    ("Px", 1),
    ("P ", 1),
    ("p\nDisplay:\nx", 0),
    ("P\n", 2),
    ("P\n\n", 3),
    ("P\nFoo\nDisplay:", 2),
    ("P\r\nFoo\r\nDisplay:", 3),
    ("P\nDisplay:\n", 11),
    ("P\nP\nDisplay:\nx", 2),
    ("#\n\nP", 4),
    ("#\nPx", 3),
    ("A 1 0=1\nP", 9),
    ("A 1 0=1P\nDisplay:\nx", 7),
    ("A 1 0=1\r\nP\r\nDisplay:\nx\ny", 23),
    ("\nP\nDisplay:\n?0=1?z", 18),
    ("A 1 0=1\nA 1 0=1\nP\nFoo", 18),
];

#[test]
fn scripts_are_refused_at_their_first_bad_place(rt: HostRuntime) {
    assert_eq!(rt; other_refusal(rt.alloc(), Reader::Set, BAD_SCRIPTS), None);
}

#[test]
fn an_id_that_is_repeated_before_a_script_is_told(rt: HostRuntime) {
    let text = b"A 1 0=1\n#\nA 1 0=1\nP\nDisplay:\nx";
    let again = SetRefused::DuplicateId { id: 1, line: 3 };
    assert!(rt; is_refused(rt.alloc(), text, again));
}

// The last line of the set's script has these pieces.
fn script_ends_with(set: &Set, pieces: &[Shown<'_>]) -> bool {
    match &set.script {
        Some(script) => ends_with(script, pieces),
        None => false,
    }
}

// The file has this many items, and a script whose last line is this text.
fn shows(alloc: Global, text: &[u8], items: usize, shown: &[u8]) -> bool {
    match parse_set(alloc, text) {
        Ok(set) => set.items.len() == items && script_ends_with(&set, &[Shown::Text(shown)]),
        Err(_) => false,
    }
}

// Files, how many items they have, and the text of the last line of their script.
const SCRIPTS: &[(&str, usize, &str)] = &[
    ("P\nDisplay:\nHi", 0, "Hi"),
    ("A 1 0=1\r\nP\r\nDisplay:\r\nHi\r\n", 1, "Hi"),
    ("P\nDisplay:\nP", 0, "P"),
    ("#P\nP\nDisplay:\nA 1 0=1\n", 0, "A 1 0=1"),
    ("A 1 \nA 2 \nP\n\nDisplay:\n?0=1?yes\nno // P\n", 2, "no"),
];

#[test]
fn all_behind_the_first_line_p_is_the_script(rt: HostRuntime) {
    for &(text, items, shown) in SCRIPTS {
        let is_shown = shows(rt.alloc(), text.as_bytes(), items, shown.as_bytes());
        assert!(rt; is_shown, "at {text}");
    }
}

// A set with an achievement, a leaderboard and a script with a lookup and a format.
const WHOLE: &str = "A 101 0xH00fe=3_d0xH0010=4_0xH0010=5S0xH0020=1S0xH0020=2\n\
    L 9 FRAMES STA:0xH0010=1_d0xH0010=0::CAN:0xH00fe=0::SUB:0xH0010=2_d0xH0010=1::VAL:M:0xH00fe=3\n\
    P\nLookup:Stage\n0=Title\n1-4=Forest\n*=Castle\n\n\
    Format:Pts\nFormatType=SCORE\n\n\
    Display:\n?0xH00fe=0?In the menu\n@Stage(0xH0010) with @Pts(0x 0030) points // stage and points\n";

// The MD5 of that file.
const WHOLE_DIGEST: [u8; 16] = [
    0x0a, 0xad, 0xc1, 0x4d, 0x38, 0xe8, 0x70, 0x4b, 0x2a, 0x74, 0x95, 0x0a, 0x27, 0x91, 0x3b, 0x31,
];

// The set has this many lookups, formats and lines.
fn has_sections(set: &Set, lookups: usize, formats: usize, lines: usize) -> bool {
    match &set.script {
        Some(script) => {
            script.lookups.len() == lookups
                && script.formats.len() == formats
                && script.lines.len() == lines
        }
        None => false,
    }
}

// The whole file has its items, conditions, digest and script.
fn is_whole(alloc: Global) -> bool {
    match parse_set(alloc, WHOLE.as_bytes()) {
        Ok(set) => {
            set.items.len() == 2
                && conditions(&set) == 14
                && set.digest == WHOLE_DIGEST
                && has_sections(&set, 1, 1, 2)
        }
        Err(_) => false,
    }
}

#[test]
fn items_script_and_digest_stand_in_a_set(rt: HostRuntime) {
    assert!(rt; is_whole(rt.alloc()));
}

// A macro between an escaped at sign and an escaped backslash.
const ESCAPES: &[Shown<'static>] = &[Shown::Text(b"@"), Shown::Macro(b"Foo"), Shown::Text(b"\\")];

// The file is a set whose only line is that.
fn reads_escapes(alloc: Global) -> bool {
    match parse_set(alloc, b"P\nDisplay:\n\\@@Foo(5)\\\\\n") {
        Ok(set) => has_sections(&set, 0, 0, 1) && script_ends_with(&set, ESCAPES),
        Err(_) => false,
    }
}

#[test]
fn escapes_and_macros_stand_in_a_line(rt: HostRuntime) {
    assert!(rt; reads_escapes(rt.alloc()));
}

// Whether a display line of this many macros is in a set of this many conditions.
fn are_macros(alloc: Global, macros: u32, count: u64) -> Result<bool, OutOfMemory> {
    let text = repeated(alloc, MACROS, b"@N(1)", macros, &[])?;
    Ok(counts(alloc, &text, 0, count))
}

// Whether a display line of this many macros is refused for them.
fn are_too_many_macros(alloc: Global, macros: u32) -> Result<bool, OutOfMemory> {
    let text = repeated(alloc, MACROS, b"@N(1)", macros, &[])?;
    let limit = SetRefused::Limit {
        which: Which::Macros,
        found: u64::from(macros),
    };
    Ok(is_refused(alloc, &text, limit))
}

// A file up to the macros of its last line.
const MACROS: &[u8] = b"P\nDisplay:\n?0=1?@N(1)\n";

#[test]
fn a_display_line_has_at_most_so_many_macros(rt: HostRuntime) -> Result<(), OutOfMemory> {
    assert!(rt; are_macros(rt.alloc(), 256, 258)? && are_too_many_macros(rt.alloc(), 257)?);
    Ok(())
}

// The file is a set, or is refused for its lookup text where that is too long.
fn is_judged(alloc: Global, text: &[u8], long: bool) -> bool {
    if long {
        let (which, found) = (Which::Lookup, 1_025);
        return is_refused(alloc, text, SetRefused::Limit { which, found });
    }
    counts(alloc, text, 0, 0)
}

// The same of a file with a lookup text of this many bytes after this front.
fn judges(alloc: Global, front: &[u8], count: u32, long: bool) -> Result<bool, OutOfMemory> {
    let text = repeated(alloc, front, b"x", count, b"\nDisplay:\nx")?;
    Ok(is_judged(alloc, &text, long))
}

// Fronts of files, how many bytes their lookup text has, and whether it is too long.
const LOOKUPS: &[(&str, u32, bool)] = &[
    ("P\nLookup:L\n0=a\n*=", 1_024, false),
    ("P\nLookup:L\n0=a\n*=", 1_025, true),
    ("P\nLookup:L\n*=a\n*=", 1_025, false),
    ("P\nFormat:L\nFormatType=SECS\nLookup:L\n0=", 1_025, false),
];

// The place of the first file that is judged otherwise.
fn other_lookup(alloc: Global, rows: &[(&str, u32, bool)]) -> Result<Option<usize>, OutOfMemory> {
    for (place, (front, count, long)) in rows.iter().enumerate() {
        if !judges(alloc, front.as_bytes(), *count, *long)? {
            return Ok(Some(place));
        }
    }
    Ok(None)
}

#[test]
fn a_kept_lookup_text_has_at_most_so_many_bytes(rt: HostRuntime) -> Result<(), OutOfMemory> {
    assert_eq!(rt; other_lookup(rt.alloc(), LOOKUPS)?, None);
    Ok(())
}

// A file of this many conditions more than two, of which one is in its script.
fn conditions_of_both(alloc: Global, more: u32) -> Result<Vec<u8>, OutOfMemory> {
    repeated(
        alloc,
        b"A 1 0=1",
        b"_0=1",
        more,
        b"\nP\nDisplay:\n@N(M:0=1)",
    )
}

// Whether it is a set of this many.
fn are_conditions(alloc: Global, more: u32, count: u64) -> Result<bool, OutOfMemory> {
    let text = conditions_of_both(alloc, more)?;
    Ok(counts(alloc, &text, 1, count))
}

// Whether it is refused for this many.
fn are_too_many_conditions(alloc: Global, more: u32, found: u64) -> Result<bool, OutOfMemory> {
    let text = conditions_of_both(alloc, more)?;
    let limit = SetRefused::Limit {
        which: Which::Conditions,
        found,
    };
    Ok(is_refused(alloc, &text, limit))
}

#[test]
fn conditions_of_items_and_script_are_counted_together(rt: HostRuntime) -> Result<(), OutOfMemory> {
    let most = are_conditions(rt.alloc(), 65_534, 65_536)?;
    let over = are_too_many_conditions(rt.alloc(), 65_535, 65_537)?;
    assert!(rt; most && over);
    Ok(())
}
