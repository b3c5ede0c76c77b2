//! The first long lookup text of a script.

use ra_richpresence::read_script;
use std::alloc::Global;

// A script, a limit, and the length of the first lookup text that is longer.
type Row = (&'static str, u64, Option<u64>);

// The length of the first lookup text of the script that is longer than the limit; nothing where
// the text is refused.
fn long_in(alloc: Global, text: &[u8], most: u64) -> Option<Option<u64>> {
    match read_script(alloc, text, most) {
        Ok(read) => Some(read.long),
        Err(_) => None,
    }
}

// The place of the first script that has another such length.
fn other_length(alloc: Global, rows: &[Row]) -> Option<usize> {
    for (place, (text, most, long)) in rows.iter().enumerate() {
        if long_in(alloc, text.as_bytes(), *most) != Some(*long) {
            return Some(place);
        }
    }
    None
}

// Scripts with a limit of three bytes.
const LONG: &[Row] = &[
    ("Display:\n@L(1)abcdefgh", 3, None),
    ("Lookup:L\n1=abc\n*=def\nDisplay:\nx", 3, None),
    ("Lookup:L\n1=abcd\nDisplay:\nx", 3, Some(4)),
    ("Lookup:L\n*=abcde\n1=abcd\nDisplay:\nx", 3, Some(5)),
    ("Lookup:L\n1=abcd\n*=abcde\nDisplay:\nx", 3, Some(4)),
    ("Lookup:L\n*=abc\n*=abcd\nDisplay:\nx", 3, None),
    ("Lookup:L\n*=\n*=abcd\n1=abcdef\nDisplay:\nx", 3, Some(6)),
    ("Lookup:L\n1=\\a\\b\\c // abc\nDisplay:\nx", 3, None),
    ("Lookup:L\n1=abc\\\nDisplay:\nx", 3, Some(4)),
    ("Display:\nx\nLookup:L\n1=abcd", 3, Some(4)),
];

#[test]
fn the_first_long_text_of_kept_lookups_is_told(rt: HostRuntime) {
    assert_eq!(rt; other_length(rt.alloc(), LONG), None);
}

// Scripts with lookups that are not kept, and the same.
const NOT_KEPT: &[Row] = &[
    (
        "Format:L\nFormatType=SECS\nLookup:L\n1=abcd\nDisplay:\nx",
        3,
        None,
    ),
    (
        "Lookup:L\n1=abcd\nFormat:L\nFormatType=SECS\nDisplay:\nx",
        3,
        Some(4),
    ),
    (
        "Lookup:L\n1=a\nLookup:L\n1=abcd\nLookup:M\n1=abcdef\nDisplay:\nx",
        3,
        Some(6),
    ),
    (
        "Lookup:M\n1=abcde\nDisplay:\nx\nLookup:L\n1=abcd\n",
        3,
        Some(5),
    ),
];

#[test]
fn lookups_that_are_not_kept_do_not_count(rt: HostRuntime) {
    assert_eq!(rt; other_length(rt.alloc(), NOT_KEPT), None);
}

// A script with several limits.
const LIMITS: &[Row] = &[
    ("Lookup:L\n*=ab\n1=abcd\nDisplay:\nx", 0, Some(2)),
    ("Lookup:L\n*=ab\n1=abcd\nDisplay:\nx", 1, Some(2)),
    ("Lookup:L\n*=ab\n1=abcd\nDisplay:\nx", 2, Some(4)),
    ("Lookup:L\n*=ab\n1=abcd\nDisplay:\nx", 3, Some(4)),
    ("Lookup:L\n*=ab\n1=abcd\nDisplay:\nx", 4, None),
];

#[test]
fn texts_up_to_the_limit_are_not_long(rt: HostRuntime) {
    let other = other_length(rt.alloc(), LIMITS);
    let refused = long_in(rt.alloc(), b"Lookup:L\n1=abcd", 3).is_none();
    assert!(rt; other.is_none() && refused);
}
