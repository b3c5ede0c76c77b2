//! Set files by their lines, and the limits of a set.

use crate::reading::{Reader, counts, is_refused, other_refusal, repeated};
use ra_condition::TriggerText;
use ra_operand::Operand;
use ra_set::{Item, SetRefused, Which, conditions, parse_set};
use ra_text::OutOfMemory;
use ra_value_format::Format;
use std::alloc::Global;
use std::fmt::Write;
use std::test::Fail;

// Texts that are no set file, and their first bad place.
const NO_FILES: &[(&str, usize)] = &[
    ("A 1 0xH10=5.3\n", 13),
    ("\r", 1),
    ("\r\r\n", 1),
    ("A 1\n", 3),
    ("a 1 ", 0),
    ("A  1 ", 2),
    ("A 1  0=1", 4),
    ("A 01 ", 3),
    ("A -1 ", 2),
    ("A 4294967296 0=1", 11),
    ("A 42949672950 0=1", 12),
    ("A 1 0=1 ", 7),
    ("A 1 0=1\r\r\n", 8),
    ("A 1 0=1\r", 8),
    ("A 1 0=1\rX", 8),
    ("A 1 0=1\nX", 8),
    ("L 5 \n", 4),
    ("L 5  STA", 4),
    ("L 5 A\r\n", 6),
    ("L 5 VALUE", 9),
    ("L 5 VALUE STA:0=1::CAN:0=1\n", 26),
    ("# A\r\n\nX", 6),
    (" P", 0),
];

#[test]
fn files_are_refused_at_the_first_bad_place(rt: HostRuntime) {
    assert_eq!(rt; other_refusal(rt.alloc(), Reader::Set, NO_FILES), None);
}

#[test]
fn a_bad_place_behind_a_repeat_is_told(rt: HostRuntime) {
    let text = b"A 1 0=1\nA 1 0=1\nA 01 ";
    assert!(rt; is_refused(rt.alloc(), text, SetRefused::Syntax { at: 19 }));
}

// Files that repeat an id, the id, and the line that does.
const REPEATS: &[(&str, u32, u32)] = &[
    ("A 1 0=1\nA 1 0=1\n", 1, 2),
    ("A 2 \nA 1 \nA 1 \nA 2 ", 1, 3),
    (
        "#\nA 5 \n\nL 5 VALUE STA:::CAN:::SUB:::VAL:1\nA 6 \n#\r\nA 5 ",
        5,
        7,
    ),
    (
        "A 5 \nL 5 A STA:::CAN:::SUB:::VAL:1\r\nL 5 B STA:::CAN:::SUB:::VAL:2",
        5,
        3,
    ),
];

#[test]
fn the_first_line_that_repeats_an_id_is_told(rt: HostRuntime) {
    for &(text, id, line) in REPEATS {
        let again = SetRefused::DuplicateId { id, line };
        assert!(rt; is_refused(rt.alloc(), text.as_bytes(), again), "at {text}");
    }
}

// Files, how many items they have, and how many conditions.
const FILES: &[(&str, usize, u64)] = &[
    ("", 0, 0),
    ("\n\r\n\n", 0, 0),
    ("#\rA\r", 0, 0),
    ("A 1 \n", 1, 0),
    ("A 0 0=1\r\nA 4294967295 0=1S0=1", 2, 3),
    (
        "A 101 0xH00fe=3_d0xH0010=4_0xH0010=5S0xH0020=1S0xH0020=2\nL 9 FRAMES STA:0xH0010=1_d0xH0010=0::CAN:0xH00fe=0::SUB:0xH0010=2_d0xH0010=1::VAL:M:0xH00fe=3\n",
        2,
        11,
    ),
    ("L 1 \r\r STA:::CAN:::SUB:::VAL:1*2_3$4::PRO:M:5", 1, 4),
];

// The file is a set of this many items and conditions, and without a script.
fn has_items(alloc: Global, text: &str, items: usize, count: u64) -> bool {
    match parse_set(alloc, text.as_bytes()) {
        Ok(set) => set.items.len() == items && conditions(&set) == count && set.script.is_none(),
        Err(_) => false,
    }
}

#[test]
fn files_have_their_items(rt: HostRuntime) {
    for &(text, items, count) in FILES {
        assert!(rt; has_items(rt.alloc(), text, items, count), "at {text}");
    }
}

// The right operand of the first condition.
fn first_right(trigger: &TriggerText) -> Option<Operand> {
    trigger
        .core
        .conditions
        .first()
        .map(|condition| condition.right)
}

// The item is that of the second line of the file below.
fn is_achievement(item: &Item) -> bool {
    match item {
        Item::Achievement { id, text } => *id == 7 && first_right(text) == Some(Operand::Const(5)),
        Item::Leaderboard { .. } => false,
    }
}

// The item is that of the last line of the file below.
fn is_leaderboard(item: &Item) -> bool {
    match item {
        Item::Achievement { .. } => false,
        Item::Leaderboard { id, format, text } => {
            (*id, *format) == (8, Format::Score)
                && first_right(&text.start) == Some(Operand::Const(1))
                && first_right(&text.cancel) == Some(Operand::Const(2))
                && first_right(&text.submit) == Some(Operand::Const(3))
                && text.value.parts.len() == 1
                && text.progress.is_none()
        }
    }
}

// The items of a file with an achievement and a leaderboard are those of its lines.
fn has_both(alloc: Global) -> bool {
    let text = b"# two\r\nA 7 0xH10=5\n\nL 8 SCORE STA:0=1::CAN:0=2::SUB:0=3::VAL:4\r\n";
    let Ok(set) = parse_set(alloc, text) else {
        return false;
    };
    match set.items.as_slice() {
        [first, second] => is_achievement(first) && is_leaderboard(second),
        _ => false,
    }
}

#[test]
fn items_are_those_of_their_lines(rt: HostRuntime) {
    assert!(rt; has_both(rt.alloc()));
}

// Files, and their digests.
const DIGESTS: &[(&str, [u8; 16])] = &[
    (
        "",
        [
            0xd4, 0x1d, 0x8c, 0xd9, 0x8f, 0x00, 0xb2, 0x04, 0xe9, 0x80, 0x09, 0x98, 0xec, 0xf8,
            0x42, 0x7e,
        ],
    ),
    (
        "A 1 0xH0010=5.3.\n",
        [
            0x95, 0xc3, 0x20, 0x26, 0xa3, 0xa7, 0xb6, 0xfc, 0x1a, 0xa5, 0x3d, 0x35, 0x5d, 0x82,
            0xba, 0x02,
        ],
    ),
];

// The file is a set with this digest.
fn has_digest(alloc: Global, text: &str, digest: [u8; 16]) -> bool {
    match parse_set(alloc, text.as_bytes()) {
        Ok(set) => set.digest == digest,
        Err(_) => false,
    }
}

#[test]
fn a_digest_is_that_of_all_bytes(rt: HostRuntime) {
    for &(text, digest) in DIGESTS {
        assert!(rt; has_digest(rt.alloc(), text, digest), "at {text}");
    }
}

// The file is refused since it passes this limit.
fn passes(alloc: Global, text: &[u8], which: Which, found: u64) -> bool {
    is_refused(alloc, text, SetRefused::Limit { which, found })
}

#[test]
fn a_set_has_at_most_so_many_bytes(rt: HostRuntime) -> Result<(), Fail> {
    let bytes = vec![in rt.alloc(); b'#'; 4_194_305]?;
    let over = passes(rt.alloc(), &bytes, Which::Bytes, 4_194_305);
    let most = counts(rt.alloc(), &bytes[1..], 0, 0);
    assert!(rt; over && most);
    Ok(())
}

// A file of this many achievements with an empty trigger.
fn achievements(alloc: Global, count: u32) -> Result<String, Fail> {
    let mut text = String::new(alloc);
    for id in 0..count {
        write!(text, "A {id} \n")?;
    }
    Ok(text)
}

// Whether this many achievements are a set.
fn are_a_set(alloc: Global, count: u32) -> Result<bool, Fail> {
    let text = achievements(alloc, count)?;
    Ok(counts(alloc, text.as_bytes(), count as usize, 0))
}

// Whether this many achievements are too many.
fn are_too_many(alloc: Global, count: u32) -> Result<bool, Fail> {
    let text = achievements(alloc, count)?;
    Ok(passes(alloc, text.as_bytes(), Which::Items, u64::from(count)))
}

#[test]
fn a_set_has_at_most_so_many_items(rt: HostRuntime) -> Result<(), Fail> {
    assert!(rt; are_a_set(rt.alloc(), 16_384)? && are_too_many(rt.alloc(), 16_385)?);
    Ok(())
}

// Whether this many achievements are refused since a line after them repeats an id.
fn are_repeated(alloc: Global, count: u32, id: u32, line: u32) -> Result<bool, Fail> {
    let mut text = achievements(alloc, count)?;
    write!(text, "A {id} ")?;
    let again = SetRefused::DuplicateId { id, line };
    Ok(is_refused(alloc, text.as_bytes(), again))
}

#[test]
fn a_repeated_id_is_told_before_too_many_items(rt: HostRuntime) -> Result<(), Fail> {
    assert!(rt; are_repeated(rt.alloc(), 16_385, 3, 16_386)?);
    Ok(())
}

// A file of an achievement of this many conditions more than one, and what follows it.
fn conditions_of_one(alloc: Global, more: u32, end: &[u8]) -> Result<Vec<u8>, OutOfMemory> {
    repeated(alloc, b"A 1 0=1", b"_0=1", more, end)
}

// Whether an achievement of this many conditions more than one is a set of this many.
fn are_conditions(alloc: Global, more: u32, count: u64) -> Result<bool, OutOfMemory> {
    let text = conditions_of_one(alloc, more, &[])?;
    Ok(counts(alloc, &text, 1, count))
}

// Whether it is refused for this many with one condition more in the next line.
fn are_too_many_conditions(alloc: Global, more: u32, found: u64) -> Result<bool, OutOfMemory> {
    let text = conditions_of_one(alloc, more, b"\nA 2 0=1")?;
    Ok(passes(alloc, &text, Which::Conditions, found))
}

#[test]
fn a_set_has_at_most_so_many_conditions(rt: HostRuntime) -> Result<(), OutOfMemory> {
    let most = are_conditions(rt.alloc(), 65_535, 65_536)?;
    let over = are_too_many_conditions(rt.alloc(), 65_535, 65_537)?;
    assert!(rt; most && over);
    Ok(())
}
