//! Names of items and scripts.

use ra_set::parse_set;
use std::alloc::Global;

// The MD5 of `A 1 0xH0010=5.3.`.
const THREE_HITS: [u8; 16] = [
    0x79, 0x8a, 0x55, 0xfc, 0x59, 0x9d, 0x9d, 0x9b, 0x40, 0x6c, 0x25, 0xa6, 0x42, 0xfa, 0x8a, 0x9a,
];
// The MD5 of `A 7 0xH10=5`.
const FIVE: [u8; 16] = [
    0x08, 0xb9, 0x3f, 0x55, 0x69, 0x07, 0xed, 0xd9, 0x5f, 0xd8, 0x1b, 0x15, 0x5a, 0x8c, 0x92, 0x69,
];
// The MD5 of `L 8 SCORE STA:0=1::CAN:0=2::SUB:0=3::VAL:4`.
const SCORES: [u8; 16] = [
    0x9d, 0x80, 0x9d, 0x83, 0xfb, 0x25, 0x1d, 0x03, 0x71, 0x86, 0xca, 0xac, 0x4a, 0xc4, 0xcb, 0x27,
];
// The MD5 of a board whose format name has two CRs inside.
const RETURNS_INSIDE: [u8; 16] = [
    0x5d, 0x59, 0xe3, 0xe5, 0x83, 0xb0, 0x7b, 0x5e, 0xdc, 0xfc, 0x32, 0x1a, 0x51, 0x46, 0xc1, 0x7a,
];
// The MD5 of the lines `Display:` and `Hi`, the first with an LF, the other without an end.
const GREETING: [u8; 16] = [
    0xd2, 0xc0, 0x3d, 0xbf, 0xe8, 0x39, 0x43, 0x97, 0xa5, 0x41, 0x61, 0xb2, 0xdd, 0x5a, 0x13, 0x29,
];
// The MD5 of the same lines, each with CR LF.
const GREETING_ENDED: [u8; 16] = [
    0x44, 0xc6, 0x6d, 0xa8, 0xee, 0x1a, 0x34, 0x49, 0xfd, 0xc5, 0xf2, 0x27, 0x93, 0xae, 0x73, 0xa2,
];
// The MD5 of the lines `Display:` and `A 7 0xH10=5`, each with an LF.
const ITEM_SHOWN: [u8; 16] = [
    0xb6, 0xb0, 0xc3, 0xa7, 0x58, 0xa6, 0x22, 0x81, 0x82, 0xa2, 0xbc, 0xd0, 0x2a, 0x02, 0xdd, 0xc2,
];

// The file is a set whose items have these names, and whose script has this one.
fn has_names(alloc: Global, text: &str, items: &[[u8; 16]], script: Option<[u8; 16]>) -> bool {
    match parse_set(alloc, text.as_bytes()) {
        Ok(set) => *set.item_names == *items && set.script_name == script,
        Err(_) => false,
    }
}

#[test]
fn a_line_has_one_name_with_any_end(rt: HostRuntime) {
    for text in [
        "A 1 0xH0010=5.3.\n",
        "A 1 0xH0010=5.3.\r\n",
        "A 1 0xH0010=5.3.",
    ] {
        assert!(rt;
            has_names(rt.alloc(), text, &[THREE_HITS], None),
            "at {text}"
        );
    }
}

#[test]
fn names_are_those_of_the_lines_of_items(rt: HostRuntime) {
    let text = "#A 1 \n\r\nA 7 0xH10=5\r\n#P\nL 8 SCORE STA:0=1::CAN:0=2::SUB:0=3::VAL:4";
    assert!(rt; has_names(rt.alloc(), text, &[FIVE, SCORES], None));
}

#[test]
fn a_return_inside_a_line_stays_in_its_text(rt: HostRuntime) {
    let text = "L 1 A\r\rB STA:::CAN:::SUB:::VAL:1\r\n";
    assert!(rt; has_names(rt.alloc(), text, &[RETURNS_INSIDE], None));
}

#[test]
fn a_script_has_the_name_of_all_behind_its_line(rt: HostRuntime) {
    for (text, name) in [
        ("P\nDisplay:\nHi", GREETING),
        ("P\r\nDisplay:\nHi", GREETING),
        ("P\nDisplay:\r\nHi\r\n", GREETING_ENDED),
        ("#\nP\nDisplay:\nA 7 0xH10=5\n", ITEM_SHOWN),
    ] {
        assert!(rt; has_names(rt.alloc(), text, &[], Some(name)), "at {text}");
    }
}

#[test]
fn items_stand_before_the_script(rt: HostRuntime) {
    let text = "A 7 0xH10=5\r\nP\r\nDisplay:\nHi";
    assert!(rt; has_names(rt.alloc(), text, &[FIVE], Some(GREETING)));
}
