//! What is left of documents without their unofficial achievements.

use ra_patch::official_of;
use std::alloc::Global;

// A document, the set file that is left of it, and how many things are left out.
type Row = (&'static str, &'static str, usize);

// An unofficial achievement takes no id, whatever is wrong with it. Any other flags, or none, are those of an official
// one, whose id is taken. A leaderboard has no flags.
const ROWS: &[Row] = &[
    (
        "{\"Achievements\":[{\"ID\":1,\"MemAddr\":\"0=1\",\"Flags\":5},{\"ID\":1,\"MemAddr\":\"0=2\",\"Flags\":3},\
        {\"ID\":\"x\",\"Flags\":5}]}",
        "A 1 0=2\n",
        2,
    ),
    (
        "{\"Achievements\":[{\"ID\":1,\"MemAddr\":\"0=1\",\"Flags\":\"5\"},{\"ID\":2,\"MemAddr\":\"0=2\"},\
        {\"ID\":2,\"MemAddr\":\"0=3\",\"Flags\":4}]}",
        "A 1 0=1\nA 2 0=2\n",
        1,
    ),
    (
        "{\"Sets\":[{\"Achievements\":[{\"ID\":1,\"MemAddr\":\"0=1\",\"Flags\":5}],\"Leaderboards\":[{\"ID\":9,\
        \"Mem\":\"STA:0=1::CAN:0=1::SUB:0=1::VAL:0xH0001\",\"Format\":\"VALUE\",\"Flags\":5}]},\
        {\"Achievements\":[{\"ID\":1,\"MemAddr\":\"0=4\"}]}]}",
        "A 1 0=4\nL 9 VALUE STA:0=1::CAN:0=1::SUB:0=1::VAL:0xH0001\n",
        1,
    ),
];

// Whether this is left of the document.
fn leaves(alloc: Global, document: &str, text: &str, left_out: usize) -> bool {
    match official_of(alloc, document.as_bytes()) {
        Ok(left) => left.text.as_slice() == text.as_bytes() && left.left_out == left_out,
        Err(_) => false,
    }
}

// The place of the first document of which something else is left, or none.
fn other_left(alloc: Global, rows: &[Row]) -> Option<usize> {
    for (place, (document, text, left_out)) in rows.iter().enumerate() {
        if !leaves(alloc, *document, *text, *left_out) {
            return Some(place);
        }
    }
    None
}

#[test]
fn official_items_are_left_of_documents(rt: HostRuntime) {
    assert_eq!(rt; other_left(rt.alloc(), ROWS), None);
}
