//! Documents of which too much is left, and one that is too long. What is left of others is shown by runs of the programs.

use ra_patch::{DocumentRefused, left_of};
use ra_set::{SetRefused, Which, parse_set};
use std::alloc::Global;
use std::test::Fail;

// The document of this many achievements with an empty trigger, and one more that is left out.
fn achievements(alloc: Global, count: u32) -> Result<String, Fail> {
    let mut document = String::from_str(alloc, "{\"Achievements\":[")?;
    for id in 0..count {
        write!(document, "{{\"ID\":{id},\"MemAddr\":\"\"}},")?;
    }
    document.push_str("{\"ID\":0,\"MemAddr\":\"\"}]}")?;
    Ok(document)
}

// Why the set file that is left of a document is refused; none where nothing is left or another
// count of items is left out.
fn limit(alloc: Global, document: &[u8], out: usize) -> Option<SetRefused> {
    match left_of(alloc, document) {
        Ok(left) => {
            if left.left_out.len() == out {
                parse_set(alloc, &left.text).err()
            } else {
                None
            }
        }
        Err(_) => None,
    }
}

#[test]
fn what_is_left_may_pass_a_limit(rt: HostRuntime) -> Result<(), Fail> {
    let document = achievements(rt.alloc(), 16_385)?;
    let why = SetRefused::Limit {
        which: Which::Items,
        found: 16_385,
    };
    assert_eq!(rt; limit(rt.alloc(), document.as_bytes(), 1), Some(why));
    Ok(())
}

#[test]
fn a_document_of_too_many_bytes_leaves_nothing(rt: HostRuntime) -> Result<(), Fail> {
    let document = vec![in rt.alloc(); b' '; 16_777_217]?;
    let why = DocumentRefused::Bytes { found: 16_777_217 };
    assert_eq!(rt; left_of(rt.alloc(), &document).err(), Some(why));
    Ok(())
}
