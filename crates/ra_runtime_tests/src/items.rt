//! Lines of achievements and leaderboards, and the shape of a set.

use crate::played::set_of;
use crate::steps::Step::{At, Shape};
use crate::steps::{Row, other_row, put_shape};
use ra_runtime::shape_of;
use std::alloc::Global;
use std::test::Fail;

const BOTH: &str = "A 1 0xH0010=5
L 2 VALUE STA:0xH0010=5::CAN:0xH0010=9::SUB:0xH0010=7::VAL:0xH0010
";

const BOTH_LINES: &str = "unlock 1 1
start 1 2
track 1 2 5
track 2 2 6
submit 3 2 7 7
start 5 2
track 5 2 5
cancel 6 2
";

const BOTH_SHAPE: &str = "cells 1 priors 0
Achievement { hits: 1 }
Leaderboard { hits: 3, parts: 1 }
None
";

fn has_shape(alloc: Global, file: &str, wanted: &[u8]) -> Result<bool, Fail> {
    let mut out = Vec::new(alloc);
    put_shape_of(alloc, file, &mut out)?;
    Ok(out.as_slice() == wanted)
}

fn put_shape_of(alloc: Global, file: &str, out: &mut Vec<u8>) -> Result<(), Fail> {
    let set = set_of(alloc, file)?;
    let shape = shape_of(alloc, &set)?;
    put_shape(alloc, &shape, out)?;
    Ok(())
}

#[test]
fn a_set_has_its_shape_before_it_is_played(rt: HostRuntime) -> Result<(), Fail> {
    assert!(rt; has_shape(rt.alloc(), BOTH, BOTH_SHAPE.as_bytes())?);
    Ok(())
}

const ROWS: &[Row] = &[
    (
        "items_print_in_set_order",
        BOTH,
        &[At(0), At(5), At(6), At(7), At(0), At(5), At(9)],
        BOTH_LINES,
    ),
    ("a_byte_is_one_cell", BOTH, &[Shape], BOTH_SHAPE),
];

#[test]
fn lines_and_shapes_stand_in_set_order(rt: HostRuntime) -> Result<(), Fail> {
    assert_eq!(rt; other_row(rt.alloc(), "", ROWS)?, None);
    Ok(())
}
