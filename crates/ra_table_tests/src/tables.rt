//! Tables over frames, from the rules.

mod machine;
mod reads;
mod steps;

use crate::pools::pool_of;
use crate::tables::steps::Step::{
    Cells, Changed, Frame, Priors, PutBack, PutCell, PutPrior, Write,
};
use crate::tables::steps::{Step, other_step};
use ra_indirect::Node;
use ra_memref::names_of;
use ra_operand::{Kind, Op, Size};
use std::alloc::Global;
use std::test::Fail;

// Whether the cells and the tracked masks of these nodes have these names.
fn are_named(
    alloc: Global,
    nodes: &[Node],
    cells: &[[u8; 16]],
    priors: &[[u8; 16]],
) -> Result<bool, Fail> {
    let pool = pool_of(alloc, nodes)?;
    let names = names_of(alloc, &pool)?;
    Ok(names.cells.as_slice() == cells && names.priors.as_slice() == priors)
}

fn byte_cell(pointer: u32, offset: u32) -> Node {
    Node::Cell {
        pointer,
        offset,
        width: 1,
    }
}

fn word_cell(pointer: u32, offset: u32) -> Node {
    Node::Cell {
        pointer,
        offset,
        width: 4,
    }
}

fn view(kind: Kind, size: Size, cell: u32) -> Node {
    Node::View { kind, size, cell }
}

const MASKS: &[Step<'static>] = &[
    Write(0x10, &[1]),
    Frame(&[0, 0, 0, 0, 0, 0]),
    Cells(&[1]),
    Priors(&[0, 0, 0]),
    Write(0x10, &[3]),
    Frame(&[0, 0, 0, 0, 1, 1]),
    Cells(&[3]),
    Priors(&[0, 0, 1]),
    Write(0x10, &[2]),
    Frame(&[0, 0, 1, 0, 3, 2]),
    Cells(&[2]),
    Priors(&[1, 0, 3]),
    Write(0x10, &[2]),
    Frame(&[0, 0, 1, 0, 3, 2]),
    Cells(&[2]),
    Priors(&[1, 0, 3]),
];

#[test]
fn each_mask_has_a_prior_of_its_own(rt: HostRuntime) -> Result<(), Fail> {
    let nodes = [
        Node::Const(0),
        byte_cell(0, 0x10),
        view(Kind::Prior, Size::Bit0, 1),
        view(Kind::Prior, Size::Bit1, 1),
        view(Kind::Prior, Size::Byte, 1),
        view(Kind::Prior, Size::Count, 1),
        view(Kind::Prior, Size::Bit0, 1),
    ];
    assert_eq!(rt; other_step(rt.alloc(), 64, &nodes, MASKS)?, None);
    Ok(())
}

// Where many nodes change they are taken in order, and those that changed are listed all the same.
const DELTAS: &[Step<'static>] = &[
    Write(0x24, &[7]),
    Write(0x34, &[9]),
    Write(0x10, &[0x20]),
    Frame(&[0, 0, 0x20, 0, 0]),
    Cells(&[0x20, 7]),
    Changed(&[1, 2, 3]),
    Write(0x10, &[0x30]),
    Frame(&[0, 0, 0x30, 0, 7]),
    Cells(&[0x30, 9]),
    Changed(&[1, 2, 3, 4]),
    Write(0x10, &[0x30]),
    Frame(&[0, 0, 0x30, 0, 9]),
    Cells(&[0x30, 9]),
    Changed(&[4]),
];

#[test]
fn a_delta_is_what_the_old_pointer_gave(rt: HostRuntime) -> Result<(), Fail> {
    let nodes = [
        Node::Const(0),
        word_cell(0, 0x10),
        view(Kind::Mem, Size::Four, 1),
        byte_cell(2, 4),
        view(Kind::Delta, Size::Byte, 3),
    ];
    assert_eq!(rt; other_step(rt.alloc(), 64, &nodes, DELTAS)?, None);
    Ok(())
}

const WRAPPED: &[Step<'static>] = &[
    Write(0, &[0xf8, 0xff, 0xff, 0xff]),
    Write(8, &[7]),
    Write(0x3e, &[1, 2]),
    Frame(&[0, 0, 0xffff_fff8, 0, 7, 0, 0x0102_0000]),
    Cells(&[0xffff_fff8, 7, 513]),
];

#[test]
fn a_pointer_wraps_and_the_end_is_zeros(rt: HostRuntime) -> Result<(), Fail> {
    let nodes = [
        Node::Const(0),
        word_cell(0, 0),
        view(Kind::Mem, Size::Four, 1),
        byte_cell(2, 0x10),
        view(Kind::Mem, Size::Byte, 3),
        word_cell(0, 0x3e),
        view(Kind::Mem, Size::FourBig, 5),
    ];
    assert_eq!(rt; other_step(rt.alloc(), 64, &nodes, WRAPPED)?, None);
    Ok(())
}

// A cell, its delta and a prior of one of its masks.
fn byte_nodes() -> [Node; 4] {
    [
        Node::Const(0),
        byte_cell(0, 0x10),
        view(Kind::Delta, Size::Byte, 1),
        view(Kind::Prior, Size::Bit0, 1),
    ]
}

const NUMBERS_BACK: &[Step<'static>] = &[
    PutBack(&[0xff, 0xff, 0xff, 0xff, 0x78, 0x56, 0x34, 0x12], true),
    PutBack(&[0xff, 0xff, 0xff, 0x78, 0x56, 0x34, 0x12], false),
    Cells(&[0xffff_ffff]),
    Priors(&[0x1234_5678]),
    Frame(&[0, 0, 255, 1]),
    Priors(&[1]),
];

#[test]
fn kept_numbers_are_put_back(rt: HostRuntime) -> Result<(), Fail> {
    assert_eq!(rt;
        other_step(rt.alloc(), 64, &byte_nodes(), NUMBERS_BACK)?,
        None
    );
    Ok(())
}

const NUMBERS_PUT: &[Step<'static>] = &[
    PutCell(0, 0x0102, true),
    PutPrior(0, 9, true),
    PutCell(1, 3, false),
    PutPrior(1, 3, false),
    Cells(&[0x0102]),
    Priors(&[9]),
    Frame(&[0, 0, 2, 1]),
    Cells(&[0]),
];

#[test]
fn a_kept_number_is_put(rt: HostRuntime) -> Result<(), Fail> {
    assert_eq!(rt;
        other_step(rt.alloc(), 64, &byte_nodes(), NUMBERS_PUT)?,
        None
    );
    Ok(())
}

const CELL_NAMES: &[[u8; 16]] = &[
    [
        0x59, 0x74, 0x9b, 0xd5, 0xca, 0x8a, 0xbe, 0x76, 0x8e, 0xb1, 0x37, 0x06, 0x1a, 0x4f, 0x30,
        0xc6,
    ],
    [
        0xb7, 0xe5, 0xc2, 0xad, 0xb3, 0xd9, 0x79, 0xce, 0x67, 0xa8, 0xcc, 0x65, 0x3e, 0x6e, 0x80,
        0x5d,
    ],
    [
        0x66, 0x27, 0x06, 0xd9, 0xcb, 0x9f, 0x5c, 0x0d, 0x62, 0x73, 0x9f, 0x6c, 0x5e, 0x61, 0x92,
        0xcf,
    ],
    [
        0x30, 0x6a, 0xb5, 0x10, 0x4a, 0x0b, 0x6b, 0xd9, 0xfb, 0xe2, 0xcf, 0xdf, 0xf5, 0x0e, 0xfa,
        0x27,
    ],
    [
        0x10, 0xba, 0xf5, 0xad, 0x11, 0xb7, 0x15, 0xdf, 0xaf, 0xca, 0x92, 0xab, 0x79, 0xa3, 0x11,
        0x20,
    ],
    [
        0x84, 0x96, 0x00, 0xf9, 0xd4, 0xd7, 0x34, 0xaf, 0x30, 0xc1, 0xe4, 0x4c, 0x21, 0xab, 0x18,
        0xcd,
    ],
];

const PRIOR_NAMES: &[[u8; 16]] = &[
    [
        0x5c, 0x39, 0xf2, 0xd4, 0x32, 0xb3, 0x8d, 0xe1, 0x40, 0xc5, 0xdd, 0x6e, 0xdd, 0x90, 0x71,
        0xc0,
    ],
    [
        0x9a, 0x54, 0xcc, 0xe3, 0xd7, 0x57, 0x76, 0x82, 0x32, 0x11, 0xf3, 0x74, 0xd4, 0xf9, 0x77,
        0xa0,
    ],
];

#[test]
fn names_are_digests_of_trees(rt: HostRuntime) -> Result<(), Fail> {
    let nodes = [
        Node::Const(0),
        byte_cell(0, 0x10),
        view(Kind::Mem, Size::Byte, 1),
        byte_cell(2, 0x20),
        word_cell(0, 0),
        view(Kind::Mem, Size::Four, 4),
        byte_cell(5, 0x10),
        Node::Arith {
            op: Op::Add,
            left: 5,
            right: 2,
        },
        byte_cell(7, 0x20),
        view(Kind::Delta, Size::FourBig, 4),
        byte_cell(9, 0x20),
        view(Kind::Prior, Size::Bit0, 1),
        view(Kind::Prior, Size::Byte, 1),
        view(Kind::Prior, Size::Count, 1),
    ];
    assert!(rt; are_named(rt.alloc(), &nodes, CELL_NAMES, PRIOR_NAMES)?);
    Ok(())
}
