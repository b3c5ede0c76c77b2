//! How often a frame reads the image: docs/INTERNALS.md, "Marked and moved cells".

use crate::tables::steps::Step::{PutBack, Reads, Write, Writes};
use crate::tables::steps::{Step, other_step};
use crate::tables::{byte_cell, view, word_cell};
use ra_indirect::Node;
use ra_operand::{Kind, Size};
use ra_text::OutOfMemory;
use std::alloc::Global;
use std::test::Fail;

const WRITTEN_PAGES: &[Step<'static>] = &[
    Write(0, &[]),
    Reads(2),
    Write(0x11, &[]),
    Reads(0),
    Write(0x20, &[1]),
    Reads(1),
    Write(0x11, &[1]),
    Reads(2),
    Write(0x11, &[]),
    Reads(0),
    Write(0x0f, &[1]),
    Reads(0),
    Write(0x30, &[1]),
    Reads(0),
    Write(0x0f, &[1, 1]),
    Reads(2),
    Write(0x2f, &[1, 1]),
    Reads(1),
    Write(0, &[1; 64]),
    Reads(2),
];

#[test]
fn a_frame_reads_the_cells_of_written_pages(rt: HostRuntime) -> Result<(), Fail> {
    let nodes = [Node::Const(0), byte_cell(0, 0x10), word_cell(0, 0x1e)];
    assert_eq!(rt; other_step(rt.alloc(), 64, &nodes, WRITTEN_PAGES)?, None);
    Ok(())
}

const MOVED: &[Step<'static>] = &[
    Write(0x10, &[0x20]),
    Reads(2),
    Write(0x10, &[0x30]),
    Reads(2),
    Write(0x34, &[7]),
    Reads(1),
    Write(0x24, &[7]),
    Reads(0),
    Write(0x10, &[0x30]),
    Reads(1),
    Write(0x10, &[0xff]),
    Reads(2),
    Write(0x34, &[8]),
    Reads(0),
];

#[test]
fn a_moved_cell_watches_its_new_page(rt: HostRuntime) -> Result<(), Fail> {
    let nodes = [
        Node::Const(0),
        word_cell(0, 0x10),
        view(Kind::Mem, Size::Four, 1),
        byte_cell(2, 4),
    ];
    assert_eq!(rt; other_step(rt.alloc(), 64, &nodes, MOVED)?, None);
    Ok(())
}

const CUT_PAGE: &[Step<'static>] = &[
    Write(0, &[1]),
    Reads(3),
    Write(16, &[1]),
    Reads(1),
    Write(0, &[1]),
    Reads(1),
    Write(17, &[1]),
    Reads(0),
];

#[test]
fn the_last_page_may_be_cut(rt: HostRuntime) -> Result<(), Fail> {
    let nodes = [
        Node::Const(0),
        word_cell(0, 15),
        byte_cell(0, 20),
        word_cell(0, 0xffff_fffe),
    ];
    assert_eq!(rt; other_step(rt.alloc(), 17, &nodes, CUT_PAGE)?, None);
    Ok(())
}

const PUT_BACK: &[Step<'static>] = &[
    PutBack(&[], false),
    Reads(2),
    PutBack(&[], false),
    Reads(0),
    PutBack(&[0; 8], true),
    Reads(2),
    PutBack(&[0; 7], false),
    Reads(0),
];

#[test]
fn a_put_back_marks_every_cell(rt: HostRuntime) -> Result<(), Fail> {
    let nodes = [Node::Const(0), byte_cell(0, 0x10), word_cell(0, 0x1e)];
    assert_eq!(rt; other_step(rt.alloc(), 64, &nodes, PUT_BACK)?, None);
    Ok(())
}

// A byte of each of 65,536 pages.
fn cells_of_pages(alloc: Global) -> Result<Vec<Node>, OutOfMemory> {
    let mut nodes = vec![in alloc; Node::Const(0); 1]?;
    for page in 0..65_536 {
        nodes.push(byte_cell(0, 16 * page))?;
    }
    Ok(nodes)
}

const MANY_WRITES: &[Step<'static>] = &[Reads(65_536), Writes(0x1f_0000, 67_108_864), Reads(0)];

#[test]
fn many_writes_mark_no_cell_of_another_page(rt: HostRuntime) -> Result<(), Fail> {
    let nodes = cells_of_pages(rt.alloc())?;
    assert_eq!(rt;
        other_step(rt.alloc(), 0x20_0000, &nodes, MANY_WRITES)?,
        None
    );
    Ok(())
}
