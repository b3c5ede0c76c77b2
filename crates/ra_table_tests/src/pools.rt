//! Pools of nodes, by hand: docs/DEFINITIONS.md, "Trees, cells and tracked masks".

ghost use Rattle.std.specs.Prelude.{◌≡◌, ◌<◌, ◌^◌, length, IfOk, IsTrue};
ghost use Rattle.ra_indirect.specs.Pools.{MayFollow, IsValued, IsCellOf, node_at};

use ra_indirect::{Node, Pool};
use ra_operand::{Kind, Op, Size, width};
use ra_text::OutOfMemory;
use std::alloc::Global;
use std::test::Fail;

/// Whether a node is there, and has a value.
pub(crate) fn is_valued(pool: &Pool, number: u32) -> bool
    ensures within { IsTrue result → number < length pool.now }
    ensures valued { IsTrue result → IsValued (node_at pool.now number) }
{
    if number >= pool.len() {
        return false;
    }
    match pool.node(number) {
        Node::Cell { .. } => false,
        Node::Const(_) | Node::View { .. } | Node::Arith { .. } => true,
    }
}

fn is_cell_of(pool: &Pool, number: u32, wanted: u8) -> bool
    ensures within { IsTrue result → number < length pool.now }
    ensures cell { IsTrue result → IsCellOf wanted (node_at pool.now number) }
{
    if number >= pool.len() {
        return false;
    }
    match pool.node(number) {
        Node::Cell { width, .. } => width == wanted,
        Node::Const(_) | Node::View { .. } | Node::Arith { .. } => false,
    }
}

/// A node that may follow, of those that the tables have.
pub(crate) fn may_follow(pool: &Pool, node: Node) -> bool
    ensures { IsTrue result → MayFollow pool.now node }
{
    match node {
        Node::Const(_) => true,
        Node::Cell { pointer, width, .. } => {
            (width == 1 || width == 2 || width == 4) && is_valued(pool, pointer)
        }
        Node::View { size, cell, .. } => is_cell_of(pool, cell, width(size)),
        Node::Arith { op, left, right } => match op {
            Op::Add => is_valued(pool, left) && is_valued(pool, right),
            _ => false,
        },
    }
}

/// A pool of these nodes.
pub(crate) fn pool_of(alloc: Global, nodes: &[Node]) -> Result<Pool, Fail>
    ensures { IfOk result (λ pool. length pool < 2 ^ 30) }
{
    let mut pool = Pool::new(alloc);
    for node in nodes {
        if pool.len() > 99_999 || !may_follow(&pool, *node) {
            return Err(Fail::from("no pool"));
        }
        pool.intern(*node)?;
    }
    if pool.len() > 99_999 {
        return Err(Fail::from("no pool"));
    }
    Ok(pool)
}

// Whether a node may follow these few, and gets this number.
fn gets(pool: &mut Pool, node: Node, number: u32) -> Result<bool, OutOfMemory> {
    if pool.len() > 8 || !may_follow(pool, node) {
        return Ok(false);
    }
    let found = pool.intern(node)?;
    Ok(found == number)
}

// The place of the first node that does not get its number.
fn other_number(pool: &mut Pool, rows: &[(Node, u32)]) -> Result<Option<usize>, OutOfMemory> {
    for (place, (node, number)) in rows.iter().enumerate() {
        if !gets(pool, *node, *number)? {
            return Ok(Some(place));
        }
    }
    Ok(None)
}

// The place of the first node that does not get its number in a pool that is empty, and how many nodes it then has.
fn numbered(alloc: Global, rows: &[(Node, u32)]) -> Result<(Option<usize>, u32), OutOfMemory> {
    let mut pool = Pool::new(alloc);
    if !pool.is_empty() {
        return Ok((None, 0));
    }
    let other = other_number(&mut pool, rows)?;
    Ok((other, pool.len()))
}

fn byte(offset: u32) -> Node {
    Node::Cell {
        pointer: 0,
        offset,
        width: 1,
    }
}

fn view(kind: Kind, cell: u32) -> Node {
    Node::View {
        kind,
        size: Size::Byte,
        cell,
    }
}

fn sum(left: u32, right: u32) -> Node {
    Node::Arith {
        op: Op::Add,
        left,
        right,
    }
}

#[test]
fn each_node_has_one_number(rt: HostRuntime) -> Result<(), OutOfMemory> {
    let rows = [
        (Node::Const(0), 0),
        (byte(16), 1),
        (byte(16), 1),
        (view(Kind::Mem, 1), 2),
        (Node::Const(5), 3),
        (byte(17), 4),
        (view(Kind::Delta, 1), 5),
        (view(Kind::Mem, 1), 2),
        (sum(2, 3), 6),
        (sum(3, 2), 7),
        (sum(2, 3), 6),
        (Node::Const(0), 0),
    ];
    assert_eq!(rt; numbered(rt.alloc(), &rows)?, (None, 8));
    Ok(())
}
