//! Elaborations, by node numbers, from the rules.

ghost use Rattle.std.specs.Prelude.{◌≡◌, IsTrue};
ghost use Rattle.ra_chain.specs.Elaborates.{AllJoin};
ghost use Rattle.ra_chain.specs.Sides.{JoinsValues};

use ra_chain::{GroupPlan, elaborate, elaborate_terms};
use ra_condition::{Condition, Flag, Group, Term};
use ra_indirect::Pool;
use ra_operand::{Kind, Op, Operand, Size};
use std::alloc::{AllocError, Global};

fn joins(condition: Condition) -> bool
    ensures { IsTrue result → JoinsValues condition }
{
    match condition.op {
        Op::Bare | Op::Mul | Op::Div | Op::And | Op::Xor | Op::Rem | Op::Add | Op::Sub => true,
        _ => !condition.flag.hands_on(),
    }
}

fn all_join(conditions: &[Condition]) -> bool
    ensures { IsTrue result → AllJoin conditions.now }
{
    for condition in conditions {
        if !joins(*condition) {
            return false;
        }
    }
    true
}

// The plan of a group in an empty pool, and how many nodes there are then.
fn elaborated(alloc: Global, group: &Group) -> Option<(GroupPlan, u32)> {
    if group.conditions.len() > 2000 || !all_join(&group.conditions) {
        return None;
    }
    let mut pool = Pool::new(alloc);
    let plan = elaborate(alloc, group, &mut pool).ok()?;
    Some((plan, pool.len()))
}

fn with(flag: Flag, left: Operand, op: Op, right: Operand) -> Condition {
    Condition {
        flag,
        left,
        op,
        right,
        target: 0,
    }
}

// A condition without a target: its flag, its left side, its operator and its right side.
type Row = (Flag, Operand, Op, Operand);

fn conditions_of(alloc: Global, rows: &[Row]) -> Result<Vec<Condition>, AllocError> {
    let mut conditions = Vec::new(alloc);
    for (flag, left, op, right) in rows {
        conditions.push(with(*flag, *left, *op, *right))?;
    }
    Ok(conditions)
}

fn has_nodes(plan: &GroupPlan, order: &[u32], lefts: &[u32], rights: &[u32]) -> bool {
    plan.order.as_slice() == order
        && plan.lefts.as_slice() == lefts
        && plan.rights.as_slice() == rights
}

// Whether a group has this pass order, these nodes for its left and right sides, and this many in all.
fn is_planned(
    alloc: Global,
    rows: &[Row],
    order: &[u32],
    lefts: &[u32],
    rights: &[u32],
    nodes: u32,
) -> Result<bool, AllocError> {
    let conditions = conditions_of(alloc, rows)?;
    let group = Group { conditions };
    let planned = elaborated(alloc, &group);
    drop(group);
    match planned {
        Some((plan, len)) => Ok(len == nodes && has_nodes(&plan, order, lefts, rights)),
        None => Ok(false),
    }
}

const COMPARED: &[Row] = &[
    (
        Flag::Plain,
        Operand::Cell(Kind::Mem, Size::Byte, 0x10),
        Op::Eq,
        Operand::Const(5),
    ),
    (
        Flag::Plain,
        Operand::Cell(Kind::Mem, Size::Byte, 0x10),
        Op::Gt,
        Operand::Cell(Kind::Delta, Size::Byte, 0x10),
    ),
    (Flag::Plain, Operand::Const(5), Op::Eq, Operand::Const(5)),
];

const RECALLED: &[Row] = &[
    (
        Flag::Plain,
        Operand::Cell(Kind::Mem, Size::Byte, 1),
        Op::Eq,
        Operand::Recall,
    ),
    (
        Flag::Remember,
        Operand::Cell(Kind::Mem, Size::Byte, 2),
        Op::Bare,
        Operand::Const(0),
    ),
    (
        Flag::PauseIf,
        Operand::Cell(Kind::Mem, Size::Byte, 3),
        Op::Eq,
        Operand::Const(9),
    ),
];

#[test]
fn nodes_are_numbered_in_pass_order(rt: HostRuntime) -> Result<(), AllocError> {
    let alloc = rt.alloc();
    let compared = is_planned(alloc, COMPARED, &[0, 1, 2], &[2, 2, 3], &[3, 4, 3], 5)?;
    let recalled = is_planned(alloc, RECALLED, &[1, 2, 0], &[7, 2, 4], &[2, 2, 5], 8)?;
    assert_eq!(rt; (compared, recalled), (true, true));
    Ok(())
}

const SUMMED: &[Row] = &[
    (
        Flag::SubSource,
        Operand::Cell(Kind::Mem, Size::Byte, 1),
        Op::Bare,
        Operand::Const(0),
    ),
    (
        Flag::AddSource,
        Operand::Cell(Kind::Mem, Size::Byte, 2),
        Op::Mul,
        Operand::Const(5),
    ),
    (
        Flag::Plain,
        Operand::Cell(Kind::Mem, Size::Byte, 3),
        Op::Eq,
        Operand::Const(5),
    ),
];

#[test]
fn sums_are_numbered_where_they_are_used(rt: HostRuntime) -> Result<(), AllocError> {
    assert!(rt; is_planned(rt.alloc(), SUMMED, &[0, 1, 2], &[2, 7, 11], &[2, 7, 6], 12)?);
    Ok(())
}

fn has_last_nodes(plan: &GroupPlan, left: u32, right: Option<u32>) -> bool {
    plan.lefts.last().copied() == Some(left)
        && (right.is_none() || plan.rights.last().copied() == right)
}

// Whether the last condition has this node on its left and, where it is asked, this one on its right,
// and there are this many in all.
fn ends_at(
    alloc: Global,
    conditions: Vec<Condition>,
    left: u32,
    right: Option<u32>,
    nodes: u32,
) -> bool {
    let group = Group { conditions };
    let planned = elaborated(alloc, &group);
    drop(group);
    match planned {
        Some((plan, len)) => len == nodes && has_last_nodes(&plan, left, right),
        None => false,
    }
}

fn pointers(alloc: Global) -> Result<Vec<Condition>, AllocError> {
    let word = Operand::Cell(Kind::Mem, Size::Four, 0x10);
    let byte = Operand::Cell(Kind::Mem, Size::Byte, 4);
    let pointer = with(Flag::AddAddress, word, Op::Bare, Operand::Const(0));
    let mut conditions = vec![in alloc; pointer; 1000]?;
    conditions.push(with(Flag::Plain, byte, Op::Eq, Operand::Const(1)))?;
    Ok(conditions)
}

#[test]
fn a_thousand_pointers_share_their_front(rt: HostRuntime) -> Result<(), AllocError> {
    let conditions = pointers(rt.alloc())?;
    assert!(rt; ends_at(rt.alloc(), conditions, 2002, Some(2003), 2004));
    Ok(())
}

fn doubled(alloc: Global) -> Result<Vec<Condition>, AllocError> {
    let recall = Operand::Recall;
    let byte = Operand::Cell(Kind::Mem, Size::Byte, 0x10);
    let mut conditions = Vec::new(alloc);
    conditions.push(with(Flag::Remember, byte, Op::Bare, Operand::Const(0)))?;
    for _ in 0..31 {
        conditions.push(with(Flag::Remember, recall, Op::Add, recall))?;
    }
    Ok(conditions)
}

#[test]
fn a_doubled_value_is_one_node_more(rt: HostRuntime) -> Result<(), AllocError> {
    let conditions = doubled(rt.alloc())?;
    assert!(rt; ends_at(rt.alloc(), conditions, 33, None, 34));
    Ok(())
}

const TERMS: [Term; 2] = [
    Term {
        operand: Operand::Cell(Kind::Mem, Size::Byte, 3),
        factor: Some(Operand::Const(2)),
    },
    Term {
        operand: Operand::Cell(Kind::Mem, Size::Byte, 3),
        factor: None,
    },
];

// The node of the sum of those terms in an empty pool, and how many nodes there are then.
fn summed(alloc: Global) -> Option<(u32, u32)> {
    let mut pool = Pool::new(alloc);
    let sum = elaborate_terms(alloc, &TERMS, &mut pool).ok()?;
    Some((sum, pool.len()))
}

#[test]
fn terms_are_summed(rt: HostRuntime) {
    assert_eq!(rt; summed(rt.alloc()), Some((5, 6)));
}
