ghost use Rattle.std.specs.Prelude.{◌≡◌, ◌≤◌, true, ◌++◌, length, take, map, IfOk};
ghost use Rattle.std.specs.Result.{OnOk};
ghost use Rattle.ra_condition.specs.Contents.{group_contents, trigger_contents, groups_of, value_contents, counted_in};
ghost use Rattle.ra_member.specs.Laid.{left_nodes, right_nodes, operators};
ghost use Rattle.ra_member.specs.Readings.{AreValued, numbers_at, ops_in, ops_of, truths_by};
ghost use Rattle.ra_member.specs.Runs.{HasRoom};

use crate::reading::read_conditions;
use crate::sides::Sides;
use ra_chain::GroupPlan;
use ra_condition::{Group, Part, TriggerText, ValueText};
use ra_group::Reads;
use ra_memref::Table;
use ra_operand::Op;
use ra_text::OutOfMemory;
use std::alloc::Global;
use std::marker::Model;

// How many conditions are few: a step has room for them on its stack.
const FEW: usize = 32;

/// Room for the truth and the left value of each of many conditions.
#[derive(Drop)]
pub struct Many {
    pub truths: Vec<bool>,
    pub lefts: Vec<u32>,
}

// The same of few conditions.
#[derive(Drop)]
pub(crate) struct Few {
    pub truths: [bool; FEW],
    pub lefts: [u32; FEW],
}

/// The plan of some groups: docs/DEFINITIONS.md, "Trees of a group". Only where it has many conditions it has room for
/// what these read.
#[derive(Drop)]
pub struct Laid {
    // the pass order, and after it for each group how many of its conditions stand in pause chains
    turns: Vec<u32>,
    // what each condition compares
    sides: Vec<Sides>,
    room: Option<Box<Many>>,
}

impl Model for Laid {
    ghost use Rattle.std.specs.Prelude.{◌≤◌, length};
    ghost use Rattle.ra_member.specs.Laid.{LaidSeen, laid_seen};

    ghost Value = { LaidSeen };

    ghost view = { λ l. laid_seen l.turns.items l.sides.items l.room };

    ghost invariant = { λ l. length l.sides.items ≤ length l.turns.items };
}

impl Laid {
    ghost use Rattle.std.specs.Prelude.{◌≡◌, ◌<◌, true, length, slice_index, slice_index_or, IfOk};
    ghost use Rattle.ra_operand.specs.declared.op.Op.TheVariants.{Bare};
    ghost use Rattle.ra_member.specs.Laid.{plan_rows, left_nodes, right_nodes, operators};
    ghost use Rattle.ra_member.specs.Runs.{HasRoom, IsFilled, MayFill, lefts_in, truths_in};

    // A plan, and room for as many conditions as have operators where these are many. Memory is the only refusal.
    pub(crate) fn new(alloc: Global, plan: GroupPlan, ops: Vec<Op>) -> Result<Self, OutOfMemory>
        requires order { length plan.order.items ≡ length ops.items }
        requires lefts { length plan.lefts.items ≡ length ops.items }
        requires rights { length plan.rights.items ≡ length ops.items }
        ensures plan { IfOk result (λ laid. laid.plan ≡ plan_rows plan) }
        ensures ops { IfOk result (λ laid. laid.ops ≡ ops.items) }
        ensures room { IfOk result (λ laid. HasRoom (length ops.items) laid.room) }
    {
        let room = room_for(alloc, ops.len())?;
        let turns = turns_of(alloc, &plan.order, &plan.pauses)?;
        let sides = sides_of(alloc, &ops, &plan.lefts, &plan.rights)?;
        Ok(Laid { turns, sides, room })
    }

    /// How many conditions there are.
    pub fn len(&self) -> usize
        ensures { result ≡ length self.now.ops }
    {
        self.sides.len()
    }

    /// What the condition at this place compares, counted from 0.
    pub fn side(&self, place: usize) -> Sides
        requires { place < length self.now.ops }
        ensures op { result.op ≡ slice_index_or self.now.ops place Bare }
        ensures left { result.left ≡ slice_index self.now.plan.lefts place }
        ensures right { result.right ≡ slice_index self.now.plan.rights place }
    {
        self.sides[place]
    }

    /// What each condition compares.
    pub fn sides(&self) -> &[Sides]
        ensures ops { operators result.now ≡ self.now.ops }
        ensures lefts { left_nodes result.now ≡ self.now.plan.lefts }
        ensures rights { right_nodes result.now ≡ self.now.plan.rights }
    {
        &self.sides
    }

    /// The pass order of each group, one after the other.
    #[inline]
    pub fn order(&self) -> &[u32]
        ensures { result.now ≡ self.now.plan.order }
    {
        &self.turns[..self.sides.len()]
    }

    /// For each group, how many of its conditions stand in pause chains.
    #[inline]
    pub fn pauses(&self) -> &[u32]
        ensures { result.now ≡ self.now.plan.pauses }
    {
        &self.turns[self.sides.len()..]
    }

    // Takes up the values of a table.
    #[inline]
    pub(crate) fn fill(&mut self, table: &Table, few: &mut Few)
        requires valued { MayFill table.now.nodes self.old }
        requires room { HasRoom (length self.old.ops) self.old.room }
        requires sampled { table.now.sampled ≡ true }
        ensures { IsFilled table.now.values self.old self.new few.new }
    {
        match &mut self.room {
            Some(room) => fill_many(table, &self.sides, room),
            None => fill_few(table, &self.sides, &mut few.truths, &mut few.lefts),
        }
    }

    // How the groups are stepped by what was taken up last.
    #[inline]
    pub(crate) fn reads<'a>(&'a self, few: &'a Few) -> Reads<'a>
        requires { HasRoom (length self.now.ops) self.now.room }
        ensures orders { result.orders.now ≡ self.now.plan.order }
        ensures pauses { result.pauses.now ≡ self.now.plan.pauses }
        ensures truths { result.truths.now ≡ truths_in self.now few.now }
        ensures lefts { result.lefts.now ≡ lefts_in self.now few.now }
    {
        let count = self.sides.len();
        let (truths, lefts): (&[bool], &[u32]) = match &self.room {
            Some(room) => (&room.truths, &room.lefts),
            None => (&few.truths[..count], &few.lefts[..count]),
        };
        Reads {
            orders: &self.turns[..count],
            pauses: &self.turns[count..],
            truths,
            lefts,
        }
    }
}

impl Few {
    // Room of which nothing is taken up.
    #[inline]
    pub(crate) fn new() -> Few {
        Few {
            truths: [false; FEW],
            lefts: [0; FEW],
        }
    }
}

// Takes up the values of a table for few conditions.
#[inline]
fn fill_few(table: &Table, sides: &[Sides], truths: &mut [bool; FEW], lefts: &mut [u32; FEW])
    requires left_nodes { AreValued table.now.nodes (left_nodes sides.now) }
    requires right_nodes { AreValued table.now.nodes (right_nodes sides.now) }
    requires sampled { table.now.sampled ≡ true }
    requires few { length sides.now ≤ 32 }
    ensures lefts { take (length sides.now) lefts.new ≡ numbers_at table.now.values (left_nodes sides.now) }
    ensures truths { take (length sides.now) truths.new ≡ truths_by (operators sides.now)
        (numbers_at table.now.values (left_nodes sides.now)) (numbers_at table.now.values (right_nodes sides.now)) }
{
    let count = sides.len();
    read_conditions(table, sides, &mut lefts[..count], &mut truths[..count]);
}

// Takes up the values of a table for many conditions.
#[inline(never)]
fn fill_many(table: &Table, sides: &[Sides], room: &mut Many)
    requires left_nodes { AreValued table.now.nodes (left_nodes sides.now) }
    requires right_nodes { AreValued table.now.nodes (right_nodes sides.now) }
    requires sampled { table.now.sampled ≡ true }
    requires lefts { length room.old.lefts.items ≡ length sides.now }
    requires truths { length room.old.truths.items ≡ length sides.now }
    ensures lefts { room.new.lefts.items ≡ numbers_at table.now.values (left_nodes sides.now) }
    ensures truths { room.new.truths.items ≡ truths_by (operators sides.now)
        (numbers_at table.now.values (left_nodes sides.now)) (numbers_at table.now.values (right_nodes sides.now)) }
{
    read_conditions(table, sides, &mut room.lefts, &mut room.truths);
}

// The pass orders, and after them the counts of the conditions in pause chains.
fn turns_of(alloc: Global, order: &[u32], pauses: &[u32]) -> Result<Vec<u32>, OutOfMemory>
    ensures { IfOk result (λ turns. turns.items ≡ order.now ++ pauses.now) }
{
    let count = order.len().checked_add(pauses.len()).ok_or(OutOfMemory)?;
    let mut turns = Vec::with_capacity(alloc, count)?;
    turns.extend_from_slice(order)?;
    turns.extend_from_slice(pauses)?;
    Ok(turns)
}

// What conditions with these operators, left nodes and right nodes compare.
fn sides_of(
    alloc: Global,
    ops: &[Op],
    lefts: &[u32],
    rights: &[u32],
) -> Result<Vec<Sides>, OutOfMemory>
    requires lefts { length lefts.now ≡ length ops.now }
    requires rights { length rights.now ≡ length ops.now }
    ensures ops { IfOk result (λ sides. operators sides.items ≡ ops.now) }
    ensures lefts { IfOk result (λ sides. left_nodes sides.items ≡ lefts.now) }
    ensures rights { IfOk result (λ sides. right_nodes sides.items ≡ rights.now) }
{
    let mut sides = Vec::with_capacity(alloc, ops.len())?;
    for place in 0..ops.len() {
        sides.push(Sides {
            op: ops[place],
            left: lefts[place],
            right: rights[place],
        })?;
    }
    Ok(sides)
}

// Room for this many conditions, where they are many.
fn room_for(alloc: Global, count: usize) -> Result<Option<Box<Many>>, OutOfMemory>
    ensures { IfOk result (HasRoom count) }
{
    if count <= FEW {
        return Ok(None);
    }
    let truths = vec![in alloc; false; count]?;
    let lefts = vec![in alloc; 0; count]?;
    let room = Box::new(alloc, Many { truths, lefts })?;
    Ok(Some(room))
}

// The operators of a trigger's conditions, the core group's first.
pub(crate) fn trigger_ops(alloc: Global, text: &TriggerText) -> Result<Vec<Op>, OutOfMemory>
    ensures { IfOk result (λ ops. ops.items ≡ ops_of (groups_of (trigger_contents text.now))) }
{
    let mut ops = Vec::new(alloc);
    put_ops(&mut ops, &text.core)?;
    for alt in &text.alts {
        put_ops(&mut ops, alt)?;
    }
    Ok(ops)
}

// The operators of the conditions of a value's parts.
pub(crate) fn value_ops(alloc: Global, text: &ValueText) -> Result<Vec<Op>, OutOfMemory>
    ensures { IfOk result (λ ops. ops.items ≡ ops_of (map counted_in (value_contents text.now))) }
{
    let mut ops = Vec::new(alloc);
    for part in &text.parts {
        if let Part::Conditions(group) = part {
            put_ops(&mut ops, group)?;
        }
    }
    Ok(ops)
}

// The operators of a group's conditions.
fn put_ops(ops: &mut Vec<Op>, group: &Group) -> Result<(), OutOfMemory>
    ensures { OnOk result (ops.new.items ≡ ops.old.items ++ ops_in (group_contents group.now)) }
{
    for condition in &group.conditions {
        ops.push(condition.op)?;
    }
    Ok(())
}
