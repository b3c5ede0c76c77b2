//! The verdict on each comparison of a group, by the ranges of its trees.

ghost use Rattle.std.specs.Prelude.{◌≡◌, ◌+◌, ◌*◌, ◌^◌, ◌≤◌, length, map, IfOk};
ghost use Rattle.ra_condition.specs.Chains.{places};
ghost use Rattle.ra_condition.specs.Contents.{group_contents};
ghost use Rattle.ra_condition.specs.Spelled.{IsTriggerGroup};
ghost use Rattle.ra_chain.specs.Elaborates.{SpellsEach};
ghost use Rattle.ra_chain.specs.Elaboration.{left_of, right_of};
ghost use Rattle.ra_indirect.specs.Interned.{IsPool};
ghost use Rattle.ra_lint.specs.Judging.{AreBelow, JoinsBelow, node_range, ranges_in, verdict_at, verdict_by_node};
ghost use Rattle.ra_lint.specs.Ordered.{AreOrdered, IsOrdered};
ghost use Rattle.ra_lint.specs.Warnings.{always_at};

use crate::range::Range;
use crate::verdict::Verdict;
use ra_chain::{GroupPlan, elaborate};
use ra_condition::{Condition, Group};
use ra_indirect::{Node, Pool};
use ra_text::OutOfMemory;
use std::alloc::Global;

/// Whether the comparison of each condition of a group always holds, in text order:
/// docs/DEFINITIONS.md, "Comparisons that never or always hold".
///
/// Twelve nodes for each condition and two are together at most 2^31.
pub fn always_hold(alloc: Global, group: &Group) -> Result<Vec<bool>, OutOfMemory>
    requires spelled { IsTriggerGroup (group_contents group.now) }
    requires few { 12 * length (group_contents group.now) + 2 ≤ 2 ^ 31 }
    ensures { IfOk result (λ always.
        always.items ≡ map (always_at (group_contents group.now)) (places (group_contents group.now))) }
{
    let verdicts = judge_group(alloc, group)?;
    let always = always_of(alloc, &verdicts)?;
    Ok(always)
}

// Which of the verdicts say that the comparison always holds.
fn always_of(alloc: Global, verdicts: &[Verdict]) -> Result<Vec<bool>, OutOfMemory>
    ensures { IfOk result (λ always. always.items ≡ map (λ verdict. verdict.always) verdicts.now) }
{
    let mut always = Vec::with_capacity(alloc, verdicts.len())?;
    for verdict in verdicts {
        always.push(verdict.always)?;
    }
    Ok(always)
}

/// What is known of each comparison of a group, in text order.
pub(crate) fn judge_group(alloc: Global, group: &Group) -> Result<Vec<Verdict>, OutOfMemory>
    requires spelled { IsTriggerGroup (group_contents group.now) }
    requires few { 12 * length (group_contents group.now) + 2 ≤ 2 ^ 31 }
    ensures { IfOk result (λ verdicts.
        verdicts.items ≡ map (verdict_at (group_contents group.now)) (places (group_contents group.now))) }
{
    let mut pool = Pool::new(alloc);
    let plan = elaborate(alloc, group, &mut pool)?;
    let verdicts = judge_planned(alloc, &group.conditions, &pool, &plan)?;
    Ok(verdicts)
}

// What is known of each comparison, by the nodes of its sides.
fn judge_planned(
    alloc: Global,
    conditions: &[Condition],
    pool: &Pool,
    plan: &GroupPlan,
) -> Result<Vec<Verdict>, OutOfMemory>
    requires pool { IsPool pool.now }
    requires lefts { SpellsEach pool.now plan.now.lefts.items (length conditions.now) (left_of conditions.now) }
    requires rights { SpellsEach pool.now plan.now.rights.items (length conditions.now) (right_of conditions.now) }
    ensures { IfOk result (λ verdicts. verdicts.items ≡ map (verdict_at conditions.now) (places conditions.now)) }
{
    let ranges = ranges_of(alloc, pool)?;
    let verdicts = verdicts_of(alloc, conditions, &ranges, &plan.lefts, &plan.rights)?;
    Ok(verdicts)
}

// The range of the tree of each node: each is found once, from those of the nodes before it.
fn ranges_of(alloc: Global, pool: &Pool) -> Result<Vec<Range>, OutOfMemory>
    ensures { IfOk result (λ ranges. ranges.items ≡ ranges_in pool.now) }
{
    let mut ranges = Vec::new(alloc);
    for number in 0..pool.len() {
        let range = range_of(&ranges, pool.node(number));
        ranges.push(range)?;
    }
    Ok(ranges)
}

// The range of a node's tree.
fn range_of(ranges: &[Range], node: Node) -> Range
    requires joins { JoinsBelow (length ranges.now) node }
    requires ordered { AreOrdered ranges.now }
    ensures range { result ≡ node_range ranges.now node }
    ensures ordered { IsOrdered result }
{
    match node {
        Node::Const(number) => Range::only(number),
        Node::Cell { .. } => Range::only(0),
        Node::View { kind, size, .. } => Range::of_view(kind, size),
        Node::Arith { op, left, right } => {
            Range::joined(op, ranges[left as usize], ranges[right as usize])
        }
    }
}

// The verdicts, by the nodes of both sides. Nodes of a pool that spell one tree are one node.
fn verdicts_of(
    alloc: Global,
    conditions: &[Condition],
    ranges: &[Range],
    lefts: &[u32],
    rights: &[u32],
) -> Result<Vec<Verdict>, OutOfMemory>
    requires lefts { length lefts.now ≡ length conditions.now }
    requires rights { length rights.now ≡ length conditions.now }
    requires lefts_within { AreBelow (length ranges.now) lefts.now }
    requires rights_within { AreBelow (length ranges.now) rights.now }
    ensures { IfOk result (λ verdicts. verdicts.items
        ≡ map (verdict_by_node conditions.now ranges.now lefts.now rights.now) (places conditions.now)) }
{
    let mut verdicts = Vec::new(alloc);
    for (place, condition) in conditions.iter().enumerate() {
        let left = lefts[place];
        let right = rights[place];
        let verdict = Verdict::of(
            condition.op,
            left == right,
            ranges[left as usize],
            ranges[right as usize],
        );
        verdicts.push(verdict)?;
    }
    Ok(verdicts)
}
