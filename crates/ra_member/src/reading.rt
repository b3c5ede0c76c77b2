//! The numbers of a table's nodes, read for the conditions of some groups.

ghost use Rattle.std.specs.Prelude.{◌≡◌, true, length, map};
ghost use Rattle.ra_member.specs.Laid.{left_nodes, right_nodes, operators};
ghost use Rattle.ra_member.specs.Readings.{numbers_at, truths_by, AreValued, sum_by_node, IsValuedSum, AreValuedSums};

use crate::sides::Sides;
use ra_memref::Table;
use ra_operand::holds;

// Reads the number of each left node, and compares it with that of the right node beside it.
#[inline]
pub(crate) fn read_conditions(
    table: &Table,
    sides: &[Sides],
    lefts: &mut [u32],
    truths: &mut [bool],
)
    requires left_nodes { AreValued table.now.nodes (left_nodes sides.now) }
    requires right_nodes { AreValued table.now.nodes (right_nodes sides.now) }
    requires sampled { table.now.sampled ≡ true }
    requires lefts { length lefts.old ≡ length sides.now }
    requires truths { length truths.old ≡ length sides.now }

    ensures lefts { lefts.new ≡ numbers_at table.now.values (left_nodes sides.now) }
    ensures truths { truths.new ≡ truths_by (operators sides.now) (numbers_at table.now.values (left_nodes sides.now))
        (numbers_at table.now.values (right_nodes sides.now)) }
{
    for place in 0..least(sides, lefts, truths) {
        let here = sides[place];
        let left = table.value(here.left);
        let right = table.value(here.right);
        lefts[place] = left;
        truths[place] = holds(here.op, left, right);
    }
}

// The least of the lengths of these rows, which are as long as each other: it tells the compiler so, and then no place
// of a row is asked whether it is one.
fn least(sides: &[Sides], lefts: &[u32], truths: &[bool]) -> usize
    requires lefts { length lefts.now ≡ length sides.now }
    requires truths { length truths.now ≡ length sides.now }
    ensures { result ≡ length sides.now }
{
    sides.len().min(lefts.len()).min(truths.len())
}

// Reads the number of each node that is there, and 0 for the others.
pub(crate) fn read_sums(table: &Table, nodes: &[Option<u32>], sums: &mut [u32])
    requires valued { AreValuedSums table.now.nodes nodes.now }
    requires sampled { table.now.sampled ≡ true }
    requires as_many { length sums.old ≡ length nodes.now }
    ensures { sums.new ≡ map (sum_by_node table.now.values) nodes.now }
{
    for (place, node) in nodes.iter().enumerate() {
        sums[place] = read_sum(table, *node);
    }
}

// The number of a node, and 0 where there is none.
fn read_sum(table: &Table, node: Option<u32>) -> u32
    requires valued { IsValuedSum table.now.nodes node }
    requires sampled { table.now.sampled ≡ true }
    ensures { result ≡ sum_by_node table.now.values node }
{
    match node {
        Some(node) => table.value(node),
        None => 0,
    }
}
