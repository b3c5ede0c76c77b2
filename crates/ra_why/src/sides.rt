//! The comparisons of a plan's conditions and the values of both sides, read from a table.

ghost use Rattle.std.specs.Prelude.{◌≡◌, true, length};
ghost use Rattle.ra_member.specs.Laid.{left_nodes, right_nodes, operators};
ghost use Rattle.ra_member.specs.Readings.{AreValued, numbers_at, truths_by};
ghost use Rattle.ra_member.specs.Runs.{MayFill};
ghost use Rattle.ra_explain.specs.RowLists.{truths_laid};

use ra_member::{Laid, Sides};
use ra_memref::Table;
use ra_operand::holds;

// Reads at the table's last sample whether each comparison holds, and the values of its sides.
pub(crate) fn read_sides(
    laid: &Laid,
    table: &Table,
    truths: &mut [bool],
    lefts: &mut [u32],
    rights: &mut [u32],
)
    requires may { MayFill table.now.nodes laid.now }
    requires sampled { table.now.sampled ≡ true }
    requires truths { length truths.old ≡ length laid.now.ops }
    requires lefts { length lefts.old ≡ length laid.now.ops }
    requires rights { length rights.old ≡ length laid.now.ops }

    ensures truths { truths.new ≡ truths_laid table.now.values laid.now }
    ensures lefts { lefts.new ≡ numbers_at table.now.values laid.now.plan.lefts }
    ensures rights { rights.new ≡ numbers_at table.now.values laid.now.plan.rights }
{
    read_rows(table, laid.sides(), truths, lefts, rights);
}

// The same by what each condition compares.
fn read_rows(
    table: &Table,
    sides: &[Sides],
    truths: &mut [bool],
    lefts: &mut [u32],
    rights: &mut [u32],
)
    requires left_nodes { AreValued table.now.nodes (left_nodes sides.now) }
    requires right_nodes { AreValued table.now.nodes (right_nodes sides.now) }
    requires sampled { table.now.sampled ≡ true }
    requires truths { length truths.old ≡ length sides.now }
    requires lefts { length lefts.old ≡ length sides.now }
    requires rights { length rights.old ≡ length sides.now }

    ensures truths { truths.new ≡ truths_by (operators sides.now) (numbers_at table.now.values (left_nodes sides.now))
        (numbers_at table.now.values (right_nodes sides.now)) }
    ensures lefts { lefts.new ≡ numbers_at table.now.values (left_nodes sides.now) }
    ensures rights { rights.new ≡ numbers_at table.now.values (right_nodes sides.now) }
{
    for place in 0..least(sides, truths, lefts, rights) {
        let here = sides[place];
        let left = table.value(here.left);
        let right = table.value(here.right);
        lefts[place] = left;
        rights[place] = right;
        truths[place] = holds(here.op, left, right);
    }
}

// The least of the lengths of these rows, which are all the same: the compiler learns it here and leaves out the test of
// each place.
fn least(sides: &[Sides], truths: &[bool], lefts: &[u32], rights: &[u32]) -> usize
    requires truths { length truths.now ≡ length sides.now }
    requires lefts { length lefts.now ≡ length sides.now }
    requires rights { length rights.now ≡ length sides.now }
    ensures { result ≡ length sides.now }
{
    let read = lefts.len().min(rights.len()).min(truths.len());
    sides.len().min(read)
}
