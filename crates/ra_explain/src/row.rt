//! The comparisons of a plan's conditions, read from a table.

ghost use Rattle.std.specs.Prelude.{◌≡◌, true, length};
ghost use Rattle.ra_member.specs.Runs.{MayFill};
ghost use Rattle.ra_explain.specs.RowLists.{truths_laid};

use ra_member::Laid;
use ra_memref::Table;
use ra_operand::holds;

// Reads whether each comparison holds at the table's last sample.
pub(crate) fn read_row(laid: &Laid, table: &Table, row: &mut [bool])
    requires may { MayFill table.now.nodes laid.now }
    requires sampled { table.now.sampled ≡ true }
    requires long { length row.old ≡ length laid.now.ops }
    ensures { row.new ≡ truths_laid table.now.values laid.now }
{
    for place in 0..laid.len() {
        let sides = laid.side(place);
        let left = table.value(sides.left);
        let right = table.value(sides.right);
        row[place] = holds(sides.op, left, right);
    }
}
