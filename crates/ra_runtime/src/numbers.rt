//! The numbers of cells and tracked masks, put back.

ghost use Rattle.std.specs.Prelude.{◌≡◌, ◌<◌, ◌^◌, length};
ghost use Rattle.ra_runtime.specs.Numbers.{TakesCells, TakesPriors, TakesNumbers};

use ra_memref::Table;

// Sets the kept numbers of all cells and tracked masks.
pub(crate) fn take_numbers(table: &mut Table, cells: &[u32], priors: &[u32])
    requires cells { length cells.now ≡ length table.old.cells }
    requires priors { length priors.now ≡ length table.old.priors }
    requires few_cells { length cells.now < 2 ^ 32 }
    requires few_priors { length priors.now < 2 ^ 32 }
    ensures { TakesNumbers table.old table.new cells.now priors.now }
{
    if cells.is_empty() && priors.is_empty() {
        table.put_back(&[]);
    } else {
        take_cells(table, cells);
        take_priors(table, priors);
    }
}

// Sets the kept number of each cell.
fn take_cells(table: &mut Table, numbers: &[u32])
    requires many { length numbers.now ≡ length table.old.cells }
    requires few { length numbers.now < 2 ^ 32 }
    ensures { TakesCells table.old table.new numbers.now }
{
    for cell in 0..numbers.len() {
        table.put_cell(cell as u32, numbers[cell]);
    }
}

// Sets the kept number of each tracked mask.
fn take_priors(table: &mut Table, numbers: &[u32])
    requires many { length numbers.now ≡ length table.old.priors }
    requires few { length numbers.now < 2 ^ 32 }
    ensures { TakesPriors table.old table.new numbers.now }
{
    for prior in 0..numbers.len() {
        table.put_prior(prior as u32, numbers[prior]);
    }
}
