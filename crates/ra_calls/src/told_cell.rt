//! The cells of a set that no pointer moves, as C reads them.

ghost use Rattle.std.specs.Prelude.{◌≡◌, map, IfOk};
ghost use Rattle.ra_set.specs.Contents.{SetContents};
ghost use Rattle.ra_set.specs.Accepted.{IsSet};
ghost use Rattle.ra_calls.specs.ToldCells as spec;

use ra_runtime::{DirectCell, direct_cells};
use ra_set::parse_set;
use ra_text::OutOfMemory;
use std::alloc::Global;

/// A cell that lies at one place at every frame, as C reads it: docs/DEFINITIONS.md, "Calls from C".
///
/// In C it is `meerkat_cell`.
#[repr(C)]
#[derive(Clone, Copy, Debug, PartialEq, Eq)]
pub struct ToldCell {
    /// The address of its first byte.
    pub address: u32,
    /// Its width: 1, 2 or 4 bytes.
    pub width: u32,
    /// 1 where it lies whole in the memory, else 0.
    pub whole: u32,
}

// A cell over memories of this size.
fn told_cell(size: u32, cell: DirectCell) -> ToldCell
    ensures { result ≡ spec.told_cell size cell }
{
    let end = u64::from(cell.place) + u64::from(cell.width);
    ToldCell {
        address: cell.place,
        width: u32::from(cell.width),
        whole: if u64::from(size) < end { 0 } else { 1 },
    }
}

// Some cells over memories of this size.
fn told_cells(alloc: Global, size: u32, cells: &[DirectCell]) -> Result<Vec<ToldCell>, OutOfMemory>
    ensures { IfOk result (λ told. told.items ≡ map (spec.told_cell size) cells.now) }
{
    let mut told = Vec::new(alloc);
    let mut rest = cells;
    while let Some((cell, more)) = rest.split_first() {
        told.push(told_cell(size, *cell))?;
        rest = more;
    }
    Ok(told)
}

/// The direct cells of a set, read from its text, over memories of this size.
pub fn find_cells(alloc: Global, text: &[u8], size: u32) -> Result<Vec<ToldCell>, OutOfMemory>
    ensures { (set : SetContents) → IsSet text.now set → IfOk result (λ told. told.items ≡ spec.told_cells size set) }
{
    match parse_set(alloc, text) {
        Ok(set) => {
            let cells = direct_cells(alloc, &set)?;
            told_cells(alloc, size, &cells)
        }
        Err(_) => Err(OutOfMemory),
    }
}
