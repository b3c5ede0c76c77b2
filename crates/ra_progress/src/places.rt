//! Where the blocks stand in the set's own bytes, in bytes from the start.

ghost use Rattle.std.specs.Prelude.{◌≡◌, ◌⊎◌, ◌+◌, ◌*◌, ◌<◌, ◌≤◌, ◌^◌, IsSome, length as length_of_list};
ghost use Rattle.ra_progress.specs.Contents.{shape_contents};
ghost use Rattle.ra_progress.specs.Layout as layout;
ghost use Rattle.ra_progress.specs.Names.{IsPaired, IsSearchable, IsUsable};

use crate::own::{items_length, own_count, script_length};
use crate::shape::Shape;

/// How many bytes the set's own file has in versions 2 and 3: docs/DEFINITIONS.md, "Progress file".
pub fn length(shape: &Shape) -> u64
    requires { IsSearchable shape.now }
    ensures { result ≡ layout.length_of (shape_contents shape.now) }
{
    file_length(shape, named(shape))
}

/// The same of a shape whose names of cells and tracked masks, of which there are this many, are not made yet.
pub fn file_length(shape: &Shape, names: u64) -> u64
    requires paired { IsPaired (shape_contents shape.now) }
    requires few { names ≤ 2 ^ 33 }
    ensures { result ≡ layout.length_with names (shape_contents shape.now) }
{
    let blocks = items_length(&shape.items) + script_length(&shape.presence);
    57 + 20 * (names + u64::from(own_count(shape))) + blocks
}

/// How many bytes the set's own file has in version 1: docs/DEFINITIONS.md, "Progress file".
pub fn length_1(shape: &Shape) -> u64
    requires { IsUsable shape.now }
    ensures { result ≡ layout.length_1_of (shape_contents shape.now) }
{
    let blocks = items_length(&shape.items) + script_length(&shape.presence);
    blocks_at_1(shape) + blocks + 16
}

/// The frame count that the bytes keep, of which there are at least 29: docs/DEFINITIONS.md,
/// "Progress file".
pub fn frames_at(bytes: &[u8]) -> u64
    requires { 29 ≤ length_of_list bytes.now }
    ensures { result ≡ layout.frames_at bytes.now }
{
    u64::from_le_bytes([
        bytes[21], bytes[22], bytes[23], bytes[24], bytes[25], bytes[26], bytes[27], bytes[28],
    ])
}

/// Where the block of an item stands in the set's own bytes of a version, in bytes from the start:
/// docs/DEFINITIONS.md, "Progress file". Items are counted from 0.
pub fn item_at(shape: &Shape, version: u8, item: u32) -> u64
    requires usable { IsUsable shape.now }
    requires version { (version ≡ 1) ⊎ ((version ≡ 2) ⊎ (version ≡ 3)) }
    requires item { item < length_of_list shape.now.items.items }
    ensures { result ≡ layout.block_at (shape_contents shape.now) version item }
{
    block_at(shape, version, item as usize)
}

/// Where the block of the presence stands in the set's own bytes of a version, in bytes from the
/// start: docs/DEFINITIONS.md, "Progress file".
pub fn presence_at(shape: &Shape, version: u8) -> u64
    requires usable { IsUsable shape.now }
    requires version { (version ≡ 1) ⊎ ((version ≡ 2) ⊎ (version ≡ 3)) }
    requires some { IsSome shape.now.presence }
    ensures { result ≡ layout.block_at (shape_contents shape.now) version (length_of_list shape.now.items.items) }
{
    block_at(shape, version, shape.items.len())
}

// Where the block of an own entry stands, the items before it.
fn block_at(shape: &Shape, version: u8, number: usize) -> u64
    requires usable { IsUsable shape.now }
    requires number { number ≤ length_of_list shape.now.items.items }
    ensures { result ≡ layout.block_at (shape_contents shape.now) version number }
{
    let before = items_length(&shape.items[..number]);
    if version == 1 {
        blocks_at_1(shape) + before
    } else {
        61 + 20 * (named(shape) + number as u64) + before
    }
}

/// Where the first block stands in version 1.
pub(crate) fn blocks_at_1(shape: &Shape) -> u64
    requires { IsSearchable shape.now }
    ensures place { result ≡ layout.blocks_at_1 (shape_contents shape.now) }
    ensures most { result < 2 ^ 36 }
{
    29 + 4 * named(shape)
}

// How many cells and tracked masks the set has.
fn named(shape: &Shape) -> u64
    requires few_cells { length_of_list shape.now.cells.items ≤ 2 ^ 32 }
    requires few_priors { length_of_list shape.now.priors.items ≤ 2 ^ 32 }
    ensures count { result ≡ length_of_list shape.now.cells.items + length_of_list shape.now.priors.items }
    ensures most { result ≤ 2 ^ 33 }
{
    shape.cells.len() as u64 + shape.priors.len() as u64
}
