//! The bytes of a progress file, as they are written: version 3.

ghost use Rattle.std.specs.Prelude.{◌≡◌, ◌++◌, ◌+◌, ◌<◌, ◌≤◌, ◌∷◌, [], ◌^◌, All, length as length_of_list, map, option_map, option_to_list, IfOk, OnOk};
ghost use Rattle.std.specs.Int.{w32, to_le_bytes};
ghost use Rattle.md5.specs.Md5.{md5};
ghost use Rattle.ra_progress.specs.Contents.{shape_contents, snapshot_contents, kept_item, kept_presence, IsOpening};
ghost use Rattle.ra_progress.specs.Names.{IsUsable};
ghost use Rattle.ra_text.specs.Words.{AreWords, words};
ghost use Rattle.ra_progress.specs.Spelling as spec;
ghost use Rattle.ra_progress.specs.Spelling.{item_bytes, presence_block, named_words, named_blocks, progress_bytes};
ghost use Rattle.ra_progress.specs.Writing.{FitsShort, PresenceShort, front_bytes, named_block};

use crate::own::own_count;
use crate::places::length;
use crate::shape::Shape;
use crate::snapshot::{ItemKept, PresenceKept, Snapshot};
use md5::{Digest, Md5};
use ra_text::{OutOfMemory, write_words};
use std::alloc::Global;

/// The bytes of a snapshot of the shape in version 3, with their closing sum:
/// docs/DEFINITIONS.md, "Progress file".
pub fn encode(alloc: Global, shape: &Shape, snapshot: &Snapshot) -> Result<Vec<u8>, OutOfMemory>
    requires usable { IsUsable shape.now }
    requires fits { IsOpening (shape_contents shape.now) (snapshot_contents snapshot.now) }
    ensures { IfOk result (λ bytes. bytes.items ≡ progress_bytes (shape_contents shape.now) (snapshot_contents snapshot.now)) }
{
    let frames = snapshot.frames;
    let mut bytes = begin(alloc, shape, frames, &snapshot.cells, &snapshot.priors)?;
    put_items(&mut bytes, &shape.item_names, &snapshot.items)?;
    put_script(&mut bytes, &shape.presence_name, &snapshot.presence)?;
    close(&mut bytes)?;
    Ok(bytes)
}

/// The front of the set's own bytes in version 3, up to its entries, with room for all of them:
/// docs/DEFINITIONS.md, "Progress file".
///
/// `cells` and `priors` have a number for each name of the shape. The entries follow, the items in set
/// order and then the script, and `close`.
pub fn begin(
    alloc: Global,
    shape: &Shape,
    frames: u64,
    cells: &[u32],
    priors: &[u32],
) -> Result<Vec<u8>, OutOfMemory>
    requires usable { IsUsable shape.now }
    requires cells { length_of_list cells.now ≡ length_of_list shape.now.cells.items }
    requires priors { length_of_list priors.now ≡ length_of_list shape.now.priors.items }
    ensures bytes { IfOk result (λ bytes. bytes.items ≡ front_bytes (shape_contents shape.now) frames cells.now priors.now) }
    ensures cells { IfOk result (λ _. AreWords (length_of_list shape.now.cells.items) cells.now) }
    ensures priors { IfOk result (λ _. AreWords (length_of_list shape.now.priors.items) priors.now) }
{
    let mut bytes = Vec::with_capacity(alloc, length(shape) as usize)?;
    bytes.extend_from_slice(b"RAPG\x03")?;
    bytes.extend_from_slice(&shape.digest)?;
    bytes.extend_from_slice(&frames.to_le_bytes())?;
    put_numbered(&mut bytes, &shape.cells, cells)?;
    put_numbered(&mut bytes, &shape.priors, priors)?;
    bytes.extend_from_slice(&own_count(shape).to_le_bytes())?;
    Ok(bytes)
}

/// Writes the closing sum after all other bytes of a file: docs/DEFINITIONS.md, "Progress file".
pub fn close(bytes: &mut Vec<u8>) -> Result<(), OutOfMemory>
    ensures { OnOk result (bytes.new.items ≡ bytes.old.items ++ md5 bytes.old.items) }
{
    let sum = Md5::digest(bytes.as_slice());
    bytes.extend_from_slice(&sum)?;
    Ok(())
}

/// Writes a count, and this many names with their numbers.
fn put_numbered(bytes: &mut Vec<u8>, names: &[[u8; 16]], numbers: &[u32]) -> Result<(), OutOfMemory>
    requires few { length_of_list names.now < 2 ^ 32 }
    requires paired { length_of_list numbers.now ≡ length_of_list names.now }
    ensures { OnOk result (bytes.new.items ≡ bytes.old.items ++ (to_le_bytes w32 (length_of_list names.now) ++ named_words names.now numbers.now)) }
{
    bytes.extend_from_slice(&(names.len() as u32).to_le_bytes())?;
    put_pairs(bytes, names, numbers)
}

/// Writes names, each with its number.
fn put_pairs(bytes: &mut Vec<u8>, names: &[[u8; 16]], numbers: &[u32]) -> Result<(), OutOfMemory>
    requires { length_of_list numbers.now ≡ length_of_list names.now }
    ensures { OnOk result (bytes.new.items ≡ bytes.old.items ++ named_words names.now numbers.now) }
{
    for k in 0..names.len() {
        bytes.extend_from_slice(&names[k])?;
        bytes.extend_from_slice(&numbers[k].to_le_bytes())?;
    }
    Ok(())
}

/// Writes items, each with its name and length.
fn put_items(bytes: &mut Vec<u8>, names: &[[u8; 16]], items: &[ItemKept]) -> Result<(), OutOfMemory>
    requires many { length_of_list items.now ≡ length_of_list names.now }
    requires fit { All FitsShort (map kept_item items.now) }
    ensures { OnOk result (bytes.new.items ≡ bytes.old.items ++ named_blocks names.now (map item_bytes (map kept_item items.now))) }
{
    for k in 0..names.len() {
        put_item(bytes, &names[k], &items[k])?;
    }
    Ok(())
}

/// Writes an item with its name and length.
fn put_item(bytes: &mut Vec<u8>, name: &[u8; 16], item: &ItemKept) -> Result<(), OutOfMemory>
    requires { FitsShort (kept_item item.now) }
    ensures { OnOk result (bytes.new.items ≡ bytes.old.items ++ named_block name.now (item_bytes (kept_item item.now))) }
{
    match item {
        ItemKept::Achievement {
            state,
            measured,
            hits,
            earned,
        } => {
            let state = state_byte(*state, *earned);
            put_achievement(bytes, name, state, *measured, hits)
        }
        ItemKept::Leaderboard { state, hits, kept } => put_board(bytes, name, *state, hits, kept),
    }
}

/// The state byte of an achievement: its state from 0 to 4, and 8 more where it is earned.
pub fn state_byte(state: u8, earned: bool) -> u8
    requires { state ≤ 4 }
    ensures { result ≡ spec.state_byte state earned }
{
    if earned { state + 8 } else { state }
}

/// Writes an achievement with its name and length after other bytes: docs/DEFINITIONS.md, "Progress
/// file".
///
/// `state` is its state byte, as `state_byte` gives it. After `OutOfMemory` some of it may be there.
pub fn put_achievement(
    bytes: &mut Vec<u8>,
    name: &[u8; 16],
    state: u8,
    measured: u32,
    hits: &[u32],
) -> Result<(), OutOfMemory>
    requires { length_of_list hits.now ≤ 2097152 }
    ensures bytes { OnOk result (bytes.new.items ≡ bytes.old.items ++ named_block name.now (state ∷ words (measured ∷ hits.now))) }
    ensures hits { OnOk result (AreWords (length_of_list hits.now) hits.now) }
{
    let size = 5 + 4 * hits.len() as u32;
    put_named(bytes, name, size)?;
    bytes.push(state)?;
    write_words(bytes, &[measured])?;
    write_words(bytes, hits)?;
    Ok(())
}

/// Writes a leaderboard with its name and length after other bytes: docs/DEFINITIONS.md, "Progress
/// file". After `OutOfMemory` some of it may be there.
pub fn put_board(
    bytes: &mut Vec<u8>,
    name: &[u8; 16],
    state: u8,
    hits: &[u32],
    numbers: &[u32],
) -> Result<(), OutOfMemory>
    requires { length_of_list hits.now + length_of_list numbers.now ≤ 2097152 }
    ensures { OnOk result (bytes.new.items ≡ bytes.old.items ++ named_block name.now (state ∷ (words hits.now ++ words numbers.now))) }
{
    let size = 1 + 4 * (hits.len() + numbers.len()) as u32;
    put_named(bytes, name, size)?;
    bytes.push(state)?;
    write_words(bytes, hits)?;
    write_words(bytes, numbers)?;
    Ok(())
}

/// Writes the script with its name and length, where there is one.
fn put_script(
    bytes: &mut Vec<u8>,
    name: &Option<[u8; 16]>,
    presence: &Option<PresenceKept>,
) -> Result<(), OutOfMemory>
    requires { PresenceShort (option_map kept_presence presence.now) }
    ensures { OnOk result (bytes.new.items ≡ bytes.old.items ++ named_blocks (option_to_list name.now) (presence_block (option_map kept_presence presence.now))) }
{
    match name {
        Some(name) => match presence {
            Some(kept) => put_presence(bytes, name, kept.shown, &kept.hits, &kept.kept),
            None => Ok(()),
        },
        None => Ok(()),
    }
}

/// Writes a script with its name and length after other bytes: docs/DEFINITIONS.md, "Progress file".
/// After `OutOfMemory` some of it may be there.
pub fn put_presence(
    bytes: &mut Vec<u8>,
    name: &[u8; 16],
    shown: u32,
    hits: &[u32],
    numbers: &[u32],
) -> Result<(), OutOfMemory>
    requires { length_of_list hits.now + length_of_list numbers.now ≤ 2097152 }
    ensures { OnOk result (bytes.new.items ≡ bytes.old.items ++ named_block name.now (words (shown ∷ hits.now) ++ words numbers.now)) }
{
    let size = 4 + 4 * (hits.len() + numbers.len()) as u32;
    put_named(bytes, name, size)?;
    write_words(bytes, &[shown])?;
    write_words(bytes, hits)?;
    write_words(bytes, numbers)?;
    Ok(())
}

/// Writes a name, and the length of the block after it.
fn put_named(bytes: &mut Vec<u8>, name: &[u8; 16], size: u32) -> Result<(), OutOfMemory>
    ensures { OnOk result (bytes.new.items ≡ bytes.old.items ++ (name.now ++ to_le_bytes w32 size)) }
{
    bytes.extend_from_slice(name)?;
    bytes.extend_from_slice(&size.to_le_bytes())?;
    Ok(())
}
