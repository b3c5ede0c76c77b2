//! What a progress file says.

ghost use Rattle.std.specs.Prelude.{◌≡◌, ◌+◌, ◌<◌, ◌≤◌, length as length_of_list, map, option_map, IfOk, IfSome};
ghost use Rattle.ra_progress.specs.Contents.{shape_contents, snapshot_contents, kept_item, kept_presence, OfPresence, plain_item, plain_presence};
ghost use Rattle.ra_progress.specs.Layout as layout;
ghost use Rattle.ra_progress.specs.Names.{IsUsable};
ghost use Rattle.ra_progress.specs.Reading.{IsAccepted};
ghost use Rattle.ra_progress.specs.Saying as spec;

use crate::entry_blocks::{achievement_block, board_block, presence_block};
use crate::places::frames_at;
use crate::said::Said;
use crate::shape::{ItemShape, PresenceShape, Shape};
use crate::snapshot::{ItemKept, PresenceKept, Snapshot};
use ra_text::{OutOfMemory, words_at};
use std::alloc::Global;

/// The snapshot that bytes say which `check` accepts: docs/DEFINITIONS.md, "Progress file".
///
/// In version 1 and in a file of this set all fields are read by their places, and else by the
/// names of the shape: the last one of a name counts, and what has none is plain.
pub fn decode(alloc: Global, shape: &Shape, bytes: &[u8]) -> Result<Snapshot, OutOfMemory>
    requires usable { IsUsable shape.now }
    requires accepted { IsAccepted (shape_contents shape.now) bytes.now }
    ensures { IfOk result (λ snapshot. snapshot_contents snapshot ≡ spec.says (shape_contents shape.now) bytes.now) }
{
    let mut said = Said::new(alloc, shape.cells.len(), shape.priors.len(), shape)?;
    said.read(shape, bytes);
    let items = said_items(alloc, shape, bytes, &said.places)?;
    let presence = said_presence(alloc, shape, bytes, &said.places)?;
    Ok(Snapshot {
        frames: frames_at(bytes),
        cells: said.cells,
        priors: said.priors,
        items,
        presence,
    })
}

/// What the bytes say of each item, by the places of their blocks.
fn said_items(
    alloc: Global,
    shape: &Shape,
    bytes: &[u8],
    places: &[Option<u64>],
) -> Result<Vec<ItemKept>, OutOfMemory>
    requires usable { IsUsable shape.now }
    requires accepted { IsAccepted (shape_contents shape.now) bytes.now }
    requires places { places.now ≡ spec.own_places (shape_contents shape.now) bytes.now }
    ensures { IfOk result (λ items. map kept_item items.items ≡ spec.said_items bytes.now shape.now.items.items places.now) }
{
    let mut items = Vec::with_capacity(alloc, shape.items.len())?;
    for k in 0..shape.items.len() {
        items.push(item_or_plain(alloc, bytes, shape.items[k], places[k])?)?;
    }
    Ok(items)
}

/// What the bytes say of an item where they have a block of it, and else what is plain.
fn item_or_plain(
    alloc: Global,
    bytes: &[u8],
    item: ItemShape,
    place: Option<u64>,
) -> Result<ItemKept, OutOfMemory>
    requires versioned { 4 < length_of_list bytes.now }
    requires within { IfSome place (λ at. at + layout.item_length item ≤ length_of_list bytes.now) }
    ensures { IfOk result (λ kept. kept_item kept ≡ spec.said_or (spec.said_item bytes.now item) (plain_item item) place) }
{
    match place {
        Some(at) => said_item(alloc, bytes, item, at),
        None => plain_item(alloc, item),
    }
}

/// What the block of an item at a place says.
fn said_item(alloc: Global, bytes: &[u8], item: ItemShape, at: u64) -> Result<ItemKept, OutOfMemory>
    requires versioned { 4 < length_of_list bytes.now }
    requires within { at + layout.item_length item ≤ length_of_list bytes.now }
    ensures { IfOk result (λ kept. kept_item kept ≡ spec.said_item bytes.now item at) }
{
    match item {
        ItemShape::Achievement { hits } => {
            let block = achievement_block(bytes, at);
            Ok(ItemKept::Achievement {
                state: block.state,
                measured: block.measured,
                hits: words_at(alloc, bytes, block.hits, hits)?,
                earned: block.earned,
            })
        }
        ItemShape::Leaderboard { hits, parts } => {
            let block = board_block(bytes, at, u64::from(hits));
            Ok(ItemKept::Leaderboard {
                state: block.state,
                hits: words_at(alloc, bytes, block.hits, hits)?,
                kept: words_at(alloc, bytes, block.numbers, parts)?,
            })
        }
    }
}

/// Whether the state byte of an achievement says in this version that it is earned: docs/DEFINITIONS.md,
/// "Progress file".
pub fn is_earned(version: u8, byte: u8) -> bool
    ensures { result ≡ spec.is_earned version byte }
{
    if version == 3 { 8 <= byte } else { byte == 4 }
}

/// The state that the state byte of an achievement says in this version: docs/DEFINITIONS.md, "Progress
/// file".
pub fn state_said(version: u8, byte: u8) -> u8
    ensures { result ≡ spec.state_said version byte }
{
    if version == 3 && 8 <= byte {
        byte - 8
    } else {
        byte
    }
}

/// What an item keeps that was never played.
fn plain_item(alloc: Global, item: ItemShape) -> Result<ItemKept, OutOfMemory>
    ensures { IfOk result (λ kept. kept_item kept ≡ plain_item item) }
{
    match item {
        ItemShape::Achievement { hits } => Ok(ItemKept::Achievement {
            state: 0,
            measured: 0,
            hits: vec![in alloc; 0; hits as usize]?,
            earned: false,
        }),
        ItemShape::Leaderboard { hits, parts } => Ok(ItemKept::Leaderboard {
            state: 0,
            hits: vec![in alloc; 0; hits as usize]?,
            kept: vec![in alloc; 0; parts as usize]?,
        }),
    }
}

/// What the bytes say of the presence, where the set has one.
fn said_presence(
    alloc: Global,
    shape: &Shape,
    bytes: &[u8],
    places: &[Option<u64>],
) -> Result<Option<PresenceKept>, OutOfMemory>
    requires usable { IsUsable shape.now }
    requires accepted { IsAccepted (shape_contents shape.now) bytes.now }
    requires places { places.now ≡ spec.own_places (shape_contents shape.now) bytes.now }
    ensures { IfOk result (λ presence. option_map kept_presence presence
        ≡ option_map (λ p. spec.said_or (spec.said_presence bytes.now p) (plain_presence p) (spec.script_place (shape_contents shape.now) bytes.now)) shape.now.presence) }
{
    match shape.presence {
        Some(p) => Ok(Some(presence_or_plain(alloc, bytes, p, places[shape.items.len()])?)),
        None => Ok(None),
    }
}

/// What the bytes say of a presence where they have a block of it, and else what is plain.
fn presence_or_plain(
    alloc: Global,
    bytes: &[u8],
    p: PresenceShape,
    place: Option<u64>,
) -> Result<PresenceKept, OutOfMemory>
    requires { IfSome place (λ at. at + layout.block_length (OfPresence p) ≤ length_of_list bytes.now) }
    ensures { IfOk result (λ kept. kept_presence kept ≡ spec.said_or (spec.said_presence bytes.now p) (plain_presence p) place) }
{
    match place {
        Some(at) => {
            let block = presence_block(bytes, at, p.hits);
            Ok(PresenceKept {
                shown: block.shown,
                hits: words_at(alloc, bytes, block.hits, p.hits)?,
                kept: words_at(alloc, bytes, block.numbers, p.parts)?,
            })
        }
        None => Ok(PresenceKept {
            shown: p.lines.saturating_sub(1),
            hits: vec![in alloc; 0; p.hits as usize]?,
            kept: vec![in alloc; 0; p.parts as usize]?,
        }),
    }
}
