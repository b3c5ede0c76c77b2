//! Names, orders and lengths of progress files, own entries of one name, and files of the most bytes. What other files say, and
//! why they are refused, is shown by runs of the player.

ghost use Rattle.std.specs.Prelude.{◌≤◌, ◌<◌, length as size_of, IfOk};
ghost use Rattle.ra_progress.specs.Names.{IsUsable};

use md5::{Digest, Md5};
use ra_progress::ProgressRefused::{BadEntry, OtherSet};
use ra_progress::{
    ItemKept, ItemShape, Named, OrderRoom, PresenceShape, ProgressRefused, Shape, Snapshot, check,
    decode, frames_at, item_at, length, length_1, matches, name_at, order_of, word_at,
};
use ra_text::OutOfMemory;
use std::alloc::Global;

const DIGEST: [u8; 16] = [
    0x95, 0xc3, 0x20, 0x26, 0xa3, 0xa7, 0xb6, 0xfc, 0x1a, 0xa5, 0x3d, 0x35, 0x5d, 0x82, 0xba, 0x02,
];

const CELL: [u8; 16] = [
    0x59, 0x74, 0x9b, 0xd5, 0xca, 0x8a, 0xbe, 0x76, 0x8e, 0xb1, 0x37, 0x06, 0x1a, 0x4f, 0x30, 0xc6,
];

const ITEM: [u8; 16] = [
    0x79, 0x8a, 0x55, 0xfc, 0x59, 0x9d, 0x9d, 0x9b, 0x40, 0x6c, 0x25, 0xa6, 0x42, 0xfa, 0x8a, 0x9a,
];

const FILE: [u8; 106] = [
    0x52, 0x41, 0x50, 0x47, 0x03, 0x95, 0xc3, 0x20, 0x26, 0xa3, 0xa7, 0xb6, 0xfc, 0x1a, 0xa5, 0x3d,
    0x35, 0x5d, 0x82, 0xba, 0x02, 0x05, 0x00, 0x00, 0x00, 0x00, 0x00, 0x00, 0x00, 0x01, 0x00, 0x00,
    0x00, 0x59, 0x74, 0x9b, 0xd5, 0xca, 0x8a, 0xbe, 0x76, 0x8e, 0xb1, 0x37, 0x06, 0x1a, 0x4f, 0x30,
    0xc6, 0x05, 0x00, 0x00, 0x00, 0x00, 0x00, 0x00, 0x00, 0x01, 0x00, 0x00, 0x00, 0x79, 0x8a, 0x55,
    0xfc, 0x59, 0x9d, 0x9d, 0x9b, 0x40, 0x6c, 0x25, 0xa6, 0x42, 0xfa, 0x8a, 0x9a, 0x09, 0x00, 0x00,
    0x00, 0x0c, 0x00, 0x00, 0x00, 0x00, 0x03, 0x00, 0x00, 0x00, 0x0f, 0x6e, 0x03, 0x50, 0xbb, 0xea,
    0x97, 0x1c, 0xff, 0xa0, 0x49, 0x3d, 0xd7, 0x38, 0xd4, 0x41,
];

#[test]
fn names_stand_in_the_file(rt: HostRuntime) {
    let names = [name_at(&FILE, 5), name_at(&FILE, 33), name_at(&FILE, 61)];
    assert_eq!(rt; names, [DIGEST, CELL, ITEM]);
    assert_eq!(rt; (word_at(&FILE, 49), frames_at(&FILE)), (5, 5));
}

#[test]
fn equal_names_stand_by_number(rt: HostRuntime) -> Result<(), OutOfMemory> {
    let names = [CELL, ITEM, CELL, [0; 16], [255; 16]];
    let order = order_of(rt.alloc(), &names, &Some(CELL))?;
    assert_eq!(rt; order.as_slice(), [3, 0, 2, 5, 1, 4].as_slice());
    Ok(())
}

#[test]
fn names_of_one_front_are_put_in_order(rt: HostRuntime) -> Result<(), OutOfMemory> {
    let mut greater = [7; 16];
    greater[15] = 9;
    let mut room = OrderRoom::new(rt.alloc(), 5)?;
    let mut order = [0; 4];
    room.put_order(&[greater, [7; 16], [0; 16], greater], &mut order);
    assert_eq!(rt; order, [2, 1, 0, 3]);
    Ok(())
}

// The shape of the set of the worked file.
fn row_1(alloc: Global) -> Result<Shape, OutOfMemory>
    ensures usable { IfOk result (λ shape. IsUsable shape) }
    ensures items { IfOk result (λ shape. 0 < size_of shape.items.items) }
{
    Ok(Shape {
        digest: DIGEST,
        cells: vec![in alloc; CELL]?,
        priors: Vec::new(alloc),
        items: vec![in alloc; ItemShape::Achievement { hits: 1 }]?,
        item_names: vec![in alloc; ITEM]?,
        presence: None,
        presence_name: None,
        cell_order: order_of(alloc, &[CELL], &None)?,
        prior_order: order_of(alloc, &[], &None)?,
        entry_order: order_of(alloc, &[ITEM], &None)?,
    })
}

// The bytes of texts of hexadecimal digits in a row, with their sum. Other characters are left out.
fn summed(alloc: Global, texts: &[&str]) -> Result<Vec<u8>, OutOfMemory> {
    let mut bytes = Vec::new(alloc);
    let mut high = None;
    for text in texts {
        for c in text.bytes() {
            let digit = match c {
                b'0'..=b'9' => c - b'0',
                b'a'..=b'f' => c - b'a' + 10,
                _ => continue,
            };
            match high {
                None => high = Some(digit),
                Some(first) => {
                    bytes.push((first << 4) | digit)?;
                    high = None;
                }
            }
        }
    }
    let sum = Md5::digest(bytes.as_slice());
    bytes.extend_from_slice(&sum)?;
    Ok(bytes)
}

// Why such a file is refused.
fn refused(
    alloc: Global,
    shape: &Shape,
    texts: &[&str],
) -> Result<Option<ProgressRefused>, OutOfMemory>
    requires { IsUsable shape.now }
{
    Ok(check(shape, &summed(alloc, texts)?).err())
}

// The first cell, and the state, the first hit and the flag of an achievement of a moment.
fn said_of(snapshot: &Snapshot, number: usize) -> Option<(u32, u8, u32, bool)> {
    let cell = snapshot.cells.get(0).copied().unwrap_or(0);
    match snapshot.items.get(number) {
        Some(
            ItemKept::Achievement {
                state,
                hits,
                earned,
                ..
            },
        ) => Some((cell, *state, hits.get(0).copied().unwrap_or(0), *earned)),
        _ => None,
    }
}

// The same of the achievement of a number that such a file says.
fn said(
    alloc: Global,
    shape: &Shape,
    number: usize,
    texts: &[&str],
) -> Result<Option<(u32, u8, u32, bool)>, OutOfMemory>
    requires { IsUsable shape.now }
{
    let bytes = summed(alloc, texts)?;
    if check(shape, &bytes).is_err() {
        return Ok(None);
    }
    let snapshot = decode(alloc, shape, &bytes)?;
    Ok(said_of(&snapshot, number))
}

const OTHER: [u8; 16] = [0xee; 16];

// The front of a file of another set.
const OTHER_FRONT: &str = "5241504703 eeeeeeeeeeeeeeeeeeeeeeeeeeeeeeee 0500000000000000";

// The name of the item of the set.
const A: &str = "798a55fc599d9d9b406c25a642fa8a9a";

// A shape of two cells of one name, and of two achievements of one, the second with this many hits.
fn forced(alloc: Global, second: u32) -> Result<Shape, OutOfMemory>
    requires { second ≤ 2 }
    ensures { IfOk result (λ shape. IsUsable shape) }
{
    let one = ItemShape::Achievement { hits: 1 };
    let other = ItemShape::Achievement { hits: second };
    Ok(Shape {
        digest: DIGEST,
        cells: vec![in alloc; CELL, CELL]?,
        priors: Vec::new(alloc),
        items: vec![in alloc; one, other]?,
        item_names: vec![in alloc; ITEM, ITEM]?,
        presence: None,
        presence_name: None,
        cell_order: order_of(alloc, &[CELL, CELL], &None)?,
        prior_order: order_of(alloc, &[], &None)?,
        entry_order: order_of(alloc, &[ITEM, ITEM], &None)?,
    })
}

// One entry of one hit, and of two.
const NINE: &[&str] = &[
    OTHER_FRONT,
    "00000000 00000000 01000000",
    A,
    "09000000 01 00000000 03000000",
];

const THIRTEEN: &[&str] = &[
    OTHER_FRONT,
    "00000000 00000000 01000000",
    A,
    "0d000000 01 00000000 03000000 00000000",
];

// Why both are refused by achievements of one name that have other counts of hits.
fn refused_unlike(alloc: Global) -> Result<[Option<ProgressRefused>; 2], OutOfMemory> {
    let shape = forced(alloc, 2)?;
    let nine = refused(alloc, &shape, NINE)?;
    let thirteen = refused(alloc, &shape, THIRTEEN)?;
    Ok([nine, thirteen])
}

const UNLIKE: [Option<ProgressRefused>; 2] = [
    Some(BadEntry {
        at: 57,
        wanted: 13,
        found: 9,
    }),
    Some(BadEntry {
        at: 57,
        wanted: 9,
        found: 13,
    }),
];

// What the entry says of the achievement of a number, of two of one name that have one hit each.
fn said_alike(alloc: Global, number: usize) -> Result<Option<(u32, u8, u32, bool)>, OutOfMemory> {
    let shape = forced(alloc, 1)?;
    said(alloc, &shape, number, NINE)
}

// Where these names of cells stand among the two of one name.
fn matches_alike(alloc: Global) -> Result<[(u32, u32); 3], OutOfMemory> {
    let shape = forced(alloc, 1)?;
    Ok([
        matches(&shape, Named::Cell, &CELL),
        matches(&shape, Named::Cell, &[0; 16]),
        matches(&shape, Named::Cell, &[255; 16]),
    ])
}

// Whether the entry says the same of both.
fn says_alike(alloc: Global) -> Result<bool, OutOfMemory> {
    let said = [said_alike(alloc, 0)?, said_alike(alloc, 1)?];
    Ok(said == [Some((0, 1, 3, false)); 2])
}

#[test]
fn own_entries_of_one_forced_name(rt: HostRuntime) -> Result<(), OutOfMemory> {
    let unlike = refused_unlike(rt.alloc())? == UNLIKE;
    let alike = says_alike(rt.alloc())?;
    let matched = matches_alike(rt.alloc())? == [(0, 2), (0, 0), (2, 2)];
    assert!(rt; unlike && alike && matched);
    Ok(())
}

// A shape of an achievement and a script of one forced name.
fn forced_script(alloc: Global) -> Result<Shape, OutOfMemory>
    ensures { IfOk result (λ shape. IsUsable shape) }
{
    let presence = PresenceShape {
        lines: 2,
        hits: 1,
        parts: 1,
    };
    Ok(Shape {
        digest: DIGEST,
        cells: Vec::new(alloc),
        priors: Vec::new(alloc),
        items: vec![in alloc; ItemShape::Achievement { hits: 1 }]?,
        item_names: vec![in alloc; ITEM]?,
        presence: Some(presence),
        presence_name: Some(ITEM),
        cell_order: order_of(alloc, &[], &None)?,
        prior_order: order_of(alloc, &[], &None)?,
        entry_order: order_of(alloc, &[ITEM], &Some(ITEM))?,
    })
}

fn matches_script(alloc: Global) -> Result<[(u32, u32); 2], OutOfMemory> {
    let shape = forced_script(alloc)?;
    Ok([
        matches(&shape, Named::Entry, &ITEM),
        matches(&shape, Named::Prior, &ITEM),
    ])
}

#[test]
fn a_script_of_the_name_of_an_item(rt: HostRuntime) -> Result<(), OutOfMemory> {
    assert_eq!(rt; matches_script(rt.alloc())?, [(0, 2), (0, 0)]);
    Ok(())
}

// Why bytes are refused by the set of the worked file.
fn refused_bytes(alloc: Global, bytes: &[u8]) -> Result<Option<ProgressRefused>, OutOfMemory> {
    let shape = row_1(alloc)?;
    Ok(check(&shape, bytes).err())
}

// Foreign entries of no bytes.
fn put_foreign(bytes: &mut Vec<u8>, count: u32) -> Result<(), OutOfMemory> {
    for _ in 0..count {
        bytes.extend_from_slice(&OTHER)?;
        bytes.extend_from_slice(&[0; 4])?;
    }
    Ok(())
}

// A file of the most bytes before its sum: entries of a foreign name, and one of nine bytes.
fn put_longest(bytes: &mut Vec<u8>, last: &[u8; 16]) -> Result<(), OutOfMemory> {
    bytes.extend_from_slice(&FILE[..5])?;
    bytes.extend_from_slice(&OTHER)?;
    bytes.extend_from_slice(&FILE[21..29])?;
    bytes.extend_from_slice(&[0, 0, 0, 0, 0, 0, 0, 0, 0x63, 0x66, 6, 0])?;
    put_foreign(bytes, 419425)?;
    bytes.extend_from_slice(&OTHER)?;
    bytes.extend_from_slice(&[2, 0, 0, 0, 0, 0])?;
    bytes.extend_from_slice(last)?;
    bytes.extend_from_slice(&[9, 0, 0, 0, 1, 0, 0, 0, 0, 3, 0, 0, 0])?;
    Ok(())
}

// Such a file, with its sum.
fn longest(alloc: Global, last: &[u8; 16]) -> Result<Vec<u8>, OutOfMemory> {
    let mut bytes = Vec::new(alloc);
    put_longest(&mut bytes, last)?;
    let sum = Md5::digest(bytes.as_slice());
    bytes.extend_from_slice(&sum)?;
    Ok(bytes)
}

// Whether such a file has the most bytes, and is refused so.
fn longest_is(
    alloc: Global,
    last: &[u8; 16],
    why: Option<ProgressRefused>,
) -> Result<bool, OutOfMemory> {
    let bytes = longest(alloc, last)?;
    Ok(refused_bytes(alloc, &bytes)? == why && bytes.len() == 8388608)
}

#[test]
fn a_file_of_the_most_bytes(rt: HostRuntime) -> Result<(), OutOfMemory> {
    let other = OtherSet {
        wanted: DIGEST,
        found: OTHER,
    };
    let foreign = longest_is(rt.alloc(), &OTHER, Some(other))?;
    assert!(rt; foreign && longest_is(rt.alloc(), &ITEM, None)?);
    Ok(())
}

// The lengths of the file in the third version and in the first, and the places of the item in the first and the third.
fn lengths(alloc: Global) -> Result<[u64; 4], OutOfMemory> {
    let shape = row_1(alloc)?;
    Ok([
        length(&shape),
        length_1(&shape),
        item_at(&shape, 1, 0),
        item_at(&shape, 3, 0),
    ])
}

fn matches_1(alloc: Global) -> Result<[(u32, u32); 2], OutOfMemory> {
    let shape = row_1(alloc)?;
    Ok([
        matches(&shape, Named::Entry, &ITEM),
        matches(&shape, Named::Entry, &CELL),
    ])
}

#[test]
fn the_worked_file(rt: HostRuntime) -> Result<(), OutOfMemory> {
    let lengths = lengths(rt.alloc())? == [106, 58, 33, 81];
    assert!(rt; lengths && matches_1(rt.alloc())? == [(0, 1), (0, 0)]);
    Ok(())
}
