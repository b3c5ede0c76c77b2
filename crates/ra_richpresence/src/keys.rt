//! Keys of a lookup: docs/DEFINITIONS.md, "Presence scripts".

ghost use Rattle.std.specs.Prelude.{◌≡◌};
ghost use Rattle.ra_condition.specs.Fault.{GivesUnlessFull};
ghost use Rattle.ra_richpresence.specs.Reading.{begins_hex, hex_key_at, key_at, range_at, range_end_at, range_last_at, ranges_at};
ghost use Rattle.ra_text.specs.Moves.{Moves};

use ra_condition::Fault;
use ra_text::{Cursor, Stop};
use std::alloc::Global;

/// range { "," range }
pub fn take_ranges(alloc: Global, cursor: &mut Cursor<'_>) -> Result<Vec<(u32, u32)>, Fault>
    ensures { GivesUnlessFull (λ ranges. ranges.items) result cursor.new.rest.now (ranges_at cursor.old.rest.now) }
{
    // Most lines have one range.
    let mut ranges = Vec::with_capacity(alloc, 1)?;
    ranges.push(take_range(cursor)?)?;
    'others: while cursor.skip(b',') {
        ranges.push(take_range(cursor)?)?;
    }
    Ok(ranges)
}

// key [ "-" key ]
#[tactic(auto, unfolding(crate::specs::Reading::range_at))]
fn take_range(cursor: &mut Cursor<'_>) -> Result<(u32, u32), Stop>
    ensures { Moves result cursor.new.rest.now (range_at cursor.old.rest.now) }
{
    let first = take_key(cursor)?;
    let last = take_range_last(cursor, first)?;
    Ok((first, last))
}

// [ "-" key ], where a key alone is a range from it to itself
#[tactic(auto, unfolding(crate::specs::Reading::range_last_at))]
fn take_range_last(cursor: &mut Cursor<'_>, first: u32) -> Result<u32, Stop>
    ensures { Moves result cursor.new.rest.now (range_last_at first cursor.old.rest.now) }
{
    if cursor.is_at(b'-') {
        take_range_end(cursor)
    } else {
        Ok(first)
    }
}

// "-" key
#[tactic(auto, unfolding(crate::specs::Reading::range_end_at))]
fn take_range_end(cursor: &mut Cursor<'_>) -> Result<u32, Stop>
    ensures { Moves result cursor.new.rest.now (range_end_at cursor.old.rest.now) }
{
    cursor.byte(b'-')?;
    take_key(cursor)
}

// dec | 0x hexnum
#[tactic(auto, unfolding(crate::specs::Reading::key_at))]
fn take_key(cursor: &mut Cursor<'_>) -> Result<u32, Stop>
    ensures { Moves result cursor.new.rest.now (key_at cursor.old.rest.now) }
{
    if begins_hex(cursor.rest) {
        take_hex_key(cursor)
    } else {
        cursor.decimal()
    }
}

// 0x hexnum
#[tactic(auto, unfolding(crate::specs::Reading::hex_key_at))]
fn take_hex_key(cursor: &mut Cursor<'_>) -> Result<u32, Stop>
    ensures { Moves result cursor.new.rest.now (hex_key_at cursor.old.rest.now) }
{
    cursor.byte(b'0')?;
    cursor.letter(b'X')?;
    cursor.hexadecimal()
}

// A hexadecimal key begins.
fn begins_hex(text: &[u8]) -> bool
    ensures { result ≡ begins_hex text.now }
{
    matches!(text, [b'0', b'x' | b'X', ..])
}
