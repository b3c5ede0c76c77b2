//! Numbers that are written over a row of bytes: docs/DEFINITIONS.md, "States kept in memory".

ghost use Rattle.std.specs.Prelude.{◌≡◌, ◌+◌, ◌≤◌, ◌∷◌, [], if◌then◌else◌, drop, length, map, take};
ghost use Rattle.std.specs.List.{concat};
ghost use Rattle.std.specs.Int.{w32, to_le_bytes};
ghost use Rattle.ra_member.specs.Members.{saved_hits, saved_numbers};
ghost use Rattle.ra_member.specs.MemberRuns.{kept_by};
ghost use Rattle.ra_schedule.specs.Counted.{CountsFit, owed_by};
ghost use Rattle.ra_schedule.specs.Counts.{bit_rows, counts_of};
ghost use Rattle.ra_schedule.specs.Groups.{plus};
ghost use Rattle.ra_display.specs.Keeping.{HasWords, PutsOver, PutsWords, seen_hits, seen_rows};
ghost use Rattle.ra_display.specs.LineRests.{seen_line};

use ra_member::{Member, TriggerRun, ValueRun};
use ra_schedule::{Counts, MemberCounts};

/// Writes a byte over the one at a place, and gives the place after it.
pub fn put_byte(row: &mut [u8], at: usize, byte: u8) -> usize
    requires { at + 1 ≤ length row.old }
    ensures { PutsOver row.old row.new at result (byte ∷ []) }
{
    row[at] = byte;
    at + 1
}

/// Writes a number over the four bytes from a place on, the least first, and gives the place after them.
#[inline]
pub fn put_word(row: &mut [u8], at: usize, number: u32) -> usize
    requires { at + 4 ≤ length row.old }
    ensures { PutsOver row.old row.new at result (to_le_bytes w32 number) }
{
    let bytes = number.to_le_bytes();
    row[at] = bytes[0];
    row[at + 1] = bytes[1];
    row[at + 2] = bytes[2];
    row[at + 3] = bytes[3];
    at + 4
}

// Writes numbers over the words from a place on, and gives the place after them.
fn put_row(row: &mut [u8], at: usize, numbers: &[u32]) -> usize
    requires { HasWords row.old at numbers.now }
    ensures { PutsWords row.old row.new at result numbers.now }
{
    let mut next = at;
    for place in 0..numbers.len() {
        next = put_word(row, next, numbers[place]);
    }
    next
}

// A hit with what it owes for this many frames paid, where its condition counts.
#[inline]
fn paid_hit(hit: u32, counts: bool, frames: u32) -> u32
    ensures { result ≡ (if counts then plus frames hit else hit) }
{
    let more = if counts { frames } else { 0 };
    hit.saturating_add(more)
}

// Four hits from a place on, with what they owe for this many frames paid.
#[inline]
fn paid_four(hits: &[u32], counted: &[bool], place: usize, frames: u32) -> [u32; 4]
    requires as_many { length counted.now ≡ length hits.now }
    requires within { place + 4 ≤ length hits.now }
    ensures { result ≡ take 4 (drop place (owed_by frames counted.now hits.now)) }
{
    [
        paid_hit(hits[place], counted[place], frames),
        paid_hit(hits[place + 1], counted[place + 1], frames),
        paid_hit(hits[place + 2], counted[place + 2], frames),
        paid_hit(hits[place + 3], counted[place + 3], frames),
    ]
}

// Writes four numbers over the words from a place on, and gives the place after them.
#[inline]
fn put_four(row: &mut [u8], at: usize, numbers: [u32; 4]) -> usize
    requires { at + 16 ≤ length row.old }
    ensures { PutsWords row.old row.new at result numbers }
{
    let next = put_word(row, at, numbers[0]);
    let next = put_word(row, next, numbers[1]);
    let next = put_word(row, next, numbers[2]);
    put_word(row, next, numbers[3])
}

// Writes hits over the words from a place on, with what they owe for this many frames paid, and gives the place after
// them. Four go at a turn, and then those that are left.
fn put_paid(row: &mut [u8], at: usize, hits: &[u32], counted: &[bool], frames: u32) -> usize
    requires as_many { length counted.now ≡ length hits.now }
    requires room { HasWords row.old at hits.now }
    ensures { PutsWords row.old row.new at result (owed_by frames counted.now hits.now) }
{
    let fours = hits.len() / 4;
    for four in 0..fours {
        let place = 4 * four;
        put_four(row, at + 4 * place, paid_four(hits, counted, place, frames));
    }
    for left in 0..hits.len() % 4 {
        let place = 4 * fours + left;
        put_word(
            row,
            at + 4 * place,
            paid_hit(hits[place], counted[place], frames),
        );
    }
    at + 4 * hits.len()
}

/// Writes hits as they are seen over the words from a place on, and gives the place after them. `counted` says which of
/// them counted at the frame at which the rest began, and `owed` for how many frames hits are owed, where they rest.
pub fn put_hits(
    row: &mut [u8],
    at: usize,
    hits: &[u32],
    counted: &[bool],
    owed: Option<u32>,
) -> usize
    requires as_many { length counted.now ≡ length hits.now }
    requires room { HasWords row.old at hits.now }
    ensures { PutsWords row.old row.new at result (seen_hits owed counted.now hits.now) }
{
    match owed {
        Some(frames) => put_paid(row, at, hits, counted, frames),
        None => put_row(row, at, hits),
    }
}

// Writes the hits of tests as they are seen, and gives the place after them.
fn put_tests(
    row: &mut [u8],
    at: usize,
    tests: &[TriggerRun],
    counts: &[Counts],
    owed: Option<u32>,
) -> usize
    requires as_long { map length (bit_rows counts.now) ≡ map length (map (λ test. test.trigger.hits) tests.now) }
    requires room { HasWords row.old at (concat (map (λ test. test.trigger.hits) tests.now)) }
    ensures { PutsWords row.old row.new at result
        (concat (seen_rows owed (bit_rows counts.now) (map (λ test. test.trigger.hits) tests.now))) }
{
    let mut next = at;
    for place in 0..tests.len() {
        let hits = tests[place].trigger.hits();
        next = put_hits(row, next, hits, counts[place].counted(), owed);
    }
    next
}

// Writes the hits of values as they are seen, and gives the place after them.
fn put_values(
    row: &mut [u8],
    at: usize,
    values: &[ValueRun],
    counts: &[Counts],
    owed: Option<u32>,
) -> usize
    requires as_long { map length (bit_rows counts.now) ≡ map length (map (λ value. value.value.hits) values.now) }
    requires room { HasWords row.old at (concat (map (λ value. value.value.hits) values.now)) }
    ensures { PutsWords row.old row.new at result
        (concat (seen_rows owed (bit_rows counts.now) (map (λ value. value.value.hits) values.now))) }
{
    let mut next = at;
    for place in 0..values.len() {
        let hits = values[place].value.hits();
        next = put_hits(row, next, hits, counts[place].counted(), owed);
    }
    next
}

/// Writes the hits of a member as they are seen, those of the tests first, and gives the place after them.
pub fn put_member_hits(
    row: &mut [u8],
    at: usize,
    member: &Member,
    counts: &MemberCounts,
    owed: Option<u32>,
) -> usize
    requires fit { CountsFit (counts_of counts.now) (kept_by member.now) }
    requires room { HasWords row.old at (saved_hits (kept_by member.now)) }
    ensures { PutsWords row.old row.new at result (saved_hits (seen_line member.now counts.now owed)) }
{
    let next = put_tests(row, at, &member.tests, &counts.tests, owed);
    put_values(row, next, &member.values, &counts.values, owed)
}

/// Writes the numbers of a member's values, and gives the place after them.
pub fn put_member_numbers(row: &mut [u8], at: usize, member: &Member) -> usize
    requires { HasWords row.old at (saved_numbers (kept_by member.now)) }
    ensures { PutsWords row.old row.new at result (saved_numbers (kept_by member.now)) }
{
    let mut next = at;
    for place in 0..member.values.len() {
        next = put_row(row, next, member.values[place].value.kept());
    }
    next
}
