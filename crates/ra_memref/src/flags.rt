//! Rows of flags.

ghost use Rattle.std.specs.Prelude.{◌≡◌, ◌+◌, ◌*◌, ◌/◌, ◌^◌, ◌<◌, ◌≤◌, ℕ, true, length, replicate, slice_index_or, slice_set, IfOk, IfSome, None};
ghost use Rattle.ra_memref.specs.Flags.{AreBlocked, IsFirstSet, NoneSet, SetsAll, SetsBetween};
ghost use Rattle.ra_memref.specs.Table.{IsListed};

use crate::flag_row::FlagRow;
use ra_text::OutOfMemory;
use std::alloc::Global;
use std::marker::Model;

/// How many flags stand in a block.
const BLOCK: usize = 64;

/// A row of flags, seen as their list: a block without one that is set is passed over at once, and so
/// are 64 such blocks. Where it is known that none is set nothing is looked for.
///
/// Flags are counted from 0, and 64 stand in a block. Only `new` takes memory.
#[derive(Drop)]
pub struct Flags {
    flags: FlagRow,
    blocks: FlagRow,
    any: bool,
}

impl Model for Flags {
    ghost use Rattle.std.specs.Prelude.{List, Bool};
    ghost use Rattle.std.specs.Prelude.{◌≡◌, false, length};
    ghost use Rattle.ra_memref.specs.Flags.{AreInBlocks, NoneSet};

    ghost Value = { List Bool };

    ghost view = { λ f. f.flags };

    ghost invariant = { λ f. record {
      in_blocks : AreInBlocks f.flags f.blocks;
      none : f.any ≡ false → NoneSet f.flags 0 (length f.flags);
    } };
}

impl Flags {
    /// This many flags, all set. Memory is the only refusal.
    pub fn new(alloc: Global, count: usize) -> Result<Flags, OutOfMemory>
        ensures { IfOk result (λ flags. flags ≡ replicate count true) }
    {
        let flags = FlagRow::new(alloc, count)?;
        let blocks = FlagRow::new(alloc, count / BLOCK + 1)?;
        Ok(Flags {
            flags,
            blocks,
            any: true,
        })
    }

    /// Whether the flag of a place is set.
    pub fn is_set(&self, place: usize) -> bool
        requires { place < length self.now }
        ensures { result ≡ slice_index_or self.now place true }
    {
        self.flags.is_set(place)
    }

    /// Sets the flag of a place, or takes it back.
    pub fn put(&mut self, place: usize, flag: bool)
        requires { place < length self.old }
        ensures { self.new ≡ slice_set self.old place flag }
    {
        self.any |= flag;
        let left = self.flags.put(place, flag);
        if self.blocks.is_set(place / BLOCK) != left {
            self.blocks.put(place / BLOCK, left);
        }
    }

    /// Sets the flags from a place on and before another: whole blocks at once, and the others one by one, so that no bit is
    /// set whose flag is not.
    #[inline]
    pub fn set_between(&mut self, from: usize, to: usize)
        requires order { from ≤ to }
        requires within { to ≤ length self.old }
        ensures { SetsBetween from to self.old self.new }
    {
        if from < to {
            self.set_some(from, to);
        }
    }

    // Does so, where there may be whole blocks.
    #[inline(never)]
    fn set_some(&mut self, from: usize, to: usize)
        requires order { from ≤ to }
        requires within { to ≤ length self.old }
        ensures { SetsBetween from to self.old self.new }
    {
        let end = to / BLOCK * BLOCK;
        let first = from.saturating_add(BLOCK - 1) / BLOCK * BLOCK;
        if first >= end {
            self.set_each(from, to);
            return;
        }
        self.set_each(from, first);
        self.set_whole(first, end);
        self.set_each(end, to);
    }

    // Does so one by one.
    fn set_each(&mut self, from: usize, to: usize)
        requires order { from ≤ to }
        requires within { to ≤ length self.old }
        ensures { SetsBetween from to self.old self.new }
    {
        for place in from..to {
            self.put(place, true);
        }
    }

    // Does so at once, where a block begins at each of both places.
    fn set_whole(&mut self, from: usize, to: usize)
        requires some { from < to }
        requires within { to ≤ length self.old }
        ensures { SetsBetween from to self.old self.new }
    {
        self.any = true;
        self.flags.set_between(from, to);
        self.blocks.set_between(from / BLOCK, (to - 1) / BLOCK + 1);
    }

    // More flags than this many may be set. No clause speaks of what it tells.
    pub(crate) fn may_be_more(&self, many: usize) -> bool {
        self.blocks.most() > many / BLOCK && self.flags.most() > many
    }

    /// Sets all flags.
    pub fn fill(&mut self)
        ensures { self.new ≡ replicate (length self.old) true }
    {
        self.any = true;
        self.flags.fill();
        self.blocks.fill();
    }

    /// Takes back the flags from a place on.
    pub fn clear_from(&mut self, from: usize)
        requires { from ≤ length self.old }
        ensures long { length self.new ≡ length self.old }
        ensures before { (k : ℕ) → k < from → slice_index_or self.new k true ≡ slice_index_or self.old k true }
        ensures none { NoneSet self.new from (length self.old) }
    {
        self.flags.clear_from(from);
    }

    /// The place of the first flag that is set. None exactly where none is.
    ///
    /// No flag changes. It looks at blocks first, so it is for a row in which few flags are set.
    pub fn first(&mut self) -> Option<usize>
        ensures first { IfSome result (λ n. IsFirstSet self.old 0 n) }
        ensures none { result ≡ None → NoneSet self.old 0 (length self.old) }
        ensures same { self.new ≡ self.old }
    {
        next_by_blocks(&mut self.flags, &mut self.blocks, 0)
    }

    /// The place of the first flag from a place on that is set. None exactly where none is.
    ///
    /// No flag changes. A block in which it has looked at each flag, and found none set, is passed over
    /// at the next call.
    pub fn next_from(&mut self, from: usize) -> Option<usize>
        ensures first { IfSome result (λ n. IsFirstSet self.old from n) }
        ensures none { result ≡ None → NoneSet self.old from (length self.old) }
        ensures same { self.new ≡ self.old }
    {
        let len = self.flags.len();
        if from >= len {
            return None;
        }
        let place = self.flags.next_in_word(from);
        if place < len && self.flags.is_set(place) {
            return Some(place);
        }
        if from > 0 {
            return next_by_blocks(&mut self.flags, &mut self.blocks, place);
        }
        if !self.any {
            return None;
        }
        let first = next_by_blocks(&mut self.flags, &mut self.blocks, place);
        self.any = first.is_some();
        first
    }
}

/// Sets the flags of these places.
pub fn set_all(flags: &mut Flags, places: &[u32])
    requires { (k : ℕ) → IsListed k places.now → k < length flags.old }
    ensures { SetsAll places.now flags.old flags.new }
{
    for place in places {
        flags.put(*place as usize, true);
    }
}

// The first flag from a place on that is set. A block that was gone through whole is one without.
fn next_by_blocks(flags: &mut FlagRow, blocks: &mut FlagRow, from: usize) -> Option<usize>
    requires tight { length blocks.old ≤ length flags.old / 64 + 1 }
    requires blocked { AreBlocked flags.old blocks.old }
    ensures first { IfSome result (λ n. IsFirstSet flags.old from n) }
    ensures none { result ≡ None → NoneSet flags.old from (length flags.old) }
    ensures same { flags.new ≡ flags.old }
    ensures tight { length blocks.new ≤ length flags.old / 64 + 1 }
    ensures blocked { AreBlocked flags.old blocks.new }
{
    let len = flags.len();
    let mut at = from;
    while let Some(block) = blocks.next_from(at / BLOCK) {
        at = at.max(block * BLOCK);
        if at >= len {
            return None;
        }
        let end = block_end(at, len);
        if let Some(place) = flags.next_in(at, end) {
            return Some(place);
        }
        blocks.put(block, at > block * BLOCK);
        at = end;
    }
    None
}

// Where the block of a place ends, or the row.
fn block_end(at: usize, len: usize) -> usize
    requires at { at < len }
    requires few { len < 2 ^ 63 }
    ensures within { result ≤ len }
    ensures further { at < result }
    ensures block { result ≤ 64 * (at / 64 + 1) }
    ensures whole { (k : ℕ) → k < len → k / 64 ≡ at / 64 → k < result }
{
    let end = (at / BLOCK + 1) * BLOCK;
    if end < len { end } else { len }
}
