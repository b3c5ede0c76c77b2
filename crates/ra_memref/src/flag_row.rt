ghost use Rattle.std.specs.Prelude.{◌≡◌, ◌-◌, ◌/◌, ◌^◌, ◌<◌, ◌≤◌, ℕ, true, false, length, replicate, slice_index, slice_index_or, slice_set, IfOk, IfSome, None};
ghost use Rattle.std.specs.Int.{bit_at};
ghost use Rattle.ra_memref.specs.Flags.{FillsBetween, NoneSet, IsFirstSet, SetsBetween, SetsBit};

use ra_text::OutOfMemory;
use std::alloc::Global;
use std::marker::Model;

/// How many flags stand in a word.
const WORD: usize = 64;

/// A row of flags, seen as their list, with a bit for each that may be set: 64 flags are passed over at once.
///
/// Flags are counted from 0. Only `new` takes memory.
#[derive(Drop)]
pub struct FlagRow {
    flags: Vec<bool>,
    words: Vec<u64>,
}

impl Model for FlagRow {
    ghost use Rattle.std.specs.Prelude.{List, Bool};
    ghost use Rattle.ra_memref.specs.Flags.{AreWorded};

    ghost Value = { List Bool };

    ghost view = { λ f. f.flags.items };

    ghost invariant = { λ f. AreWorded f.flags.items f.words.items };
}

impl FlagRow {
    /// This many flags, all set. Memory is the only refusal.
    pub fn new(alloc: Global, count: usize) -> Result<FlagRow, OutOfMemory>
        ensures { IfOk result (λ row. row ≡ replicate count true) }
    {
        let flags = set_flags(alloc, count)?;
        let words = full_words(alloc, count / WORD + 1)?;
        Ok(FlagRow { flags, words })
    }

    /// How many flags there are.
    pub fn len(&self) -> usize
        ensures len { result ≡ length self.now }
        ensures few { result < 2 ^ 63 }
    {
        self.flags.len()
    }

    // How many flags are set at most, but for the bits of the last word that have no flag. No clause speaks of what it
    // tells.
    pub(crate) fn most(&self) -> usize {
        let mut most: usize = 0;
        for word in &self.words {
            most = most.wrapping_add(word.count_ones() as usize);
        }
        let spare = self
            .words
            .len()
            .wrapping_mul(WORD)
            .wrapping_sub(self.flags.len());
        most.saturating_sub(spare)
    }

    /// Whether the flag of a place is set.
    pub fn is_set(&self, place: usize) -> bool
        requires { place < length self.now }
        ensures { result ≡ slice_index_or self.now place true }
    {
        self.flags[place]
    }

    /// Sets the flag of a place, or takes it back, and tells whether any of the 64 of its word may be set.
    pub fn put(&mut self, place: usize, flag: bool) -> bool
        requires { place < length self.old }
        ensures put { self.new ≡ slice_set self.old place flag }
        ensures left { result ≡ false → (k : ℕ) → k < length self.old → k / 64 ≡ place / 64
            → slice_index_or self.new k true ≡ false }
    {
        self.flags[place] = flag;
        let word = with_bit(self.words[place / WORD], (place % WORD) as u32, flag);
        self.words[place / WORD] = word;
        word != 0
    }

    /// Sets all flags.
    pub fn fill(&mut self)
        ensures { self.new ≡ replicate (length self.old) true }
    {
        fill_flags(&mut self.flags);
        fill_words(&mut self.words);
    }

    /// Sets the flags from a place on and before another.
    pub fn set_between(&mut self, from: usize, to: usize)
        requires some { from < to }
        requires within { to ≤ length self.old }
        ensures { SetsBetween from to self.old self.new }
    {
        set_each(&mut self.flags, from, to);
        fill_between(&mut self.words, from / WORD, (to - 1) / WORD + 1);
    }

    /// Takes back the flags from a place on.
    pub fn clear_from(&mut self, from: usize)
        requires { from ≤ length self.old }
        ensures long { length self.new ≡ length self.old }
        ensures before { (k : ℕ) → k < from → slice_index_or self.new k true ≡ slice_index_or self.old k true }
        ensures none { NoneSet self.new from (length self.old) }
    {
        clear(&mut self.flags, from);
        clear_words(&mut self.words, from / WORD + 1);
    }

    /// The place of the first flag from one place on, and before another, that is set. None exactly where none is.
    ///
    /// No flag changes. A bit that stands for a flag which is not set is taken back.
    pub fn next_in(&mut self, from: usize, to: usize) -> Option<usize>
        requires within { to ≤ length self.old }
        ensures first { IfSome result (λ n. IsFirstSet self.old from n) }
        ensures within { IfSome result (λ n. n < to) }
        ensures none { result ≡ None → NoneSet self.old from to }
        ensures same { self.new ≡ self.old }
    {
        let mut at = from;
        while at < to {
            let place = self.next_in_word(at);
            if place >= to {
                return None;
            }
            if self.flags[place] {
                return Some(place);
            }
            self.take_back(place);
            at = place + 1;
        }
        None
    }

    /// The place of the first flag from a place on that is set. None exactly where none is. No flag changes.
    pub fn next_from(&mut self, from: usize) -> Option<usize>
        ensures first { IfSome result (λ n. IsFirstSet self.old from n) }
        ensures none { result ≡ None → NoneSet self.old from (length self.old) }
        ensures same { self.new ≡ self.old }
    {
        let len = self.flags.len();
        self.next_in(from, len)
    }

    // Takes back the bit of a flag that is not set. Where a word begins there is none, as a rule.
    fn take_back(&mut self, place: usize)
        requires here { place < length self.old }
        requires unset { slice_index_or self.old place true ≡ false }
        ensures { self.new ≡ self.old }
    {
        if place % WORD != 0 {
            self.put(place, false);
        }
    }

    /// A place from one on up to which no flag is set, in its word or at its end.
    pub fn next_in_word(&self, from: usize) -> usize
        requires { from < length self.now }
        ensures after { from ≤ result }
        ensures none { (k : ℕ) → from ≤ k → k < result → k < length self.now → slice_index_or self.now k true ≡ false }
    {
        let bit = next_bit(self.words[from / WORD], (from % WORD) as u32);
        from / WORD * WORD + bit as usize
    }
}

// This many flags, all set. Memory is the only refusal.
fn set_flags(alloc: Global, count: usize) -> Result<Vec<bool>, OutOfMemory>
    ensures { IfOk result (λ flags. flags.items ≡ replicate count true) }
{
    let flags = vec![in alloc; true; count]?;
    Ok(flags)
}

// This many words with all bits set. Memory is the only refusal.
fn full_words(alloc: Global, count: usize) -> Result<Vec<u64>, OutOfMemory>
    ensures { IfOk result (λ words. words.items ≡ replicate count (2 ^ 64 - 1)) }
{
    let words = vec![in alloc; u64::MAX; count]?;
    Ok(words)
}

// Sets all flags.
fn fill_flags(flags: &mut Vec<bool>)
    ensures { flags.new.items ≡ replicate (length flags.old.items) true }
{
    flags.fill(true);
}

// Sets all bits of all words.
fn fill_words(words: &mut Vec<u64>)
    ensures { words.new.items ≡ replicate (length words.old.items) (2 ^ 64 - 1) }
{
    words.fill(u64::MAX);
}

// Sets the flags from a place on and before another.
fn set_each(flags: &mut Vec<bool>, from: usize, to: usize)
    requires order { from ≤ to }
    requires within { to ≤ length flags.old.items }
    ensures { SetsBetween from to flags.old.items flags.new.items }
{
    for place in from..to {
        flags[place] = true;
    }
}

// Sets all bits of the words from one on and before another.
fn fill_between(words: &mut Vec<u64>, first: usize, end: usize)
    requires order { first ≤ end }
    requires within { end ≤ length words.old.items }
    ensures { FillsBetween first end words.old.items words.new.items }
{
    for word in first..end {
        words[word] = u64::MAX;
    }
}

// Takes back the flags from a place on.
fn clear(flags: &mut Vec<bool>, from: usize)
    requires { from ≤ length flags.old.items }
    ensures long { length flags.new.items ≡ length flags.old.items }
    ensures before { (k : ℕ) → k < from
        → slice_index_or flags.new.items k true ≡ slice_index_or flags.old.items k true }
    ensures none { NoneSet flags.new.items from (length flags.old.items) }
{
    for place in from..flags.len() {
        flags[place] = false;
    }
}

// Takes back all bits of the words from one on.
fn clear_words(words: &mut Vec<u64>, from: usize)
    ensures long { length words.new.items ≡ length words.old.items }
    ensures before { (k : ℕ) → k < from → slice_index words.new.items k ≡ slice_index words.old.items k }
{
    for word in from..words.len() {
        words[word] = 0;
    }
}

// A word with one of its 64 bits set, or taken back.
fn with_bit(word: u64, bit: u32, set: bool) -> u64
    requires { bit < 64 }
    ensures { SetsBit bit set word result }
{
    if set {
        word | 1u64 << bit
    } else {
        word & !(1u64 << bit)
    }
}

// The first bit of a word from one on that is set, or 64.
fn next_bit(word: u64, from: u32) -> u32
    requires { from < 64 }
    ensures after { from ≤ result }
    ensures most { result ≤ 64 }
    ensures none { (k : ℕ) → from ≤ k → k < result → bit_at word k ≡ 0 }
{
    let rest = word >> from;
    if rest == 0 {
        64
    } else {
        from + rest.trailing_zeros()
    }
}
