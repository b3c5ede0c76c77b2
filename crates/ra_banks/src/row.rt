ghost use Rattle.std.specs.Prelude.{◌≡◌, ◌+◌, ◌<◌, ◌^◌, IfSome};
ghost use Rattle.ra_memory.specs.Image.{raw, IsReadWidth};
ghost use Rattle.ra_banks.specs.Banks.{bytes_of};

use crate::bank::{Bank, bank_of, byte_at, number_in, number_within};
use std::marker::Model;

/// Banks that lie apart, one after another, seen as their bytes: docs/DEFINITIONS.md, "A frame that looks".
///
/// It knows in which bank the last number was found, and looks there first.
#[derive(Drop)]
pub struct Row<'a> {
    banks: &'a [Bank<'a>],
    // the bytes of the bank in which the last number was found, the address of the first of them, from how
    // many of its places on four of them stand, and the number of the bank after it
    here: &'a [u8],
    start: usize,
    wide: usize,
    next: usize,
}

impl<'a> Model for Row<'a> {
    ghost use Rattle.std.specs.Prelude.{ℕ, List, ◌≤◌, drop, length};
    ghost use Rattle.ra_banks.specs.Banks.{bytes_of, IsHere};

    ghost Value = { List ℕ };

    ghost view = { λ row. bytes_of row.banks.now };

    ghost invariant = { λ row. IsHere (bytes_of row.banks.now) row.here.now (bytes_of (drop row.next row.banks.now)) row.start row.wide × (row.next ≤ length row.banks.now) };
}

impl<'a> Row<'a> {
    /// The banks, of which none was looked at.
    pub fn new(banks: &'a [Bank<'a>]) -> Row<'a>
        ensures { result ≡ bytes_of banks.now }
    {
        Row {
            banks,
            here: &[],
            start: 0,
            wide: 0,
            next: 0,
        }
    }

    /// The little-endian number of `width` bytes, 1, 2 or 4, from the address `at` on, across the borders of
    /// banks, with 0 for a byte past the end.
    #[inline(always)]
    pub fn number_at(&mut self, at: u32, width: u8) -> u32
        requires { IsReadWidth width }
        ensures number { result ≡ raw width self.old at }
        ensures same { self.new ≡ self.old }
    {
        let at = at as usize;
        let left = at.wrapping_sub(self.start);
        if left < self.wide {
            return number_within(self.here, left, width);
        }
        self.number_apart(at, width)
    }

    // The number of bytes of which four do not stand in the bank that was right last.
    #[inline(never)]
    fn number_apart(&mut self, at: usize, width: u8) -> u32
        requires width { IsReadWidth width }
        requires few { at < 2 ^ 32 }
        ensures number { result ≡ raw width self.old at }
        ensures same { self.new ≡ self.old }
    {
        self.find(at);
        if at >= self.start && at - self.start + usize::from(width) <= self.here.len() {
            return number_in(self.here, at - self.start, width);
        }
        self.number_across(at, width)
    }

    // Goes to the bank of an address, where there is one and it is another: from the bank that was right last
    // on where the address is past it, else from the first one.
    #[inline(always)]
    fn find(&mut self, at: usize)
        requires { at < 2 ^ 32 }
        ensures { self.new ≡ self.old }
    {
        if at >= self.start && at - self.start < self.here.len() {
            return;
        }
        let (first, left) = match past(self.start, self.here.len(), at) {
            Some(left) => (self.next, left),
            None => (0, at),
        };
        if let Some((here, from, next)) = bank_of(self.banks, first, left) {
            self.here = here;
            self.start = at - left + from;
            self.wide = here.len().min(4294967296).saturating_sub(3);
            self.next = next;
        }
    }

    // The number of bytes that stand across a border, byte by byte.
    fn number_across(&self, at: usize, width: u8) -> u32
        requires width { IsReadWidth width }
        requires few { at < 2 ^ 32 }
        ensures { result ≡ raw width self.now at }
    {
        match width {
            1 => byte_at(self.banks, at),
            2 => byte_at(self.banks, at) + 256 * byte_at(self.banks, at + 1),
            _ => {
                let low = byte_at(self.banks, at) + 256 * byte_at(self.banks, at + 1);
                let high = byte_at(self.banks, at + 2) + 256 * byte_at(self.banks, at + 3);
                low + 65536 * high
            }
        }
    }
}

// How far an address lies past this many bytes from another address on.
#[inline(always)]
fn past(start: usize, length: usize, at: usize) -> Option<usize>
    ensures { IfSome result (λ left. start + length + left ≡ at) }
{
    at.checked_sub(start)?.checked_sub(length)
}
