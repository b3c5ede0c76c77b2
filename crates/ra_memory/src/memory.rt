ghost use Rattle.std.specs.Prelude.{◌≡◌, ◌+◌, ◌<◌, ◌≤◌, ◌^◌, ◌↔◌, length, replicate, slice_index, IfOk, OnOk, IsErr, OnErr};
ghost use Rattle.ra_memory.specs.Image.{raw, written, IsReadWidth};

use crate::out_of_range::OutOfRange;
use crate::steps::Steps;
use ra_text::OutOfMemory;
use std::alloc::Global;
use std::marker::Model;
use std::sync::ledger::Ledger;

/// The memory of the machine: docs/DEFINITIONS.md, "Images and histories".
///
/// Only `read` looks at its bytes.
#[derive(Drop)]
pub struct Memory {
    bytes: Vec<u8>,
}

impl Model for Memory {
    ghost use Rattle.std.specs.Prelude.{◌≤◌, ◌^◌, ℕ, List, length};

    ghost Value = { List ℕ };

    ghost view = { λ m. m.bytes.items };

    ghost invariant = { λ m. length m.bytes.items ≤ 2 ^ 27 };
}

impl Memory {
    /// A memory of `size` bytes, at most 134,217,728, all 0.
    pub fn new(alloc: Global, size: u32) -> Result<Memory, OutOfMemory>
        requires { size ≤ 2 ^ 27 }
        ensures { IfOk result (λ memory. memory ≡ replicate size 0) }
    {
        let bytes = vec![in alloc; 0; size as usize]?;
        Ok(Memory { bytes })
    }

    /// How many bytes there are.
    pub fn size(&self) -> u32
        ensures size { result ≡ length self.now }
        ensures most { result ≤ 2 ^ 27 }
    {
        self.bytes.len() as u32
    }

    /// Writes the bytes from the address `at` on: docs/DEFINITIONS.md, "Images and histories".
    ///
    /// `OutOfRange` exactly where they pass the end, and then nothing is written.
    pub fn write(&mut self, at: u32, bytes: &[u8]) -> Result<(), OutOfRange>
        ensures ok { OnOk result (self.new ≡ written self.old at bytes.now) }
        ensures refused { IsErr result ↔ (length self.old < at + length bytes.now) }
        ensures err { OnErr result (self.new ≡ self.old) }
    {
        let at = at as usize;
        if at > self.bytes.len() || bytes.len() > self.bytes.len() - at {
            return Err(OutOfRange);
        }
        self.bytes[at..at + bytes.len()].copy_from_slice(bytes);
        Ok(())
    }

    /// The little-endian number of `width` bytes, 1, 2 or 4, from the address `at` on, with 0 for a
    /// byte past the end. It is one step.
    pub fn read<L: Ledger>(&self, at: u32, width: u8, steps: &mut Steps<L>) -> u32
        requires { IsReadWidth width }
        ensures number { result ≡ raw width self.now at }
        ensures step { steps.new ≡ steps.old + 1 }
    {
        steps.tick();
        let at = at as usize;
        match width {
            1 => self.byte(at),
            2 => self.byte(at) + 256 * self.byte(at + 1),
            _ => {
                let low = self.byte(at) + 256 * self.byte(at + 1);
                let high = self.byte(at + 2) + 256 * self.byte(at + 3);
                low + 65536 * high
            }
        }
    }

    // The byte at an address, 0 past the end.
    fn byte(&self, at: usize) -> u32
        ensures byte { result ≡ slice_index self.now at }
        ensures small { result < 256 }
    {
        match self.bytes.get(at) {
            Some(byte) => u32::from(*byte),
            None => 0,
        }
    }
}
