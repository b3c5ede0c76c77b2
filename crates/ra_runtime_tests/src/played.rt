//! A set that is played over a small memory.

ghost use Rattle.std.specs.Prelude.{◌≡◌, ◌<◌, length, IfOk};
ghost use Rattle.ra_set.specs.Contents.{set_contents};
ghost use Rattle.ra_set.specs.Limits.{IsWithinLimits};
ghost use Rattle.ra_set.specs.Names.{IsNamed};
ghost use Rattle.ra_set.specs.Spelled.{IsSpelled};

use md5::{Digest, Md5};
use ra_memory::Steps;
use ra_progress::ProgressRefused;
use ra_runtime::Runtime;
use ra_set::{Set, parse_set};
use ra_text::OutOfMemory;
use std::alloc::Global;
use std::marker::Brand;
use std::sync::ledger::{Blank, Ledger};
use std::test::Fail;

/// The set of a file that is accepted.
pub(crate) fn set_of(alloc: Global, file: &str) -> Result<Set, Fail>
    ensures limits { IfOk result (λ set. IsWithinLimits (set_contents set)) }
    ensures spelled { IfOk result (λ set. IsSpelled (set_contents set)) }
    ensures named { IfOk result (λ set. IsNamed (set_contents set)) }
{
    match parse_set(alloc, file.as_bytes()) {
        Ok(set) => Ok(set),
        Err(_) => Err(Fail::from("no set")),
    }
}

/// A runtime over 256 bytes, and the bytes of a progress file.
#[derive(Drop)]
pub struct Played {
    runtime: Runtime,
    kept: Vec<u8>,
    ghost size: { length runtime.image ≡ 256 },
}

impl Played {
    /// The set of a file over 256 bytes that are 0, before its first frame. No bytes are kept.
    pub(crate) fn new(alloc: Global, file: &str) -> Result<Box<Played>, Fail> {
        let set = set_of(alloc, file)?;
        let runtime = Runtime::new(alloc, set, 256)?;
        let kept = Vec::new(alloc);
        let played = Box::new(alloc, Played { runtime, kept })?;
        Ok(played)
    }

    /// The runtime.
    pub(crate) fn runtime(&self) -> &Runtime {
        &self.runtime
    }

    /// The bytes that are kept.
    pub(crate) fn kept(&self) -> &[u8] {
        self.kept.as_slice()
    }

    /// Writes one byte.
    pub(crate) fn write(&mut self, at: u8, byte: u8) {
        self.runtime.write(u32::from(at), &[byte]);
    }

    /// Takes a frame.
    pub(crate) fn frame(&mut self) {
        self.take_frame::<Brand>(Blank::new(1));
    }

    /// Takes a frame whose reads nobody counts.
    pub(crate) fn advance(&mut self) {
        self.runtime.advance();
    }

    fn take_frame<L: Ledger>(&mut self, blank: Blank)
        requires name { blank.name ≡ L.name }
        requires parts { blank.parts ≡ L.parts }
        requires held { 0 < blank.parts }
    {
        let mut steps = Steps::<L>::open(blank);
        self.runtime.frame(&mut steps);
    }

    /// Keeps the bytes of a save.
    pub(crate) fn save(&mut self, alloc: Global) -> Result<(), OutOfMemory> {
        self.kept = self.runtime.save(alloc)?;
        Ok(())
    }

    /// Keeps these bytes.
    pub(crate) fn keep(&mut self, alloc: Global, bytes: &[u8]) -> Result<(), OutOfMemory> {
        self.kept = bytes.to_vec(alloc)?;
        Ok(())
    }

    /// Replaces one of the kept bytes.
    pub(crate) fn put(&mut self, at: usize, byte: u8) {
        if let Some(place) = self.kept.get_mut(at) {
            *place = byte;
        }
    }

    /// Keeps this many of the kept bytes.
    pub(crate) fn cut(&mut self, count: usize) {
        self.kept.truncate(count);
    }

    /// Closes the kept bytes anew with their sum.
    pub(crate) fn close(&mut self) -> Result<(), OutOfMemory> {
        let before = self.kept.len().saturating_sub(16);
        self.kept.truncate(before);
        let sum = Md5::digest(self.kept.as_slice());
        self.kept.extend_from_slice(&sum)?;
        Ok(())
    }

    /// Restores the kept bytes.
    pub(crate) fn restore(&mut self) -> Result<(), ProgressRefused> {
        self.runtime.restore(self.kept.as_slice())
    }

    /// How many of the files with one bit of the kept bytes turned are accepted.
    pub(crate) fn accepted_flips(&mut self) -> u32 {
        let mut accepted = 0u32;
        for at in 0..self.kept.len() {
            self.flip(at);
            if self.restore().is_ok() {
                accepted = accepted.saturating_add(1);
            }
            self.flip(at);
        }
        accepted
    }

    /// Turns the lowest bit of one of the kept bytes.
    pub(crate) fn flip(&mut self, at: usize) {
        if let Some(place) = self.kept.get_mut(at) {
            *place ^= 1;
        }
    }
}
