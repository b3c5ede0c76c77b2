ghost use Rattle.std.specs.Prelude.{◌≡◌, ◌++◌, ◌<◌, ◌≤◌, List, ℕ, [], Some, length, OnErr, IfOk, IsOkUnless};

use crate::{Sink, SinkFailed};
use std::alloc::Global;
use std::marker::Model;

/// A text in memory that never fails and takes whole pieces: docs/DEFINITIONS.md, "Files in
/// memory".
#[derive(Drop)]
pub struct SureSink {
    text: Vec<u8>,
}

impl Model for SureSink {
    ghost Value = { List ℕ };

    ghost view = { λ s. s.text.items };
}

impl SureSink {
    /// An empty text.
    pub fn new(alloc: Global) -> SureSink
        ensures { result ≡ [] }
    {
        SureSink {
            text: Vec::new(alloc),
        }
    }

    /// The text.
    pub fn taken(&self) -> &[u8]
        ensures { result.now ≡ self.now }
    {
        self.text.as_slice()
    }
}

impl Sink for SureSink {
    ghost text = { λ s. Some s };

    ghost faults = { λ _. 0 };

    /// Takes the whole piece, and fails only for running out of memory.
    fn write(&mut self, bytes: &[u8]) -> Result<usize, SinkFailed>
        ensures bound { IfOk result (λ n. n ≤ length bytes.now) }
        ensures some { 0 < length bytes.now → IfOk result (λ n. 0 < n) }
        ensures amount { IfOk result (λ n. n ≡ length bytes.now) }
        ensures grown { IfOk result (λ _. self.new ≡ self.old ++ bytes.now) }
        ensures exact { IsOkUnless result SinkFailed.Memory }
        ensures err { OnErr result (self.new ≡ self.old) }
    {
        match self.text.extend_from_slice(bytes) {
            Ok(()) => Ok(bytes.len()),
            Err(_) => Err(SinkFailed::Memory),
        }
    }
}
