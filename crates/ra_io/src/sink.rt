//! A text that grows, and how a write to it fails.

ghost use Rattle.std.specs.Prelude.{◌≡◌, ℕ, ◌<◌, ◌≤◌, Option, List, length, IfOk, IsErrOf};
ghost use Rattle.ra_io.specs.Causes.{Rose};
ghost use Rattle.ra_io.specs.Sink.{grown, taken};

/// A write failed, or there was no memory for it.
#[derive(Clone, Copy, Debug, PartialEq, Eq)]
pub enum SinkFailed {
    /// The write met a fault, which was counted.
    Failed,
    /// There was no memory for it.
    Memory,
}

/// A text that grows at its end: docs/DEFINITIONS.md, "Files and sinks".
pub trait Sink {
    /// The text so far, where the sink tells it.
    ghost text: { Self → Option (List ℕ) };

    /// How often writes have failed.
    ghost faults: { Self → ℕ };

    /// Takes the first bytes of a piece, at least one of a piece that is not empty, and says how
    /// many.
    ///
    /// At an error it takes none. `Failed` comes only where a fault was counted.
    fn write(&mut self, bytes: &[u8]) -> Result<usize, SinkFailed>
        ensures bound { IfOk result (λ n. n ≤ length bytes.now) }
        ensures some { 0 < length bytes.now → IfOk result (λ n. 0 < n) }
        ensures text { text self.new ≡ grown (text self.old) (taken result bytes.now) }
        ensures later { faults self.old ≤ faults self.new }
        ensures failed { IsErrOf result SinkFailed.Failed → Rose (faults self.old) (faults self.new) };
}
