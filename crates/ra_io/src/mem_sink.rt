ghost use Rattle.std.specs.Prelude.{◌≡◌, ◌↔◌, ◌<◌, ◌≤◌, ◌++◌, [], Some, length, take, min, OnErr, IfOk, IsErrOf};
ghost use Rattle.ra_io.specs.Causes.{Rose};
ghost use Rattle.ra_io.specs.Held.{SinkSeen, IsListed, no_calls, counted, write_failed};

use crate::calls::Calls;
use crate::sure_sink::SureSink;
use crate::{Sink, SinkFailed};
use std::alloc::Global;
use std::marker::Model;

/// A text in memory that fails at the calls that are listed: docs/DEFINITIONS.md, "Files in
/// memory".
///
/// Calls are counted from 1 on since `new`, calls that fail and calls with an empty piece among
/// them. A call takes no more than `most` bytes.
#[derive(Drop)]
pub struct MemSink {
    text: SureSink,
    most: usize,
    writes: Calls,
}

impl Model for MemSink {
    ghost Value = { SinkSeen };

    ghost view = { λ s. record { text = s.text; most = s.most; writes = s.writes } };

    ghost invariant = { λ s. 1 ≤ s.most };
}

impl MemSink {
    /// An empty text of which a call takes at most `most` bytes; the listed calls are to fail.
    pub fn new(alloc: Global, most: usize, fails: Vec<u64>) -> MemSink
        requires { 1 ≤ most }
        ensures { result ≡ record { text = []; most = most; writes = no_calls fails.items } }
    {
        MemSink {
            text: SureSink::new(alloc),
            most,
            writes: Calls::new(fails),
        }
    }

    /// The text.
    pub fn taken(&self) -> &[u8]
        ensures { result.now ≡ self.now.text }
    {
        self.text.taken()
    }
}

impl Sink for MemSink {
    ghost text = { λ s. Some s.text };

    ghost faults = { λ s. s.writes.faults };

    /// Fails exactly where the call is listed; else it takes as much of the piece as one call
    /// takes.
    fn write(&mut self, bytes: &[u8]) -> Result<usize, SinkFailed>
        // What was taken.
        ensures bound { IfOk result (λ n. n ≤ length bytes.now) }
        ensures some { 0 < length bytes.now → IfOk result (λ n. 0 < n) }
        ensures amount { IfOk result (λ n. n ≡ min (length bytes.now) self.old.most) }
        ensures grown { IfOk result (λ n. self.new.text ≡ self.old.text ++ take n bytes.now) }
        ensures err { OnErr result (self.new.text ≡ self.old.text) }

        // When it fails, and what is counted.
        ensures exact { IsErrOf result SinkFailed.Failed ↔ IsListed self.old.writes }
        ensures failed { IsErrOf result SinkFailed.Failed → Rose self.old.writes.faults self.new.writes.faults }
        ensures counted { self.new.writes ≡ counted (write_failed result) self.old.writes }
        ensures later { self.old.writes.faults ≤ self.new.writes.faults }

        // What stays.
        ensures most { self.new.most ≡ self.old.most }
    {
        if self.writes.begin() {
            self.writes.add_fault();
            return Err(SinkFailed::Failed);
        }
        let n = bytes.len().min(self.most);
        self.text.write(bytes.split_at(n).0)
    }
}
