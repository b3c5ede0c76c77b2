ghost use Rattle.std.specs.Prelude.{◌≡◌, ℕ, None};

use crate::{Sink, SinkFailed};
use std::io;
use std::io::Write;
use std::marker::Model;

/// Standard output, a thin adapter: docs/DEFINITIONS.md, "Files in memory".
///
/// It tells no text. Each error of the system is counted as a fault, and so is a write that takes
/// nothing of a piece that is not empty.
#[derive(Drop)]
pub struct RealSink<'a, R> {
    rt: &'a R,
    faults: u64,
}

impl<'a, R> Model for RealSink<'a, R> {
    ghost Value = { ℕ };

    ghost view = { λ s. s.faults };
}

impl<'a, R> RealSink<'a, R> {
    /// The output that the runtime prints to, with no faults yet.
    pub fn new(rt: &'a R) -> RealSink<'a, R>
        ensures { result ≡ 0 }
    {
        RealSink { rt, faults: 0 }
    }
}

impl<R: Print> Sink for RealSink<'_, R> {
    ghost text = { λ _. None };

    ghost faults = { λ s. s };

    fn write(&mut self, bytes: &[u8]) -> Result<usize, SinkFailed> {
        if bytes.is_empty() {
            return Ok(0);
        }
        match io::writer(self.rt).write(bytes) {
            Ok(n) if 0 < n => Ok(n),
            _ => {
                self.faults = self.faults.saturating_add(1);
                Err(SinkFailed::Failed)
            }
        }
    }
}
