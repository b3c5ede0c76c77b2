//! A line that is all that a job prints.

ghost use Rattle.std.specs.Prelude.{◌≤◌};
ghost use Rattle.ra_io.specs.Causes.{Rose};
ghost use Rattle.ra_session.specs.Closing.{EndsBefore};
ghost use Rattle.ra_session.specs.Expected.{prints_line};

use crate::ending::Ending;
use ra_io::{Sink, SinkFailed};
use ra_jobs::write_all;

/// Writes the line that is all that a job prints, and answers how the job ends.
pub fn print_line<K: Sink>(line: &str, out: &mut K) -> Ending
    ensures ends { EndsBefore (prints_line line.now) ⊥ ⊥ (Rose (K.faults out.old) (K.faults out.new)) result (K.text out.old) (K.text out.new) }
    ensures later { K.faults out.old ≤ K.faults out.new }
{
    match write_all(line.as_bytes(), out) {
        Ok(()) => Ending::Done,
        Err(SinkFailed::Failed) => Ending::SinkFault,
        Err(SinkFailed::Memory) => Ending::NoMemory,
    }
}
