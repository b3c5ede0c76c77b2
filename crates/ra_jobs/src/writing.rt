//! Texts that are written whole.

ghost use Rattle.std.specs.Prelude.{◌≡◌, ◌≤◌, OnOk, IsErrOf};
ghost use Rattle.ra_io.specs.Causes.{Rose};
ghost use Rattle.ra_io.specs.Sink.{grown};
ghost use Rattle.ra_jobs.specs.Closing.{Closes};
ghost use Rattle.ra_jobs.specs.Writing.{GrewByPart};

use ra_io::{Sink, SinkFailed};

/// Writes all of the bytes, in as many pieces as the sink takes. No piece is empty.
///
/// It stops at a write that failed, and where memory runs out; a front of the bytes is written then.
pub fn write_all<K: Sink>(bytes: &[u8], out: &mut K) -> Result<(), SinkFailed>
    ensures ok { OnOk result (K.text out.new ≡ grown (K.text out.old) bytes.now) }
    ensures part { GrewByPart (K.text out.old) (K.text out.new) bytes.now }
    ensures later { K.faults out.old ≤ K.faults out.new }
    ensures failed { IsErrOf result SinkFailed.Failed → Rose (K.faults out.old) (K.faults out.new) }
{
    let mut rest = bytes;
    while !rest.is_empty() {
        match out.write(rest) {
            Ok(n) => rest = rest.split_at(n).1,
            Err(failed) => return Err(failed),
        }
    }
    Ok(())
}

/// Writes a last line, and answers its status: docs/DEFINITIONS.md, "Statuses".
///
/// Where a write fails it answers 5, and where memory runs out 1; a front of the line is written then.
pub fn put_last<K: Sink>(status: u8, line: &[u8], out: &mut K) -> u8
    ensures closes { Closes status line.now (K.text out.old) (K.text out.new) (Rose (K.faults out.old) (K.faults out.new)) result }
    ensures later { K.faults out.old ≤ K.faults out.new }
{
    match write_all(line, out) {
        Ok(()) => status,
        Err(SinkFailed::Failed) => 5,
        Err(SinkFailed::Memory) => 1,
    }
}
