//! The last line of a run, and its status.

ghost use Rattle.std.specs.Prelude.{◌≡◌, ◌≤◌, IfOk, string_bytes};
ghost use Rattle.ra_io.specs.Causes.{Rose};
ghost use Rattle.ra_session.specs.Closing.{Finishes};
ghost use Rattle.ra_session.specs.Endings as spec;

use crate::ending::Ending;
use ra_io::Sink;
use ra_jobs::put_last;
use ra_set::SetRefused;
use ra_text::OutOfMemory;
use std::alloc::Global;
use std::fmt::Write;

// How the program is called.
const USAGE: &str =
    "usage: ra_player run SET TRACE [--restore FILE] [--save FILE] | check SET | make N | import FILE SET | lint SET | normal SET OUT | explain SET TRACE ID\n";

// The last line where a set has no achievement of an id.
fn no_achievement_line(alloc: Global, id: u32) -> Result<String, OutOfMemory>
    ensures { IfOk result (λ line. string_bytes line ≡ spec.last_line (Ending.NoAchievement id)) }
{
    let mut line = String::new(alloc);
    writeln!(line, "explain refused: no achievement {id}")?;
    Ok(line)
}

// The last line where rows are too many to be explained.
fn many_rows_line(alloc: Global, found: u64) -> Result<String, OutOfMemory>
    ensures { IfOk result (λ line. string_bytes line ≡ spec.last_line (Ending.ManyRows found)) }
{
    let mut line = String::new(alloc);
    writeln!(line, "explain refused: rows {found} over 67108864")?;
    Ok(line)
}

// The last line of a job that ended so.
fn last_line(alloc: Global, ending: Ending) -> Result<String, OutOfMemory>
    ensures { IfOk result (λ line. string_bytes line ≡ spec.last_line ending) }
{
    let mut line = String::new(alloc);
    match ending {
        Ending::Done | Ending::NoMemory | Ending::SinkFault => (),
        Ending::NoJob => line.push_str(USAGE)?,
        Ending::BadSet(why) => writeln!(line, "set refused: {why}")?,
        Ending::ReadFault => line.push_str("read fault\n")?,
        Ending::BadProgress(why) => writeln!(line, "progress refused: {why}")?,
        Ending::BadTrace { at, why } => writeln!(line, "trace refused at {at}: {why}")?,
        Ending::LongTrace => line.push_str("trace too long\n")?,
        Ending::SaveFault => line.push_str("save fault\n")?,
        Ending::BadDocument(why) => writeln!(line, "import refused: {why}")?,
        Ending::LongNormal { which, found } => {
            let limit = SetRefused::Limit { which, found };
            writeln!(line, "normal refused: {limit}")?
        }
        Ending::NoAchievement { id } => return no_achievement_line(alloc, id),
        Ending::ManyRows { found } => return many_rows_line(alloc, found),
    }
    Ok(line)
}

// The status of a job that ended so.
fn status_of(ending: Ending) -> u8
    ensures { result ≡ spec.status_of ending }
{
    match ending {
        Ending::Done => 0,
        Ending::NoMemory => 1,
        Ending::NoJob => 2,
        Ending::BadSet(_) => 3,
        Ending::ReadFault => 4,
        Ending::SinkFault => 5,
        Ending::BadProgress(_) => 6,
        Ending::BadTrace { .. } => 7,
        Ending::LongTrace => 8,
        Ending::SaveFault => 9,
        Ending::BadDocument(_) => 10,
        Ending::LongNormal { .. } => 11,
        Ending::NoAchievement { .. } | Ending::ManyRows { .. } => 12,
    }
}

/// Writes the last line of a job that ended so, and answers the status: docs/DEFINITIONS.md, "Statuses".
///
/// A job that is done has no last line, and the status 0. Where a write of the line fails the status is 5, and where
/// memory runs out 1.
pub fn finish<K: Sink>(alloc: Global, ending: Ending, out: &mut K) -> u8
    ensures finishes { Finishes ending (K.text out.old) (K.text out.new) (Rose (K.faults out.old) (K.faults out.new)) result }
    ensures done { ending ≡ Ending.Done → result ≡ 0 }
    ensures later { K.faults out.old ≤ K.faults out.new }
{
    match ending {
        Ending::Done => 0,
        Ending::NoJob => put_last(2, USAGE.as_bytes(), out),
        _ => match last_line(alloc, ending) {
            Ok(line) => put_last(status_of(ending), line.as_bytes(), out),
            Err(_) => 1,
        },
    }
}
