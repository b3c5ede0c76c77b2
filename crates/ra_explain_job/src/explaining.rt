//! The job `explain`.

ghost use Rattle.std.specs.Prelude.{◌≤◌};
ghost use Rattle.ra_io.specs.Files.{SameContent};
ghost use Rattle.ra_args.specs.Words.{Explain};
ghost use Rattle.ra_jobs.specs.Outside.{outside_of};
ghost use Rattle.ra_session.specs.Running.{Ran};

use crate::printing::print_watched;
use crate::watching::watch_trace;
use ra_goals::trigger_of;
use ra_io::{Files, Sink};
use ra_session::{Ending, load_set};
use std::alloc::Global;

/// The unlock that an explanation is asked for: the first one of an achievement of a set in a trace.
#[derive(Clone, Copy, Debug, PartialEq, Eq)]
pub struct AskedUnlock<'a> {
    pub set: &'a str,
    pub trace: &'a str,
    pub id: u32,
}

/// Prints why an achievement of a set first unlocks in a trace, up to the last line: docs/DEFINITIONS.md,
/// "Explanations". No file changes.
pub fn explain_job<F: Files, K: Sink>(
    alloc: Global,
    asked: &AskedUnlock<'_>,
    files: &mut F,
    out: &mut K,
) -> Ending
    ensures ran { Ran (Explain asked.now.set.now asked.now.trace.now asked.now.id)
        (outside_of (F.content files.old) (F.read_faults files.old) (F.put_faults files.old) (K.text out.old) (K.faults out.old))
        (outside_of (F.content files.new) (F.read_faults files.new) (F.put_faults files.new) (K.text out.new) (K.faults out.new))
        result }
    ensures same { SameContent (F.content files.old) (F.content files.new) }
    ensures later { K.faults out.old ≤ K.faults out.new }
{
    let set = match load_set(alloc, asked.set, files) {
        Ok(set) => set,
        Err(unset) => return Ending::from(unset),
    };
    let Some(text) = trigger_of(set, asked.id) else {
        return Ending::NoAchievement { id: asked.id };
    };
    match watch_trace(alloc, text, asked.trace, files) {
        Ok(watch) => print_watched(alloc, asked.id, &watch, out),
        Err(failed) => Ending::from(failed),
    }
}
