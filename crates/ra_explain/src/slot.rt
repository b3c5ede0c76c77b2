//! What a slot of a recorder keeps.

ghost use Rattle.std.specs.Prelude.{◌≡◌, ◌++◌, IfOk};
ghost use Rattle.std.specs.Result.{OnOk};
ghost use Rattle.ra_text.specs.Words.{words};
ghost use Rattle.ra_member.specs.MemberRuns.{FitWords};
ghost use Rattle.ra_explain.specs.Slots.{IsSlotOf};

use ra_member::TriggerRun;
use ra_memref::Table;
use ra_text::{OutOfMemory, write_words};
use ra_trigger::State;
use std::alloc::Global;

/// What is kept of one history: docs/DEFINITIONS.md, "Recorders".
#[derive(Drop)]
pub(crate) struct Slot {
    pub state: State,
    pub measured: u32,
    /// Four bytes for each condition.
    pub hits: Vec<u8>,
    /// Four bytes for each cell, and then for each tracked mask.
    pub numbers: Vec<u8>,
    /// The place of the latest row.
    pub latest: u32,
}

impl Slot {
    // Keeps what a table and an achievement have, and a place.
    pub(crate) fn new(
        alloc: Global,
        table: &Table,
        run: &TriggerRun,
        latest: u32,
    ) -> Result<Slot, OutOfMemory>
        ensures { IfOk result (IsSlotOf table.now run.now.trigger latest) }
    {
        let state = run.trigger.state();
        let measured = run.trigger.measured();
        let mut hits = Vec::new(alloc);
        put_words(&mut hits, run.trigger.hits())?;
        let mut numbers = Vec::new(alloc);
        put_words(&mut numbers, table.cells())?;
        put_words(&mut numbers, table.priors())?;
        Ok(Slot {
            state,
            measured,
            hits,
            numbers,
            latest,
        })
    }
}

// Puts numbers as words after the bytes.
fn put_words(bytes: &mut Vec<u8>, numbers: &[u32]) -> Result<(), OutOfMemory>
    ensures words { OnOk result (bytes.new.items ≡ bytes.old.items ++ words numbers.now) }
    ensures fit { FitWords numbers.now }
{
    write_words(bytes, numbers)
}
