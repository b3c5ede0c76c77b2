//! What a save slot keeps.

ghost use Rattle.std.specs.Prelude.{◌≡◌, ◌++◌, IfOk};
ghost use Rattle.std.specs.Result.{OnOk};
ghost use Rattle.ra_text.specs.Words.{words};
ghost use Rattle.ra_member.specs.MemberRuns.{FitWords};
ghost use Rattle.ra_why.specs.Watching.{IsKeptOf};

use ra_account::TriggerAccount;
use ra_member::TriggerRun;
use ra_memref::Table;
use ra_text::{OutOfMemory, write_words};
use ra_trigger::State;
use std::alloc::Global;

/// What a slot keeps of an achievement, with the account of its history.
#[derive(Drop)]
pub struct Kept {
    /// The state.
    pub state: State,
    /// The measured number.
    pub measured: u32,
    /// Four bytes for each condition.
    pub hits: Vec<u8>,
    /// Four bytes for each cell, and then for each tracked mask.
    pub numbers: Vec<u8>,
    /// The account of the frames so far.
    pub account: TriggerAccount,
}

impl Kept {
    // Keeps what a table and an achievement have, and a copy of an account.
    pub(crate) fn new(
        alloc: Global,
        table: &Table,
        run: &TriggerRun,
        account: &TriggerAccount,
    ) -> Result<Kept, OutOfMemory>
        ensures { IfOk result (IsKeptOf table.now run.now.trigger account.now) }
    {
        let mut hits = Vec::new(alloc);
        put_words(&mut hits, run.trigger.hits())?;
        let mut numbers = Vec::new(alloc);
        put_words(&mut numbers, table.cells())?;
        put_words(&mut numbers, table.priors())?;
        let account = account.copy(alloc)?;
        Ok(Kept {
            state: run.trigger.state(),
            measured: run.trigger.measured(),
            hits,
            numbers,
            account,
        })
    }
}

// Puts numbers as words after the bytes.
fn put_words(bytes: &mut Vec<u8>, numbers: &[u32]) -> Result<(), OutOfMemory>
    ensures words { OnOk result (bytes.new.items ≡ bytes.old.items ++ words numbers.now) }
    ensures fit { FitWords numbers.now }
{
    write_words(bytes, numbers)
}
