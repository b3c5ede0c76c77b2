//! Where the rows of an unlock begin.

ghost use Rattle.std.specs.Prelude.{IfOk};
ghost use Rattle.ra_condition.specs.Contents.{trigger_contents};
ghost use Rattle.ra_explain.specs.Beginnings.{ExplainsRows, IsBeginning, UnlocksLast};
ghost use Rattle.ra_explain.specs.Compacts.{compact_contents};
ghost use Rattle.ra_explain.specs.OrderedRows.{AreRows, joined};

use crate::compact::CompactExplanation;
use crate::ordered_rows::OrderedRows;
use crate::replay::{Replay, waits};
use crate::tracing::trace;
use ra_condition::TriggerText;
use ra_text::OutOfMemory;
use std::alloc::Global;

/// The row from which on the hits of an unlock counted, and whether the achievement waited before it.
#[derive(Clone, Copy)]
pub(crate) struct Beginning {
    pub since: u32,
    pub waited: bool,
}

// Where the rows of an unlock at the last one begin: at 0, or after the latest earlier one at which the hits were cleared.
fn begun(
    alloc: Global,
    text: &TriggerText,
    rows: &OrderedRows<'_>,
    last: u32,
) -> Result<Beginning, OutOfMemory>
    requires rows { AreRows (trigger_contents text.now) last rows.now }
    ensures { IfOk result (IsBeginning (trigger_contents text.now) (joined rows.now) last) }
{
    let mut replay = Replay::new(alloc, text)?;
    let mut beginning = Beginning {
        since: 0,
        waited: true,
    };
    for row in 0..last {
        if replay.advance(text, rows.row(row as usize)) {
            let waited = waits(replay.trigger.state());
            beginning = Beginning {
                since: row + 1,
                waited,
            };
        }
    }
    Ok(beginning)
}

// The explanation of rows, of which the last one unlocks.
pub(crate) fn explained(
    alloc: Global,
    text: &TriggerText,
    rows: &OrderedRows<'_>,
    last: u32,
) -> Result<CompactExplanation, OutOfMemory>
    requires rows { AreRows (trigger_contents text.now) last rows.now }
    requires unlock { UnlocksLast (trigger_contents text.now) (joined rows.now) last }
    ensures { IfOk result (λ e. ExplainsRows (trigger_contents text.now) (joined rows.now) last (compact_contents e)) }
{
    let Beginning { since, waited } = begun(alloc, text, rows, last)?;
    let Some(changes) = trace(alloc, text, rows, since, last)? else {
        unreachable!()
    };
    Ok(CompactExplanation {
        last,
        since,
        waited,
        changes,
    })
}
