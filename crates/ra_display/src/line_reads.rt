//! What a line is woken by, noted for a reader: docs/INTERNALS.md, "Signals".

ghost use Rattle.std.specs.Prelude.{◌≡◌, ◌<◌, length, map, OnOk};
ghost use Rattle.std.specs.List.{filter_map};
ghost use Rattle.ra_richpresence.specs.Contents.{line_contents, piece_contents, value_in};
ghost use Rattle.ra_member.specs.Beside.{AreBeside};
ghost use Rattle.ra_member.specs.Runs.{IsValueRun};
ghost use Rattle.ra_schedule.specs.Inputs.{TestsSeeSame, ValuesSeeSame};
ghost use Rattle.ra_schedule.specs.Signals.{KeepsAll};
ghost use Rattle.ra_schedule.specs.Waking.{IsMemberTold, IsTold};
ghost use Rattle.ra_meaning.specs.LineMembers.{line_member, tests_in};
ghost use Rattle.ra_display.specs.PresenceRuns.{IsLineRun};

use ra_member::Member;
use ra_memref::Table;
use ra_richpresence::{Line, Piece};
use ra_schedule::{Signals, note_trigger, note_value};
use ra_text::OutOfMemory;

// Notes that a reader reads what a line needs. Memory is the only refusal.
pub(crate) fn note_line(
    signals: &mut Signals,
    line: &Line,
    run: &Member,
    table: &Table,
    reader: u32,
) -> Result<(), OutOfMemory>
    requires run { IsLineRun table.now.nodes (line_contents line.now) run.now }
    requires nodes { length table.now.nodes ≡ signals.old.nodes }
    requires reader { reader < length signals.old.readers.due }
    ensures keeps { OnOk result (KeepsAll table.now.nodes signals.old signals.new) }
    ensures told { OnOk result (IsMemberTold table.now.nodes signals.new.comparisons signals.new.readers (line_member (line_contents line.now)) reader) }
{
    note_test(signals, line, run, table, reader)?;
    note_macros(signals, &line.pieces, run, table, reader)?;
    Ok(())
}

// Notes that a reader reads what the test of a line needs, where it has one.
fn note_test(
    signals: &mut Signals,
    line: &Line,
    run: &Member,
    table: &Table,
    reader: u32,
) -> Result<(), OutOfMemory>
    requires run { IsLineRun table.now.nodes (line_contents line.now) run.now }
    requires nodes { length table.now.nodes ≡ signals.old.nodes }
    requires reader { reader < length signals.old.readers.due }
    ensures keeps { OnOk result (KeepsAll table.now.nodes signals.old signals.new) }
    ensures told { OnOk result (IsTold (λ now later. TestsSeeSame now later (tests_in (line_contents line.now).test))
        table.now.nodes signals.new.comparisons signals.new.readers reader) }
{
    match &line.test {
        Some(text) => note_trigger(signals, text, &run.tests[0].laid, table, reader),
        None => Ok(()),
    }
}

// Notes that a reader reads what the values of the macros among some pieces need.
fn note_macros(
    signals: &mut Signals,
    pieces: &[Piece],
    run: &Member,
    table: &Table,
    reader: u32,
) -> Result<(), OutOfMemory>
    requires values { AreBeside (IsValueRun table.now.nodes) (filter_map value_in (map piece_contents pieces.now)) run.now.values.items }
    requires nodes { length table.now.nodes ≡ signals.old.nodes }
    requires reader { reader < length signals.old.readers.due }
    ensures keeps { OnOk result (KeepsAll table.now.nodes signals.old signals.new) }
    ensures told { OnOk result (IsTold (λ now later. ValuesSeeSame now later (filter_map value_in (map piece_contents pieces.now)))
        table.now.nodes signals.new.comparisons signals.new.readers reader) }
{
    let mut place = 0;
    for piece in pieces {
        if let Piece::Macro { value, .. } = piece {
            note_value(signals, value, &run.values[place], table, reader)?;
            place += 1;
        }
    }
    Ok(())
}
