//! A bit for each condition of a line: docs/INTERNALS.md, "Lines at rest".

ghost use Rattle.std.specs.Prelude.{◌++◌, map, option_map, IfOk, OnOk};
ghost use Rattle.std.specs.List.{filter_map};
ghost use Rattle.ra_condition.specs.Contents.{trigger_contents};
ghost use Rattle.ra_richpresence.specs.Contents.{line_contents, piece_contents, value_in};
ghost use Rattle.ra_member.specs.Members.{MemberContents};
ghost use Rattle.ra_schedule.specs.Counts.{AreFor};
ghost use Rattle.ra_meaning.specs.LineMembers.{tests_in};
ghost use Rattle.ra_display.specs.LineRests.{HasLineRoom, HaveLineRooms};

use ra_condition::TriggerText;
use ra_richpresence::{Line, Piece};
use ra_schedule::MemberCounts;
use ra_text::OutOfMemory;
use std::alloc::Global;

// A bit for each condition of each of the lines, of which none counted. Memory is the only refusal.
pub(crate) fn counts_of_lines(
    alloc: Global,
    lines: &[Line],
) -> Result<Vec<MemberCounts>, OutOfMemory>
    ensures { IfOk result (λ each. HaveLineRooms (map line_contents lines.now) each.items) }
{
    let mut each = Vec::new(alloc);
    for line in lines {
        let counts = counts_of_line(alloc, line)?;
        each.push(counts)?;
    }
    Ok(each)
}

// The same of a line.
fn counts_of_line(alloc: Global, line: &Line) -> Result<MemberCounts, OutOfMemory>
    ensures { IfOk result (HasLineRoom (line_contents line.now)) }
{
    let mut counts = MemberCounts::new(alloc);
    add_test(alloc, &mut counts, &line.test)?;
    add_macros(alloc, &mut counts, &line.pieces)?;
    Ok(counts)
}

// Adds those of the test of a line, where it has one. Memory is the only refusal.
fn add_test(
    alloc: Global,
    counts: &mut MemberCounts,
    test: &Option<TriggerText>,
) -> Result<(), OutOfMemory>
    ensures { OnOk result ((m : MemberContents) → AreFor m counts.old
        → AreFor (record m { tests = m.tests ++ tests_in (option_map trigger_contents test.now) }) counts.new) }
{
    match test {
        Some(text) => counts.add_test(alloc, text),
        None => Ok(()),
    }
}

// Adds those of the values of the macros among some pieces. Memory is the only refusal.
fn add_macros(alloc: Global, counts: &mut MemberCounts, pieces: &[Piece]) -> Result<(), OutOfMemory>
    ensures { OnOk result ((m : MemberContents) → AreFor m counts.old
        → AreFor (record m { values = m.values ++ filter_map value_in (map piece_contents pieces.now) }) counts.new) }
{
    for piece in pieces {
        if let Piece::Macro { value, .. } = piece {
            counts.add_value(alloc, value)?;
        }
    }
    Ok(())
}
