//! What a display keeps, written as a progress file keeps it.

ghost use Rattle.std.specs.Prelude.{◌≡◌, ◌++◌, ◌∷◌, [], ◌≤◌, option_to_list, OnOk};
ghost use Rattle.std.specs.List.{flat_map};
ghost use Rattle.ra_progress.specs.Contents.{OfPresence};
ghost use Rattle.ra_progress.specs.Layout.{block_length, script_length};
ghost use Rattle.ra_progress.specs.Spelling.{presence_block, presence_bytes, named_blocks};
ghost use Rattle.ra_member.specs.Members.{saved_hits, saved_numbers};
ghost use Rattle.ra_member.specs.MemberRuns.{PutsBehind, kept_by};
ghost use Rattle.ra_schedule.specs.Counted.{CountsFit, owed_member_by};
ghost use Rattle.ra_schedule.specs.Counts.{counts_of};
ghost use Rattle.ra_display.specs.LineRests.{AreLinesFitting, AreOptionalFitting, optional_presence_seen, presence_seen, seen_line, seen_lines};
ghost use Rattle.ra_display.specs.PresenceShapes.{optional_run_shape, presence_run_shape};
ghost use Rattle.ra_display.specs.SavedPresence.{FitOptional, FitPresence};

use crate::line_rests::LineRests;
use crate::presence_run::PresenceRun;
use ra_member::Member;
use ra_progress::put_presence;
use ra_schedule::{MemberCounts, counted_row, pay};
use ra_text::OutOfMemory;
use std::alloc::Global;

// The hits and the numbers of lines, line by line.
#[derive(Drop)]
struct Rows {
    hits: Vec<u32>,
    numbers: Vec<u32>,
}

/// Writes what is kept of the display behind other bytes, with its name, if there is one, and what its lines owe with it.
pub fn put_display(
    alloc: Global,
    bytes: &mut Vec<u8>,
    name: &Option<[u8; 16]>,
    run: &Option<PresenceRun>,
    rests: &LineRests,
) -> Result<(), OutOfMemory>
    requires fit { AreOptionalFitting run.now rests.now }
    requires short { script_length (optional_run_shape run.now) ≤ 8388608 }
    ensures bytes { OnOk result (bytes.new.items
        ≡ bytes.old.items ++ named_blocks (option_to_list name.now) (presence_block (optional_presence_seen run.now rests.now))) }
    ensures fits { OnOk result (FitOptional (optional_presence_seen run.now rests.now)) }
{
    match run {
        Some(run) => put_display_run(alloc, bytes, name, run, rests),
        None => Ok(()),
    }
}

// Writes what is kept of a display behind other bytes, where there is a name of it: the shown line, and then hits and
// numbers line by line.
fn put_display_run(
    alloc: Global,
    bytes: &mut Vec<u8>,
    name: &Option<[u8; 16]>,
    run: &PresenceRun,
    rests: &LineRests,
) -> Result<(), OutOfMemory>
    requires fit { AreLinesFitting run.now.lines.items rests.now.each.items }
    requires short { block_length (OfPresence (presence_run_shape run.now)) ≤ 8388608 }
    ensures bytes { OnOk result (bytes.new.items
        ≡ bytes.old.items ++ named_blocks (option_to_list name.now) (presence_bytes (presence_seen run.now rests.now) ∷ [])) }
    ensures fits { OnOk result (FitPresence (presence_seen run.now rests.now)) }
{
    let mut rows = Rows {
        hits: Vec::new(alloc),
        numbers: Vec::new(alloc),
    };
    put_lines(alloc, &mut rows, &run.lines, rests)?;
    match name {
        Some(name) => put_presence(bytes, name, run.shown, &rows.hits, &rows.numbers),
        None => Ok(()),
    }
}

// Puts what is kept of lines after other hits and other numbers, line by line, and what they owe with it.
fn put_lines(
    alloc: Global,
    rows: &mut Rows,
    lines: &[Member],
    rests: &LineRests,
) -> Result<(), OutOfMemory>
    requires fit { AreLinesFitting lines.now rests.now.each.items }
    ensures hits { OnOk result (PutsBehind rows.old.hits.items rows.new.hits.items (flat_map saved_hits (seen_lines lines.now rests.now))) }
    ensures numbers { OnOk result (PutsBehind rows.old.numbers.items rows.new.numbers.items (flat_map saved_numbers (seen_lines lines.now rests.now))) }
{
    for place in 0..lines.len() {
        let owed = rests.schedule.owed(place);
        put_line(alloc, rows, &lines[place], &rests.each[place], owed)?;
    }
    Ok(())
}

// Puts what is kept of a line after other hits and other numbers, and what it owes with it.
fn put_line(
    alloc: Global,
    rows: &mut Rows,
    line: &Member,
    counts: &MemberCounts,
    owed: Option<u32>,
) -> Result<(), OutOfMemory>
    requires { CountsFit (counts_of counts.now) (kept_by line.now) }
    ensures hits { OnOk result (PutsBehind rows.old.hits.items rows.new.hits.items (saved_hits (seen_line line.now counts.now owed))) }
    ensures numbers { OnOk result (PutsBehind rows.old.numbers.items rows.new.numbers.items (saved_numbers (seen_line line.now counts.now owed))) }
{
    match owed {
        Some(frames) => put_owed(alloc, rows, line, counts, frames),
        None => line.save(&mut rows.hits, &mut rows.numbers),
    }
}

// Puts what is kept of a line that owes hits for this many frames after other hits and other numbers.
fn put_owed(
    alloc: Global,
    rows: &mut Rows,
    line: &Member,
    counts: &MemberCounts,
    frames: u32,
) -> Result<(), OutOfMemory>
    requires fits { CountsFit (counts_of counts.now) (kept_by line.now) }
    ensures hits { OnOk result (PutsBehind rows.old.hits.items rows.new.hits.items
        (saved_hits (owed_member_by frames (counts_of counts.now) (kept_by line.now)))) }
    ensures numbers { OnOk result (PutsBehind rows.old.numbers.items rows.new.numbers.items
        (saved_numbers (owed_member_by frames (counts_of counts.now) (kept_by line.now)))) }
{
    let mut own = Vec::new(alloc);
    line.save(&mut own, &mut rows.numbers)?;
    let counted = counted_row(alloc, counts)?;
    pay(&mut own, &counted, frames);
    put_after(&mut rows.hits, &own)?;
    Ok(())
}

// Puts hits after others.
fn put_after(hits: &mut Vec<u32>, own: &[u32]) -> Result<(), OutOfMemory>
    ensures { OnOk result (PutsBehind hits.old.items hits.new.items own.now) }
{
    hits.extend_from_slice(own)?;
    Ok(())
}
