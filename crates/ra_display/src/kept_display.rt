//! What a display is seen to keep, written over a row of bytes: docs/DEFINITIONS.md, "States kept in memory".

ghost use Rattle.std.specs.Prelude.{◌≡◌, ◌+◌, ◌*◌, ◌≤◌, length, map};
ghost use Rattle.std.specs.List.{concat};
ghost use Rattle.ra_progress.specs.Layout.{script_length};
ghost use Rattle.ra_progress.specs.Spelling.{presence_block, presence_bytes};
ghost use Rattle.ra_member.specs.Members.{saved_hits, saved_numbers};
ghost use Rattle.ra_member.specs.MemberRuns.{kept_by};
ghost use Rattle.ra_display.specs.Keeping.{HasWords, PutsOver, PutsWords};
ghost use Rattle.ra_display.specs.LineRests.{AreLinesFitting, AreOptionalFitting, optional_presence_seen, presence_seen, seen_lines};
ghost use Rattle.ra_display.specs.PresenceRuns.{presence_kept};
ghost use Rattle.ra_display.specs.PresenceShapes.{optional_run_shape};
ghost use Rattle.ra_display.specs.SavedPresence.{FitOptional, FitPresence};

use crate::keeping::{put_member_hits, put_member_numbers, put_word};
use crate::line_rests::LineRests;
use crate::presence_run::PresenceRun;
use ra_member::Member;

/// Writes what a display is seen to keep over a row of bytes from a place on, as its block in a progress file has it, if
/// there is a display, and gives the place after it. No memory is taken.
pub fn keep_display(
    row: &mut [u8],
    at: usize,
    run: &Option<PresenceRun>,
    rests: &LineRests,
) -> usize
    requires fit { AreOptionalFitting run.now rests.now }
    requires room { at + script_length (optional_run_shape run.now) ≤ length row.old }
    ensures puts { PutsOver row.old row.new at result (concat (presence_block (optional_presence_seen run.now rests.now))) }
    ensures fits { FitOptional (optional_presence_seen run.now rests.now) }
{
    match run {
        Some(run) => keep_run(row, at, run, rests),
        None => at,
    }
}

// Writes what a display is seen to keep: the shown line, and then the hits and the numbers of all lines.
fn keep_run(row: &mut [u8], at: usize, run: &PresenceRun, rests: &LineRests) -> usize
    requires fit { AreLinesFitting run.now.lines.items rests.now.each.items }
    requires room { at + 4 + 4 * (length (presence_kept run.now).hits + length (presence_kept run.now).numbers) ≤ length row.old }
    ensures puts { PutsOver row.old row.new at result (presence_bytes (presence_seen run.now rests.now)) }
    ensures fits { FitPresence (presence_seen run.now rests.now) }
{
    let next = put_word(row, at, run.shown);
    let next = keep_hits(row, next, &run.lines, rests);
    keep_numbers(row, next, &run.lines)
}

// Writes the hits of lines as they are seen, line by line, and gives the place after them.
fn keep_hits(row: &mut [u8], at: usize, lines: &[Member], rests: &LineRests) -> usize
    requires fit { AreLinesFitting lines.now rests.now.each.items }
    requires room { HasWords row.old at (concat (map saved_hits (map kept_by lines.now))) }
    ensures { PutsWords row.old row.new at result (concat (map saved_hits (seen_lines lines.now rests.now))) }
{
    let mut next = at;
    for place in 0..lines.len() {
        let owed = rests.schedule.owed(place);
        next = put_member_hits(row, next, &lines[place], &rests.each[place], owed);
    }
    next
}

// Writes the numbers of the values of lines, line by line, and gives the place after them.
fn keep_numbers(row: &mut [u8], at: usize, lines: &[Member]) -> usize
    requires { HasWords row.old at (concat (map saved_numbers (map kept_by lines.now))) }
    ensures { PutsWords row.old row.new at result (concat (map saved_numbers (map kept_by lines.now))) }
{
    let mut next = at;
    for place in 0..lines.len() {
        next = put_member_numbers(row, next, &lines[place]);
    }
    next
}
