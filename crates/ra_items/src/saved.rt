//! What the runs keep, written as a progress file keeps it.

ghost use Rattle.std.specs.Prelude.{◌≡◌, ◌++◌, ◌≤◌, length, map, sum_by, OnOk};
ghost use Rattle.ra_progress.specs.Contents.{ItemFits, ItemsFit};
ghost use Rattle.ra_progress.specs.Layout.{item_length};
ghost use Rattle.ra_progress.specs.Spelling.{item_bytes, named_blocks};
ghost use Rattle.ra_progress.specs.Writing.{named_block};
ghost use Rattle.ra_items.specs.declared.item_run.ItemRun.TheVariants.{Achievement, Leaderboard};
ghost use Rattle.ra_items.specs.ItemRuns.{kept_run};
ghost use Rattle.ra_meaning.specs.Openings.{kept_achievement};
ghost use Rattle.ra_items.specs.Resting.{FitsRun, owed_run, seen_run};
ghost use Rattle.ra_items.specs.Rests.{AreFitting, seen_by};
ghost use Rattle.ra_member.specs.Members.{saved_hits, saved_numbers};
ghost use Rattle.ra_member.specs.MemberRuns.{kept_by};
ghost use Rattle.ra_leaderboard.specs.States.{board_byte};
ghost use Rattle.ra_progress.specs.Contents.{OfBoard};
ghost use Rattle.ra_items.specs.Shapes.{run_shape};

use crate::achievement_run::AchievementRun;
use crate::board_run::BoardRun;
use crate::item_run::ItemRun;
use crate::rest::ItemCounts;
use crate::rests::Rests;
use ra_member::Member;
use ra_progress::{put_achievement, put_board, put_presence, state_byte};
use ra_schedule::{counted_row, pay};
use ra_text::OutOfMemory;

/// Writes what is kept of all items after other bytes, each with its name, and what they owe with it.
pub fn put_runs(
    bytes: &mut Vec<u8>,
    names: &[[u8; 16]],
    runs: &[ItemRun],
    rests: &Rests,
) -> Result<(), OutOfMemory>
    requires names { length names.now ≡ length runs.now }
    requires many { length rests.now.each.items ≡ length runs.now }
    requires fit { AreFitting runs.now rests.now.each.items }
    requires short { sum_by item_length (map run_shape runs.now) ≤ 8388608 }
    ensures bytes { OnOk result (bytes.new.items
        ≡ bytes.old.items ++ named_blocks names.now (map item_bytes (seen_by runs.now rests.now))) }
    ensures fit { OnOk result (ItemsFit (map run_shape runs.now) (seen_by runs.now rests.now)) }
{
    for k in 0..runs.len() {
        let owed = rests.schedule.owed(k);
        put_run(bytes, &names[k], &runs[k], &rests.each[k], owed)?;
    }
    Ok(())
}

// Writes what is kept of an item after other bytes, with its name, and what it owes with it.
fn put_run(
    bytes: &mut Vec<u8>,
    name: &[u8; 16],
    run: &ItemRun,
    counts: &ItemCounts,
    owed: Option<u32>,
) -> Result<(), OutOfMemory>
    requires fits { FitsRun counts.now run.now }
    requires short { item_length (run_shape run.now) ≤ 8388608 }
    ensures bytes { OnOk result (bytes.new.items ≡ bytes.old.items ++ named_block name.now (item_bytes (seen_run run.now counts.now owed))) }
    ensures fits { OnOk result (ItemFits (run_shape run.now) (seen_run run.now counts.now owed)) }
{
    match owed {
        Some(frames) => put_owed(bytes, name, run, counts, frames),
        None => put_kept(bytes, name, run),
    }
}

// Writes what is kept of an item that owes nothing after other bytes, with its name.
fn put_kept(bytes: &mut Vec<u8>, name: &[u8; 16], run: &ItemRun) -> Result<(), OutOfMemory>
    requires { item_length (run_shape run.now) ≤ 8388608 }
    ensures bytes { OnOk result (bytes.new.items ≡ bytes.old.items ++ named_block name.now (item_bytes (kept_run run.now))) }
    ensures fits { OnOk result (ItemFits (run_shape run.now) (kept_run run.now)) }
{
    let alloc = *bytes.allocator();
    match run {
        ItemRun::Achievement(run) => put_achievement_run(bytes, name, run, run.run.trigger.hits()),
        ItemRun::Leaderboard(run) => {
            let mut hits = Vec::new(alloc);
            let mut numbers = Vec::new(alloc);
            run.member.save(&mut hits, &mut numbers)?;
            put_board_run(bytes, name, run, &hits, &numbers)
        }
    }
}

// Writes what is kept of an item that owes hits for this many frames after other bytes, with its name.
fn put_owed(
    bytes: &mut Vec<u8>,
    name: &[u8; 16],
    run: &ItemRun,
    counts: &ItemCounts,
    frames: u32,
) -> Result<(), OutOfMemory>
    requires fits { FitsRun counts.now run.now }
    requires short { item_length (run_shape run.now) ≤ 8388608 }
    ensures bytes { OnOk result (bytes.new.items ≡ bytes.old.items ++ named_block name.now (item_bytes (owed_run frames counts.now run.now))) }
    ensures fits { OnOk result (ItemFits (run_shape run.now) (owed_run frames counts.now run.now)) }
{
    let alloc = *bytes.allocator();
    match (run, counts) {
        (ItemRun::Achievement(run), ItemCounts::Achievement(counts)) => {
            let mut hits = Vec::with_capacity(alloc, counts.counted().len())?;
            hits.extend_from_slice(run.run.trigger.hits())?;
            pay(&mut hits, counts.counted(), frames);
            put_achievement_run(bytes, name, run, &hits)
        }
        (ItemRun::Leaderboard(run), ItemCounts::Leaderboard(counts)) => {
            let mut hits = Vec::new(alloc);
            let mut numbers = Vec::new(alloc);
            run.member.save(&mut hits, &mut numbers)?;
            let row = counted_row(alloc, counts)?;
            pay(&mut hits, &row, frames);
            put_board_run(bytes, name, run, &hits, &numbers)
        }
        _ => Ok(()),
    }
}

// Writes an achievement with these hits after other bytes, with its name.
fn put_achievement_run(
    bytes: &mut Vec<u8>,
    name: &[u8; 16],
    run: &AchievementRun,
    hits: &[u32],
) -> Result<(), OutOfMemory>
    requires many { length hits.now ≡ length run.now.run.trigger.hits }
    requires short { item_length (run_shape (Achievement run.now)) ≤ 8388608 }
    ensures bytes { OnOk result (bytes.new.items
        ≡ bytes.old.items ++ named_block name.now (item_bytes (kept_achievement run.now.earned (record run.now.run.trigger { hits = hits.now })))) }
    ensures fits { OnOk result (ItemFits (run_shape (Achievement run.now)) (kept_achievement run.now.earned (record run.now.run.trigger { hits = hits.now }))) }
{
    let trigger = &run.run.trigger;
    let measured = trigger.measured();
    let state = state_byte(trigger.state().byte(), run.is_earned());
    put_achievement(bytes, name, state, measured, hits)?;
    Ok(())
}

// Writes a board with these hits of its fields in a row, and these numbers of its values, after other bytes, with its
// name.
fn put_board_run(
    bytes: &mut Vec<u8>,
    name: &[u8; 16],
    run: &BoardRun,
    hits: &[u32],
    numbers: &[u32],
) -> Result<(), OutOfMemory>
    requires hits { length hits.now ≡ length (saved_hits (kept_by run.now.member)) }
    requires numbers { numbers.now ≡ saved_numbers (kept_by run.now.member) }
    requires short { item_length (run_shape (Leaderboard run.now)) ≤ 8388608 }
    ensures bytes { OnOk result (bytes.new.items
        ≡ bytes.old.items ++ named_block name.now (item_bytes (OfBoard (board_byte run.now.board) hits.now numbers.now))) }
    ensures fits { OnOk result (ItemFits (run_shape (Leaderboard run.now)) (OfBoard (board_byte run.now.board) hits.now numbers.now)) }
{
    put_board(bytes, name, run.board.state().byte(), hits, numbers)?;
    Ok(())
}
