//! What runs are seen to keep, written over a row of bytes: docs/DEFINITIONS.md, "States kept in memory".

ghost use Rattle.std.specs.Prelude.{◌≡◌, ◌+◌, ◌*◌, ◌≤◌, length, map, sum_by};
ghost use Rattle.std.specs.List.{concat};
ghost use Rattle.ra_progress.specs.Contents.{ItemFits, ItemsFit, OfBoard};
ghost use Rattle.ra_progress.specs.Layout.{item_length};
ghost use Rattle.ra_progress.specs.Spelling.{item_bytes};
ghost use Rattle.ra_leaderboard.specs.States.{board_byte};
ghost use Rattle.ra_member.specs.Members.{saved_hits, saved_numbers};
ghost use Rattle.ra_member.specs.MemberRuns.{kept_by};
ghost use Rattle.ra_schedule.specs.Counted.{CountsFit};
ghost use Rattle.ra_schedule.specs.Counts.{counts_of};
ghost use Rattle.ra_display.specs.Keeping.{PutsOver, seen_hits};
ghost use Rattle.ra_display.specs.LineRests.{seen_line};
ghost use Rattle.ra_meaning.specs.Openings.{kept_achievement};
ghost use Rattle.ra_items.specs.declared.item_run.ItemRun.TheVariants.{Achievement, Leaderboard};
ghost use Rattle.ra_items.specs.Resting.{FitsRun, seen_run};
ghost use Rattle.ra_items.specs.Rests.{AreFitting, seen_by};
ghost use Rattle.ra_items.specs.Shapes.{board_run_shape, run_shape};

use crate::achievement_run::AchievementRun;
use crate::board_run::BoardRun;
use crate::item_run::ItemRun;
use crate::rest::ItemCounts;
use crate::rests::Rests;
use ra_display::{put_byte, put_hits, put_member_hits, put_member_numbers, put_word};
use ra_progress::state_byte;
use ra_schedule::{Counts, MemberCounts};

/// Writes what all items are seen to keep over a row of bytes from a place on, as their blocks in a progress file have it,
/// without names, and gives the place after them. No memory is taken.
pub fn keep_runs(row: &mut [u8], at: usize, runs: &[ItemRun], rests: &Rests) -> usize
    requires many { length rests.now.each.items ≡ length runs.now }
    requires fit { AreFitting runs.now rests.now.each.items }
    requires room { at + sum_by item_length (map run_shape runs.now) ≤ length row.old }
    ensures puts { PutsOver row.old row.new at result (concat (map item_bytes (seen_by runs.now rests.now))) }
    ensures fit { ItemsFit (map run_shape runs.now) (seen_by runs.now rests.now) }
{
    let mut next = at;
    for place in 0..runs.len() {
        let owed = rests.schedule.owed(place);
        next = keep_item(row, next, &runs[place], &rests.each[place], owed);
    }
    next
}

// Writes what an item is seen to keep, where it owes this or nothing.
fn keep_item(
    row: &mut [u8],
    at: usize,
    run: &ItemRun,
    counts: &ItemCounts,
    owed: Option<u32>,
) -> usize
    requires fits { FitsRun counts.now run.now }
    requires room { at + item_length (run_shape run.now) ≤ length row.old }
    ensures puts { PutsOver row.old row.new at result (item_bytes (seen_run run.now counts.now owed)) }
    ensures fits { ItemFits (run_shape run.now) (seen_run run.now counts.now owed) }
{
    match (run, counts) {
        (ItemRun::Achievement(run), ItemCounts::Achievement(counts)) => {
            keep_achievement(row, at, run, counts, owed)
        }
        (ItemRun::Leaderboard(run), ItemCounts::Leaderboard(counts)) => {
            keep_board(row, at, run, counts, owed)
        }
        _ => at,
    }
}

// Writes what an achievement is seen to keep.
fn keep_achievement(
    row: &mut [u8],
    at: usize,
    run: &AchievementRun,
    counts: &Counts,
    owed: Option<u32>,
) -> usize
    requires fits { length counts.now.counted ≡ length run.now.run.trigger.hits }
    requires room { at + item_length (run_shape (Achievement run.now)) ≤ length row.old }
    ensures puts { PutsOver row.old row.new at result (item_bytes (kept_achievement run.now.earned
        (record run.now.run.trigger { hits = seen_hits owed counts.now.counted run.now.run.trigger.hits }))) }
    ensures fits { ItemFits (run_shape (Achievement run.now)) (kept_achievement run.now.earned
        (record run.now.run.trigger { hits = seen_hits owed counts.now.counted run.now.run.trigger.hits })) }
{
    let trigger = &run.run.trigger;
    let state = state_byte(trigger.state().byte(), run.is_earned());
    let next = put_byte(row, at, state);
    let next = put_word(row, next, trigger.measured());
    put_hits(row, next, trigger.hits(), counts.counted(), owed)
}

// Writes what a board is seen to keep.
fn keep_board(
    row: &mut [u8],
    at: usize,
    run: &BoardRun,
    counts: &MemberCounts,
    owed: Option<u32>,
) -> usize
    requires fits { CountsFit (counts_of counts.now) (kept_by run.now.member) }
    requires room { at + item_length (board_run_shape run.now) ≤ length row.old }
    ensures puts { PutsOver row.old row.new at result (item_bytes (OfBoard (board_byte run.now.board)
        (saved_hits (seen_line run.now.member counts.now owed)) (saved_numbers (kept_by run.now.member)))) }
    ensures fits { ItemFits (board_run_shape run.now) (OfBoard (board_byte run.now.board)
        (saved_hits (seen_line run.now.member counts.now owed)) (saved_numbers (kept_by run.now.member))) }
{
    let next = put_byte(row, at, run.board.state().byte());
    let next = put_member_hits(row, next, &run.member, counts, owed);
    put_member_numbers(row, next, &run.member)
}
