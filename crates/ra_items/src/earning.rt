//! Achievements that are earned by what a caller says: docs/DEFINITIONS.md, "Earned achievements".

ghost use Rattle.std.specs.Prelude.{◌≡◌, ◌≤◌, false, length, map, slice_index_or};
ghost use Rattle.ra_meaning.specs.Earned.{is_earned};
ghost use Rattle.ra_items.specs.Earning.{earned_run, earned_runs};
ghost use Rattle.ra_items.specs.ItemRuns.{kept_run};

use crate::item_run::ItemRun;

/// Makes each achievement earned for which there is a `true` at its place. What it told at its last frame stays, and it is
/// silent from the next one on. A leaderboard stays as it is.
pub fn earn_runs(runs: &mut [ItemRun], earned: &[bool])
    requires { length runs.old ≤ length earned.now }
    ensures { runs.new ≡ earned_runs earned.now runs.old }
{
    for place in 0..runs.len() {
        earn_run(&mut runs[place], earned[place]);
    }
}

// Makes an achievement earned where this says so.
fn earn_run(run: &mut ItemRun, earned: bool)
    ensures { run.new ≡ earned_run earned run.old }
{
    match run {
        ItemRun::Achievement(run) => run.earned = run.earned | earned,
        ItemRun::Leaderboard(_) => {}
    }
}

/// Whether the item of the run at a place is earned; none past the last one is, and no leaderboard.
pub fn earned_in(runs: &[ItemRun], place: usize) -> bool
    ensures { result ≡ slice_index_or (map is_earned (map kept_run runs.now)) place false }
{
    if place < runs.len() {
        is_run_earned(&runs[place])
    } else {
        false
    }
}

// Whether an item is earned, which a leaderboard never is.
fn is_run_earned(run: &ItemRun) -> bool
    ensures { result ≡ is_earned (kept_run run.now) }
{
    match run {
        ItemRun::Achievement(run) => run.is_earned(),
        ItemRun::Leaderboard(_) => false,
    }
}
