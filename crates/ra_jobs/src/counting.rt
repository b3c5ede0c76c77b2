//! What is counted of a set: docs/DEFINITIONS.md, "Counts of a set".

ghost use Rattle.std.specs.Prelude.{◌≡◌, map, option_map};
ghost use Rattle.ra_jobs.specs.Counting as spec;
ghost use Rattle.ra_jobs.specs.Counting.{achievements_in, boards_in};
ghost use Rattle.ra_richpresence.specs.Contents.{script_contents};
ghost use Rattle.ra_set.specs.Contents.{item_contents};

use ra_richpresence::Script;
use ra_set::Item;

/// How many achievements these items have.
pub fn achievements(items: &[Item]) -> usize
    ensures { result ≡ achievements_in (map item_contents items.now) }
{
    let mut count = 0;
    for item in items {
        if let Item::Achievement { .. } = item {
            count += 1;
        }
    }
    count
}

/// How many leaderboards these items have.
pub fn leaderboards(items: &[Item]) -> usize
    ensures { result ≡ boards_in (map item_contents items.now) }
{
    let mut count = 0;
    for item in items {
        if let Item::Leaderboard { .. } = item {
            count += 1;
        }
    }
    count
}

/// One for a presence script.
pub fn scripts(script: &Option<Script>) -> usize
    ensures { result ≡ spec.scripts_in (option_map script_contents script.now) }
{
    match script {
        Some(_) => 1,
        None => 0,
    }
}
