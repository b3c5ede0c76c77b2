//! The line of `check`: docs/DEFINITIONS.md, "Counts of a set".

ghost use Rattle.std.specs.Prelude.{◌≡◌, ◌<◌, ◌^◌, length, IfOk, string_bytes};
ghost use Rattle.ra_meaning.specs.Order.{set_cells, set_tracked};
ghost use Rattle.ra_set.specs.Contents.{set_contents};
ghost use Rattle.ra_set.specs.Limits.{set_conditions};
ghost use Rattle.ra_session.specs.Expected as spec;
ghost use Rattle.ra_session.specs.Playing.{IsPlayable};

use ra_counts::counts_of;
use ra_jobs::{achievements, leaderboards};
use ra_progress::Hex;
use ra_set::{Set, conditions};
use ra_text::OutOfMemory;
use std::alloc::Global;
use std::fmt::Write;

// What a set has, in one line, by its cells and tracked masks.
fn counted_line(
    alloc: Global,
    set: &Set,
    cells: usize,
    priors: usize,
) -> Result<String, OutOfMemory>
    requires conditions { set_conditions (set_contents set.now) < 2 ^ 64 }
    requires cells { cells ≡ length (set_cells (set_contents set.now)) }
    requires priors { priors ≡ length (set_tracked (set_contents set.now)) }
    ensures { IfOk result (λ line. string_bytes line ≡ spec.check_line (set_contents set.now)) }
{
    let achievements = achievements(&set.items);
    let leaderboards = leaderboards(&set.items);
    let conditions = conditions(set);
    let digest = Hex(&set.digest);
    let mut line = String::new(alloc);
    writeln!(
        line,
        "achievements {achievements} leaderboards {leaderboards} conditions {conditions} cells {cells} priors {priors} md5 {digest}"
    )?;
    Ok(line)
}

/// What a set has, in one line: docs/DEFINITIONS.md, "Counts of a set".
pub fn check_line(alloc: Global, set: &Set) -> Result<String, OutOfMemory>
    requires { IsPlayable (set_contents set.now) }
    ensures { IfOk result (λ line. string_bytes line ≡ spec.check_line (set_contents set.now)) }
{
    let counts = counts_of(alloc, set)?;
    counted_line(alloc, set, counts.cells, counts.tracked)
}
