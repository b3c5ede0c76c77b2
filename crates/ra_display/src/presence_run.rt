ghost use Rattle.std.specs.Prelude.{◌≡◌, ◌+◌, ◌*◌, ◌≤◌, ◌^◌, ℕ, true, Some, List, length, map, option_map, sum_by, All, IfOk};
ghost use Rattle.ra_richpresence.specs.Contents.{line_contents, script_contents};
ghost use Rattle.ra_set.specs.Limits.{line_conditions, script_conditions};
ghost use Rattle.ra_set.specs.Spelled.{OptionalScript};
ghost use Rattle.ra_display.specs.NewPresence.{AreNewLines, IsNewPresence};
ghost use Rattle.ra_meaning.specs.ShownLines.{IsShownLine};
ghost use Rattle.ra_schedule.specs.Waking.{IsSomeFrame};
ghost use Rattle.ra_display.specs.PresenceRuns.{IsOptionalPresence, IsPresenceRun, optional_presence_kept};
ghost use Rattle.ra_display.specs.LineRests.{AreOptionalRests, StepsDisplay, WereLineRests, WereOptionalRests, optional_presence_seen};

use crate::line_rests::LineRests;
use crate::line_run::new_line;
use ra_indirect::Pool;
use ra_member::Member;
use ra_memref::Table;
use ra_richpresence::{Line, Script};
use ra_text::OutOfMemory;
use std::alloc::Global;

/// The display of a script: its lines, and the index of the one that is shown.
#[derive(Drop)]
pub struct PresenceRun {
    pub lines: Vec<Member>,
    pub shown: u32,
}

/// The display of a script that may be missing, with all its trees in the pool. It shows its last line. Memory is the
/// only refusal.
pub fn new_presence(
    alloc: Global,
    script: &Option<Script>,
    pool: &mut Pool,
) -> Result<Option<PresenceRun>, OutOfMemory>
    requires spelled { OptionalScript (option_map script_contents script.now) }
    requires room { length pool.old + 13 * script_conditions (option_map script_contents script.now) + 2 ≤ 2 ^ 31 }
    ensures { IfOk result (IsNewPresence pool.old pool.new (option_map script_contents script.now)) }
{
    match script {
        Some(script) => {
            let lines = new_lines(alloc, &script.lines, pool)?;
            let shown = (script.lines.len() - 1) as u32;
            Ok(Some(PresenceRun { lines, shown }))
        }
        None => {
            // This call tells that the nodes are those of a pool, which the proof needs.
            let _ = pool.len();
            Ok(None)
        }
    }
}

// New lines, with all their trees in the pool.
fn new_lines(alloc: Global, lines: &[Line], pool: &mut Pool) -> Result<Vec<Member>, OutOfMemory>
    requires spelled { All IsShownLine (map line_contents lines.now) }
    requires room { length pool.old + 13 * sum_by line_conditions (map line_contents lines.now) + 2 ≤ 2 ^ 31 }
    ensures { IfOk result (λ runs. AreNewLines pool.old pool.new (map line_contents lines.now) runs.items) }
{
    let mut runs = Vec::new(alloc);
    // This call tells that the nodes are those of a pool, which the proof needs.
    let _ = pool.len();
    for line in lines {
        let run = new_line(alloc, line, pool)?;
        runs.push(run)?;
    }
    Ok(runs)
}

/// What stands beside the lines of a display that may be missing, of which none rests. Memory is the only refusal.
pub fn rest_lines(
    alloc: Global,
    run: &Option<PresenceRun>,
    script: &Option<Script>,
    table: &Table,
    nodes: usize,
) -> Result<LineRests, OutOfMemory>
    requires spelled { OptionalScript (option_map script_contents script.now) }
    requires run { IsOptionalPresence table.now.nodes (option_map script_contents script.now) run.now }
    requires nodes { length table.now.nodes ≡ nodes }
    requires few_nodes { nodes ≤ 2 ^ 30 }
    ensures rests { IfOk result (λ rests. (values : List ℕ) → AreOptionalRests table.now.nodes values (option_map script_contents script.now) run.now rests) }
    ensures kept { IfOk result (λ rests. optional_presence_seen run.now rests ≡ optional_presence_kept run.now) }
{
    match (run, script) {
        (Some(run), Some(script)) => {
            LineRests::new(alloc, &run.lines, &script.lines, table, nodes)
        }
        _ => LineRests::none(alloc),
    }
}

/// Steps a display that may be missing by the frame of the table's last sample. The first line that holds is shown.
/// No memory is taken.
pub fn step_presence(
    run: &mut Option<PresenceRun>,
    rests: &mut LineRests,
    script: &Option<Script>,
    table: &Table,
)
    requires spelled { OptionalScript (option_map script_contents script.now) }
    requires run { IsOptionalPresence table.now.nodes (option_map script_contents script.now) run.old }
    requires rests { WereOptionalRests table.now (option_map script_contents script.now) run.old rests.old }
    requires frame { IsSomeFrame table.now }
    requires sampled { table.now.sampled ≡ true }
    ensures { StepsDisplay table.now (option_map script_contents script.now) run.old run.new rests.old rests.new }
{
    if let (Some(run), Some(script)) = (run, script) {
        step_display(run, rests, script, table);
    }
}

// Steps a display by the frame of the table's last sample. The first line that holds is shown.
fn step_display(run: &mut PresenceRun, rests: &mut LineRests, script: &Script, table: &Table)
    requires spelled { OptionalScript (Some (script_contents script.now)) }
    requires run { IsPresenceRun table.now.nodes (script_contents script.now) run.old }
    requires rests { WereLineRests table.now (script_contents script.now).lines run.old.lines.items rests.old }
    requires frame { IsSomeFrame table.now }
    requires sampled { table.now.sampled ≡ true }
    ensures { StepsDisplay table.now (Some (script_contents script.now)) (Some run.old) (Some run.new) rests.old rests.new }
{
    rests.step(&mut run.lines, &script.lines, table);
    let first = rests.first();
    run.shown = first as u32;
}
