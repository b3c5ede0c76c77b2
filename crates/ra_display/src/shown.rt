//! The presence line: docs/DEFINITIONS.md, "Presence over frames".

ghost use Rattle.std.specs.Prelude.{◌≡◌, ◌++◌, ◌<◌, All, IfOk, length, map, option_map};
ghost use Rattle.std.specs.List.{flat_map};
ghost use Rattle.std.specs.Result.{OnOk};
ghost use Rattle.ra_richpresence.specs.Contents.{script_contents};
ghost use Rattle.ra_value_format.specs.Formats.{HasDigits};
ghost use Rattle.ra_member.specs.MemberRuns.{kept_by};
ghost use Rattle.ra_meaning.specs.Presence.{line_numbers};
ghost use Rattle.ra_display.specs.Showing as spec;
ghost use Rattle.ra_display.specs.Showing.{MayShow, optional_text};

use crate::presence_run::PresenceRun;
use ra_member::Member;
use ra_richpresence::Script;
use ra_text::OutOfMemory;
use ra_value_format::put_unsigned;
use std::alloc::Global;

// The bytes that a line seldom passes.
const LINE: usize = 64;

// The line that the display shows, with the count of frames; nothing where there is no script.
pub fn shown_line(
    alloc: Global,
    count: u64,
    script: &Option<Script>,
    run: &Option<PresenceRun>,
) -> Result<Vec<u8>, OutOfMemory>
    requires { MayShow (option_map script_contents script.now) run.now }
    ensures { IfOk result
        (λ text. text.items ≡ optional_text count (option_map script_contents script.now) run.now) }
{
    match (script, run) {
        (Some(script), Some(run)) => shown_text(alloc, count, script, run),
        _ => Ok(Vec::new(alloc)),
    }
}

// The line that a display shows.
fn shown_text(
    alloc: Global,
    count: u64,
    script: &Script,
    run: &PresenceRun,
) -> Result<Vec<u8>, OutOfMemory>
    requires shown { run.now.shown < length script.now.lines.items }
    requires formats { All (λ format. HasDigits format.1) (script_contents script.now).formats }
    ensures { IfOk result
        (λ text. text.items ≡ spec.shown_text count (script_contents script.now) run.now) }
{
    let numbers = numbers_of(alloc, run)?;
    let mut out = Vec::with_capacity(alloc, LINE)?;
    out.extend_from_slice(b"presence ")?;
    put_unsigned(&mut out, count)?;
    out.push(b' ')?;
    script.put_line(&mut out, run.shown, &numbers)?;
    out.push(b'\n')?;
    Ok(out)
}

// The numbers of all values of a display, line by line.
fn numbers_of(alloc: Global, run: &PresenceRun) -> Result<Vec<i32>, OutOfMemory>
    ensures { IfOk result (λ numbers. numbers.items ≡ flat_map line_numbers (map kept_by run.now.lines.items)) }
{
    let mut numbers = Vec::new(alloc);
    for line in &run.lines {
        put_line_numbers(&mut numbers, line)?;
    }
    Ok(numbers)
}

// Puts the numbers of the values of a line after others.
fn put_line_numbers(numbers: &mut Vec<i32>, line: &Member) -> Result<(), OutOfMemory>
    ensures { OnOk result
        (numbers.new.items ≡ numbers.old.items ++ line_numbers (kept_by line.now)) }
{
    for run in &line.values {
        numbers.push(run.value.greatest())?;
    }
    Ok(())
}
