//! What a display keeps, put back from the bytes of a progress file.

ghost use Rattle.std.specs.Prelude.{◌≡◌, ◌+◌, ◌*◌, ◌≤◌, length, map, IfSome};
ghost use Rattle.ra_text.specs.Words.{words_at};
ghost use Rattle.ra_member.specs.Members.{cleared_member};
ghost use Rattle.ra_member.specs.MemberRuns.{kept_by};
ghost use Rattle.ra_display.specs.PresenceShapes.{presence_run_shape, optional_run_shape};
ghost use Rattle.ra_display.specs.PresenceBack.{HasDisplay, PutsBackDisplay, PutsBackPresence, StayLines, hits_of_lines, numbers_of_lines};

use crate::presence_run::PresenceRun;
use ra_member::{Member, Places};
use ra_progress::{PresenceShape, presence_block};

// Puts back what the bytes say of the display, if there is one.
pub fn put_back_presence(
    run: &mut Option<PresenceRun>,
    shape: &Option<PresenceShape>,
    bytes: &[u8],
    place: Option<u64>,
)
    requires shape { shape.now ≡ optional_run_shape run.old }
    requires block { IfSome shape.now (HasDisplay bytes.now place) }
    ensures { PutsBackPresence bytes.now place run.old run.new }
{
    if let (Some(run), Some(shape)) = (run, shape) {
        put_back_display(run, shape, bytes, place);
    }
}

// Puts back what the bytes say of a display, by the place of its block; without one it shows its last line.
fn put_back_display(run: &mut PresenceRun, shape: &PresenceShape, bytes: &[u8], place: Option<u64>)
    requires shape { shape.now ≡ presence_run_shape run.old }
    requires block { HasDisplay bytes.now place shape.now }
    ensures { PutsBackDisplay bytes.now place run.old run.new }
{
    match place {
        Some(at) => {
            let block = presence_block(bytes, at, shape.hits);
            run.shown = block.shown;
            let hits = block.hits as usize;
            let numbers = block.numbers as usize;
            put_back_lines(&mut run.lines, bytes, Places { hits, numbers });
        }
        None => {
            run.shown = shape.lines - 1;
            clear_lines(&mut run.lines);
        }
    }
}

// Puts back what the bytes from two places on say of all lines.
fn put_back_lines(lines: &mut [Member], bytes: &[u8], from: Places)
    requires hits { from.hits + 4 * length (hits_of_lines lines.old) ≤ length bytes.now }
    requires numbers { from.numbers + 4 * length (numbers_of_lines lines.old) ≤ length bytes.now }
    ensures stay { StayLines lines.old lines.new }
    ensures hits { hits_of_lines lines.new
        ≡ words_at bytes.now from.hits (length (hits_of_lines lines.old)) }
    ensures numbers { numbers_of_lines lines.new
        ≡ words_at bytes.now from.numbers (length (numbers_of_lines lines.old)) }
{
    let mut at = from;
    for place in 0..lines.len() {
        at = lines[place].put_back(bytes, at);
    }
}

// Brings all lines to their start.
fn clear_lines(lines: &mut [Member])
    ensures stay { StayLines lines.old lines.new }
    ensures kept { map kept_by lines.new ≡ map (λ line. cleared_member (kept_by line)) lines.old }
{
    for place in 0..lines.len() {
        lines[place].clear();
    }
}
