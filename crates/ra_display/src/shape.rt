//! The shape of a display.

ghost use Rattle.std.specs.Prelude.{◌≡◌, ◌≤◌, ◌<◌, ◌+◌, length};
ghost use Rattle.ra_display.specs.PresenceBack.{hits_of_lines, numbers_of_lines};
ghost use Rattle.ra_display.specs.PresenceShapes.{optional_run_shape, IsSmallPresence};

use crate::presence_run::PresenceRun;
use ra_member::{Member, Places};
use ra_progress::PresenceShape;

// How many lines, hits and parts a display keeps, where there is one.
pub fn presence_shape(presence: &Option<PresenceRun>) -> Option<PresenceShape>
    requires { IsSmallPresence (optional_run_shape presence.now) }
    ensures { result ≡ optional_run_shape presence.now }
{
    match presence {
        Some(run) => {
            let kept = kept_by_lines(&run.lines);
            Some(PresenceShape {
                lines: run.lines.len() as u32,
                hits: kept.hits as u32,
                parts: kept.numbers as u32,
            })
        }
        None => None,
    }
}

// How many hits and numbers lines keep.
fn kept_by_lines(lines: &[Member]) -> Places
    requires hits { length (hits_of_lines lines.now) ≤ 65536 }
    requires numbers { length (numbers_of_lines lines.now) ≤ 65536 }
    ensures hits { result.hits ≡ length (hits_of_lines lines.now) }
    ensures numbers { result.numbers ≡ length (numbers_of_lines lines.now) }
{
    let mut hits = 0;
    let mut numbers = 0;
    for line in lines {
        let kept = line.shape();
        hits += kept.hits;
        numbers += kept.numbers;
    }
    Places { hits, numbers }
}
