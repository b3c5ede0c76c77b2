ghost use Rattle.std.specs.Prelude.{◌≡◌, ◌≢◌, MatchResult};
ghost use Rattle.ra_judge.specs.Giving.{Gives};
ghost use Rattle.ra_judge.specs.Codes.{done, memory, no_room};

use crate::codes::{DONE, MEMORY, ROOM};
use ra_text::OutOfMemory;

// Gives what is told to a caller that has room for some, and says how much there is.
pub fn give<T: Copy + Drop>(
    told: Result<Vec<T>, OutOfMemory>,
    out: &mut [T],
    count: &mut usize,
) -> u32
    ensures given { MatchResult told (λ whole. Gives whole.items out.old out.new count.new result) (λ _. result ≡ memory) }
    ensures unwritten { result ≢ done → out.new ≡ out.old }
    ensures uncounted { result ≡ memory → count.new ≡ count.old }
{
    match told {
        Ok(whole) => give_whole(whole.as_slice(), out, count),
        Err(_) => MEMORY,
    }
}

// Gives all of this where there is room, and says how much there is.
pub fn give_whole<T: Copy>(whole: &[T], out: &mut [T], count: &mut usize) -> u32
    ensures given { Gives whole.now out.old out.new count.new result }
    ensures unwritten { result ≢ done → out.new ≡ out.old }
    ensures room { result ≢ done → result ≡ no_room }
{
    *count = whole.len();
    if out.len() < whole.len() {
        return ROOM;
    }
    out[..whole.len()].copy_from_slice(whole);
    DONE
}
