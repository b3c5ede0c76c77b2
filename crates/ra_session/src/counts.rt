//! What is counted of a text.

ghost use Rattle.std.specs.Prelude.{◌≡◌, ◌==◌, count_by};
ghost use Rattle.std.specs.List.{slice_split};
ghost use Rattle.ra_session.specs.Expected.{is_unlock};

/// How many lines a text has: those that end with a line feed.
pub fn lines_in(text: &[u8]) -> usize
    ensures { result ≡ count_by (λ c. c == 10) text.now }
{
    text.iter().filter(|c| **c == b'\n').count()
}

// Whether a line is that of an unlock.
fn tells_unlock(line: &[u8]) -> bool
    ensures { result ≡ is_unlock line.now }
{
    line.starts_with(b"unlock ")
}

/// How many lines of a text are those of unlocks. A rest without a line feed counts as a line.
pub fn unlocks_in(text: &[u8]) -> usize
    ensures { result ≡ count_by is_unlock (slice_split (λ c. c == 10) text.now) }
{
    text.split(|c| *c == b'\n')
        .filter(|line| tells_unlock(line))
        .count()
}
