ghost use Rattle.std.specs.Prelude.{◌≡◌};
ghost use Rattle.ra_judge.specs.Judging as spec;

// The place of the first line feed or carriage return of a text.
pub fn break_at(text: &[u8]) -> Option<usize>
    ensures { result ≡ spec.break_at 0 text.now }
{
    let mut rest = text;
    let mut at = 0;
    while let Some((byte, more)) = rest.split_first() {
        if *byte == b'\n' || *byte == b'\r' {
            return Some(at);
        }
        rest = more;
        at += 1;
    }
    None
}
