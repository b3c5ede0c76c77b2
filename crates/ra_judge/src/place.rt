ghost use Rattle.std.specs.Prelude.{◌≡◌, ◌≤◌, ◌^◌, length};
ghost use Rattle.ra_judge.specs.Places as spec;
ghost use Rattle.ra_judge.specs.Places.{most_before};

// No text that is refused at a place has more bytes.
const MOST: usize = 16_777_216;

/// A line and a column of a text, both from 1.
#[derive(Clone, Copy, Debug, PartialEq, Eq)]
pub struct Place {
    pub line: u64,
    pub column: u64,
}

// The line and the column of a place of a text.
pub fn place_in(text: &[u8], at: usize) -> Place
    ensures { result ≡ spec.place_in text.now at }
{
    place_after(&text[..at.min(text.len()).min(MOST)])
}

// The line and the column after a text.
fn place_after(text: &[u8]) -> Place
    requires { length text.now ≤ most_before }
    ensures { result ≡ spec.place_after text.now spec.first_place }
{
    let mut place = Place { line: 1, column: 1 };
    let mut rest = text;
    while let Some((byte, more)) = rest.split_first() {
        if *byte == b'\n' {
            place.line += 1;
            place.column = 1;
        } else {
            place.column += 1;
        }
        rest = more;
    }
    place
}
