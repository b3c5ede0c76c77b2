//! Ids of items: docs/DEFINITIONS.md, "Set file".

ghost use Rattle.std.specs.Prelude.{◌≡◌};
ghost use Rattle.ra_set.specs.Reading.{id_at, more_digits_at, with_digit};
ghost use Rattle.ra_text.specs.Moves.{Moves};
ghost use Rattle.ra_text.specs.Number.{digits};
ghost use Rattle.ra_text.specs.Reading.{one_at};
ghost use Rattle.ra_text.specs.Table.{lookup};

use ra_text::{Base, Cursor, Stop};

// A number of 32 bits in decimal, without a zero before other digits.
#[tactic(auto, unfolding(crate::specs::Reading::id_at))]
pub fn take_id(cursor: &mut Cursor<'_>) -> Result<u32, Stop>
    ensures { Moves result cursor.new.rest.now (id_at cursor.old.rest.now) }
{
    let first = take_digit(cursor)?;
    Ok(take_digits_behind(cursor, first))
}

// One digit.
fn take_digit(cursor: &mut Cursor<'_>) -> Result<u32, Stop>
    ensures { Moves result cursor.new.rest.now (one_at (lookup digits) cursor.old.rest.now) }
{
    if let [byte, after @ ..] = cursor.rest {
        if let Some(digit) = Base::Ten.digit(*byte) {
            cursor.rest = after;
            return Ok(digit);
        }
    }
    Err(Stop)
}

// The number of a first digit and as many more as go on with it.
fn take_digits_behind(cursor: &mut Cursor<'_>, first: u32) -> u32
    ensures { more_digits_at first cursor.old.rest.now ≡ Ok (result, cursor.new.rest.now) }
{
    let mut number = first;
    while let [byte, after @ ..] = cursor.rest {
        let Some(longer) = with_digit(number, *byte) else {
            break;
        };
        number = longer;
        cursor.rest = after;
    }
    number
}

// The number with one digit more, where it goes on with it.
fn with_digit(so_far: u32, byte: u8) -> Option<u32>
    ensures { result ≡ with_digit so_far byte }
{
    let digit = Base::Ten.digit(byte)?;
    if so_far == 0 {
        return None;
    }
    so_far.checked_mul(10)?.checked_add(digit)
}
