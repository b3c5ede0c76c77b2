ghost use Rattle.std.specs.Prelude.{◌≡◌, nat_lt};
ghost use Rattle.ra_value.specs.Steps.{signed_greatest, signed_place};

/// The greatest of the numbers, compared as signed ones; 0 of none.
pub fn greatest_of(numbers: &[u32]) -> i32
    ensures { result ≡ signed_greatest numbers.now }
{
    let mut greatest = 0;
    for (place, number) in numbers.iter().enumerate() {
        if place == 0 || is_less(greatest, *number) {
            greatest = *number;
        }
    }
    greatest.cast_signed()
}

// Whether a number is less than another, compared as signed ones.
fn is_less(number: u32, other: u32) -> bool
    ensures { result ≡ nat_lt (signed_place number) (signed_place other) }
{
    number.cast_signed() < other.cast_signed()
}
