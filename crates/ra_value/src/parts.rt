//! All parts of a value at a frame.

ghost use Rattle.std.specs.Prelude.{◌≡◌, length, map};
ghost use Rattle.std.specs.List.{list_any, flat_map};
ghost use Rattle.ra_condition.specs.Contents.{part_contents, counted_in, value_contents, value_hits};
ghost use Rattle.ra_group.specs.Along.{ReadsGroups};
ghost use Rattle.ra_value.specs.Kept.{part_counts, uncounted};
ghost use Rattle.ra_value.specs.Steps.{part_steps, step};

use ra_condition::{Part, ValueText};
use ra_group::{Form, GroupPlace, Reads, counts_hits, step_at};

/// Steps the parts of a value by a frame. `hits` runs over the conditions of all parts, `sums` and
/// `numbers` over the parts.
pub fn step_value(
    text: &ValueText,
    reads: &Reads<'_>,
    sums: &[u32],
    hits: &mut [u32],
    numbers: &mut [u32],
)
    requires reads { ReadsGroups (map counted_in (value_contents text.now)) reads.now }
    requires hits { length hits.old ≡ value_hits (value_contents text.now) }
    requires sums { length sums.now ≡ length (value_contents text.now) }
    requires numbers { length numbers.old ≡ length (value_contents text.now) }

    ensures hits { hits.new ≡ (step (value_contents text.now) reads.now.truths.now reads.now.lefts.now sums.now
        (record { hits = hits.old; numbers = numbers.old })).hits }
    ensures numbers { numbers.new
        ≡ (step (value_contents text.now) reads.now.truths.now reads.now.lefts.now sums.now
        (record { hits = hits.old; numbers = numbers.old })).numbers }
{
    if step_parts(text, reads, sums, hits, numbers) {
        hits.fill(0);
        clear_counted(text, numbers);
    }
}

// Steps all parts one by one, and says whether some part resets.
fn step_parts(
    text: &ValueText,
    reads: &Reads<'_>,
    sums: &[u32],
    hits: &mut [u32],
    numbers: &mut [u32],
) -> bool
    requires reads { ReadsGroups (map counted_in (value_contents text.now)) reads.now }
    requires hits { length hits.old ≡ value_hits (value_contents text.now) }
    requires sums { length sums.now ≡ length (value_contents text.now) }
    requires numbers { length numbers.old ≡ length (value_contents text.now) }

    ensures reset { result ≡ list_any (λ part. part.reset) (part_steps (value_contents text.now)
        reads.now.truths.now reads.now.lefts.now hits.old sums.now numbers.old) }
    ensures hits { hits.new ≡ flat_map (λ part. part.hits) (part_steps (value_contents text.now)
        reads.now.truths.now reads.now.lefts.now hits.old sums.now numbers.old) }
    ensures numbers { numbers.new ≡ map (λ part. part.number) (part_steps (value_contents text.now)
        reads.now.truths.now reads.now.lefts.now hits.old sums.now numbers.old) }
{
    let mut resets = false;
    let mut start = 0;
    for (place, part) in text.parts.iter().enumerate() {
        match part {
            Part::Terms(_) => numbers[place] = sums[place],
            Part::Conditions(group) => {
                let here = GroupPlace {
                    number: place,
                    start,
                };
                let outcome = step_at(group, Form::InValue, reads, here, hits);
                resets |= outcome.reset;
                numbers[place] = outcome.measured.unwrap_or(numbers[place]);
                start += group.conditions.len();
            }
        }
    }
    resets
}

// Brings the numbers of the parts that come from hits to 0.
fn clear_counted(text: &ValueText, numbers: &mut [u32])
    requires { length numbers.old ≡ length (value_contents text.now) }
    ensures { numbers.new ≡ uncounted (value_contents text.now) numbers.old }
{
    for (place, part) in text.parts.iter().enumerate() {
        if counts(part) {
            numbers[place] = 0;
        }
    }
}

// Whether the number of the part comes from hits.
fn counts(part: &Part) -> bool
    ensures { result ≡ part_counts (part_contents part.now) }
{
    match part {
        Part::Terms(_) => false,
        Part::Conditions(group) => counts_hits(group, Form::InValue),
    }
}
