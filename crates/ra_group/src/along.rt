ghost use Rattle.std.specs.Prelude.{◌≡◌, length};
ghost use Rattle.ra_condition.specs.Contents.{group_contents};
ghost use Rattle.ra_group.specs.Outcome.{outcome_of, next_hits};
ghost use Rattle.ra_group.specs.Along.{HasEntries, LiesAlong, frame_at, with_part};

use crate::form::Form;
use crate::group_place::GroupPlace;
use crate::outcome::Outcome;
use crate::pass::step;
use crate::reads::Reads;
use ra_condition::Group;

/// Steps a group by a frame as `step` does, where the hits and what is read run over the conditions
/// of several groups: docs/DEFINITIONS.md, "Group outcome". The hits of the other groups stay.
#[inline(always)]
pub fn step_at(
    group: &Group,
    form: Form,
    reads: &Reads<'_>,
    place: GroupPlace,
    hits: &mut [u32],
) -> Outcome
    requires reads { HasEntries (length hits.old) reads.now }
    requires lies { LiesAlong (group_contents group.now) reads.now place }

    ensures outcome { result ≡ outcome_of form
        (frame_at (group_contents group.now) reads.now.truths.now reads.now.lefts.now hits.old place.start) }
    ensures next { hits.new ≡ with_part hits.old place.start (next_hits
        (frame_at (group_contents group.now) reads.now.truths.now reads.now.lefts.now hits.old place.start)) }
{
    let start = place.start;
    let end = start + group.conditions.len();
    step(
        group,
        form,
        &reads.orders[start..end],
        reads.pauses[place.number],
        &reads.truths[start..end],
        &reads.lefts[start..end],
        &mut hits[start..end],
    )
}
