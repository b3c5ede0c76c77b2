//! The pass over a group, in pass order.

ghost use Rattle.std.specs.Prelude.{◌≡◌, ◌↔◌, ◌⊎◌, ◌≤◌, ◌^◌, None, [], ◌∷◌, true, length};
ghost use Rattle.ra_condition.specs.Contents.{group_contents};
ghost use Rattle.ra_condition.specs.Chains.{pass_order};
ghost use Rattle.ra_group.specs.Along.{pause_count};
ghost use Rattle.ra_group.specs.Equations.{frame_of};
ghost use Rattle.ra_group.specs.Outcome.{outcome_of, next_hits};
ghost use Rattle.ra_group.specs.OutcomeLaws.{NoneMeasured};

use crate::equations::more_hits;
use crate::form::Form;
use crate::outcome::Outcome;
use crate::reads::Reads;
use crate::tally::Tally;
use crate::visit::{Pass, is_plain};
use ra_condition::{Condition, Group};

/// Steps a group by a frame: docs/DEFINITIONS.md, "Group outcome".
///
/// `order` is the pass order of the group, as places in its text, of which the first `pauses` stand
/// in pause chains. `truths`, `lefts` and `hits` have an entry for each condition in text order: its
/// comparison, its left value, and its hits, which are then the next ones.
#[inline(always)]
pub fn step(
    group: &Group,
    form: Form,
    order: &[u32],
    pauses: u32,
    truths: &[bool],
    lefts: &[u32],
    hits: &mut [u32],
) -> Outcome
    requires order { order.now ≡ pass_order (group_contents group.now) }
    requires pauses { pauses ≡ pause_count (group_contents group.now) }
    requires truths { length truths.now ≡ length (group_contents group.now) }
    requires lefts { length lefts.now ≡ length (group_contents group.now) }
    requires hits { length hits.old ≡ length (group_contents group.now) }

    ensures outcome { result
        ≡ outcome_of form (frame_of (group_contents group.now) truths.now lefts.now hits.old) }
    ensures next { hits.new
        ≡ next_hits (frame_of (group_contents group.now) truths.now lefts.now hits.old) }
    ensures unmeasured { (result.measured ≡ None) ↔ ((result.paused ≡ true)
        ⊎ NoneMeasured (frame_of (group_contents group.now) truths.now lefts.now hits.old)) }
{
    let conditions = group.conditions.as_slice();
    if pauses == 0 {
        in_text_order(conditions, form, truths, lefts, hits)
    } else {
        let reads = Reads {
            orders: order,
            pauses: &[pauses],
            truths,
            lefts,
        };
        in_pass_order(conditions, form, &reads, hits)
    }
}

// Steps a group without pause chains: its pass order is that of the text, and nothing pauses it.
// No pass is made before the first condition that has a target, or is neither a plain one nor one that
// only hands a value on; most groups have no such condition.
#[inline(always)]
fn in_text_order(
    conditions: &[Condition],
    form: Form,
    truths: &[bool],
    lefts: &[u32],
    hits: &mut [u32],
) -> Outcome
    requires few { length conditions.now ≤ 2 ^ 32 }
    requires pauses { pause_count conditions.now ≡ 0 }
    requires truths { length truths.now ≡ length conditions.now }
    requires lefts { length lefts.now ≡ length conditions.now }
    requires hits { length hits.old ≡ length conditions.now }

    ensures outcome { result ≡ outcome_of form (frame_of conditions.now truths.now lefts.now hits.old) }
    ensures next { hits.new ≡ next_hits (frame_of conditions.now truths.now lefts.now hits.old) }
{
    let count = conditions.len();
    let mut held = true;
    let mut place = 0;
    while place < count {
        let condition = &conditions[place];
        if is_plain(condition) {
            let truth = truths[place];
            hits[place] = more_hits(truth, hits[place]);
            held &= truth;
        } else if !condition.flag.hands_on() {
            break;
        }
        place += 1;
    }
    let mut tally = Tally::new();
    tally.want(held);
    if place == count {
        return tally.outcome();
    }
    let mut pass = Pass {
        form,
        before: None,
        tally,
    };
    for turn in place..count {
        let next = pass.visit(&conditions[turn], truths[turn], lefts[turn], hits[turn]);
        hits[turn] = next;
    }
    pass.tally.outcome()
}

// Steps a group in its pass order, the pause chains first.
#[inline(never)]
fn in_pass_order(
    conditions: &[Condition],
    form: Form,
    reads: &Reads<'_>,
    hits: &mut [u32],
) -> Outcome
    requires order { reads.now.orders.now ≡ pass_order conditions.now }
    requires pauses { reads.now.pauses.now ≡ pause_count conditions.now ∷ [] }
    requires truths { length reads.now.truths.now ≡ length conditions.now }
    requires lefts { length reads.now.lefts.now ≡ length conditions.now }
    requires hits { length hits.old ≡ length conditions.now }

    ensures outcome { result
        ≡ outcome_of form (frame_of conditions.now reads.now.truths.now reads.now.lefts.now hits.old) }
    ensures next { hits.new
        ≡ next_hits (frame_of conditions.now reads.now.truths.now reads.now.lefts.now hits.old) }
{
    let Reads {
        orders,
        pauses,
        truths,
        lefts,
    } = *reads;
    let pauses = pauses[0] as usize;
    let mut pass = Pass::new(form);
    for turn in 0..orders.len() {
        let place = orders[turn] as usize;
        // Past the pause chains it is known whether the group is paused, and then its hits stay.
        let frozen = pass.tally.paused && turn >= pauses;
        let condition = &conditions[place];
        let next = pass.visit_any(condition, truths[place], lefts[place], hits[place]);
        if !frozen {
            hits[place] = next;
        }
    }
    pass.tally.outcome()
}
