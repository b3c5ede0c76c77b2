//! All groups of a trigger at a frame.

ghost use Rattle.std.specs.Prelude.{◌≡◌, length};
ghost use Rattle.ra_condition.specs.Contents.{trigger_contents, groups_of, trigger_hits};
ghost use Rattle.ra_group.specs.Along.{ReadsGroups};
ghost use Rattle.ra_trigger.specs.Steps.{together};
ghost use Rattle.ra_trigger.specs.Gathering.{verdict_of};

use crate::gathered::Gathered;
use crate::verdict::Verdict;
use ra_condition::TriggerText;
use ra_group::{Form, GroupPlace, Reads, step_at};

/// Steps all groups, the core first, and says what they say together. `hits` has an entry for each
/// condition of all groups.
// Most triggers have a core group alone, and take the way here.
#[inline(always)]
pub fn step_groups(text: &TriggerText, reads: &Reads<'_>, hits: &mut [u32]) -> Verdict
    requires reads { ReadsGroups (groups_of (trigger_contents text.now)) reads.now }
    requires hits { length hits.old ≡ trigger_hits (trigger_contents text.now) }

    ensures verdict { result ≡ verdict_of
        (together (trigger_contents text.now) reads.now.truths.now reads.now.lefts.now hits.old) }
    ensures next { hits.new
        ≡ (together (trigger_contents text.now) reads.now.truths.now reads.now.lefts.now hits.old).hits }
{
    if !text.alts.is_empty() {
        return step_all(text, *reads, hits);
    }
    let first = GroupPlace {
        number: 0,
        start: 0,
    };
    let core = step_at(&text.core, Form::InTrigger, reads, first, hits);
    Gathered::new(core).verdict(text)
}

// Steps all groups as `step_groups` does, which calls this where there are alts.
#[inline(never)]
fn step_all(text: &TriggerText, reads: Reads<'_>, hits: &mut [u32]) -> Verdict
    requires reads { ReadsGroups (groups_of (trigger_contents text.now)) reads }
    requires hits { length hits.old ≡ trigger_hits (trigger_contents text.now) }

    ensures verdict { result ≡ verdict_of
        (together (trigger_contents text.now) reads.entry.truths.now reads.entry.lefts.now hits.old) }
    ensures next { hits.new
        ≡ (together (trigger_contents text.now) reads.entry.truths.now reads.entry.lefts.now hits.old).hits }
{
    let form = Form::InTrigger;
    let first = GroupPlace {
        number: 0,
        start: 0,
    };
    let core = step_at(&text.core, form, &reads, first, hits);
    let mut gathered = Gathered::new(core);
    let mut start = text.core.conditions.len();
    for (place, alt) in text.alts.iter().enumerate() {
        let here = GroupPlace {
            number: place + 1,
            start,
        };
        let outcome = step_at(alt, form, &reads, here, hits);
        gathered.add(&outcome);
        start += alt.conditions.len();
    }
    gathered.verdict(text)
}
