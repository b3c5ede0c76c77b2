//! Notices on the groups of a trigger: docs/DEFINITIONS.md, "Review of a set".

ghost use Rattle.std.specs.Prelude.{◌≡◌, ◌+◌, ◌*◌, ◌^◌, ◌≤◌, ◌++◌, ◌&&◌, All, false, slice_index_or, IfOk, OnOk, length, map, not, sum_by};
ghost use Rattle.ra_condition.specs.Contents.{group_contents};
ghost use Rattle.ra_condition.specs.Flags.{is_pause};
ghost use Rattle.ra_condition.specs.Spelled.{IsTriggerGroup};
ghost use Rattle.ra_notices.specs.Notices.{group_notices, is_twice, locks, notices_from, resets, some_in};
ghost use Rattle.ra_notices.specs.Noticing.{AreMarks, alts_lock, has_class, locks_at, seen_by};

use crate::class::Class;
use crate::conditions::{Seen, Spot, has_memory_right, put_notices};
use crate::notice::Notice;
use crate::standing::standing;
use crate::twice::twice_in;
use ra_condition::{Condition, Group};
use ra_text::OutOfMemory;
use std::alloc::Global;

/// What the conditions of a group do at each frame.
#[derive(Clone, Copy)]
pub(crate) struct Standing {
    /// One resets.
    pub resets: bool,
    /// One resets or pauses.
    pub locks: bool,
}

/// Puts the notices on the conditions of a group, and says what they do at each frame.
pub(crate) fn review_group(
    alloc: Global,
    found: &mut Vec<Notice>,
    spot: Spot,
    group: &Group,
) -> Result<Standing, OutOfMemory>
    requires spelled { IsTriggerGroup (group_contents group.now) }
    requires few { 12 * length (group_contents group.now) + 2 ≤ 2 ^ 31 }
    ensures resets { IfOk result (λ standing. standing.resets ≡ resets (group_contents group.now)) }
    ensures locks { IfOk result (λ standing. standing.locks ≡ locks (group_contents group.now)) }
    ensures all { OnOk result (found.new.items
        ≡ found.old.items ++ group_notices spot.place spot.group (group_contents group.now)) }
{
    let locking = standing(alloc, group)?;
    let again = twice_in(alloc, &group.conditions)?;
    pass_conditions(found, spot, &group.conditions, &again, &locking)
}

// The pass over the conditions in text order.
fn pass_conditions(
    found: &mut Vec<Notice>,
    spot: Spot,
    conditions: &[Condition],
    again: &[bool],
    locking: &[bool],
) -> Result<Standing, OutOfMemory>
    requires twice { AreMarks again.now (is_twice conditions.now) conditions.now }
    requires locks { AreMarks locking.now (locks_at conditions.now) conditions.now }
    ensures resets { IfOk result (λ standing. standing.resets ≡ resets conditions.now) }
    ensures locks { IfOk result (λ standing. standing.locks ≡ locks conditions.now) }
    ensures all { OnOk result (found.new.items ≡ found.old.items ++ group_notices spot.place spot.group conditions.now) }
{
    let mut standing = Standing {
        resets: false,
        locks: false,
    };
    for (place, condition) in conditions.iter().enumerate() {
        let last = place + 1 == conditions.len();
        let seen = seen_of(
            condition,
            last,
            is_marked(again, place),
            is_marked(locking, place),
        );
        put_notices(found, spot, place, seen)?;
        standing = standing.with(seen);
    }
    Ok(standing)
}

// Whether a place is marked; one past the end of the marks is not.
fn is_marked(marks: &[bool], place: usize) -> bool
    ensures { result ≡ slice_index_or marks.now place false }
{
    marks.get(place).copied().unwrap_or(false)
}

// What is seen of a condition.
fn seen_of(condition: &Condition, last: bool, twice: bool, locks: bool) -> Seen
    ensures { result ≡ seen_by condition.now last twice locks }
{
    Seen {
        chained: condition.flag.combines() && last,
        twice,
        memory_right: has_memory_right(condition),
        resets: condition.flag.is_reset() && locks,
        pauses: condition.flag.is_pause() && locks,
    }
}

impl Standing {
    ghost use Rattle.std.specs.Prelude.{◌≡◌};
    ghost use Rattle.ra_notices.specs.Noticing.{standing_with};

    // With one condition more.
    fn with(self, seen: Seen) -> Standing
        ensures { result ≡ standing_with self seen }
    {
        Standing {
            resets: self.resets || seen.resets,
            locks: self.locks || seen.resets || seen.pauses,
        }
    }
}

/// Puts the notices on the conditions of alt groups, and says whether they keep their trigger from
/// being valid.
pub(crate) fn review_alts(
    alloc: Global,
    found: &mut Vec<Notice>,
    core: Spot,
    alts: &[Group],
) -> Result<bool, OutOfMemory>
    requires spelled { All IsTriggerGroup (map group_contents alts.now) }
    requires few { 12 * sum_by length (map group_contents alts.now) + 2 ≤ 2 ^ 31 }
    ensures locks { IfOk result (λ locks. locks ≡ alts_lock (map group_contents alts.now)) }
    ensures all { OnOk result (found.new.items
        ≡ found.old.items ++ notices_from core.place 1 (map group_contents alts.now)) }
{
    let mut resets = false;
    let mut all = !alts.is_empty();
    for (place, alt) in alts.iter().enumerate() {
        let spot = Spot {
            group: place + 1,
            ..core
        };
        let standing = review_group(alloc, found, spot, alt)?;
        resets |= resets_always(standing, alt);
        all &= standing.locks;
    }
    Ok(resets | all)
}

// Whether a group resets its trigger at each frame, by what its conditions do.
fn resets_always(standing: Standing, group: &Group) -> bool
    ensures { result ≡ (standing.resets && not (some_in is_pause (group_contents group.now))) }
{
    standing.resets && !has_class(group, Class::Pause)
}

/// Whether a condition of the group has a flag of the class.
pub(crate) fn has_class(group: &Group, class: Class) -> bool
    ensures { result ≡ some_in (has_class class) (group_contents group.now) }
{
    group
        .conditions
        .iter()
        .any(|condition| class.has(condition.flag))
}
