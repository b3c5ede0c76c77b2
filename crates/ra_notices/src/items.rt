//! Notices on the items of a set: docs/DEFINITIONS.md, "Review of a set".

ghost use Rattle.std.specs.Prelude.{◌≡◌, ◌+◌, ◌*◌, ◌^◌, ◌≤◌, ◌++◌, IfOk, OnOk};
ghost use Rattle.std.specs.List.{list_any};
ghost use Rattle.ra_condition.specs.Contents.{group_contents, trigger_contents, trigger_hits};
ghost use Rattle.ra_condition.specs.Spelled.{IsTrigger};
ghost use Rattle.ra_set.specs.Contents.{item_contents};
ghost use Rattle.ra_set.specs.Limits.{item_conditions};
ghost use Rattle.ra_set.specs.Spelled.{IsItem};
ghost use Rattle.ra_notices.specs.Notices.{is_locked, item_notices, some_in, some_of, trigger_notices, whole_notices};
ghost use Rattle.ra_notices.specs.Noticing.{has_class};

use crate::class::Class;
use crate::conditions::{Spot, put_where};
use crate::groups::{has_class, review_alts, review_group};
use crate::notice::{Notice, Word};
use ra_condition::{Group, TriggerText};
use ra_lint::Place;
use ra_set::Item;
use ra_text::OutOfMemory;
use std::alloc::Global;

/// The notices on an item in order, in place of what the row has: docs/DEFINITIONS.md, "Review of a set".
///
/// Twelve nodes for each condition and two are together at most 2^31.
pub fn review_item(alloc: Global, item: &Item, found: &mut Vec<Notice>) -> Result<(), OutOfMemory>
    requires spelled { IsItem (item_contents item.now) }
    requires few { 12 * item_conditions (item_contents item.now) + 2 ≤ 2 ^ 31 }
    ensures { OnOk result (found.new.items ≡ item_notices (item_contents item.now)) }
{
    found.clear();
    match item {
        Item::Achievement { text, .. } => {
            let locked = review_trigger(alloc, found, Place::Trigger, text)?;
            put_whole(found, text, locked)
        }
        Item::Leaderboard { text, .. } => {
            review_trigger(alloc, found, Place::Start, &text.start)?;
            review_trigger(alloc, found, Place::Cancel, &text.cancel)?;
            review_trigger(alloc, found, Place::Submit, &text.submit)?;
            Ok(())
        }
    }
}

// Puts the notices on the conditions of a trigger, and says whether some of them keep it from being valid.
fn review_trigger(
    alloc: Global,
    found: &mut Vec<Notice>,
    place: Place,
    text: &TriggerText,
) -> Result<bool, OutOfMemory>
    requires spelled { IsTrigger (trigger_contents text.now) }
    requires few { 12 * trigger_hits (trigger_contents text.now) + 2 ≤ 2 ^ 31 }
    ensures locked { IfOk result (λ locked. locked ≡ is_locked (trigger_contents text.now)) }
    ensures all { OnOk result (found.new.items ≡ found.old.items ++ trigger_notices place (trigger_contents text.now)) }
{
    let core = Spot { place, group: 0 };
    let standing = review_group(alloc, found, core, &text.core)?;
    let alts = review_alts(alloc, found, core, &text.alts)?;
    Ok(standing.locks | alts)
}

// Puts the notices on the trigger of an achievement itself.
fn put_whole(found: &mut Vec<Notice>, text: &TriggerText, locked: bool) -> Result<(), OutOfMemory>
    requires { locked ≡ is_locked (trigger_contents text.now) }
    ensures { OnOk result (found.new.items ≡ found.old.items ++ whole_notices (trigger_contents text.now)) }
{
    let spot = Spot {
        place: Place::Trigger,
        group: 0,
    };
    let unmeasured = some_of(text, Class::MeasuredIf) && !some_of(text, Class::Measured);
    let some = some_of(text, Class::Any);
    let needless = some && !some_of(text, Class::Required);
    put_where(found, unmeasured, spot, 0, Word::NoMeasured)?;
    put_where(found, !some, spot, 0, Word::Empty)?;
    put_where(found, needless, spot, 0, Word::NoNeed)?;
    put_where(found, locked, spot, 0, Word::NoUnlock)
}

// Whether a condition of the trigger has a flag of the class.
fn some_of(text: &TriggerText, class: Class) -> bool
    ensures { result ≡ some_of (has_class class) (trigger_contents text.now) }
{
    has_class(&text.core, class) || some_alt_has(&text.alts, class)
}

// Whether a condition of alt groups has a flag of the class.
fn some_alt_has(alts: &[Group], class: Class) -> bool
    ensures { result ≡ list_any (λ alt. some_in (has_class class) (group_contents alt)) alts.now }
{
    alts.iter().any(|alt| has_class(alt, class))
}
