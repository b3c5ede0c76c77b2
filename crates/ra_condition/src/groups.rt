//! Groups and triggers: docs/DEFINITIONS.md, "Conditions" and "Triggers".

ghost use Rattle.std.specs.Prelude.{◌≡◌, ◌++◌, ◌∷◌, [], IfErr, OnOk};
ghost use Rattle.ra_condition.specs.Fault.{GivesUnlessFull};
ghost use Rattle.ra_condition.specs.Contents.{group_contents, trigger_contents};
ghost use Rattle.ra_condition.specs.Reading.{conditions_at, group_at, trigger_at};

use crate::condition::Condition;
use crate::conditions::{is_condition, take_condition};
use crate::fault::Fault;
use crate::group::Group;
use crate::setting::Setting;
use crate::trigger_text::TriggerText;
use ra_text::Cursor;
use std::alloc::Global;

// cond { "_" cond }
fn take_conditions(alloc: Global, cursor: &mut Cursor<'_>) -> Result<Vec<Condition>, Fault>
    ensures { GivesUnlessFull (λ conditions. conditions.items) result cursor.new.rest.now (conditions_at cursor.old.rest.now) }
{
    let mut conditions = Vec::new(alloc);
    conditions.push(take_condition(cursor, Setting::InTrigger)?)?;
    while cursor.skip(b'_') {
        conditions.push(take_condition(cursor, Setting::InTrigger)?)?;
    }
    Ok(conditions)
}

// [ cond { "_" cond } ]
#[tactic(auto, unfolding(crate::specs::Reading::group_at))]
fn take_group(alloc: Global, cursor: &mut Cursor<'_>) -> Result<Group, Fault>
    ensures { GivesUnlessFull group_contents result cursor.new.rest.now (group_at cursor.old.rest.now) }
{
    if is_condition(cursor.rest) {
        let conditions = take_conditions(alloc, cursor)?;
        Ok(Group { conditions })
    } else {
        Ok(Group {
            conditions: Vec::new(alloc),
        })
    }
}

/// Reads a trigger: docs/DEFINITIONS.md, "Triggers".
///
/// `Stop` exactly where what stands before the first byte that goes on with no trigger is no whole
/// trigger; the cursor then stands before that byte. `Memory` where there is no memory for it.
#[tactic(auto, unfolding(crate::specs::Reading::trigger_at))]
pub fn take_trigger(alloc: Global, cursor: &mut Cursor<'_>) -> Result<TriggerText, Fault>
    ensures { GivesUnlessFull trigger_contents result cursor.new.rest.now (trigger_at cursor.old.rest.now) }
{
    let core = take_group(alloc, cursor)?;
    let mut alts = Vec::new(alloc);
    'alts: while cursor.skip_letter(b'S') {
        push_alt(&mut alts, take_group(alloc, cursor)?)?;
    }
    Ok(TriggerText { core, alts })
}

// Puts an alt group after others. The first gets room for itself alone, so that a set of many
// triggers of one empty alt group stays small.
fn push_alt(alts: &mut Vec<Group>, alt: Group) -> Result<(), Fault>
    ensures put { OnOk result (alts.new.items ≡ alts.old.items ++ alt ∷ []) }
    ensures err { IfErr result (λ fault. fault ≡ Fault.Memory) }
{
    if alts.is_empty() {
        alts.reserve_exact(1)?;
    }
    alts.push(alt)?;
    Ok(())
}
