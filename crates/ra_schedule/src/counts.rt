//! Which conditions counted a hit at a frame, as the step tells it.

ghost use Rattle.std.specs.Prelude.{◌≡◌, ◌++◌, ◌+◌, ◌==◌, length, map, IfOk, OnOk};
ghost use Rattle.ra_condition.specs.Contents.{counted_in, group_contents, groups_of, trigger_contents, value_contents};
ghost use Rattle.ra_group.specs.declared.form.Form.TheVariants.{InTrigger, InValue};
ghost use Rattle.ra_schedule.specs.Counted as spec;
ghost use Rattle.ra_schedule.specs.Counted.{all_keep_by, free_in, owed_by};
ghost use Rattle.ra_schedule.specs.Counts.{IsFor};
ghost use Rattle.ra_schedule.specs.Groups.{is_free as spec_free};

use crate::seen::is_free;
use ra_condition::{Group, Part, TriggerText, ValueText};
use ra_group::Form;
use ra_text::OutOfMemory;
use std::alloc::Global;
use std::marker::Model;

/// Two bits for each condition of a test or a value: whether nothing looks at its hits but a save, and whether these
/// changed at the last step.
#[derive(Drop)]
pub struct Counts {
    // the first bits of all conditions, and after them their second ones, in one block of memory
    bits: Vec<bool>,
}

impl Model for Counts {
    ghost use Rattle.std.specs.Prelude.{◌≡◌, ◌+◌, length};
    ghost use Rattle.ra_schedule.specs.Counted.{CountsSeen, half, halves};

    ghost Value = { CountsSeen };

    ghost view = { λ c. halves c.bits.items };

    ghost invariant = { λ c. length c.bits.items ≡ half c.bits.items + half c.bits.items };
}

impl Counts {
    /// The conditions of a trigger, of which none counted. Memory is the only refusal.
    pub fn of_trigger(alloc: Global, text: &TriggerText) -> Result<Counts, OutOfMemory>
        ensures { IfOk result (IsFor (free_in InTrigger (groups_of (trigger_contents text.now)))) }
    {
        let free = trigger_free(alloc, text)?;
        Counts::of_free(free)
    }

    /// The conditions of a value's parts, of which none counted. Memory is the only refusal.
    pub fn of_value(alloc: Global, text: &ValueText) -> Result<Counts, OutOfMemory>
        ensures { IfOk result (IsFor (free_in InValue (map counted_in (value_contents text.now)))) }
    {
        let free = value_free(alloc, text)?;
        Counts::of_free(free)
    }

    // Conditions with these at whose hits nothing looks, of which none counted. Memory is the only refusal.
    fn of_free(free: Vec<bool>) -> Result<Counts, OutOfMemory>
        ensures { IfOk result (IsFor free.items) }
    {
        let count = free.len();
        let mut bits = free;
        bits.reserve_exact(count)?;
        bits.resize(2 * count, false)?;
        Ok(Counts { bits })
    }

    /// Which hits changed at the last step.
    pub fn counted(&self) -> &[bool]
        ensures { result.now ≡ self.now.counted }
    {
        &self.bits[self.bits.len() / 2..]
    }

    /// Notes which hits changed at a step, by the hits before it and after it, and says whether each of them stayed, or
    /// is free and one more.
    pub fn judge(&mut self, before: &[u32], after: &[u32]) -> bool
        requires before { length before.now ≡ length after.now }
        requires free { length self.old.free ≡ length after.now }
        requires counted { length self.old.counted ≡ length after.now }
        ensures free { self.new.free ≡ self.old.free }
        ensures counted { self.new.counted ≡ spec.counted before.now after.now }
        ensures keeps { result ≡ all_keep_by self.old.free before.now after.now }
    {
        let half = self.bits.len() / 2;
        let (free, counted) = self.bits.split_at_mut(half);
        judge_row(free, counted, before, after)
    }
}

// Notes which hits changed, and says whether each of them stayed, or is free and one more.
fn judge_row(free: &[bool], counted: &mut [bool], before: &[u32], after: &[u32]) -> bool
    requires before { length before.now ≡ length after.now }
    requires free { length free.now ≡ length after.now }
    requires counted { length counted.old ≡ length after.now }
    ensures counted { counted.new ≡ spec.counted before.now after.now }
    ensures keeps { result ≡ all_keep_by free.now before.now after.now }
{
    let mut keeps = true;
    for place in 0..after.len() {
        let stays = after[place] == before[place];
        counted[place] = !stays;
        keeps &= stays | (free[place] & is_one_more(before[place], after[place]));
    }
    keeps
}

// Whether hits are one more than before.
#[inline(always)]
fn is_one_more(before: u32, after: u32) -> bool
    ensures { result ≡ (after == before + 1) }
{
    before != u32::MAX && after == before.wrapping_add(1)
}

/// Adds the hits that conditions owe which counted at the last step, for this many frames at rest.
#[inline(never)]
pub fn pay(hits: &mut [u32], counted: &[bool], frames: u32)
    requires { length counted.now ≡ length hits.old }
    ensures { hits.new ≡ owed_by frames counted.now hits.old }
{
    if frames == 0 {
        return;
    }
    for place in 0..hits.len() {
        let more = if counted[place] { frames } else { 0 };
        hits[place] = hits[place].saturating_add(more);
    }
}

// Whether nothing looks at the hits of each condition of a trigger, the core group's first.
fn trigger_free(alloc: Global, text: &TriggerText) -> Result<Vec<bool>, OutOfMemory>
    ensures { IfOk result (λ free. free.items ≡ free_in InTrigger (groups_of (trigger_contents text.now))) }
{
    let mut free = Vec::new(alloc);
    put_free(&mut free, Form::InTrigger, &text.core)?;
    for alt in &text.alts {
        put_free(&mut free, Form::InTrigger, alt)?;
    }
    Ok(free)
}

// The same of the conditions of a value's parts.
fn value_free(alloc: Global, text: &ValueText) -> Result<Vec<bool>, OutOfMemory>
    ensures { IfOk result (λ free. free.items ≡ free_in InValue (map counted_in (value_contents text.now))) }
{
    let mut free = Vec::new(alloc);
    for part in &text.parts {
        if let Part::Conditions(group) = part {
            put_free(&mut free, Form::InValue, group)?;
        }
    }
    Ok(free)
}

// The same of the conditions of a group.
fn put_free(free: &mut Vec<bool>, form: Form, group: &Group) -> Result<(), OutOfMemory>
    ensures { OnOk result (free.new.items ≡ free.old.items ++ map (spec_free form) (group_contents group.now)) }
{
    for condition in &group.conditions {
        free.push(is_free(form, condition))?;
    }
    Ok(())
}
