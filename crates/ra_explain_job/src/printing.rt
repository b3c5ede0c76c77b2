//! The text of an explanation, written line by line.

ghost use Rattle.std.specs.Prelude.{◌≡◌, ◌≤◌, ◌<◌, ◌^◌, ◌++◌, true, length, string_bytes, IfOk, IsErrOf, OnOk};
ghost use Rattle.std.specs.List.{flat_map};
ghost use Rattle.ra_condition.specs.Contents.{groups_of, trigger_contents, trigger_hits};
ghost use Rattle.ra_io.specs.Causes.{Rose};
ghost use Rattle.ra_io.specs.Sink.{grown};
ghost use Rattle.ra_explain.specs.Compacts.{compact_contents};
ghost use Rattle.ra_explain.specs.HitChanges.{events_of};
ghost use Rattle.ra_session.specs.Closing.{EndsBefore};
ghost use Rattle.ra_session.specs.Expected.{prints_line};
ghost use Rattle.ra_session.specs.Explaining as spec;
ghost use Rattle.ra_session.specs.Explaining.{conditions_text, event_text, explanation_text, groups_text, no_unlock_text, unlock_text};
ghost use Rattle.ra_jobs.specs.Writing.{GrewByPart};
ghost use Rattle.ra_explain_job.specs.Printing.{PrintsUnlock, PrintsWatched};

use crate::watch::Watch;
use ra_condition::TriggerText;
use ra_explain::{CompactExplanation, Event, HitChanges, Recorder};
use ra_io::{Sink, SinkFailed};
use ra_jobs::write_all;
use ra_session::{Ending, print_line};
use ra_text::OutOfMemory;
use ra_value_format::put_unsigned;
use std::alloc::Global;
use std::fmt::Write;

// The events of a condition, at the end of a text.
fn write_events(text: &mut Vec<u8>, list: &[Event]) -> Result<(), OutOfMemory>
    ensures { OnOk result (text.new.items ≡ text.old.items ++ flat_map event_text list.now) }
{
    for event in list {
        write_event(text, *event)?;
    }
    Ok(())
}

// The row of an event and the hits after it, at the end of a text.
fn write_event(text: &mut Vec<u8>, event: Event) -> Result<(), OutOfMemory>
    ensures { OnOk result (text.new.items ≡ text.old.items ++ event_text event) }
{
    text.push(b' ')?;
    put_unsigned(text, u64::from(event.row))?;
    text.push(b':')?;
    put_unsigned(text, u64::from(event.hits))
}

// The line of a condition: its group, its place in it, and its events.
fn condition_line(
    alloc: Global,
    group: usize,
    place: usize,
    own: &HitChanges,
) -> Result<Vec<u8>, OutOfMemory>
    ensures { IfOk result (λ line. line.items ≡ spec.condition_line group place own.now.events) }
{
    let list = own.events(alloc)?;
    let mut line = Vec::new(alloc);
    put_unsigned(&mut line, group as u64)?;
    line.push(b'.')?;
    put_unsigned(&mut line, place as u64)?;
    if list.is_empty() {
        line.extend_from_slice(b" none")?;
    } else {
        write_events(&mut line, &list)?;
    }
    line.push(b'\n')?;
    Ok(line)
}

// Writes the line of a condition.
fn print_condition<K: Sink>(
    alloc: Global,
    group: usize,
    place: usize,
    own: &HitChanges,
    out: &mut K,
) -> Result<(), SinkFailed>
    ensures ok { OnOk result (K.text out.new ≡ grown (K.text out.old) (spec.condition_line group place own.now.events)) }
    ensures part { GrewByPart (K.text out.old) (K.text out.new) (spec.condition_line group place own.now.events) }
    ensures later { K.faults out.old ≤ K.faults out.new }
    ensures failed { IsErrOf result SinkFailed.Failed → Rose (K.faults out.old) (K.faults out.new) }
{
    match condition_line(alloc, group, place, own) {
        Ok(line) => write_all(&line, out),
        Err(_) => Err(SinkFailed::Memory),
    }
}

// Writes the lines of the conditions of a group.
fn print_conditions<K: Sink>(
    alloc: Global,
    group: usize,
    conditions: &[HitChanges],
    out: &mut K,
) -> Result<(), SinkFailed>
    ensures ok { OnOk result (K.text out.new ≡ grown (K.text out.old) (conditions_text group 0 (events_of conditions.now))) }
    ensures part { GrewByPart (K.text out.old) (K.text out.new) (conditions_text group 0 (events_of conditions.now)) }
    ensures later { K.faults out.old ≤ K.faults out.new }
    ensures failed { IsErrOf result SinkFailed.Failed → Rose (K.faults out.old) (K.faults out.new) }
{
    let mut rest = conditions;
    let mut place = 0;
    while let Some((own, later)) = rest.split_first() {
        print_condition(alloc, group, place, own, out)?;
        rest = later;
        place += 1;
    }
    Ok(())
}

// Writes the lines of the conditions of all groups.
fn print_groups<K: Sink>(
    alloc: Global,
    text: &TriggerText,
    conditions: &[HitChanges],
    out: &mut K,
) -> Result<(), SinkFailed>
    requires { length conditions.now ≡ trigger_hits (trigger_contents text.now) }
    ensures ok { OnOk result (K.text out.new ≡ grown (K.text out.old) (groups_text 0 (groups_of (trigger_contents text.now)) (events_of conditions.now))) }
    ensures part { GrewByPart (K.text out.old) (K.text out.new) (groups_text 0 (groups_of (trigger_contents text.now)) (events_of conditions.now)) }
    ensures later { K.faults out.old ≤ K.faults out.new }
    ensures failed { IsErrOf result SinkFailed.Failed → Rose (K.faults out.old) (K.faults out.new) }
{
    let (core, mut rest) = conditions.split_at(text.core.conditions.len());
    print_conditions(alloc, 0, core, out)?;
    let mut alts = text.alts.as_slice();
    let mut group = 1;
    while let Some((alt, later)) = alts.split_first() {
        let (own, others) = rest.split_at(alt.conditions.len());
        print_conditions(alloc, group, own, out)?;
        rest = others;
        alts = later;
        group += 1;
    }
    Ok(())
}

// The first lines of an explanation.
fn unlock_lines(
    alloc: Global,
    id: u32,
    explanation: &CompactExplanation,
) -> Result<String, OutOfMemory>
    ensures { IfOk result (λ text. string_bytes text ≡ unlock_text id (compact_contents explanation.now)) }
{
    let (last, since) = (explanation.last, explanation.since);
    let mut text = String::new(alloc);
    write!(text, "unlock {last} {id}\nsince {since}\n")?;
    Ok(text)
}

// Writes an explanation, line by line.
fn print_explanation<K: Sink>(
    alloc: Global,
    id: u32,
    text: &TriggerText,
    explanation: &CompactExplanation,
    out: &mut K,
) -> Result<(), SinkFailed>
    requires { length explanation.now.changes.items ≡ trigger_hits (trigger_contents text.now) }
    ensures ok { OnOk result (K.text out.new ≡ grown (K.text out.old) (explanation_text id (trigger_contents text.now) (compact_contents explanation.now))) }
    ensures part { GrewByPart (K.text out.old) (K.text out.new) (explanation_text id (trigger_contents text.now) (compact_contents explanation.now)) }
    ensures later { K.faults out.old ≤ K.faults out.new }
    ensures failed { IsErrOf result SinkFailed.Failed → Rose (K.faults out.old) (K.faults out.new) }
{
    let Ok(first) = unlock_lines(alloc, id, explanation) else {
        return Err(SinkFailed::Memory);
    };
    write_all(first.as_bytes(), out)?;
    print_groups(alloc, text, &explanation.changes, out)
}

// Writes why the unlock at the recorder's last frame came, and answers how the job ends.
fn print_unlock<K: Sink>(alloc: Global, id: u32, recorder: &Recorder, out: &mut K) -> Ending
    requires { recorder.now.unlocked ≡ true }
    ensures prints { PrintsUnlock id recorder.now (Rose (K.faults out.old) (K.faults out.new)) result (K.text out.old) (K.text out.new) }
    ensures later { K.faults out.old ≤ K.faults out.new }
{
    let Ok(explanation) = recorder.explain_compactly(alloc) else {
        return Ending::NoMemory;
    };
    match print_explanation(alloc, id, recorder.text(), &explanation, out) {
        Ok(()) => Ending::Done,
        Err(SinkFailed::Failed) => Ending::SinkFault,
        Err(SinkFailed::Memory) => Ending::NoMemory,
    }
}

// The line where no unlock came.
fn no_unlock_line(alloc: Global, id: u32) -> Result<String, OutOfMemory>
    ensures { IfOk result (λ line. string_bytes line ≡ no_unlock_text id) }
{
    let mut line = String::new(alloc);
    writeln!(line, "no unlock {id}")?;
    Ok(line)
}

// Writes that no unlock came, and answers how the job ends.
fn print_none<K: Sink>(alloc: Global, id: u32, out: &mut K) -> Ending
    ensures prints { EndsBefore (prints_line (no_unlock_text id)) ⊥ ⊥ (Rose (K.faults out.old) (K.faults out.new)) result (K.text out.old) (K.text out.new) }
    ensures later { K.faults out.old ≤ K.faults out.new }
{
    match no_unlock_line(alloc, id) {
        Ok(line) => print_line(line.as_str(), out),
        Err(_) => Ending::NoMemory,
    }
}

/// Writes why the unlock of a watched achievement came, or that none did, and answers how the job ends.
pub(crate) fn print_watched<K: Sink>(alloc: Global, id: u32, watch: &Watch, out: &mut K) -> Ending
    requires { watch.now.unlocked ≡ true → watch.now.recorder.unlocked ≡ true }
    ensures prints { PrintsWatched id watch.now.unlocked watch.now.recorder (Rose (K.faults out.old) (K.faults out.new)) result (K.text out.old) (K.text out.new) }
    ensures later { K.faults out.old ≤ K.faults out.new }
{
    if watch.unlocked {
        print_unlock(alloc, id, &watch.recorder, out)
    } else {
        print_none(alloc, id, out)
    }
}
