//! An achievement that is recorded step by step over a small memory.

ghost use Rattle.std.specs.Prelude.{◌≡◌, ◌<◌, ◌≤◌, length, IfOk};
ghost use Rattle.ra_condition.specs.Contents.{trigger_contents, trigger_hits};
ghost use Rattle.ra_condition.specs.Spelled.{IsTrigger};

use ra_condition::{TriggerText, parse_trigger};
use ra_explain::Recorder;
use ra_memory::Steps;
use ra_text::OutOfMemory;
use ra_trigger::Trigger;
use std::alloc::Global;
use std::marker::Brand;
use std::sync::ledger::{Blank, Ledger};
use std::test::Fail;

/// A call of a recorder.
#[derive(Clone, Copy)]
pub enum Step {
    /// Writes one byte.
    Write(u8, u8),
    /// Takes a frame.
    Frame,
    /// Saves into a slot.
    Save(u8),
    /// Restores a slot that is filled.
    Restore(u8),
}

/// A recorder over 64 bytes.
#[derive(Drop)]
pub struct Recorded {
    recorder: Recorder,
    ghost size: { length recorder.image ≡ 64 },
}

// The trigger of a text, which has at most 65,536 conditions.
pub(crate) fn trigger_of(alloc: Global, text: &str) -> Result<TriggerText, Fail>
    ensures few { IfOk result (λ t. trigger_hits (trigger_contents t) ≤ 65536) }
    ensures spelled { IfOk result (λ t. IsTrigger (trigger_contents t)) }
{
    let Ok(trigger) = parse_trigger(alloc, text.as_bytes()) else {
        return Err(Fail::from("no trigger"));
    };
    let kept = Trigger::new(alloc, &trigger)?;
    if kept.hits().len() > 65536 {
        return Err(Fail::from("many conditions"));
    }
    Ok(trigger)
}

impl Recorded {
    /// The trigger of a text over bytes that are 0, before its first frame.
    pub(crate) fn new(alloc: Global, text: &str) -> Result<Box<Recorded>, Fail> {
        let trigger = trigger_of(alloc, text)?;
        let recorder = Recorder::new(alloc, trigger, 64)?;
        let recorded = Box::new(alloc, Recorded { recorder })?;
        Ok(recorded)
    }

    // Makes one call, and tells the answer of a frame and each restore.
    fn step(&mut self, step: Step, out: &mut Vec<u8>) -> Result<(), OutOfMemory> {
        match step {
            Step::Write(at, byte) if at < 64 => self.recorder.write(u32::from(at), &[byte]),
            Step::Frame => {
                let unlock = self.frame::<Brand>(Blank::new(1))?;
                out.push(digit(unlock))?;
            }
            Step::Save(slot) if slot < 16 => self.recorder.save(slot)?,
            Step::Restore(slot) if slot < 16 && self.recorder.is_filled(slot) => {
                self.recorder.restore(slot);
                out.push(b'r')?;
            }
            _ => out.push(b'?')?,
        }
        Ok(())
    }

    fn frame<L: Ledger>(&mut self, blank: Blank) -> Result<bool, OutOfMemory>
        requires name { blank.name ≡ L.name }
        requires parts { blank.parts ≡ L.parts }
        requires held { 0 < blank.parts }
    {
        let mut steps = Steps::<L>::open(blank);
        match self.recorder.frame(&mut steps) {
            Ok(unlock) => Ok(unlock),
            Err(_) => Err(OutOfMemory),
        }
    }
}

// 1 for true, 0 for false.
fn digit(holds: bool) -> u8 {
    if holds { b'1' } else { b'0' }
}

/// What is told of the steps, and then the rows of the history so far.
pub(crate) fn told(
    alloc: Global,
    recorded: &mut Recorded,
    steps: &[Step],
) -> Result<Vec<u8>, Fail> {
    let mut out = Vec::new(alloc);
    for step in steps {
        recorded.step(*step, &mut out)?;
    }
    out.push(b' ')?;
    for holds in &recorded.recorder.rows(alloc)? {
        out.push(digit(*holds))?;
    }
    Ok(out)
}
