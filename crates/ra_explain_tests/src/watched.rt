//! An achievement that is recorded twice over one memory: by a recorder that is told of writes, and by a recording that
//! looks.

ghost use Rattle.std.specs.Prelude.{◌≡◌, ◌<◌, length};

use crate::recorded::trigger_of;
use ra_explain::{Events, Explanation, Recorder, Recording};
use ra_memory::{Counted, Image, Memory, Steps};
use ra_text::OutOfMemory;
use std::alloc::Global;
use std::marker::Brand;
use std::sync::ledger::{Blank, Ledger};
use std::test::Fail;

/// What is done, and what comes of it.
#[derive(Clone, Copy)]
pub(crate) enum Step<'a> {
    /// Writes one byte; the recording is not told.
    Write(u8, u8),
    /// Takes a frame: how often the recording reads the memory, and the explanation of both where they unlock.
    Frame(u32, &'a str),
    /// Saves into a slot.
    Save(u8),
    /// Restores a slot.
    Restore(u8),
}

// An image that also tells how often it was read.
#[derive(Drop)]
struct Tallied<'a, L: Ledger> {
    image: Counted<'a, L>,
    reads: u32,
}

impl<'a, L: Ledger> Image for Tallied<'a, L> {
    ghost bytes = { λ t. t.image.memory.now };

    ghost reads = { λ t. t.image.steps.now };

    ghost counter = { λ t. t.image.steps.ghost_name };

    fn read(&mut self, at: u32, width: u8) -> u32 {
        self.reads = self.reads.wrapping_add(1);
        self.image.read(at, width)
    }
}

// A recorder and a recording of one achievement, and the memory of 64 bytes that the recording is shown.
#[derive(Drop)]
struct Watched {
    recorder: Recorder,
    recording: Recording,
    memory: Memory,
    ghost told: { length recorder.image ≡ 64 },
    ghost shown: { recording.size ≡ 64 },
    ghost size: { length memory ≡ 64 },
}

impl Watched {
    fn new(alloc: Global, text: &str) -> Result<Box<Watched>, Fail> {
        let memory = Memory::new(alloc, 64)?;
        let recorder = Recorder::new(alloc, trigger_of(alloc, text)?, 64)?;
        let recording = Recording::for_looks(alloc, trigger_of(alloc, text)?, 64)?;
        let watched = Watched {
            recorder,
            recording,
            memory,
        };
        Ok(Box::new(alloc, watched)?)
    }

    // Does a step, and tells whether it goes as it says.
    fn goes(&mut self, alloc: Global, step: Step<'_>) -> Result<bool, OutOfMemory> {
        match step {
            Step::Write(at, byte) if at < 64 => {
                self.recorder.write(u32::from(at), &[byte]);
                let _ = self.memory.write(u32::from(at), &[byte]);
            }
            Step::Frame(reads, explanation) => {
                let told = told::<Brand>(alloc, &mut self.recorder, Blank::new(1))?;
                let (found, looked) = looked::<Brand>(
                    alloc,
                    &mut self.recording,
                    &self.memory,
                    Blank::new(1),
                )?;
                return Ok(
                    found == reads
                        && told.as_slice() == explanation.as_bytes()
                        && looked.as_slice() == explanation.as_bytes(),
                );
            }
            Step::Save(slot) if slot < 16 => {
                self.recorder.save(slot)?;
                self.recording.save(slot)?;
            }
            Step::Restore(slot)
                if slot < 16 && self.recorder.is_filled(slot) && self.recording.is_filled(slot) => {
                self.recorder.restore(slot);
                self.recording.restore(slot);
            }
            _ => return Ok(false),
        }
        Ok(true)
    }
}

// Takes a frame of a recorder, and tells the explanation of its unlock.
fn told<L: Ledger>(
    alloc: Global,
    recorder: &mut Recorder,
    blank: Blank,
) -> Result<Vec<u8>, OutOfMemory>
    requires name { blank.name ≡ L.name }
    requires parts { blank.parts ≡ L.parts }
    requires held { 0 < blank.parts }
    ensures { length recorder.new.image ≡ length recorder.old.image }
{
    let mut steps = Steps::<L>::open(blank);
    match recorder.frame(&mut steps) {
        Ok(true) => line_of(alloc, &recorder.explain(alloc)?),
        Ok(false) => Ok(Vec::new(alloc)),
        Err(_) => Err(OutOfMemory),
    }
}

// Takes a frame of a recording that looks, and tells how often it read, and the explanation of its unlock.
fn looked<L: Ledger>(
    alloc: Global,
    recording: &mut Recording,
    memory: &Memory,
    blank: Blank,
) -> Result<(u32, Vec<u8>), OutOfMemory>
    requires size { length memory.now ≡ recording.old.size }
    requires name { blank.name ≡ L.name }
    requires parts { blank.parts ≡ L.parts }
    requires held { 0 < blank.parts }
    ensures { recording.new.size ≡ recording.old.size }
{
    let mut steps = Steps::<L>::open(blank);
    let mut image = Tallied {
        image: Counted {
            memory,
            steps: &mut steps,
        },
        reads: 0,
    };
    match recording.follow(&mut image) {
        Ok(true) => Ok((image.reads, line_of(alloc, &recording.explain(alloc)?)?)),
        Ok(false) => Ok((image.reads, Vec::new(alloc))),
        Err(_) => Err(OutOfMemory),
    }
}

// An explanation whose numbers are below 10: last, since and waited, and after a stroke each the events of a condition.
fn line_of(alloc: Global, explanation: &Explanation) -> Result<Vec<u8>, OutOfMemory> {
    let mut line = Vec::new(alloc);
    line.push(digit(explanation.last))?;
    line.push(digit(explanation.since))?;
    line.push(digit(u32::from(explanation.waited)))?;
    for own in &explanation.events {
        put_events(&mut line, own)?;
    }
    Ok(line)
}

// Puts a stroke, and the row and the hits of each event.
fn put_events(line: &mut Vec<u8>, own: &Events) -> Result<(), OutOfMemory> {
    line.push(b'|')?;
    for event in &own.list {
        line.push(b' ')?;
        line.push(digit(event.row))?;
        line.push(b':')?;
        line.push(digit(event.hits))?;
    }
    Ok(())
}

fn digit(number: u32) -> u8 {
    if number < 10 {
        b'0' + number as u8
    } else {
        b'?'
    }
}

/// The place of the first step that goes otherwise than it says.
pub(crate) fn other_step(
    alloc: Global,
    text: &str,
    steps: &[Step<'_>],
) -> Result<Option<usize>, Fail> {
    let mut watched = Watched::new(alloc, text)?;
    let other = other_of(alloc, &mut watched, steps)?;
    Ok(other)
}

fn other_of(
    alloc: Global,
    watched: &mut Watched,
    steps: &[Step<'_>],
) -> Result<Option<usize>, OutOfMemory> {
    for (place, step) in steps.iter().enumerate() {
        if !watched.goes(alloc, *step)? {
            return Ok(Some(place));
        }
    }
    Ok(None)
}
