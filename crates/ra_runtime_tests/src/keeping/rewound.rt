//! A course whose states are kept and taken, and what that tells.

ghost use Rattle.std.specs.Prelude.{◌≡◌, ◌<◌, length};

use crate::courses::watched::course_of;
use ra_memory::{Counted, Memory, Steps};
use ra_runtime::{Course, Kept, OtherSet};
use ra_text::OutOfMemory;
use std::alloc::Global;
use std::marker::Brand;
use std::sync::ledger::{Blank, Ledger};
use std::test::Fail;

/// What is done, and what it tells.
#[derive(Clone, Copy)]
pub(crate) enum Step {
    /// Writes a byte and takes a frame that looks: its lines.
    At(u8, u8),
    /// Keeps the state in the room of the set: `kept`, or `other`.
    Keep,
    /// Keeps the state in the room of another set.
    KeepOther,
    /// Takes the state that is kept: `taken`, or `other`.
    Take,
    /// Takes the state of another set.
    TakeOther,
    /// Saves the state as progress bytes, in the place of those before.
    Save,
    /// Restores the progress bytes: `restored`, or `refused`.
    Restore,
    /// The presence line.
    Show,
}

/// A name, a set, the steps, and the text that they tell.
pub(crate) type Row = (&'static str, &'static str, &'static [Step], &'static str);

const OTHER: &str = "A 1 0xH0010=5_0=1_M:0xH0010=9.8.\n";

// A course, a memory of its size, rooms for a state of its set and of another, and progress bytes.
#[derive(Drop)]
struct Rewound {
    course: Course,
    memory: Memory,
    kept: Kept,
    other: Kept,
    bytes: Vec<u8>,
    ghost size: { course.size ≡ length memory },
}

// A room for a state of the set of a file.
fn room_of(alloc: Global, file: &str) -> Result<Kept, Fail> {
    let course = course_of(alloc, file, 256, true)?;
    let kept = Kept::new(alloc, &course);
    drop(course);
    Ok(kept?)
}

impl Rewound {
    // The set of a file over 256 bytes that are 0, before its first frame.
    fn new(alloc: Global, file: &str) -> Result<Rewound, Fail> {
        let memory = Memory::new(alloc, 256)?;
        let kept = room_of(alloc, file)?;
        let other = room_of(alloc, OTHER)?;
        let course = course_of(alloc, file, 256, true)?;
        Ok(Rewound {
            course,
            memory,
            kept,
            other,
            bytes: Vec::new(alloc),
        })
    }

    // Writes a byte and takes a frame that looks.
    fn follow<L: Ledger>(&mut self, blank: Blank, at: u8, byte: u8)
        requires name { blank.name ≡ L.name }
        requires parts { blank.parts ≡ L.parts }
        requires held { 0 < blank.parts }
    {
        let mut steps = Steps::<L>::open(blank);
        let _written = self.memory.write(u32::from(at), &[byte]);
        self.course.follow(&mut Counted {
            memory: &self.memory,
            steps: &mut steps,
        });
    }

    // Takes a step, and puts what it tells after the text.
    fn take(&mut self, alloc: Global, step: Step, text: &mut Vec<u8>) -> Result<(), OutOfMemory> {
        match step {
            Step::At(at, byte) => {
                self.follow::<Brand>(Blank::new(1), at, byte);
                self.course.tell_lines(text)
            }
            Step::Keep => put_answer(text, self.course.keep(&mut self.kept), "kept\n"),
            Step::KeepOther => put_answer(text, self.course.keep(&mut self.other), "kept\n"),
            Step::Take => put_answer(text, self.course.take(&self.kept), "taken\n"),
            Step::TakeOther => put_answer(text, self.course.take(&self.other), "taken\n"),
            Step::Save => {
                self.bytes = self.course.save(alloc)?;
                Ok(())
            }
            Step::Restore => {
                let word = match self.course.restore(self.bytes.as_slice()) {
                    Ok(()) => "restored\n",
                    Err(_) => "refused\n",
                };
                text.extend_from_slice(word.as_bytes())?;
                Ok(())
            }
            Step::Show => {
                let line = self.course.show(alloc)?;
                text.extend_from_slice(&line)?;
                Ok(())
            }
        }
    }
}

// Puts a word where a state was kept or taken, and else that it is of another set.
fn put_answer(
    text: &mut Vec<u8>,
    answer: Result<(), OtherSet>,
    word: &str,
) -> Result<(), OutOfMemory> {
    let told = match answer {
        Ok(()) => word,
        Err(OtherSet) => "other\n",
    };
    text.extend_from_slice(told.as_bytes())?;
    Ok(())
}

/// The name of the first row that tells another text.
pub(crate) fn other_row(alloc: Global, rows: &[Row]) -> Result<Option<&'static str>, Fail> {
    for (name, file, steps, text) in rows {
        let mut rewound = Rewound::new(alloc, file)?;
        let told = told_by(alloc, &mut rewound, steps);
        drop(rewound);
        if told?.as_slice() != text.as_bytes() {
            return Ok(Some(*name));
        }
    }
    Ok(None)
}

// What the steps tell.
fn told_by(alloc: Global, rewound: &mut Rewound, steps: &[Step]) -> Result<Vec<u8>, OutOfMemory> {
    let mut text = Vec::new(alloc);
    for step in steps {
        rewound.take(alloc, *step, &mut text)?;
    }
    Ok(text)
}
