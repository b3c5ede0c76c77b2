//! A course, and the memory that it is shown.

ghost use Rattle.std.specs.Prelude.{◌≡◌, ◌<◌, ◌≤◌, ◌^◌, ℕ, List, length, IfOk};
ghost use Rattle.ra_runtime.specs.Courses.{IsCurrent, over};

use crate::played::set_of;
use ra_memory::{Counted, Image, Memory, Steps};
use ra_runtime::Course;
use ra_text::OutOfMemory;
use std::alloc::Global;
use std::marker::Brand;
use std::sync::ledger::{Blank, Ledger};
use std::test::Fail;

/// What is done before a frame.
#[derive(Clone, Copy)]
pub(crate) enum Step<'a> {
    /// Writes these bytes from an address on, tells the course, and takes a frame.
    Told(u32, &'a [u8]),
    /// Writes these bytes from an address on, and takes a frame that looks.
    Looked(u32, &'a [u8]),
    /// Writes this byte everywhere, and takes a frame that looks.
    Filled(u8),
}

// An image that also tells how often it was read.
#[derive(Drop)]
struct Tallied<'a, L: Ledger> {
    image: Counted<'a, L>,
    reads: u32,
}

impl<'a, L: Ledger> Image for Tallied<'a, L> {
    ghost bytes = { λ t. t.image.memory.now };

    ghost reads = { λ t. t.image.steps.now };

    ghost counter = { λ t. t.image.steps.ghost_name };

    fn read(&mut self, at: u32, width: u8) -> u32 {
        self.reads = self.reads.wrapping_add(1);
        self.image.read(at, width)
    }
}

// A course, and a memory of its size that it is current with.
#[derive(Drop)]
struct Watched {
    course: Course,
    memory: Memory,
    ghost size: { course.size ≡ length memory },
    ghost current: { IsCurrent (over course memory) },
}

impl Watched {
    // A set of this file over a memory of zeros, by a course that is made for looks or to be told.
    fn new(alloc: Global, file: &str, size: u32, looks: bool) -> Result<Watched, Fail>
        requires { size ≤ 2 ^ 27 }
    {
        let memory = Memory::new(alloc, size)?;
        let course = course_of(alloc, file, size, looks)?;
        Ok(Watched { course, memory })
    }

    // Writes bytes and tells the course; what does not fit is left out.
    fn write(&mut self, at: u32, bytes: &[u8]) {
        let _size = self.memory.size();
        if let Ok(()) = self.memory.write(at, bytes) {
            self.course.tell(at, bytes.len() as u32);
        }
    }

    // Takes a frame, and tells how often it reads.
    fn frame<L: Ledger>(&mut self, blank: Blank) -> u32
        requires name { blank.name ≡ L.name }
        requires parts { blank.parts ≡ L.parts }
        requires held { 0 < blank.parts }
    {
        let mut steps = Steps::<L>::open(blank);
        let mut image = Tallied {
            image: Counted {
                memory: &self.memory,
                steps: &mut steps,
            },
            reads: 0,
        };
        self.course.frame(&mut image);
        image.reads
    }

    // Writes bytes without telling the course, takes a frame that looks, and tells how often it reads; what does
    // not fit is left out.
    fn follow<L: Ledger>(&mut self, blank: Blank, at: u32, bytes: &[u8]) -> u32
        requires name { blank.name ≡ L.name }
        requires parts { blank.parts ≡ L.parts }
        requires held { 0 < blank.parts }
    {
        let mut steps = Steps::<L>::open(blank);
        let _written = self.memory.write(at, bytes);
        let mut image = Tallied {
            image: Counted {
                memory: &self.memory,
                steps: &mut steps,
            },
            reads: 0,
        };
        self.course.follow(&mut image);
        image.reads
    }
}

/// A set of this file as a course that is made for looks or to be told, before its first frame.
pub(crate) fn course_of(alloc: Global, file: &str, size: u32, looks: bool) -> Result<Course, Fail>
    requires { size ≤ 2 ^ 27 }
    ensures size { IfOk result (λ course. course.size ≡ size) }
    ensures current { IfOk result (λ course. (image : List ℕ) → IsCurrent (over course image)) }
{
    let set = set_of(alloc, file)?;
    if looks {
        Ok(Course::for_looks(alloc, set, size)?)
    } else {
        Ok(Course::new(alloc, set, size)?)
    }
}

/// The place of the first row that goes otherwise over a memory of this many bytes: the step that it does, how often
/// its frame reads, and the lines of the frame.
pub(crate) fn other_step(
    alloc: Global,
    file: &str,
    size: u32,
    looks: bool,
    rows: &[(Step<'_>, u32, &str)],
) -> Result<Option<usize>, Fail>
    requires { size ≤ 2 ^ 27 }
{
    let mut watched = Watched::new(alloc, file, size, looks)?;
    let other = other_row(alloc, &mut watched, rows);
    drop(watched);
    Ok(other?)
}

fn other_row(
    alloc: Global,
    watched: &mut Watched,
    rows: &[(Step<'_>, u32, &str)],
) -> Result<Option<usize>, OutOfMemory> {
    for (place, (step, reads, lines)) in rows.iter().enumerate() {
        let found = reads_of(alloc, watched, *step)?;
        let mut told = Vec::new(alloc);
        watched.course.tell_lines(&mut told)?;
        if found != *reads || told.as_slice() != lines.as_bytes() {
            return Ok(Some(place));
        }
    }
    Ok(None)
}

// Does a step, and tells how often its frame reads.
fn reads_of(alloc: Global, watched: &mut Watched, step: Step<'_>) -> Result<u32, OutOfMemory> {
    let blank = Blank::new(1);
    Ok(match step {
        Step::Told(at, bytes) => {
            watched.write(at, bytes);
            watched.frame::<Brand>(blank)
        }
        Step::Looked(at, bytes) => watched.follow::<Brand>(blank, at, bytes),
        Step::Filled(byte) => {
            let bytes = vec![in alloc; byte; watched.memory.size() as usize]?;
            watched.follow::<Brand>(blank, 0, bytes.as_slice())
        }
    })
}
