//! A course over banks.

ghost use Rattle.std.specs.Prelude.{◌≡◌, ◌<◌, length};
ghost use Rattle.ra_banks.specs.Banks.{bytes_of};

use crate::courses::watched::course_of;
use ra_banks::{Bank, Banks, Row, size_of};
use ra_memory::Steps;
use ra_runtime::Course;
use ra_text::OutOfMemory;
use std::alloc::Global;
use std::marker::Brand;
use std::sync::ledger::{Blank, Ledger};
use std::test::Fail;

/// The lines of two frames over banks, of a set of this file.
pub(crate) fn lines_over(alloc: Global, file: &str, banks: &[Bank<'_>]) -> Result<Vec<u8>, Fail> {
    let Some(size) = size_of(banks) else {
        return Err(Fail::from("too many bytes"));
    };
    let mut course = course_of(alloc, file, size, true)?;
    let lines = lines_of(alloc, &mut course, banks);
    drop(course);
    Ok(lines?)
}

// The lines of two frames.
fn lines_of(alloc: Global, course: &mut Course, banks: &[Bank<'_>]) -> Result<Vec<u8>, OutOfMemory>
    requires { length (bytes_of banks.now) ≡ course.old.size }
{
    let mut lines = Vec::new(alloc);
    put_frame::<Brand>(course, banks, Blank::new(1), &mut lines)?;
    put_frame::<Brand>(course, banks, Blank::new(1), &mut lines)?;
    Ok(lines)
}

// Takes a frame over banks, and puts its lines at the end of a text.
fn put_frame<L: Ledger>(
    course: &mut Course,
    banks: &[Bank<'_>],
    blank: Blank,
    lines: &mut Vec<u8>,
) -> Result<(), OutOfMemory>
    requires name { blank.name ≡ L.name }
    requires parts { blank.parts ≡ L.parts }
    requires held { 0 < blank.parts }
    requires size { length (bytes_of banks.now) ≡ course.old.size }
    ensures size { course.new.size ≡ course.old.size }
{
    let mut steps = Steps::<L>::open(blank);
    let mut image = Banks {
        row: Row::new(banks),
        steps: &mut steps,
    };
    course.follow(&mut image);
    course.tell_lines(lines)
}

/// The place of the first row whose banks tell other lines.
pub(crate) fn other_banks(
    alloc: Global,
    file: &str,
    rows: &[(&[&[u8]], &str)],
) -> Result<Option<usize>, Fail> {
    for (place, (pieces, lines)) in rows.iter().enumerate() {
        let mut banks = Vec::new(alloc);
        for bytes in pieces.iter() {
            banks.push(Bank { bytes })?;
        }
        if lines_over(alloc, file, banks.as_slice())?.as_slice() != lines.as_bytes() {
            return Ok(Some(place));
        }
    }
    Ok(None)
}
