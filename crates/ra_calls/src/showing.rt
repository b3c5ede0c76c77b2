//! The presence text of a game: its presence line without the word, the count and the line feed.

ghost use Rattle.std.specs.Prelude.{◌≡◌, IfOk};
ghost use Rattle.ra_calls.specs.Shows as spec;
ghost use Rattle.ra_calls.specs.Shows.{IsShownBy};

use ra_runtime::Course;
use ra_text::OutOfMemory;
use ra_value_format::put_unsigned;
use std::alloc::Global;

// What stands before the text of a presence line.
fn head_of(alloc: Global, count: u64) -> Result<Vec<u8>, OutOfMemory>
    ensures { IfOk result (λ head. head.items ≡ spec.head_of count) }
{
    let mut head = Vec::new(alloc);
    head.extend_from_slice(b"presence ")?;
    put_unsigned(&mut head, count)?;
    head.push(b' ')?;
    Ok(head)
}

// The text of a presence line, which comes after this many bytes and before a line feed; nothing of an empty line.
fn text_in(alloc: Global, line: &[u8], head: usize) -> Result<Vec<u8>, OutOfMemory>
    ensures { IfOk result (λ text. text.items ≡ spec.text_in head line.now) }
{
    if head < line.len() {
        let text = line[head..line.len() - 1].to_vec(alloc)?;
        Ok(text)
    } else {
        Ok(Vec::new(alloc))
    }
}

/// The presence text after the last frame; empty where the set has no script.
pub fn presence_of(alloc: Global, course: &Course) -> Result<Vec<u8>, OutOfMemory>
    ensures { IfOk result (λ text. IsShownBy course.now text.items) }
{
    let line = course.show(alloc)?;
    let head = head_of(alloc, course.frames())?;
    text_in(alloc, &line, head.len())
}
