//! The lines of events.

ghost use Rattle.std.specs.Prelude.{◌≡◌, ◌∷◌, [], ◌++◌, codes, decimal};
ghost use Rattle.std.specs.Result.{OnErr, OnOk};
ghost use Rattle.std.specs.List.{AllByRecursion};
ghost use Rattle.std.specs.Fmt.{signed_decimal};
ghost use Rattle.ra_value_format.specs.Formats.{HasDigits, formatted};
ghost use Rattle.ra_meaning.specs.Lines.{HasEventDigits, event_line, event_lines, line_of};
ghost use Rattle.ra_runtime.specs.Told.{GrewByFront};

use ra_items::Events;
use ra_meaning::Event;
use ra_text::OutOfMemory;
use ra_value_format::{Format, put_unsigned, put_value};

/// The bytes that a line seldom passes.
pub(crate) const LINE: usize = 64;

/// The frame and the item that a line speaks of.
#[derive(Clone, Copy)]
pub(crate) struct Subject {
    pub frame: u64,
    pub id: u32,
}

// Puts the lines of events at the end of a text, one after the other as each is whole.
#[inline(never)]
pub(crate) fn put_events(
    out: &mut Vec<u8>,
    frame: u64,
    events: Events<'_>,
) -> Result<(), OutOfMemory>
    requires { AllByRecursion HasEventDigits events }
    ensures put { OnOk result (out.new.items ≡ out.old.items ++ event_lines frame events.entry) }
    ensures front { OnErr result (GrewByFront out.old.items out.new.items (event_lines frame events.entry)) }
{
    let mut line = Vec::new(*out.allocator());
    for event in events {
        line.clear();
        put_event(&mut line, frame, event)?;
        out.extend_from_slice(line.as_slice())?;
    }
    Ok(())
}

// Puts the line of an event.
fn put_event(out: &mut Vec<u8>, frame: u64, event: Event) -> Result<(), OutOfMemory>
    requires { HasEventDigits event }
    ensures { OnOk result (out.new.items ≡ out.old.items ++ event_line frame event) }
{
    match event {
        Event::Measured { id, number } => put_measured(out, Subject { frame, id }, number),
        Event::Primed { id } => put_change(out, "primed", Subject { frame, id }),
        Event::Unprimed { id } => put_change(out, "unprimed", Subject { frame, id }),
        Event::Unlock { id } => put_change(out, "unlock", Subject { frame, id }),
        Event::Start { id } => put_change(out, "start", Subject { frame, id }),
        Event::Cancel { id } => put_change(out, "cancel", Subject { frame, id }),
        Event::Track { id, number, format } => {
            put_track(out, Subject { frame, id }, format, number)
        }
        Event::Submit { id, number, format } => {
            put_submit(out, Subject { frame, id }, format, number)
        }
    }
}

// Puts the words that every line begins with. Room for a whole line is made at once.
fn put_head(out: &mut Vec<u8>, word: &str, subject: Subject) -> Result<(), OutOfMemory>
    ensures { OnOk result (out.new.items ≡ out.old.items
        ++ (word.now ++ 32 ∷ (decimal subject.frame ++ 32 ∷ decimal subject.id))) }
{
    out.reserve(LINE)?;
    out.extend_from_slice(word.as_bytes())?;
    out.push(b' ')?;
    put_unsigned(out, subject.frame)?;
    out.push(b' ')?;
    put_unsigned(out, u64::from(subject.id))?;
    Ok(())
}

// Puts a line without a number.
fn put_change(out: &mut Vec<u8>, word: &str, subject: Subject) -> Result<(), OutOfMemory>
    ensures { OnOk result (out.new.items ≡ out.old.items
        ++ line_of (word.now ∷ decimal subject.frame ∷ decimal subject.id ∷ [])) }
{
    put_head(out, word, subject)?;
    out.push(b'\n')?;
    Ok(())
}

// Puts the line of a measured number.
fn put_measured(out: &mut Vec<u8>, subject: Subject, number: u32) -> Result<(), OutOfMemory>
    ensures { OnOk result (out.new.items ≡ out.old.items
        ++ line_of (codes "measured" ∷ decimal subject.frame ∷ decimal subject.id ∷ decimal number ∷ [])) }
{
    put_head(out, "measured", subject)?;
    out.push(b' ')?;
    put_unsigned(out, u64::from(number))?;
    out.push(b'\n')?;
    Ok(())
}

// Puts the line of a tracked number.
fn put_track(
    out: &mut Vec<u8>,
    subject: Subject,
    format: Format,
    tracked: i32,
) -> Result<(), OutOfMemory>
    requires { HasDigits format }
    ensures { OnOk result (out.new.items ≡ out.old.items
        ++ line_of (codes "track" ∷ decimal subject.frame ∷ decimal subject.id ∷ formatted format tracked ∷ [])) }
{
    put_head(out, "track", subject)?;
    out.push(b' ')?;
    put_value(out, format, tracked)?;
    out.push(b'\n')?;
    Ok(())
}

// Puts the line of a submitted number: the number, and the number as it is shown.
fn put_submit(
    out: &mut Vec<u8>,
    subject: Subject,
    format: Format,
    value: i32,
) -> Result<(), OutOfMemory>
    requires { HasDigits format }
    ensures { OnOk result (out.new.items ≡ out.old.items
        ++ line_of (codes "submit" ∷ decimal subject.frame ∷ decimal subject.id ∷ signed_decimal value ∷ formatted format value ∷ [])) }
{
    put_head(out, "submit", subject)?;
    out.push(b' ')?;
    put_value(out, Format::Value, value)?;
    out.push(b' ')?;
    put_value(out, format, value)?;
    out.push(b'\n')?;
    Ok(())
}
