//! Presence scripts of a text: docs/DEFINITIONS.md, "Presence scripts" and "First bad place".

ghost use Rattle.std.specs.Prelude.{◌≡◌, ◌-◌, ◌≤◌, IfErr, IfOk, drop, length, map};
ghost use Rattle.ra_condition.specs.Refusals.{IfSyntax};
ghost use Rattle.ra_richpresence.specs.Contents.{script_contents};
ghost use Rattle.ra_richpresence.specs.Following.{MovesAsUnlessFull, bytes_of, view_of};
ghost use Rattle.ra_richpresence.specs.Grammar.{script};
ghost use Rattle.ra_richpresence.specs.Placed.{first_place};
ghost use Rattle.ra_richpresence.specs.Places.{IsOutside};
ghost use Rattle.ra_richpresence.specs.Reading.{script_at};
ghost use Rattle.ra_richpresence.specs.Spelled.{IsScript};
ghost use Rattle.ra_richpresence.specs.Texts.{IsRead, IsScriptOf};

use crate::cut::cut_lines;
use crate::display::take_display;
use crate::kept::Kept;
use crate::line::Line;
use crate::lines::Lines;
use crate::lookup::Lookup;
use crate::naming::meanings_of_lines;
use crate::read::ReadScript;
use crate::script::Script;
use crate::script_line::ScriptLine;
use crate::sections::take_sections;
use crate::spans::spans_of_lookups;
use ra_condition::{Fault, Refused};
use ra_text::OutOfMemory;
use ra_value_format::Format;
use std::alloc::Global;

/// The presence script that the whole text spells: docs/DEFINITIONS.md, "Presence scripts".
///
/// `Syntax` carries the start of the first line with which no script of the grammar goes on, or the
/// length where there is none, in bytes from 0. It comes exactly where the text is outside the
/// grammar. `Memory` where there is no memory for the script.
pub fn parse_script(alloc: Global, text: &[u8]) -> Result<Script, Refused>
    ensures ok { IfOk result (λ s. script text.now (script_contents s)) }
    ensures structure { IfOk result (λ s. IsScript (script_contents s)) }
    ensures err { IfErr result (λ e. IfSyntax e (λ place. IsOutside text.now place)) }
{
    let read = read_script(alloc, text, u64::MAX)?;
    Ok(read.script)
}

/// The presence script that the whole text spells, and the length of the first text of its lookups
/// that is longer than `most` bytes: docs/DEFINITIONS.md, "Lookup texts".
///
/// Texts are taken in file order: those of keys, and the first of all other numbers of each lookup.
/// A lookup that is not kept does not count. Refused as by `parse_script`.
pub fn read_script(alloc: Global, text: &[u8], most: u64) -> Result<ReadScript, Refused>
    ensures ok { IfOk result (λ read. IsRead text.now most read) }
    ensures structure { IfOk result (λ read. IsScript (script_contents read.script)) }
    ensures err { IfErr result (λ e. IfSyntax e (λ place. IsOutside text.now place)) }
{
    let cut = match cut_lines(alloc, text) {
        Ok(cut) => cut,
        Err(OutOfMemory) => return Err(Refused::Memory),
    };
    let all = cut.as_slice();
    let mut lines = Lines { rest: all };
    match take_script(alloc, most, &mut lines) {
        Ok(read) => {
            if lines.rest.is_empty() {
                Ok(read)
            } else {
                Err(Refused::Syntax {
                    at: place_of(all, lines.rest.len(), text.len()),
                })
            }
        }
        Err(Fault::Stop) => Err(Refused::Syntax {
            at: place_of(all, lines.rest.len(), text.len()),
        }),
        Err(Fault::Memory) => Err(Refused::Memory),
    }
}

// Lookups and formats, with one display before, between or after them.
fn take_script(alloc: Global, most: u64, lines: &mut Lines<'_>) -> Result<ReadScript, Fault>
    ensures { MovesAsUnlessFull (λ read parts. IsScriptOf most parts read) result lines.new.rest.now (script_at (bytes_of lines.old.rest.now)) }
{
    let mut kept = Kept::new(alloc, most);
    take_sections(alloc, &mut kept, lines)?;
    let shown = take_display(alloc, lines)?;
    take_sections(alloc, &mut kept, lines)?;
    match named_script(alloc, kept.lookups, kept.formats, shown) {
        Ok(script) => Ok(ReadScript {
            script,
            long: kept.long,
        }),
        Err(OutOfMemory) => Err(Fault::Memory),
    }
}

// The script of these parts, with what its macros show.
fn named_script(
    alloc: Global,
    lookups: Vec<Lookup>,
    formats: Vec<(Vec<u8>, Format)>,
    lines: Vec<Line>,
) -> Result<Script, OutOfMemory>
    ensures lookups { IfOk result (λ s. s.lookups ≡ lookups) }
    ensures formats { IfOk result (λ s. s.formats ≡ formats) }
    ensures lines { IfOk result (λ s. s.lines ≡ lines) }
{
    let meanings = meanings_of_lines(alloc, &lookups, &formats, &lines)?;
    let spans = spans_of_lookups(alloc, &lookups)?;
    Ok(Script {
        lookups,
        formats,
        lines,
        meanings,
        spans,
    })
}

// Where the first of the lines starts that are left, and the end where none is.
fn place_of(lines: &[ScriptLine<'_>], left: usize, end: usize) -> usize
    requires { left ≤ length lines.now }
    ensures { result ≡ first_place (drop (length lines.now - left) (map view_of lines.now)) end }
{
    let (_, rest) = lines.split_at(lines.len() - left);
    match rest {
        [first, ..] => first.start,
        [] => end,
    }
}
