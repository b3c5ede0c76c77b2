//! The job `lint`: what the conditions of a set never or always do, a line for each.

ghost use Rattle.std.specs.Prelude.{◌≡◌, ◌≤◌, ◌++◌, IfOk, OnOk, map, string_bytes};
ghost use Rattle.std.specs.List.{flat_map};
ghost use Rattle.ra_io.specs.Files.{SameContent};
ghost use Rattle.ra_args.specs.Words.{Lint};
ghost use Rattle.ra_set.specs.Contents.{item_contents, set_contents};
ghost use Rattle.ra_session.specs.Linting as spec;
ghost use Rattle.ra_session.specs.Linting.{is_on_item, item_line, item_text, place_text, warning_line, warning_word, where_text};
ghost use Rattle.ra_jobs.specs.Outside.{outside_of};
ghost use Rattle.ra_session.specs.Playing.{IsPlayable};
ghost use Rattle.ra_session.specs.Running.{Ran};

use crate::ending::Ending;
use crate::loading::load_set;
use crate::writing::print_line;
use ra_io::{Files, Sink};
use ra_lint::{Place, Warning, Word, lint};
use ra_set::{Item, Set};
use ra_text::OutOfMemory;
use std::alloc::{AllocError, Global};
use std::fmt::Write;

// The word of a warning.
fn word_of(word: Word) -> &'static str
    ensures { result.now ≡ warning_word word }
{
    match word {
        Word::Never => "never",
        Word::Always => "always",
        Word::Unreachable => "unreachable",
        Word::NoUnlock => "no-unlock",
        Word::NoStart => "no-start",
    }
}

// Whether a word is one on an item, and not on a condition of it.
fn is_on_item(word: Word) -> bool
    ensures { result ≡ is_on_item word }
{
    matches!(word, Word::NoUnlock | Word::NoStart)
}

// The field of a board that a warning is on, with a blank after it.
fn place_of(place: Place) -> &'static str
    ensures { result.now ≡ place_text place }
{
    match place {
        Place::Trigger => "",
        Place::Start => "STA ",
        Place::Cancel => "CAN ",
        Place::Submit => "SUB ",
    }
}

// The letter and the id of an item, at the end of a text.
fn write_item(text: &mut String, item: &Item) -> Result<(), AllocError>
    ensures { OnOk result (string_bytes text.new ≡ string_bytes text.old ++ item_text (item_contents item.now)) }
{
    match item {
        Item::Achievement { id, .. } => write!(text, "A {id}"),
        Item::Leaderboard { id, .. } => write!(text, "L {id}"),
    }
}

// Where the condition of a warning stands, at the end of a text, and nothing of a warning on an item.
fn write_where(text: &mut String, warning: &Warning) -> Result<(), AllocError>
    ensures { OnOk result (string_bytes text.new ≡ string_bytes text.old ++ where_text warning.now) }
{
    if is_on_item(warning.word) {
        return Ok(());
    }
    let place = place_of(warning.place);
    let (group, condition) = (warning.group, warning.condition);
    write!(text, "{place}{group}.{condition} ")
}

// The line of a warning on an item, at the end of a text.
fn write_line(text: &mut String, item: &Item, warning: &Warning) -> Result<(), AllocError>
    ensures { OnOk result (string_bytes text.new ≡ string_bytes text.old ++ item_line (item_contents item.now) warning.now) }
{
    text.push_str("warn ")?;
    write_item(text, item)?;
    text.push_str(" ")?;
    write_where(text, warning)?;
    text.push_str(word_of(warning.word))?;
    text.push_str("\n")
}

// The line of a warning on the item that it names, at the end of a text.
fn write_warning(text: &mut String, items: &[Item], warning: &Warning) -> Result<(), AllocError>
    ensures { OnOk result (string_bytes text.new ≡ string_bytes text.old ++ warning_line (map item_contents items.now) warning.now) }
{
    match items.get(warning.item as usize) {
        Some(item) => write_line(text, item, warning),
        None => Ok(()),
    }
}

// The lines of warnings, at the end of a text.
fn write_warnings(text: &mut String, items: &[Item], warnings: &[Warning]) -> Result<(), AllocError>
    ensures { OnOk result (string_bytes text.new ≡ string_bytes text.old ++ flat_map (warning_line (map item_contents items.now)) warnings.now) }
{
    for warning in warnings {
        write_warning(text, items, warning)?;
    }
    Ok(())
}

// The warnings on a set, a line for each, and how many there are.
fn lint_text(alloc: Global, set: &Set) -> Result<String, OutOfMemory>
    requires { IsPlayable (set_contents set.now) }
    ensures { IfOk result (λ text. string_bytes text ≡ spec.lint_text (set_contents set.now)) }
{
    let warnings = lint(alloc, set)?;
    let mut text = String::new(alloc);
    write_warnings(&mut text, &set.items, warnings.as_slice())?;
    let count = warnings.len();
    writeln!(text, "warnings {count}")?;
    Ok(text)
}

/// Warns of what the conditions of a set never or always do, up to the last line: docs/DEFINITIONS.md, "Warnings". No
/// file changes.
pub fn lint_job<F: Files, K: Sink>(alloc: Global, name: &str, files: &mut F, out: &mut K) -> Ending
    ensures ran { Ran (Lint name.now)
        (outside_of (F.content files.old) (F.read_faults files.old) (F.put_faults files.old) (K.text out.old) (K.faults out.old))
        (outside_of (F.content files.new) (F.read_faults files.new) (F.put_faults files.new) (K.text out.new) (K.faults out.new))
        result }
    ensures same { SameContent (F.content files.old) (F.content files.new) }
    ensures later { K.faults out.old ≤ K.faults out.new }
{
    let set = match load_set(alloc, name, files) {
        Ok(set) => set,
        Err(unset) => return Ending::from(unset),
    };
    match lint_text(alloc, &set) {
        Ok(text) => print_line(text.as_str(), out),
        Err(_) => Ending::NoMemory,
    }
}
