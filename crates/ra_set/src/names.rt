//! The names of a set's items and of its script: docs/DEFINITIONS.md, "Names of items and scripts".

ghost use Rattle.std.specs.Prelude.{◌≡◌, ◌∷◌, [], ◌++◌, IfOk, OnOk, filter, length, map, option_map, if◌then◌else◌};
ghost use Rattle.md5.specs.Md5.{md5};
ghost use Rattle.ra_set.specs.Texts.{first_line, is_item, is_script, item_texts, script_text, without_return};

use md5::{Digest, Md5};
use memchr::memchr;
use ra_text::OutOfMemory;
use std::alloc::Global;

/// The names of the items of a file, in file order, and of its script where it has one.
#[derive(Drop)]
pub struct Names {
    pub items: Vec<[u8; 16]>,
    pub script: Option<[u8; 16]>,
}

/// The names of a file. Its lines are cut at each LF, whatever they spell.
pub fn names_of(alloc: Global, bytes: &[u8]) -> Result<Names, OutOfMemory>
    ensures items { IfOk result (λ names. names.items.items ≡ map md5 (item_texts bytes.now)) }
    ensures script { IfOk result (λ names. names.script ≡ option_map md5 (script_text bytes.now)) }
{
    let mut items = Vec::new(alloc);
    let mut left = bytes;
    'lines: while !is_script(left) {
        let (line, behind) = first_line(left);
        add_name(&mut items, text_of(line, behind.is_some()))?;
        let Some(others) = behind else {
            return Ok(Names {
                items,
                script: None,
            });
        };
        left = others;
    }
    let (_, behind) = first_line(left);
    Ok(Names {
        items,
        script: Some(Md5::digest(behind.unwrap_or(&[]))),
    })
}

// Adds the name of a text, if it is one of an item.
fn add_name(names: &mut Vec<[u8; 16]>, text: &[u8]) -> Result<(), OutOfMemory>
    ensures { OnOk result (names.new.items ≡ names.old.items ++ map md5 (filter is_item (text.now ∷ []))) }
{
    if is_item(text) {
        names.push(Md5::digest(text))?;
    }
    Ok(())
}

// The line "P", after which the script stands.
fn is_script(text: &[u8]) -> bool
    ensures { result ≡ is_script text.now }
{
    matches!(text, [b'P', ..])
}

// A line of an item.
fn is_item(text: &[u8]) -> bool
    ensures { result ≡ is_item text.now }
{
    matches!(text, [b'A' | b'L', ..])
}

// The first line of a text, and what follows its LF, where there is one.
fn first_line(text: &[u8]) -> (&[u8], Option<&[u8]>)
    ensures line { result.0.now ≡ (first_line text.now).line }
    ensures rest { option_map (λ rest. rest.now) result.1 ≡ (first_line text.now).rest }
{
    let (line, behind) = text.split_at(line_length(text));
    match behind {
        [_, rest @ ..] => (line, Some(rest)),
        [] => (line, None),
    }
}

// How many bytes stand before the first LF of a text.
fn line_length(text: &[u8]) -> usize
    ensures { result ≡ length (first_line text.now).line }
{
    memchr(b'\n', text).unwrap_or(text.len())
}

// The text of a line: its end is an LF, and a CR before that.
fn text_of(line: &[u8], has_end: bool) -> &[u8]
    ensures { result.now ≡ if has_end then without_return line.now else line.now }
{
    if has_end { without_return(line) } else { line }
}

// A line without a CR at its end.
fn without_return(line: &[u8]) -> &[u8]
    ensures { result.now ≡ without_return line.now }
{
    if let [text @ .., last] = line {
        if *last == b'\r' {
            return text;
        }
    }
    line
}
