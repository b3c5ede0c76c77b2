//! The lines of what is left out of a document: docs/DEFINITIONS.md, "What is left of a document".

ghost use Rattle.std.specs.Prelude.{◌≡◌, ◌++◌, OnOk, codes, decimal, string_bytes};
ghost use Rattle.std.specs.List.{flat_map};
ghost use Rattle.ra_author_jobs.specs.Expected.{IsOfDocument};
ghost use Rattle.ra_author_jobs.specs.Importing.{cause_text, document_words, id_text, left_line, place_text, refused_document, root_word};

use ra_patch::{DocumentRefused, LeftCause, LeftList, LeftOut, PatchRefused, RootField};
use ra_text::OutOfMemory;
use std::alloc::AllocError;
use std::fmt::Write;

// The name of a field of the root.
fn root_word(field: RootField) -> &'static str
    ensures { result.now ≡ root_word field }
{
    match field {
        RootField::PatchData => "PatchData",
        RootField::Sets => "Sets",
        RootField::Achievements => "Achievements",
        RootField::Leaderboards => "Leaderboards",
    }
}

// Why nothing is left of a document, at the end of a text.
fn put_words(text: &mut String, why: DocumentRefused) -> Result<(), OutOfMemory>
    ensures told { OnOk result (IsOfDocument why) }
    ensures words { OnOk result (string_bytes text.new ≡ string_bytes text.old ++ document_words why) }
{
    match why {
        DocumentRefused::Bytes { found } => {
            let why = PatchRefused::Bytes { found };
            write!(text, "{why}")?;
            Ok(())
        }
        DocumentRefused::NotJson => {
            text.push_str("json")?;
            Ok(())
        }
        DocumentRefused::Root { field } => {
            text.push_str("root 0 ")?;
            text.push_str(root_word(field))?;
            Ok(())
        }
        DocumentRefused::Memory => Err(OutOfMemory),
    }
}

/// The line of a document of which nothing is left, at the end of a text.
pub(crate) fn put_refused(text: &mut String, why: DocumentRefused) -> Result<(), OutOfMemory>
    ensures told { OnOk result (IsOfDocument why) }
    ensures line { OnOk result (string_bytes text.new ≡ string_bytes text.old ++ refused_document why) }
{
    text.push_str("import refused: ")?;
    put_words(text, why)?;
    text.push_str("\n")?;
    Ok(())
}

// An id, or `-` where there is none, at the end of a text.
fn put_id(text: &mut String, id: Option<u32>) -> Result<(), AllocError>
    ensures { OnOk result (string_bytes text.new ≡ string_bytes text.old ++ id_text id) }
{
    match id {
        Some(id) => write!(text, "{id}"),
        None => text.push_str("-"),
    }
}

// An index and an id, at the end of a text.
fn put_index(text: &mut String, index: usize, id: Option<u32>) -> Result<(), AllocError>
    ensures { OnOk result (string_bytes text.new ≡ string_bytes text.old ++ (decimal index ++ (codes " " ++ id_text id))) }
{
    write!(text, "{index} ")?;
    put_id(text, id)?;
    Ok(())
}

// Where something stands that is left out, at the end of a text.
fn put_place(
    text: &mut String,
    list: LeftList,
    index: usize,
    id: Option<u32>,
) -> Result<(), AllocError>
    ensures { OnOk result (string_bytes text.new ≡ string_bytes text.old ++ place_text list index id) }
{
    match list {
        LeftList::Achievements => {
            text.push_str("achievements ")?;
            put_index(text, index, id)?;
            Ok(())
        }
        LeftList::Leaderboards => {
            text.push_str("leaderboards ")?;
            put_index(text, index, id)?;
            Ok(())
        }
        LeftList::Presence => {
            text.push_str("presence")?;
            Ok(())
        }
    }
}

// Why something is left out, at the end of a text.
fn put_cause(text: &mut String, cause: LeftCause) -> Result<(), AllocError>
    ensures { OnOk result (string_bytes text.new ≡ string_bytes text.old ++ cause_text cause) }
{
    match cause {
        LeftCause::Field(field) => {
            text.push_str("field ")?;
            text.push_str(field.word())
        }
        LeftCause::Break => text.push_str("break"),
        LeftCause::Syntax { at } => write!(text, "syntax at {at}"),
        LeftCause::Again => text.push_str("again"),
    }
}

// The line of what is left out, at the end of a text.
fn put_line(text: &mut String, row: &LeftOut) -> Result<(), AllocError>
    ensures { OnOk result (string_bytes text.new ≡ string_bytes text.old ++ left_line row.now) }
{
    text.push_str("left out ")?;
    put_place(text, row.list, row.index, row.id)?;
    text.push_str(" ")?;
    put_cause(text, row.cause)?;
    text.push_str("\n")
}

/// A line for each thing that is left out, at the end of a text.
pub(crate) fn put_lines(text: &mut String, rows: &[LeftOut]) -> Result<(), AllocError>
    ensures { OnOk result (string_bytes text.new ≡ string_bytes text.old ++ flat_map left_line rows.now) }
{
    for row in rows {
        put_line(text, row)?;
    }
    Ok(())
}
