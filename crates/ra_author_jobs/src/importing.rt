//! The job `import`: docs/DEFINITIONS.md, "What is left of a document".

ghost use Rattle.std.specs.Prelude.{◌≡◌, ◌++◌, ℕ, List, Some, IfOk, IsErrOf, OnOk, string_bytes};
ghost use Rattle.ra_author_jobs.specs.Expected.{ImportSays, IsOfDocument, IsOwn, SaysOfBytes, SaysOfLeft, expected_of, imported, prints};
ghost use Rattle.ra_author_jobs.specs.Importing as spec;
ghost use Rattle.ra_io.specs.Causes.{Rose};
ghost use Rattle.ra_io.specs.Files.{OnlyRead};
ghost use Rattle.ra_patch.specs.LeftAnswers.{IsLimit};
ghost use Rattle.ra_review.specs.Reviews.{refused_line};
ghost use Rattle.ra_set.specs.Contents.{set_contents};

use crate::answer::Answer;
use crate::left_lines::{put_lines, put_refused};
use ra_io::Files;
use ra_jobs::{ReadFailed, achievements, leaderboards, read_whole, scripts};
use ra_patch::{DocumentRefused, Left, LeftOut, left_of};
use ra_set::{Set, SetRefused, parse_set};
use ra_text::OutOfMemory;
use std::alloc::{AllocError, Global};
use std::fmt::Write;

// A byte more than a document may have.
const DOCUMENT_READ: usize = 16_777_217;

// What is said where a text is all that is printed.
fn printed(status: u8, text: String) -> Answer
    ensures { expected_of result ≡ prints status (string_bytes text) }
{
    Answer {
        status,
        text: text.into_bytes(),
        saved: None,
    }
}

// What is said of a document of which nothing is left.
fn document_answer(alloc: Global, why: DocumentRefused) -> Result<Answer, OutOfMemory>
    ensures told { IfOk result (λ a. IsOfDocument why) }
    ensures says { IfOk result (λ a. expected_of a ≡ prints 10 (spec.refused_document why)) }
{
    let mut text = String::new(alloc);
    put_refused(&mut text, why)?;
    Ok(printed(10, text))
}

// What is said of a set file that is left and refused. It passes a limit, or there was no memory to read it.
fn set_answer(alloc: Global, why: SetRefused) -> Result<Answer, OutOfMemory>
    ensures told { IfOk result (λ a. IsLimit why) }
    ensures says { IfOk result (λ a. expected_of a ≡ prints 3 (refused_line why)) }
{
    let SetRefused::Limit { .. } = why else {
        return Err(OutOfMemory);
    };
    let mut text = String::new(alloc);
    writeln!(text, "set refused: {why}")?;
    Ok(printed(3, text))
}

// The counts of what stays and of what is left out, at the end of a text.
fn put_counts(text: &mut String, set: &Set, left_out: usize) -> Result<(), AllocError>
    ensures { OnOk result (string_bytes text.new ≡ string_bytes text.old ++ spec.counts_line (set_contents set.now) left_out) }
{
    let achievements = achievements(&set.items);
    let leaderboards = leaderboards(&set.items);
    let presence = scripts(&set.script);
    write!(
        text,
        "imported achievements {achievements} leaderboards {leaderboards} presence {presence} left out {left_out}"
    )?;
    text.push_str("\n")?;
    Ok(())
}

// The text of an import.
fn import_text(alloc: Global, set: &Set, rows: &[LeftOut]) -> Result<String, OutOfMemory>
    ensures { IfOk result (λ text. string_bytes text ≡ spec.import_text (set_contents set.now) rows.now) }
{
    let mut text = String::new(alloc);
    put_lines(&mut text, rows)?;
    put_counts(&mut text, set, rows.len())?;
    Ok(text)
}

// What is said of a set that is left of a document.
fn imported_answer(alloc: Global, set: &Set, left: Left) -> Result<Answer, OutOfMemory>
    ensures { IfOk result (λ a. expected_of a ≡ imported (set_contents set.now) left.text.items left.left_out.items) }
{
    let text = import_text(alloc, set, left.left_out.as_slice())?;
    Ok(Answer {
        status: 0,
        text: text.into_bytes(),
        saved: Some(left.text),
    })
}

// What is said of what is left of a document.
fn left_answer(alloc: Global, left: Left) -> Result<Answer, OutOfMemory>
    ensures says { IfOk result (λ a. SaysOfLeft left.text.items left.left_out.items (expected_of a)) }
    ensures own { IfOk result (λ a. IsOwn (expected_of a)) }
{
    match parse_set(alloc, left.text.as_slice()) {
        Ok(set) => imported_answer(alloc, &set, left),
        Err(why) => set_answer(alloc, why),
    }
}

// What is said of the bytes of a document.
fn bytes_answer(alloc: Global, bytes: &[u8]) -> Result<Answer, OutOfMemory>
    ensures says { IfOk result (λ a. SaysOfBytes bytes.now (expected_of a)) }
    ensures own { IfOk result (λ a. IsOwn (expected_of a)) }
{
    match left_of(alloc, bytes) {
        Ok(left) => left_answer(alloc, left),
        Err(why) => document_answer(alloc, why),
    }
}

/// What `import` says of a document: docs/DEFINITIONS.md, "What is left of a document". No file
/// changes.
pub fn import_answer<F: Files>(
    alloc: Global,
    name: &str,
    files: &mut F,
) -> Result<Answer, ReadFailed>
    ensures says { IfOk result (λ a. (file : List ℕ) → F.content files.old name.now ≡ Some file → ImportSays (F.content files.old) name.now (expected_of a)) }
    ensures own { IfOk result (λ a. IsOwn (expected_of a)) }
    ensures stays { OnlyRead F.content F.read_faults F.put_faults files.old files.new }
    ensures failed { IsErrOf result ReadFailed.Failed → Rose (F.read_faults files.old name.now) (F.read_faults files.new name.now) }
{
    let bytes = read_whole(alloc, name, DOCUMENT_READ, files)?;
    match bytes_answer(alloc, bytes.as_slice()) {
        Ok(answer) => Ok(answer),
        Err(OutOfMemory) => Err(ReadFailed::Memory),
    }
}
