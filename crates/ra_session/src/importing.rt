//! The job `import`: a set is taken of a document, put, and told in one line.

ghost use Rattle.std.specs.Prelude.{◌≡◌, ◌≤◌, IfOk, IfErr, string_bytes};
ghost use Rattle.ra_io.specs.Causes.{Rose};
ghost use Rattle.ra_io.specs.Files.{OnlyRead};
ghost use Rattle.ra_args.specs.Words.{Import};
ghost use Rattle.ra_set.specs.Contents.{set_contents};
ghost use Rattle.ra_session.specs.Expected as spec;
ghost use Rattle.ra_session.specs.Importing.{HasNoDocument, IsDocument};
ghost use Rattle.ra_jobs.specs.Outside.{outside_of};
ghost use Rattle.ra_session.specs.Running.{Leaves, Ran};

use crate::document::Document;
use crate::ending::Ending;
use crate::failures::DocumentFailed;
use crate::writing::print_line;
use ra_io::{Files, Sink};
use ra_jobs::{achievements, leaderboards, read_whole, scripts};
use ra_patch::{Imported, import};
use ra_set::Set;
use ra_text::OutOfMemory;
use std::alloc::Global;
use std::fmt::Write;

// A byte more than a document may have.
const DOCUMENT_READ: usize = 16_777_217;

// What a set has, in the line of `import`.
fn import_line(alloc: Global, set: &Set) -> Result<String, OutOfMemory>
    ensures { IfOk result (λ line. string_bytes line ≡ spec.import_line (set_contents set.now)) }
{
    let achievements = achievements(&set.items);
    let leaderboards = leaderboards(&set.items);
    let presence = scripts(&set.script);
    let mut line = String::new(alloc);
    write!(
        line,
        "imported achievements {achievements} leaderboards {leaderboards} presence {presence}"
    )?;
    line.push_str("\n")?;
    Ok(line)
}

// What is put and printed of what a document gives.
fn document_of(alloc: Global, given: Imported) -> Result<Document, OutOfMemory>
    ensures text { IfOk result (λ d. d.text ≡ given.text) }
    ensures line { IfOk result (λ d. string_bytes d.line ≡ spec.import_line (set_contents given.set)) }
{
    let line = import_line(alloc, &given.set)?;
    Ok(Document {
        text: given.text,
        line,
    })
}

// What is put and printed of a document. No file changes.
fn load_document<F: Files>(
    alloc: Global,
    name: &str,
    files: &mut F,
) -> Result<Document, DocumentFailed>
    ensures given { IfOk result (IsDocument (F.content files.old name.now)) }
    ensures failed { IfErr result (HasNoDocument (F.content files.old name.now) (Rose (F.read_faults files.old name.now) (F.read_faults files.new name.now))) }
    ensures stays { OnlyRead F.content F.read_faults F.put_faults files.old files.new }
{
    let bytes = read_whole(alloc, name, DOCUMENT_READ, files)?;
    let given = import(alloc, bytes.as_slice())?;
    let document = document_of(alloc, given)?;
    Ok(document)
}

/// Takes a set of a document and puts it, up to the last line: docs/DEFINITIONS.md, "Sets from JSON".
///
/// The line is printed after the put. No file changes but the one that is put, and that one only where the document
/// gives a set: it has the set file then, unless its put failed.
pub fn import_job<F: Files, K: Sink>(
    alloc: Global,
    file: &str,
    set: &str,
    files: &mut F,
    out: &mut K,
) -> Ending
    ensures ran { Ran (Import file.now set.now)
        (outside_of (F.content files.old) (F.read_faults files.old) (F.put_faults files.old) (K.text out.old) (K.faults out.old))
        (outside_of (F.content files.new) (F.read_faults files.new) (F.put_faults files.new) (K.text out.new) (K.faults out.new))
        result }
    ensures leaves { Leaves (Import file.now set.now)
        (outside_of (F.content files.old) (F.read_faults files.old) (F.put_faults files.old) (K.text out.old) (K.faults out.old))
        (outside_of (F.content files.new) (F.read_faults files.new) (F.put_faults files.new) (K.text out.new) (K.faults out.new))
        result }
    ensures later { K.faults out.old ≤ K.faults out.new }
{
    let document = match load_document(alloc, file, files) {
        Ok(document) => document,
        Err(failed) => return Ending::from(failed),
    };
    match files.put(set, document.text.as_slice()) {
        Ok(()) => print_line(document.line.as_str(), out),
        Err(failed) => Ending::from(failed),
    }
}
