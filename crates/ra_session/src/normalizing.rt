//! The job `normal`: the normal text of a set is put, and told in one line.

ghost use Rattle.std.specs.Prelude.{◌≡◌, ◌≤◌, ◌<◌, ◌^◌, IfOk, IfErr, length, string_bytes};
ghost use Rattle.ra_io.specs.Causes.{Rose};
ghost use Rattle.ra_io.specs.Files.{OnlyRead};
ghost use Rattle.ra_args.specs.Words.{Normal};
ghost use Rattle.ra_set.specs.Accepted.{IsSet};
ghost use Rattle.ra_set.specs.Contents.{set_contents};
ghost use Rattle.ra_normal.specs.Text as text;
ghost use Rattle.ra_normal.specs.Text.{IsNormal, IsPastLimit};
ghost use Rattle.ra_session.specs.Expected as spec;
ghost use Rattle.ra_session.specs.Normalizing.{HasNoNormal, IsNormalized, IsUnset};
ghost use Rattle.ra_jobs.specs.Outside.{outside_of};
ghost use Rattle.ra_session.specs.Running.{Leaves, Ran};

use crate::document::Document;
use crate::ending::Ending;
use crate::failures::{NormalFailed, SetFailed};
use crate::loading::SET_READ;
use crate::writing::print_line;
use ra_io::{Files, Sink};
use ra_jobs::read_whole;
use ra_normal::{NormalRefused, normal, normal_conditions};
use ra_set::{Set, SetRefused, parse_set};
use ra_text::OutOfMemory;
use std::alloc::Global;
use std::fmt::Write;

// The counts of a normal text with this many bytes, in the line of `normal`.
fn normal_line(alloc: Global, set: &Set, bytes: usize) -> Result<String, OutOfMemory>
    requires { text.normal_conditions (set_contents set.now) < 2 ^ 64 }
    ensures { IfOk result (λ line. string_bytes line ≡ spec.normal_line (set_contents set.now) bytes) }
{
    let conditions = normal_conditions(set);
    let mut line = String::new(alloc);
    writeln!(line, "normal bytes {bytes} conditions {conditions}")?;
    Ok(line)
}

// What is put and printed of a set that a file spells.
fn document_of(alloc: Global, bytes: &[u8], set: &Set) -> Result<Document, NormalRefused>
    requires { IsSet bytes.now (set_contents set.now) }
    ensures text { IfOk result (λ d. IsNormal bytes.now (set_contents set.now) d.text.items) }
    ensures line { IfOk result (λ d. string_bytes d.line ≡ spec.normal_line (set_contents set.now) (length d.text.items)) }
    ensures refused { IfErr result (IsPastLimit bytes.now (set_contents set.now)) }
{
    let text = normal(alloc, bytes, set)?;
    let line = normal_line(alloc, set, text.len())?;
    Ok(Document { text, line })
}

// The set of a file's bytes.
fn accept(alloc: Global, bytes: &[u8]) -> Result<Set, SetFailed>
    ensures set { IfOk result (λ set. IsSet bytes.now (set_contents set)) }
    ensures failed { IfErr result (IsUnset bytes.now) }
{
    match parse_set(alloc, bytes) {
        Ok(set) => Ok(set),
        Err(SetRefused::Memory) => Err(SetFailed::Memory),
        Err(why) => Err(SetFailed::Refused(why)),
    }
}

// What is put and printed of the file of a set. No file changes.
fn load_normal<F: Files>(alloc: Global, name: &str, files: &mut F) -> Result<Document, NormalFailed>
    ensures given { IfOk result (IsNormalized (F.content files.old name.now)) }
    ensures failed { IfErr result (HasNoNormal (F.content files.old name.now) (Rose (F.read_faults files.old name.now) (F.read_faults files.new name.now))) }
    ensures stays { OnlyRead F.content F.read_faults F.put_faults files.old files.new }
{
    let bytes = read_whole(alloc, name, SET_READ, files)?;
    let read = bytes.as_slice();
    let set = accept(alloc, read)?;
    let document = document_of(alloc, read, &set)?;
    Ok(document)
}

/// Puts the normal text of a set, up to the last line: docs/DEFINITIONS.md, "Normal text".
///
/// The line is printed after the put. No file changes but the one that is put, and that one only where the set has a
/// normal text: it has that text then, unless its put failed.
pub fn normal_job<F: Files, K: Sink>(
    alloc: Global,
    set: &str,
    file: &str,
    files: &mut F,
    out: &mut K,
) -> Ending
    ensures ran { Ran (Normal set.now file.now)
        (outside_of (F.content files.old) (F.read_faults files.old) (F.put_faults files.old) (K.text out.old) (K.faults out.old))
        (outside_of (F.content files.new) (F.read_faults files.new) (F.put_faults files.new) (K.text out.new) (K.faults out.new))
        result }
    ensures leaves { Leaves (Normal set.now file.now)
        (outside_of (F.content files.old) (F.read_faults files.old) (F.put_faults files.old) (K.text out.old) (K.faults out.old))
        (outside_of (F.content files.new) (F.read_faults files.new) (F.put_faults files.new) (K.text out.new) (K.faults out.new))
        result }
    ensures later { K.faults out.old ≤ K.faults out.new }
{
    let document = match load_normal(alloc, set, files) {
        Ok(document) => document,
        Err(failed) => return Ending::from(failed),
    };
    match files.put(file, document.text.as_slice()) {
        Ok(()) => print_line(document.line.as_str(), out),
        Err(failed) => Ending::from(failed),
    }
}
