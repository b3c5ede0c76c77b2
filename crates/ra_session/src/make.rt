//! The job `make`: a workload is made in memory, played, and told in one line.

ghost use Rattle.std.specs.Prelude.{◌≡◌, ◌≤◌, ℕ, List, Option, Some, IfOk, IfErr, string_bytes};
ghost use Rattle.ra_io.specs.SureFiles.{names_of};
ghost use Rattle.ra_trace.specs.Workload.{made_set, made_trace};
ghost use Rattle.ra_session.specs.Expected.{make_line};
ghost use Rattle.ra_session.specs.Making.{IsMadeText, set_name, trace_name};
ghost use Rattle.ra_jobs.specs.Outside.{outside_of};
ghost use Rattle.ra_session.specs.Running.{Ran};
ghost use Rattle.ra_args.specs.Words.{Make};

use crate::beginning::Beginning;
use crate::counts::{lines_in, unlocks_in};
use crate::ending::Ending;
use crate::loading::load_set;
use crate::run::play_trace;
use crate::writing::print_line;
use md5::{Digest, Md5};
use ra_io::{Sink, SureFiles, SureSink};
use ra_progress::Hex;
use ra_text::OutOfMemory;
use ra_trace::{make_set, make_trace};
use std::alloc::Global;
use std::fmt::Write;

// The names of the two files in memory.
const SET: &str = "set";

const TRACE: &str = "trace";

// The set and the trace of a number, as files in memory.
fn made_files(alloc: Global, number: u32) -> Result<SureFiles, OutOfMemory>
    ensures set { IfOk result (λ files. names_of files set_name ≡ Some (made_set number)) }
    ensures trace { IfOk result (λ files. names_of files trace_name ≡ Some (made_trace number)) }
{
    let set = make_set(alloc, number)?;
    let trace = make_trace(alloc, number)?;
    let mut files = SureFiles::new(alloc)?;
    files.add(SET, set.as_slice())?;
    files.add(TRACE, trace.as_slice())?;
    Ok(files)
}

// What a run of the set of a number over its trace prints. It fails for running out of memory alone.
fn made_text(alloc: Global, number: u32) -> Result<SureSink, Ending>
    ensures text { IfOk result (λ text. IsMadeText number text) }
    ensures memory { IfErr result (λ e. e ≡ Ending.NoMemory) }
{
    let mut files = made_files(alloc, number)?;
    let set = load_set(alloc, SET, &mut files)?;
    let beginning = Beginning {
        set,
        progress: None,
    };
    let mut text = SureSink::new(alloc);
    play_trace(alloc, beginning, TRACE, &mut files, &mut text)?;
    Ok(text)
}

// The line that tells a text of a workload: docs/DEFINITIONS.md, "Workload".
fn made_line(alloc: Global, number: u32, text: &[u8]) -> Result<String, OutOfMemory>
    ensures { IfOk result (λ line. string_bytes line ≡ make_line number text.now) }
{
    let lines = lines_in(text);
    let unlocks = unlocks_in(text);
    let sum = Md5::digest(text);
    let digest = Hex(&sum);
    let mut line = String::new(alloc);
    writeln!(
        line,
        "made {number} lines {lines} unlocks {unlocks} md5 {digest}"
    )?;
    Ok(line)
}

/// Makes the workload of a number, plays it, and tells the text in one line.
///
/// It is done whole, or ends for running out of memory or at a write that failed.
pub fn make_job<K: Sink>(alloc: Global, number: u32, out: &mut K) -> Ending
    ensures ran { (content : List ℕ → Option (List ℕ)) (reads puts : List ℕ → ℕ) → Ran (Make number)
        (outside_of content reads puts (K.text out.old) (K.faults out.old))
        (outside_of content reads puts (K.text out.new) (K.faults out.new))
        result }
    ensures later { K.faults out.old ≤ K.faults out.new }
{
    let text = match made_text(alloc, number) {
        Ok(text) => text,
        Err(ending) => return ending,
    };
    match made_line(alloc, number, text.taken()) {
        Ok(line) => print_line(line.as_str(), out),
        Err(_) => Ending::NoMemory,
    }
}
