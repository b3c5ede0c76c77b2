//! The top call: does what the words say, over any files and any output.

ghost use Rattle.std.specs.Prelude.{◌≡◌, ◌≤◌, map, string_bytes};
ghost use Rattle.ra_args.specs.AuthorWords.{author_contents, author_job_of, author_puts};
ghost use Rattle.ra_author.specs.Endings.{AnswerEnds, Ends, JobEnds, OthersStay, puts_in};
ghost use Rattle.ra_author_jobs.specs.Expected.{expected_of};
ghost use Rattle.ra_author_jobs.specs.Texts.{usage_line};
ghost use Rattle.ra_io.specs.Causes.{NoneFell};
ghost use Rattle.ra_jobs.specs.Outside.{outside_of};

use ra_args::{AuthorJob, read_author_job};
use ra_author_jobs::{Answer, answer_job, put_saved};
use ra_io::{Files, PutFailed, Sink};
use ra_jobs::{ReadFailed, put_last};
use std::alloc::Global;

// How the program is called.
fn usage() -> &'static [u8]
    ensures { result.now ≡ usage_line }
{
    b"usage: ra_author review SET | why SET TRACE ID | import FILE SET | help | version\n"
}

// Puts the file of an answer and prints its text.
fn print_answer<F: Files, K: Sink>(
    job: &AuthorJob<'_>,
    answer: &Answer,
    files: &mut F,
    out: &mut K,
) -> u8
    ensures ends { AnswerEnds
        (outside_of (F.content files.old) (F.read_faults files.old) (F.put_faults files.old) (K.text out.old) (K.faults out.old))
        (outside_of (F.content files.new) (F.read_faults files.new) (F.put_faults files.new) (K.text out.new) (K.faults out.new))
        (author_contents job.now) (expected_of answer.now) result }
    ensures others { OthersStay
        (outside_of (F.content files.old) (F.read_faults files.old) (F.put_faults files.old) (K.text out.old) (K.faults out.old))
        (outside_of (F.content files.new) (F.read_faults files.new) (F.put_faults files.new) (K.text out.new) (K.faults out.new))
        (author_puts (author_contents job.now)) }
    ensures reads { NoneFell (F.read_faults files.old) (F.read_faults files.new) }
{
    match put_saved(job, &answer.saved, files) {
        Ok(()) => put_last(answer.status, answer.text.as_slice(), out),
        Err(PutFailed::Failed) => put_last(9, b"save fault\n", out),
        Err(PutFailed::Memory) => 1,
    }
}

// Does a job.
fn do_job<F: Files, K: Sink>(alloc: Global, job: &AuthorJob<'_>, files: &mut F, out: &mut K) -> u8
    ensures ends { JobEnds
        (outside_of (F.content files.old) (F.read_faults files.old) (F.put_faults files.old) (K.text out.old) (K.faults out.old))
        (outside_of (F.content files.new) (F.read_faults files.new) (F.put_faults files.new) (K.text out.new) (K.faults out.new))
        (author_contents job.now) result }
    ensures others { OthersStay
        (outside_of (F.content files.old) (F.read_faults files.old) (F.put_faults files.old) (K.text out.old) (K.faults out.old))
        (outside_of (F.content files.new) (F.read_faults files.new) (F.put_faults files.new) (K.text out.new) (K.faults out.new))
        (author_puts (author_contents job.now)) }
{
    match answer_job(alloc, job, files) {
        Ok(answer) => print_answer(job, &answer, files, out),
        Err(ReadFailed::Failed) => put_last(4, b"read fault\n", out),
        Err(ReadFailed::Memory) => 1,
    }
}

/// Does what the words after the program's name say, and answers the status:
/// docs/DEFINITIONS.md, "Jobs for authors".
///
/// What was printed, and why, is said by the status. No file changes but the one that the words put.
pub fn author<F: Files, K: Sink>(alloc: Global, words: &[String], files: &mut F, out: &mut K) -> u8
    ensures ends { Ends
        (outside_of (F.content files.old) (F.read_faults files.old) (F.put_faults files.old) (K.text out.old) (K.faults out.old))
        (outside_of (F.content files.new) (F.read_faults files.new) (F.put_faults files.new) (K.text out.new) (K.faults out.new))
        (map string_bytes words.now) result }
    ensures others { OthersStay
        (outside_of (F.content files.old) (F.read_faults files.old) (F.put_faults files.old) (K.text out.old) (K.faults out.old))
        (outside_of (F.content files.new) (F.read_faults files.new) (F.put_faults files.new) (K.text out.new) (K.faults out.new))
        (puts_in (author_job_of (map string_bytes words.now))) }
{
    match read_author_job(words) {
        Some(job) => do_job(alloc, &job, files, out),
        None => put_last(2, usage(), out),
    }
}
