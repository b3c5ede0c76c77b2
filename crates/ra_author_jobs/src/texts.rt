//! The help text and the version: docs/DEFINITIONS.md, "Jobs for authors".

ghost use Rattle.std.specs.Prelude.{◌≡◌, IfOk};
ghost use Rattle.ra_author_jobs.specs.Expected.{expected_of, prints};
ghost use Rattle.ra_author_jobs.specs.Texts.{help_import, help_jobs, help_review, help_text, help_why, version_text};

use crate::answer::Answer;
use ra_text::OutOfMemory;
use std::alloc::Global;

// The jobs, in the help text.
const JOBS: &[u8] =
    b"ra_author: for those who write achievement sets\n\n  ra_author review SET          shows what is refused, with the place, and what looks like a slip\n  ra_author why SET TRACE ID    tells why an achievement did or did not unlock over a trace\n  ra_author import FILE SET     makes a set file from JSON and names what it leaves out\n  ra_author help                this text\n  ra_author version             the version\n\n";

// A review, in the help text.
const REVIEW: &[u8] =
    b"ra_author review game.set\n  line 2 column 15 refused      the line stands below, with ^ under the place\n  A 3 0xH0010=5_\n                ^\n  notice A 1 0.1 open-chain     achievement 1, group 0 (the core), condition 1 (from 0)\n  reviewed lines 2 refused 1 notices 1\n\n";

// An account of an achievement, in the help text.
const WHY: &[u8] =
    b"ra_author why game.set play.trace 1\n  frames 300 state active measured 0 column 8\n  0.0 0xH0010=5.3.\n   counts 2 first 40 last 41 hits 2 of 3 best 2 at 41\n   .....+................................    8 frames a column: # at all, + at some, . at none\n  waited 0                      frames at which all was true from the start on, as it waits\n  nearest 299 wants 0.0         the frame at which the fewest conditions were missing\n\n";

// An import, in the help text.
const IMPORT: &[u8] =
    b"ra_author import 1234.json game.set\n  left out achievements 4 7 syntax at 12\n  imported achievements 9 leaderboards 2 presence 1 left out 1\n";

// The jobs, in the help text.
fn jobs() -> &'static [u8]
    ensures { result.now ≡ help_jobs }
{
    JOBS
}

// A review, in the help text.
fn review() -> &'static [u8]
    ensures { result.now ≡ help_review }
{
    REVIEW
}

// An account of an achievement, in the help text.
fn why() -> &'static [u8]
    ensures { result.now ≡ help_why }
{
    WHY
}

// An import, in the help text.
fn import() -> &'static [u8]
    ensures { result.now ≡ help_import }
{
    IMPORT
}

/// The help text.
pub fn help_answer(alloc: Global) -> Result<Answer, OutOfMemory>
    ensures { IfOk result (λ a. expected_of a ≡ prints 0 help_text) }
{
    let mut text = Vec::new(alloc);
    text.extend_from_slice(jobs())?;
    text.extend_from_slice(review())?;
    text.extend_from_slice(why())?;
    text.extend_from_slice(import())?;
    Ok(Answer {
        status: 0,
        text,
        saved: None,
    })
}

/// The version.
pub fn version_answer(alloc: Global) -> Result<Answer, OutOfMemory>
    ensures { IfOk result (λ a. expected_of a ≡ prints 0 version_text) }
{
    let mut text = Vec::new(alloc);
    text.extend_from_slice(b"ra_author 1\n")?;
    Ok(Answer {
        status: 0,
        text,
        saved: None,
    })
}
