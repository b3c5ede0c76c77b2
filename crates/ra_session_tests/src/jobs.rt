//! A job over the names S, T, N, F and p, and how it ends.

use ra_explain_job::{AskedUnlock, explain_job};
use ra_io::{Files, Sink, SureSink};
use ra_session::{RunFiles, check_job, finish, import_job, normal_job, run_job};
use std::alloc::Global;

/// A job over the set S: a run, or a check; its normal text into N, an import of F into it, or an explanation of the
/// achievement 1 over the trace T.
#[derive(Clone, Copy)]
pub(crate) enum Call<'a> {
    Run(RunFiles<'a>),
    Check,
    Normal,
    Import,
    Explain,
}

/// A run over the trace T.
pub(crate) const RUN: RunFiles<'static> = RunFiles {
    set: "S",
    trace: "T",
    restore: None,
    save: None,
};

/// Three times the byte 0x10 is 5.
pub(crate) const THREE_HITS: &[u8] = b"A 1 0xH0010=5.3.\n";

/// It is 5 in frames 1, 2 and 4.
pub(crate) const FIVES: &[u8] =
    b"RATR\x01\x20\0\0\0FW\x10\0\0\0\x01\0\x05FFW\x10\0\0\0\x01\0\0FW\x10\0\0\0\x01\0\x05FE";

const ASKED: AskedUnlock<'static> = AskedUnlock {
    set: "S",
    trace: "T",
    id: 1,
};

/// The status of a job.
pub(crate) fn status_of<F: Files, K: Sink>(
    alloc: Global,
    call: &Call<'_>,
    files: &mut F,
    out: &mut K,
) -> u8 {
    let ending = match call {
        Call::Run(run) => run_job(alloc, run, files, out),
        Call::Check => check_job(alloc, "S", files, out),
        Call::Normal => normal_job(alloc, "S", "N", files, out),
        Call::Import => import_job(alloc, "F", "S", files, out),
        Call::Explain => explain_job(alloc, &ASKED, files, out),
    };
    finish(alloc, ending, out)
}

/// Whether a job answers this status and prints this text.
pub(crate) fn ends_so<F: Files>(
    alloc: Global,
    call: &Call<'_>,
    files: &mut F,
    status: u8,
    text: &[u8],
) -> bool {
    let mut out = SureSink::new(alloc);
    status_of(alloc, call, files, &mut out) == status && out.taken() == text
}

/// Whether a name has these bytes, which are at most 512.
pub(crate) fn holds<F: Files>(files: &mut F, name: &str, bytes: &[u8]) -> bool {
    let mut buf = [0; 512];
    match files.read_at(name, 0, &mut buf) {
        Ok(read) => &buf[..read] == bytes,
        Err(_) => false,
    }
}
