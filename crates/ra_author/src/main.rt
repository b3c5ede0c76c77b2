//! The program for those who write sets: reviews a set, tells why an achievement did not unlock, and makes a set from JSON.
#![tactic(auto)]

mod author;
mod laws;

use author::author;
use ra_io::{RealFiles, RealSink};
use std::env;
use std::process::ExitCode;

// The status where the words cannot be had from the system.
const NO_WORDS: u8 = 13;

fn main(rt: HostRuntime) -> ExitCode {
    let Ok(args) = env::args(&rt) else {
        return ExitCode::from(NO_WORDS);
    };
    let Ok(words) = args.skip(1).collect::<Vec<String>>(rt.alloc()) else {
        return ExitCode::from(NO_WORDS);
    };
    let mut files = RealFiles::new(&rt);
    let mut out = RealSink::new(&rt);
    ExitCode::from(author(rt.alloc(), words.as_slice(), &mut files, &mut out))
}
