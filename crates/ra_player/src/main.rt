//! The player: plays a trace against a set, and prints what happens.
#![tactic(auto)]

mod laws;
mod play;

use play::play;
use ra_io::{RealFiles, RealSink};
use std::env;
use std::process::ExitCode;

// The status where the words cannot be had from the system.
const NO_WORDS: u8 = 13;

fn main(rt: HostRuntime) -> ExitCode {
    let Ok(args) = env::args(&rt) else {
        return ExitCode::from(NO_WORDS);
    };
    let Ok(words) = args.skip(1).collect::<Vec<String>>(rt.alloc()) else {
        return ExitCode::from(NO_WORDS);
    };
    let mut files = RealFiles::new(&rt);
    let mut out = RealSink::new(&rt);
    ExitCode::from(play(rt.alloc(), words.as_slice(), &mut files, &mut out))
}
