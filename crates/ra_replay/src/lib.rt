//! A trace from a moment on: what is left of it, which slots are empty there, and the most bytes of one.
#![tactic(auto)]

/// The most bytes that are taken of a trace.
pub const TRACE_LIMIT: u64 = 1_099_511_627_776;
