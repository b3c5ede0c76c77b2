//! What a call answers that has no memory, or that reads no text of its grammar.

use std::alloc::{AllocError, AllocFailed};

/// Running out of memory.
#[derive(Clone, Copy, Debug, PartialEq, Eq)]
pub struct OutOfMemory;

impl From<AllocError> for OutOfMemory {
    fn from(_error: AllocError) -> OutOfMemory {
        OutOfMemory
    }
}

impl<T: Drop> From<AllocFailed<T>> for OutOfMemory {
    fn from(_error: AllocFailed<T>) -> OutOfMemory {
        OutOfMemory
    }
}

/// The text is outside the grammar.
#[derive(Clone, Copy, Debug, PartialEq, Eq)]
pub struct Syntax {
    /// The first bad place, in bytes from 0: docs/DEFINITIONS.md, "First bad place".
    pub at: usize,
}
