use crate::image::Image;
use crate::memory::Memory;
use crate::steps::Steps;
use std::sync::ledger::Ledger;

/// A memory whose reads are steps: docs/DEFINITIONS.md, "Images and histories".
#[derive(Drop)]
pub struct Counted<'a, L: Ledger> {
    /// The memory that is read.
    pub memory: &'a Memory,
    /// The steps to which each read adds one.
    pub steps: &'a mut Steps<L>,
}

impl<'a, L: Ledger> Image for Counted<'a, L> {
    ghost bytes = { λ c. c.memory.now };

    ghost reads = { λ c. c.steps.now };

    ghost counter = { λ c. c.steps.ghost_name };

    fn read(&mut self, at: u32, width: u8) -> u32 {
        self.memory.read(at, width, self.steps)
    }
}
