use crate::row::Row;
use ra_memory::{Image, Steps};
use std::sync::ledger::Ledger;

/// Banks whose reads are steps, as one image: docs/DEFINITIONS.md, "A frame that looks".
#[derive(Drop)]
pub struct Banks<'a, L: Ledger> {
    /// The banks that are read.
    pub row: Row<'a>,
    /// The steps to which each read adds one.
    pub steps: &'a mut Steps<L>,
}

impl<'a, L: Ledger> Image for Banks<'a, L> {
    ghost bytes = { λ b. b.row };

    ghost reads = { λ b. b.steps.now };

    ghost counter = { λ b. b.steps.ghost_name };

    #[inline(always)]
    fn read(&mut self, at: u32, width: u8) -> u32 {
        self.steps.tick();
        self.row.number_at(at, width)
    }
}
