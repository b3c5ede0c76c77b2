ghost use Rattle.std.specs.Prelude.{◌≡◌, ◌-◌, ◌^◌, min};

use ra_memory::{Image, Memory, Steps};
use std::sync::ledger::Ledger;

// A memory whose reads are steps, and how many there were: docs/DEFINITIONS.md, "Images and histories".
#[derive(Drop)]
pub(crate) struct Tallied<'a, L: Ledger> {
    pub(crate) memory: &'a Memory,
    pub(crate) steps: &'a mut Steps<L>,
    // it stops at the last number
    pub(crate) count: u64,
    ghost counted: { count ≡ min steps.now (2 ^ 64 - 1) },
}

impl<'a, L: Ledger> Image for Tallied<'a, L> {
    ghost bytes = { λ t. t.memory.now };

    ghost reads = { λ t. t.steps.now };

    ghost counter = { λ t. t.steps.ghost_name };

    fn read(&mut self, at: u32, width: u8) -> u32 {
        self.count = self.count.saturating_add(1);
        self.memory.read(at, width, self.steps)
    }
}
