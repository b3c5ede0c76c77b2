ghost use Rattle.std.specs.Prelude.{IfOk};
ghost use Rattle.ra_why.specs.Watching.{IsRoom};

use ra_text::OutOfMemory;
use std::alloc::Global;

/// Room for what a frame shows of each condition of a trigger.
#[derive(Drop)]
pub struct Room {
    /// The comparisons.
    pub truths: Vec<bool>,
    /// The left values.
    pub lefts: Vec<u32>,
    /// The right values.
    pub rights: Vec<u32>,
    /// The hits.
    pub hits: Vec<u32>,
}

impl Room {
    // Room for this many conditions.
    pub(crate) fn new(alloc: Global, count: usize) -> Result<Room, OutOfMemory>
        ensures { IfOk result (IsRoom count) }
    {
        Ok(Room {
            truths: vec![in alloc; false; count]?,
            lefts: vec![in alloc; 0; count]?,
            rights: vec![in alloc; 0; count]?,
            hits: vec![in alloc; 0; count]?,
        })
    }
}
