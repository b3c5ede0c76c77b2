//! What a set keeps at a moment: docs/DEFINITIONS.md, "Openings and snapshots".

/// What is kept of an item. States are bytes as in the file: docs/DEFINITIONS.md, "Achievement
/// states" and "Leaderboard states".
#[derive(Drop)]
pub enum ItemKept {
    /// An achievement: its state from 0 to 4, the measured number, the hits of its conditions in text
    /// order, and whether it is earned.
    Achievement {
        state: u8,
        measured: u32,
        hits: Vec<u32>,
        earned: bool,
    },
    /// A leaderboard: its state byte, the hits of STA, CAN, SUB, VAL and PRO, each in text order,
    /// and the numbers of the parts of VAL, then of PRO.
    Leaderboard {
        state: u8,
        hits: Vec<u32>,
        kept: Vec<u32>,
    },
}

/// What is kept of a presence script: docs/DEFINITIONS.md, "Progress file".
#[derive(Drop)]
pub struct PresenceKept {
    /// The index of the shown line, from 0.
    pub shown: u32,
    /// The hits, line by line, those of the test and then those of the macros.
    pub hits: Vec<u32>,
    /// The numbers of the parts of the macros, in the same order.
    pub kept: Vec<u32>,
}

/// What is kept of a set: docs/DEFINITIONS.md, "Openings and snapshots".
#[derive(Drop)]
pub struct Snapshot {
    /// The count of frames.
    pub frames: u64,
    /// The numbers of the cells, in order of first occurrence.
    pub cells: Vec<u32>,
    /// The numbers of the tracked masks, in order of first occurrence.
    pub priors: Vec<u32>,
    /// What is kept of each item, in set order.
    pub items: Vec<ItemKept>,
    /// What is kept of the presence script, where the set has one.
    pub presence: Option<PresenceKept>,
}
