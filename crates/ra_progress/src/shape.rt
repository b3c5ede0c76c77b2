//! What a set keeps, and by which names: docs/DEFINITIONS.md, "Shape of a set".

/// How many hits and parts an item keeps: docs/DEFINITIONS.md, "Shape of a set".
#[derive(Clone, Copy, Debug, PartialEq, Eq)]
pub enum ItemShape {
    /// An achievement: a hit for each condition of its groups.
    Achievement { hits: u32 },
    /// A leaderboard: a hit for each condition of its three triggers and of the condition parts of
    /// its values, and a number for each part of its values.
    Leaderboard { hits: u32, parts: u32 },
}

/// How many lines, hits and parts a presence script keeps: docs/DEFINITIONS.md, "Shape of a set".
#[derive(Clone, Copy, Debug, PartialEq, Eq)]
pub struct PresenceShape {
    /// The lines of the display.
    pub lines: u32,
    /// The hits of the tests and of the macros of all lines.
    pub hits: u32,
    /// The parts of the macros of all lines.
    pub parts: u32,
}

/// What a set keeps, and by which names: docs/DEFINITIONS.md, "Shape of a set".
///
/// An order lists the numbers of its things once, by rising name, and those of one name by rising
/// number.
#[derive(Drop)]
pub struct Shape {
    /// The MD5 of the set's file.
    pub digest: [u8; 16],
    /// The names of the cells of the set, each once, in order of first occurrence.
    pub cells: Vec<[u8; 16]>,
    /// The names of the tracked masks of the set, each once, in order of first occurrence.
    pub priors: Vec<[u8; 16]>,
    /// The items in set order.
    pub items: Vec<ItemShape>,
    /// The names of the items, in set order.
    pub item_names: Vec<[u8; 16]>,
    /// The presence script, where the set has one.
    pub presence: Option<PresenceShape>,
    /// The name of the presence script, where the set has one.
    pub presence_name: Option<[u8; 16]>,
    /// The order of the cells.
    pub cell_order: Vec<u32>,
    /// The order of the tracked masks.
    pub prior_order: Vec<u32>,
    /// The order of the items and the script, whose number is the count of items.
    pub entry_order: Vec<u32>,
}
