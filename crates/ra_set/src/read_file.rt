use crate::item::Item;
use ra_richpresence::ReadScript;

/// What a file contains: its items, and its script where it has one.
#[derive(Drop)]
pub struct ReadFile {
    /// The items, in file order.
    pub items: Vec<Item>,
    /// The script, where the file has a line `P`.
    pub script: Option<ReadScript>,
}
