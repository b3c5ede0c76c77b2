use crate::item::Item;
use ra_richpresence::Script;

/// A set: docs/DEFINITIONS.md, "Set file".
#[derive(Drop)]
pub struct Set {
    /// The items, in file order.
    pub items: Vec<Item>,
    /// The presence script, where the file has a line `P`.
    pub script: Option<Script>,
    /// The MD5 of the whole file.
    pub digest: [u8; 16],
    /// The name of each item, in their order: docs/DEFINITIONS.md, "Names of items and scripts".
    pub item_names: Vec<[u8; 16]>,
    /// The name of the script, where there is one.
    pub script_name: Option<[u8; 16]>,
}
