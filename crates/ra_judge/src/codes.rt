//! What a call answers: docs/DEFINITIONS.md, "Calls from C".

/// The call did what it says.
pub const DONE: u32 = 0;
/// Memory ran out.
pub const MEMORY: u32 = 1;
/// The text is no set.
pub const SET: u32 = 2;
/// The bytes are no progress of the set.
pub const PROGRESS: u32 = 3;
/// A size, an id, a kind or a flag is out of range.
pub const RANGE: u32 = 4;
/// There is too little room.
pub const ROOM: u32 = 5;
/// The handle holds nothing.
pub const EMPTY: u32 = 6;
/// The handle holds a game already.
pub const HELD: u32 = 7;
/// There is no unlock to explain.
pub const NOTHING: u32 = 8;
/// Nothing is left of the document.
pub const DOCUMENT: u32 = 9;
