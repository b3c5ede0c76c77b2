/// A number that stands on a row: docs/INTERNALS.md, "Flat rows".
#[derive(Clone, Copy)]
pub struct Entry {
    pub row: u32,
    pub number: u32,
}
