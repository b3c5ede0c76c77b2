/// A cell with its number: where it lies, and how wide it is.
#[derive(Clone, Copy)]
pub struct KeptCell {
    pub place: u32,
    pub width: u8,
    pub number: u32,
}
