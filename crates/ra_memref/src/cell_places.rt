/// Where some cells lie, and how wide each is.
#[derive(Clone, Copy)]
pub struct CellPlaces<'a> {
    pub places: &'a [u32],
    pub widths: &'a [u8],
}
