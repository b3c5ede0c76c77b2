use ra_set::SetRefused;

/// What a review says of a file.
#[derive(Drop)]
pub struct Reviewed {
    /// The lines that it prints.
    pub text: Vec<u8>,
    /// How many lines are refused, those that repeat an id with them.
    pub refused: usize,
    /// The first limit that the file passes, where no line of it is refused.
    pub limit: Option<SetRefused>,
}
