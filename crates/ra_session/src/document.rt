/// What a job puts, and the line that it prints after it.
#[derive(Drop)]
pub(crate) struct Document {
    /// The file.
    pub text: Vec<u8>,
    /// The line, with its end.
    pub line: String,
}
