ghost use Rattle.std.specs.Prelude.{◌≡◌, true};
ghost use Rattle.ra_richpresence.specs.Cut.{is_left};

/// What is left of a line, and where the line starts in its text.
#[derive(Clone, Copy)]
pub struct ScriptLine<'a> {
    /// Where the line starts, in bytes from the start of the text.
    pub start: usize,
    /// What is left of the line.
    pub bytes: &'a [u8],
    ghost left: { is_left bytes.now ≡ true },
}
