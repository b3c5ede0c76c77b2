use crate::script_line::ScriptLine;

/// The lines that are not read yet.
#[derive(Clone, Copy)]
pub struct Lines<'a> {
    /// The lines, of each what is left.
    pub rest: &'a [ScriptLine<'a>],
}
