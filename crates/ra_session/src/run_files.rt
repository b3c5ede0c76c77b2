/// The files of a run: what it plays, what it goes on from, and what it puts at the end.
#[derive(Clone, Copy, Debug, PartialEq, Eq)]
pub struct RunFiles<'a> {
    pub set: &'a str,
    pub trace: &'a str,
    pub restore: Option<&'a str>,
    pub save: Option<&'a str>,
}
