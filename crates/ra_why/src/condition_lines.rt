use ra_condition::Condition;

/// A condition to be told of: its group and its place there, its hits after the last frame, and how many frames there are.
#[derive(Clone, Copy)]
pub(crate) struct ConditionLines<'a> {
    pub group: usize,
    pub place: usize,
    pub condition: &'a Condition,
    pub hits: u32,
    pub frames: u64,
}
