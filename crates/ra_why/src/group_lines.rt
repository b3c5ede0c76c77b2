use ra_condition::Group;

/// A group to be told of: its number, the hits of its conditions after the last frame, and how many frames there are.
#[derive(Clone, Copy)]
pub(crate) struct GroupLines<'a> {
    pub number: usize,
    pub group: &'a Group,
    pub hits: &'a [u32],
    pub frames: u64,
}
