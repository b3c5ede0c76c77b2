use ra_condition::Group;

/// The alt groups to be told of: the hits of all conditions of the trigger after the last frame, of which those of the
/// alts start at `from`, and how many frames there are.
#[derive(Clone, Copy)]
pub(crate) struct AltLines<'a> {
    pub from: usize,
    pub groups: &'a [Group],
    pub hits: &'a [u32],
    pub frames: u64,
}
