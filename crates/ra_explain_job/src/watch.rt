use ra_explain::Recorder;

/// A recorder after the records of a trace that it took, and whether the last of them is the frame of an unlock.
#[derive(Drop)]
pub(crate) struct Watch {
    pub recorder: Recorder,
    pub unlocked: bool,
}
