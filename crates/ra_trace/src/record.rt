/// A record of a trace: docs/DEFINITIONS.md, "Trace file".
#[derive(Clone, Copy, Debug, PartialEq, Eq)]
pub enum Record<'a> {
    /// `W`: these bytes are written from the address `at` on.
    Write { at: u32, bytes: &'a [u8] },
    /// `F`: a frame.
    Frame,
    /// `S`: what is kept is saved in a slot, 0 to 15.
    Save { slot: u8 },
    /// `R`: a slot, 0 to 15, is restored.
    Restore { slot: u8 },
    /// `P`: the presence is shown.
    Show,
    /// `E`: the end.
    End,
}
