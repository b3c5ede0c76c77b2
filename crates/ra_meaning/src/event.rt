use ra_value_format::Format;

/// What happened to an item at a frame: docs/DEFINITIONS.md, "Events".
///
/// Each names its item by the item's id: that of an achievement up to `Unlock`, and that of a
/// leaderboard from `Start` on. A number of a leaderboard comes with the format in which it is shown.
#[derive(Clone, Copy, Debug, PartialEq, Eq)]
pub enum Event {
    /// The measured number changed to this.
    Measured {
        id: u32,
        number: u32,
    },
    /// The achievement became primed.
    Primed {
        id: u32,
    },
    /// The achievement is primed no longer.
    Unprimed {
        id: u32,
    },
    /// The achievement triggered.
    Unlock {
        id: u32,
    },
    /// An attempt started.
    Start {
        id: u32,
    },
    /// The number of a running attempt, where it just started or this is a new one.
    Track {
        id: u32,
        number: i32,
        format: Format,
    },
    /// The attempt was cancelled.
    Cancel {
        id: u32,
    },
    /// The attempt was submitted with this number.
    Submit {
        id: u32,
        number: i32,
        format: Format,
    },
}
