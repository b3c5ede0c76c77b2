ghost use Rattle.std.specs.Prelude.{◌≡◌};

use ra_runtime::Event;

/// What happened to an item at a frame, as C reads it: docs/DEFINITIONS.md, "Calls from C" and "Events".
///
/// In C it is `ra_event`.
#[repr(C)]
#[derive(Clone, Copy, Debug, PartialEq, Eq)]
pub struct ToldEvent {
    /// What happened: 1 measured, 2 primed, 3 unprimed, 4 unlock, 5 start, 6 track, 7 cancel, 8 submit.
    pub kind: u32,
    /// The id of the item.
    pub id: u32,
    /// The number that is told, and 0 where none is.
    pub number: i64,
}

impl ToldEvent {
    ghost use Rattle.ra_calls.specs.ToldEvents.{told_event};

    // An event, as C reads it.
    pub fn of(event: Event) -> ToldEvent
        ensures { result ≡ told_event event }
    {
        let (kind, id, number) = match event {
            Event::Measured { id, number } => (1, id, number as i64),
            Event::Primed { id } => (2, id, 0),
            Event::Unprimed { id } => (3, id, 0),
            Event::Unlock { id } => (4, id, 0),
            Event::Start { id } => (5, id, 0),
            Event::Track {
                id,
                number,
                format: _,
            } => (6, id, number as i64),
            Event::Cancel { id } => (7, id, 0),
            Event::Submit {
                id,
                number,
                format: _,
            } => (8, id, number as i64),
        };
        ToldEvent { kind, id, number }
    }
}
