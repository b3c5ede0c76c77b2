use ra_condition::TriggerText;
use ra_leaderboard::BoardText;
use ra_value_format::Format;

/// An item of a set: docs/DEFINITIONS.md, "Set file".
#[derive(Drop)]
pub enum Item {
    /// An A line: its id, and its trigger.
    Achievement {
        id: u32,
        text: TriggerText,
    },
    /// An L line: its id, the format of its values, and its board.
    Leaderboard {
        id: u32,
        format: Format,
        text: Box<BoardText>,
    },
}

impl Item {
    ghost use Rattle.std.specs.Prelude.{◌≡◌};
    ghost use Rattle.ra_set.specs.Contents.{item_contents};
    ghost use Rattle.ra_set.specs.Refusals.{id_of};

    /// The id that its line gives it.
    pub fn id(&self) -> u32
        ensures { result ≡ id_of (item_contents self.now) }
    {
        match self {
            Item::Achievement { id, .. } | Item::Leaderboard { id, .. } => *id,
        }
    }
}
