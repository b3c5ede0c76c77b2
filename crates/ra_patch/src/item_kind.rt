use crate::left_out::LeftList;

/// Which of the two lists of a document an item is of: docs/DEFINITIONS.md, "What is left of a
/// document".
#[derive(Clone, Copy)]
pub enum ItemKind {
    /// An item of `Achievements`.
    Achievement,
    /// An item of `Leaderboards`.
    Leaderboard,
}

impl ItemKind {
    ghost use Rattle.std.specs.Prelude.{◌≡◌};
    ghost use Rattle.ra_patch.specs.Leaving.{list_of};

    /// The list of the items of this kind.
    pub fn list(self) -> LeftList
        ensures { result ≡ list_of self }
    {
        match self {
            ItemKind::Achievement => LeftList::Achievements,
            ItemKind::Leaderboard => LeftList::Leaderboards,
        }
    }
}
