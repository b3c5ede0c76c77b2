ghost use Rattle.std.specs.Prelude.{◌≡◌};

use ra_text::OutOfMemory;

/// Why a frame is not recorded.
#[derive(Clone, Copy, Debug, PartialEq, Eq)]
pub enum ExplainRefused {
    /// Rows and their comparisons would be more than 67,108,864.
    Rows { found: u64 },
    Memory,
}

impl From<OutOfMemory> for ExplainRefused {
    ghost use Rattle.ra_explain.specs.declared.refused.ExplainRefused.TheVariants as refused;

    ghost from_gives = { λ _ e. e ≡ refused.Memory };

    fn from(_error: OutOfMemory) -> ExplainRefused {
        ExplainRefused::Memory
    }
}
