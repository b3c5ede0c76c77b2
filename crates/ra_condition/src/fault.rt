use std::alloc::{AllocError, AllocFailed};

/// Why a call that reads by a cursor gave nothing.
#[derive(Clone, Copy, Debug, PartialEq, Eq)]
pub enum Fault {
    /// No text of the grammar goes on with what is next. The cursor stands before it.
    Stop,
    /// There was no memory for what is read.
    Memory,
}

impl From<ra_text::Stop> for Fault {
    ghost use Rattle.std.specs.Prelude.{◌≡◌};
    ghost use Rattle.ra_condition.specs.declared.fault.Fault.TheVariants.{Stop};

    ghost from_gives = { λ _ fault. fault ≡ Stop };

    fn from(_stop: ra_text::Stop) -> Self {
        Fault::Stop
    }
}

impl From<AllocError> for Fault {
    ghost use Rattle.std.specs.Prelude.{◌≡◌};
    ghost use Rattle.ra_condition.specs.declared.fault.Fault.TheVariants.{Memory};

    ghost from_gives = { λ _ fault. fault ≡ Memory };

    fn from(_error: AllocError) -> Self {
        Fault::Memory
    }
}

impl<T: Drop> From<AllocFailed<T>> for Fault {
    ghost use Rattle.std.specs.Prelude.{◌≡◌};
    ghost use Rattle.ra_condition.specs.declared.fault.Fault.TheVariants.{Memory};

    ghost from_gives = { λ _ fault. fault ≡ Memory };

    fn from(_error: AllocFailed<T>) -> Self {
        Fault::Memory
    }
}
