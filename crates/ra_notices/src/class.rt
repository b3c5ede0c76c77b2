use ra_condition::Flag;

/// A class of flags.
#[derive(Clone, Copy, Debug, PartialEq, Eq)]
pub(crate) enum Class {
    Any,
    Pause,
    MeasuredIf,
    Measured,
    /// Those of conditions that have to be valid.
    Required,
}

impl Class {
    ghost use Rattle.std.specs.Prelude.{◌≡◌};
    ghost use Rattle.ra_notices.specs.Noticing.{has_class};

    /// Whether the flag is of the class.
    pub fn has(self, flag: Flag) -> bool
        ensures { result ≡ has_class self flag }
    {
        match self {
            Class::Any => true,
            Class::Pause => flag.is_pause(),
            Class::MeasuredIf => flag.is_measured_if(),
            Class::Measured => flag.is_measured(),
            Class::Required => flag.is_required(),
        }
    }
}
