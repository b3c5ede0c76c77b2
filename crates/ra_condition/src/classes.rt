//! The classes of flags as methods: docs/DEFINITIONS.md, "Flags".

use crate::flag::Flag;

impl Flag {
    ghost use Rattle.std.specs.Prelude.{◌≡◌};
    ghost use Rattle.ra_condition.specs.Flags.{hands_on, combines, is_pause, is_reset, is_measured, is_measured_if, is_trigger, is_wanted, is_required};

    /// The condition only hands a value on, and counts no hits.
    pub fn hands_on(self) -> bool
        ensures { result ≡ hands_on self }
    {
        matches!(
            self,
            Flag::AddSource | Flag::SubSource | Flag::AddAddress | Flag::Remember
        )
    }

    /// The chain goes on with the condition after this one.
    pub fn combines(self) -> bool
        ensures { result ≡ combines self }
    {
        let counts_on = matches!(
            self,
            Flag::AddHits | Flag::SubHits | Flag::AndNext | Flag::OrNext | Flag::ResetNextIf
        );
        counts_on || self.hands_on()
    }

    /// The condition pauses its group.
    pub fn is_pause(self) -> bool
        ensures { result ≡ is_pause self }
    {
        matches!(self, Flag::PauseIf)
    }

    /// The condition resets its group.
    pub fn is_reset(self) -> bool
        ensures { result ≡ is_reset self }
    {
        matches!(self, Flag::ResetIf)
    }

    /// The condition offers a number.
    pub fn is_measured(self) -> bool
        ensures { result ≡ is_measured self }
    {
        matches!(self, Flag::Measured | Flag::MeasuredPercent)
    }

    /// The number counts only where the condition is valid.
    pub fn is_measured_if(self) -> bool
        ensures { result ≡ is_measured_if self }
    {
        matches!(self, Flag::MeasuredIf)
    }

    /// The condition is a Trigger.
    pub fn is_trigger(self) -> bool
        ensures { result ≡ is_trigger self }
    {
        matches!(self, Flag::TriggerIf)
    }

    /// The condition has to be valid in a primed group.
    pub fn is_wanted(self) -> bool
        ensures { result ≡ is_wanted self }
    {
        matches!(self, Flag::Plain | Flag::MeasuredIf) || self.is_measured()
    }

    /// The condition has to be valid in a valid group.
    pub fn is_required(self) -> bool
        ensures { result ≡ is_required self }
    {
        self.is_trigger() || self.is_wanted()
    }
}
