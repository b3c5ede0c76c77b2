/// What a condition is for in its group: docs/DEFINITIONS.md, "Flags".
#[derive(Clone, Copy, Debug, PartialEq, Eq)]
pub enum Flag {
    /// No flag.
    Plain,
    /// `P`: the group pauses where it is valid.
    PauseIf,
    /// `R`: the group resets where it is valid.
    ResetIf,
    /// `A`: its value is added to the next condition's.
    AddSource,
    /// `B`: its value is taken from the next condition's.
    SubSource,
    /// `C`: its hits are added to the next condition's.
    AddHits,
    /// `D`: its hits are taken from the next condition's.
    SubHits,
    /// `N`: the next condition holds only with it.
    AndNext,
    /// `O`: the next condition holds also with it alone.
    OrNext,
    /// `M`: it gives a number.
    Measured,
    /// `G`: it gives a number, as Measured does.
    MeasuredPercent,
    /// `Q`: the group's number counts only where it is valid.
    MeasuredIf,
    /// `I`: its value moves the cells of the next condition.
    AddAddress,
    /// `T`: it is left out of what primes.
    TriggerIf,
    /// `Z`: it resets the hits of the next condition where it is valid.
    ResetNextIf,
    /// `K`: its value is what `{recall}` means from here on.
    Remember,
}
