use ra_condition::{TriggerText, ValueText};

/// A field of a board, with what it holds: docs/DEFINITIONS.md, "Boards".
#[derive(Drop)]
pub enum Field {
    /// STA.
    Start(TriggerText),
    /// CAN.
    Cancel(TriggerText),
    /// SUB.
    Submit(TriggerText),
    /// VAL.
    Value(ValueText),
    /// PRO.
    Progress(ValueText),
}
