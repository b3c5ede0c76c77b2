use ra_condition::{TriggerText, ValueText};

/// A leaderboard as its text spells it: docs/DEFINITIONS.md, "Boards".
#[derive(Drop)]
pub struct BoardText {
    /// STA, which starts an attempt.
    pub start: TriggerText,
    /// CAN, which cancels it.
    pub cancel: TriggerText,
    /// SUB, which submits it.
    pub submit: TriggerText,
    /// VAL, the value that is submitted.
    pub value: ValueText,
    /// PRO, the value that is tracked, if it is another than VAL.
    pub progress: Option<ValueText>,
}
