use crate::group::Group;

/// A trigger: docs/DEFINITIONS.md, "Triggers".
#[derive(Drop)]
pub struct TriggerText {
    /// The core group.
    pub core: Group,
    /// The alt groups in text order; where there are any, one of them has to hold with the core.
    pub alts: Vec<Group>,
}
