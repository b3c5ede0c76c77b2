use crate::chance::Chance;
use crate::verdict::Verdict;

/// What is known of a condition: of its comparison, and of the hits that it can reach.
#[derive(Clone, Copy, Debug, PartialEq, Eq)]
pub(crate) struct Judged {
    pub verdict: Verdict,
    pub chance: Chance,
}
