/// A number and the id of the leaderboard in whose format it is told.
#[derive(Clone, Copy, Debug, PartialEq, Eq)]
pub struct BoardNumber {
    pub id: u32,
    pub number: i32,
}
