use ra_set::Set;

/// What a run begins with: a set, and the progress bytes that it goes on from, where there are some.
#[derive(Drop)]
pub struct Beginning {
    pub set: Set,
    pub progress: Option<Vec<u8>>,
}
