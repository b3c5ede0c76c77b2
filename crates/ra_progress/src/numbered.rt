/// Names with their numbers: `count` of them, in the bytes from `at` on.
#[derive(Clone, Copy)]
pub(crate) struct Numbered<'a> {
    pub bytes: &'a [u8],
    pub at: u64,
    pub count: u32,
}
