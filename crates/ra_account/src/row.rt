ghost use Rattle.std.specs.Prelude.{◌≡◌, ◌-◌, ◌≤◌, length};
ghost use Rattle.ra_account.specs.Groups.{IsRowOf, cut_row, row_in};

/// What a frame shows of some conditions: of each its comparison, its left and its right value, and its hits before
/// the frame.
#[derive(Clone, Copy)]
pub struct Row<'a> {
    /// Whether each comparison holds.
    pub truths: &'a [bool],
    /// The left values.
    pub lefts: &'a [u32],
    /// The right values.
    pub rights: &'a [u32],
    /// The hits.
    pub hits: &'a [u32],
}

impl<'a> Row<'a> {
    // The part from one place up to another, which is not in it.
    pub(crate) fn part(self, from: usize, to: usize) -> Row<'a>
        requires row { IsRowOf (length self.truths.now) (row_in self) }
        requires order { from ≤ to }
        requires within { to ≤ length self.truths.now }
        ensures { row_in result ≡ cut_row (to - from) from (row_in self.entry) }
    {
        Row {
            truths: &self.truths[from..to],
            lefts: &self.lefts[from..to],
            rights: &self.rights[from..to],
            hits: &self.hits[from..to],
        }
    }
}
