/// The field of a board that a tag names: docs/DEFINITIONS.md, "Boards".
#[derive(Clone, Copy, Debug, PartialEq, Eq)]
pub enum Tag {
    /// STA.
    Start,
    /// CAN.
    Cancel,
    /// SUB.
    Submit,
    /// VAL.
    Value,
    /// PRO.
    Progress,
}

impl Tag {
    ghost use Rattle.std.specs.Prelude.{◌≡◌, ◌<◌, slice_index};
    ghost use Rattle.ra_leaderboard.specs.Tags.{has_letter, word_of};

    // The letter at this place of the tag's word is the byte, in either case.
    pub(crate) fn has_letter(self, place: usize, byte: u8) -> bool
        requires { place < 3 }
        ensures { result ≡ has_letter place byte self }
    {
        let upper = self.letter(place);
        byte == upper || byte == upper + 32
    }

    // The letter at this place of the tag's word, in upper case.
    fn letter(self, place: usize) -> u8
        requires { place < 3 }
        ensures letter { result ≡ slice_index (word_of self) place }
        ensures small { result < 128 }
    {
        let word = match self {
            Tag::Start => [b'S', b'T', b'A'],
            Tag::Cancel => [b'C', b'A', b'N'],
            Tag::Submit => [b'S', b'U', b'B'],
            Tag::Value => [b'V', b'A', b'L'],
            Tag::Progress => [b'P', b'R', b'O'],
        };
        word[place]
    }
}
