ghost use Rattle.std.specs.Prelude.{◌≡◌, ◌<◌, ◌&&◌};
ghost use Rattle.ra_leaderboard.specs.Tags.{has_letter};

use crate::tag::Tag;
use std::marker::Model;

/// Some of the tags of a board, at least one.
#[derive(Drop)]
pub struct TagSet {
    start: bool,
    cancel: bool,
    submit: bool,
    value: bool,
    progress: bool,
}

impl Model for TagSet {
    ghost use Rattle.std.specs.Prelude.{◌≡◌, true, is_some};
    ghost use Rattle.ra_leaderboard.specs.Tags.{SomeTags, chosen_tags, some_tags, tags_of};

    ghost Value = { SomeTags };

    ghost view = { λ s. tags_of (chosen_tags s.start s.cancel s.submit s.value s.progress) };

    ghost invariant = { λ s. is_some (some_tags (chosen_tags s.start s.cancel s.submit s.value s.progress)) ≡ true };
}

impl TagSet {
    ghost use Rattle.ra_leaderboard.specs.Tags.{all_tags, chosen_tags, narrowed, some_tags};

    /// All five tags.
    pub fn all() -> Self
        ensures { result ≡ all_tags }
    {
        TagSet {
            start: true,
            cancel: true,
            submit: true,
            value: true,
            progress: true,
        }
    }

    /// The tags of which these are told, where there are some.
    pub fn of(start: bool, cancel: bool, submit: bool, value: bool, progress: bool) -> Option<Self>
        ensures { result ≡ some_tags (chosen_tags start cancel submit value progress) }
    {
        if start || cancel || submit || value || progress {
            Some(TagSet {
                start,
                cancel,
                submit,
                value,
                progress,
            })
        } else {
            None
        }
    }

    /// The tags that go on with this byte at a place of their words.
    pub fn narrowed(&self, place: usize, byte: u8) -> Option<Self>
        requires { place < 3 }
        ensures { result ≡ narrowed place self.now byte }
    {
        TagSet::of(
            goes_on(self.start, Tag::Start, place, byte),
            goes_on(self.cancel, Tag::Cancel, place, byte),
            goes_on(self.submit, Tag::Submit, place, byte),
            goes_on(self.value, Tag::Value, place, byte),
            goes_on(self.progress, Tag::Progress, place, byte),
        )
    }

    /// The first of the tags.
    pub fn first(&self) -> Tag
        ensures { result ≡ self.now.0 }
    {
        if self.start {
            Tag::Start
        } else if self.cancel {
            Tag::Cancel
        } else if self.submit {
            Tag::Submit
        } else if self.value {
            Tag::Value
        } else {
            Tag::Progress
        }
    }
}

// The tag is one of them, and the byte is the letter at a place of its word.
fn goes_on(chosen: bool, tag: Tag, place: usize, byte: u8) -> bool
    requires { place < 3 }
    ensures { result ≡ (chosen && has_letter place byte tag) }
{
    chosen && tag.has_letter(place, byte)
}
