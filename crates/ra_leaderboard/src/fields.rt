use crate::board_text::BoardText;
use crate::field::Field;
use crate::tag_set::TagSet;
use ra_condition::{TriggerText, ValueText};
use ra_text::Stop;
use std::marker::Model;

/// What the fields of a board so far hold.
#[derive(Drop)]
pub struct Fields {
    start: Option<TriggerText>,
    cancel: Option<TriggerText>,
    submit: Option<TriggerText>,
    value: Option<ValueText>,
    progress: Option<ValueText>,
}

impl Model for Fields {
    ghost use Rattle.std.specs.Prelude.{option_map};
    ghost use Rattle.ra_condition.specs.Contents.{trigger_contents, value_contents};
    ghost use Rattle.ra_leaderboard.specs.Reading.{HeldSoFar};

    ghost Value = { HeldSoFar };

    ghost view = { λ f. record {
      start = option_map trigger_contents f.start;
      cancel = option_map trigger_contents f.cancel;
      submit = option_map trigger_contents f.submit;
      value = option_map value_contents f.value;
      progress = option_map value_contents f.progress;
    } };
}

impl Fields {
    ghost use Rattle.std.specs.Prelude.{◌≡◌, ◌↔◌, IfOk, IsOk, IsTrue};
    ghost use Rattle.ra_leaderboard.specs.Contents.{board_contents};
    ghost use Rattle.ra_leaderboard.specs.Fields.{field_contents};
    ghost use Rattle.ra_leaderboard.specs.Reading.{board_of, free_tags, is_whole, none_held, with_field};
    ghost use Rattle.ra_leaderboard.specs.Tags.{some_tags};

    /// No field.
    pub fn none() -> Self
        ensures { result ≡ none_held }
    {
        Fields {
            start: None,
            cancel: None,
            submit: None,
            value: None,
            progress: None,
        }
    }

    /// Keeps one field more.
    pub fn put(&mut self, field: Field)
        ensures { self.new ≡ with_field self.old (field_contents field) }
    {
        match field {
            Field::Start(trigger) => self.start = Some(trigger),
            Field::Cancel(trigger) => self.cancel = Some(trigger),
            Field::Submit(trigger) => self.submit = Some(trigger),
            Field::Value(value) => self.value = Some(value),
            Field::Progress(value) => self.progress = Some(value),
        }
    }

    /// The tags whose fields do not stand yet, where there are some.
    pub fn free(&self) -> Option<TagSet>
        ensures { result ≡ some_tags (free_tags self.now) }
    {
        TagSet::of(
            self.start.is_none(),
            self.cancel.is_none(),
            self.submit.is_none(),
            self.value.is_none(),
            self.progress.is_none(),
        )
    }

    /// The board of the fields. `Stop` where one that a board has to have does not stand.
    pub fn board(self) -> Result<BoardText, Stop>
        ensures whole { IsOk result ↔ IsTrue (is_whole self) }
        ensures ok { IfOk result (λ b. board_contents b ≡ board_of self) }
    {
        let (Some(start), Some(cancel), Some(submit), Some(value)) = (
            self.start,
            self.cancel,
            self.submit,
            self.value,
        ) else {
            return Err(Stop);
        };
        Ok(BoardText {
            start,
            cancel,
            submit,
            value,
            progress: self.progress,
        })
    }
}
