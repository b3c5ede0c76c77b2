//! Boards by a cursor: docs/DEFINITIONS.md, "Boards".

ghost use Rattle.std.specs.Prelude.{◌≡◌, ◌<◌, ℕ, List, ◌∷◌, IfNone, IfSome, Some, None};
ghost use Rattle.ra_condition.specs.Fault.{GivesUnlessFull};
ghost use Rattle.ra_leaderboard.specs.Contents.{board_contents};
ghost use Rattle.ra_leaderboard.specs.Fields.{field_contents};
ghost use Rattle.ra_leaderboard.specs.Reading.{board_at, field_at, held_at, next_field_at, separator, tag_at};
ghost use Rattle.ra_leaderboard.specs.Tags.{narrowed};
ghost use Rattle.ra_text.specs.Moves.{Moves};
ghost use Rattle.ra_text.specs.Reading.{one_at};

use crate::board_text::BoardText;
use crate::field::Field;
use crate::fields::Fields;
use crate::tag::Tag;
use crate::tag_set::TagSet;
use ra_condition::{Fault, take_trigger, take_value};
use ra_text::{Cursor, Stop};
use std::alloc::Global;

/// Reads a board: docs/DEFINITIONS.md, "Boards".
///
/// `Stop` exactly where what stands before the first byte that goes on with no board is no whole
/// board; the cursor then stands before that byte. `Memory` where there is no memory for it.
pub fn take_board(alloc: Global, cursor: &mut Cursor<'_>) -> Result<BoardText, Fault>
    ensures { GivesUnlessFull board_contents result cursor.new.rest.now (board_at cursor.old.rest.now) }
{
    let mut fields = Fields::none();
    fields.put(take_field(alloc, cursor, &TagSet::all())?);
    'others: while let Some(tags) = pass_separator(cursor, &fields) {
        fields.put(take_next_field(alloc, cursor, &tags)?);
    }
    Ok(fields.board()?)
}

// The tags of which one may come, after a colon. Without a colon or a free tag the cursor stays.
fn pass_separator(cursor: &mut Cursor<'_>, fields: &Fields) -> Option<TagSet>
    ensures passed { IfSome result (λ tags. cursor.old.rest.now ≡ 58 ∷ cursor.new.rest.now) }
    ensures free { IfSome result (λ tags. separator fields.now 58 ≡ Some tags) }
    ensures stayed { IfNone result (cursor.new.rest.now ≡ cursor.old.rest.now) }
    ensures ended { IfNone result
        ((byte : ℕ) (rest : List ℕ) → cursor.old.rest.now ≡ byte ∷ rest → separator fields.now byte ≡ None) }
{
    let tags = fields.free()?;
    if cursor.skip(b':') { Some(tags) } else { None }
}

// ":" and a field
#[tactic(auto, unfolding(crate::specs::Reading::next_field_at))]
fn take_next_field(alloc: Global, cursor: &mut Cursor<'_>, tags: &TagSet) -> Result<Field, Fault>
    ensures { GivesUnlessFull field_contents result cursor.new.rest.now (next_field_at tags.now cursor.old.rest.now) }
{
    cursor.byte(b':')?;
    take_field(alloc, cursor, tags)
}

// tag ":" and what it holds
#[tactic(auto, unfolding(crate::specs::Reading::field_at))]
fn take_field(alloc: Global, cursor: &mut Cursor<'_>, tags: &TagSet) -> Result<Field, Fault>
    ensures { GivesUnlessFull field_contents result cursor.new.rest.now (field_at tags.now cursor.old.rest.now) }
{
    let tag = take_tag(cursor, tags)?;
    cursor.byte(b':')?;
    take_held(alloc, cursor, tag)
}

// A trigger, or a value.
#[tactic(auto, unfolding(crate::specs::Reading::held_at))]
fn take_held(alloc: Global, cursor: &mut Cursor<'_>, tag: Tag) -> Result<Field, Fault>
    ensures { GivesUnlessFull field_contents result cursor.new.rest.now (held_at tag cursor.old.rest.now) }
{
    match tag {
        Tag::Start => Ok(Field::Start(take_trigger(alloc, cursor)?)),
        Tag::Cancel => Ok(Field::Cancel(take_trigger(alloc, cursor)?)),
        Tag::Submit => Ok(Field::Submit(take_trigger(alloc, cursor)?)),
        Tag::Value => Ok(Field::Value(take_value(alloc, cursor)?)),
        Tag::Progress => Ok(Field::Progress(take_value(alloc, cursor)?)),
    }
}

// The word of one of these tags, each letter in either case.
#[tactic(auto, unfolding(crate::specs::Reading::tag_at))]
fn take_tag(cursor: &mut Cursor<'_>, tags: &TagSet) -> Result<Tag, Stop>
    ensures { Moves result cursor.new.rest.now (tag_at tags.now cursor.old.rest.now) }
{
    let first = take_letter(cursor, tags, 0)?;
    let second = take_letter(cursor, &first, 1)?;
    let third = take_letter(cursor, &second, 2)?;
    Ok(third.first())
}

// A letter at this place of the words of some of these tags: those that go on with it.
fn take_letter(cursor: &mut Cursor<'_>, tags: &TagSet, place: usize) -> Result<TagSet, Stop>
    requires { place < 3 }
    ensures { Moves result cursor.new.rest.now (one_at (narrowed place tags.now) cursor.old.rest.now) }
{
    if let [byte, after @ ..] = cursor.rest {
        if let Some(left) = tags.narrowed(place, *byte) {
            cursor.rest = after;
            return Ok(left);
        }
    }
    Err(Stop)
}
