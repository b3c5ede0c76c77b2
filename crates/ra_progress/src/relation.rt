//! Whether a file is of this set.

ghost use Rattle.std.specs.Prelude.{◌≡◌, ◌&&◌, ◌==◌, bytes_eq};
ghost use Rattle.ra_progress.specs.Contents.{shape_contents, own_entries};
ghost use Rattle.ra_progress.specs.Layout as layout;
ghost use Rattle.ra_progress.specs.Names.{IsPaired, IsUsable};
ghost use Rattle.ra_progress.specs.Reading as spec;
ghost use Rattle.ra_progress.specs.Room.{IsToldOwn};

use crate::layout::{cell_count, entry_after, entry_count, first_entry, prior_count};
use crate::names::name_at;
use crate::own::{block_length, own_count, own_shape};
use crate::shape::Shape;
use ra_text::word_at;

/// Whether a file is of this set, so that its fields are read by their places:
/// docs/DEFINITIONS.md, "Progress file".
pub fn of_this_set(shape: &Shape, bytes: &[u8]) -> bool
    requires usable { IsUsable shape.now }
    requires layout { spec.HasLayout bytes.now }
    ensures { result ≡ spec.of_this_set (shape_contents shape.now) bytes.now }
{
    name_at(bytes, 5) == shape.digest
        && cell_count(bytes) as usize == shape.cells.len()
        && prior_count(bytes) as usize == shape.priors.len()
        && have_sizes(shape, bytes)
}

/// Whether an accepted file is of this set, if it has names. In version 1 no file has any.
pub(crate) fn is_own(shape: &Shape, bytes: &[u8]) -> bool
    requires usable { IsUsable shape.now }
    requires accepted { spec.IsAccepted (shape_contents shape.now) bytes.now }
    ensures { IsToldOwn shape.now bytes.now result }
{
    if bytes[4] == 1 {
        true
    } else {
        of_this_set(shape, bytes)
    }
}

// Whether the entries have the lengths of the own ones, one beside the other.
fn have_sizes(shape: &Shape, bytes: &[u8]) -> bool
    requires paired { IsPaired (shape_contents shape.now) }
    requires layout { spec.HasLayout bytes.now }
    ensures { result ≡ spec.have_sizes (own_entries (shape_contents shape.now)) (layout.entries_in bytes.now) }
{
    let count = own_count(shape);
    if entry_count(bytes) != count {
        return false;
    }
    let mut at = first_entry(bytes);
    for number in 0..count {
        if u64::from(word_at(bytes, at + 16)) != block_length(own_shape(shape, number)) {
            return false;
        }
        at = entry_after(bytes, at);
    }
    true
}
