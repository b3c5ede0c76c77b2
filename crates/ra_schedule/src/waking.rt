//! Readers that are woken at a frame.

ghost use Rattle.std.specs.Prelude.{◌≡◌, ◌+◌, ◌<◌, ◌/◌, true, false, ℕ, length, nat_lt, slice_index};
ghost use Rattle.ra_schedule.specs.Readers.{Wakes, all_woken};
ghost use Rattle.ra_schedule.specs.Schedules.{signals_at};

use crate::readers::Readers;
use ra_memref::Table;
use ra_truths::Truths;

// Makes due each reader that reads a signal that changed at a frame, or each reader. No memory is taken.
pub(crate) fn wake(readers: &mut Readers, table: &Table, truths: &Truths, all: bool)
    requires nodes { (k : ℕ) → k < length table.now.changed
        → slice_index table.now.changed k < length readers.old.rows }
    requires comparisons { (k : ℕ) → k < length truths.now.flipped
        → truths.now.nodes + slice_index truths.now.flipped k < length readers.old.rows }
    ensures all { all ≡ true → readers.new ≡ all_woken readers.old }
    ensures wakes { all ≡ false → Wakes (signals_at table.now truths.now) readers.old readers.new }
{
    if all {
        readers.wake_all();
    } else {
        readers.wake(0, table.changed());
        readers.wake(truths.nodes(), truths.flipped());
    }
}

// More than a quarter of all signals changed at a frame.
pub(crate) fn many_changed(readers: &Readers, table: &Table, truths: &Truths) -> bool
    ensures { result ≡ nat_lt (length readers.now.rows / 4) (length (signals_at table.now truths.now)) }
{
    table.changed().len() + truths.flipped().len() > readers.nodes() / 4
}
