//! What a frame shows of a trigger, noted in its account.

ghost use Rattle.std.specs.Prelude.{◌≡◌, ◌+◌, ◌<◌, ◌^◌, ◌∷◌, ◌&&◌, true, length, List};
ghost use Rattle.ra_account.specs.Triggers.{IsReady, IsTriggerAccount, TriggerRow, row_with};
ghost use Rattle.ra_condition.specs.Contents.{trigger_contents, trigger_hits};
ghost use Rattle.ra_explain.specs.RowLists.{truths_laid};
ghost use Rattle.ra_member.specs.Readings.{numbers_at};
ghost use Rattle.ra_member.specs.Runs.{IsTriggerRun, MayFill, StepsAchievement};
ghost use Rattle.ra_trigger.specs.States.{is_waiting};
ghost use Rattle.ra_why.specs.Frames.{shown_by};
ghost use Rattle.ra_why.specs.Watching.{IsRoom, row_of, row_read};

use crate::room::Room;
use crate::sides::read_sides;
use ra_account::{Row, TriggerAccount};
use ra_condition::TriggerText;
use ra_member::TriggerRun;
use ra_memref::Table;
use ra_trigger::{Change, State};

// Reads what the table's last sample shows of an achievement, and steps it by that.
pub(crate) fn take_frame(
    text: &TriggerText,
    table: &Table,
    run: &mut TriggerRun,
    room: &mut Room,
) -> Change
    requires run { IsTriggerRun table.now.nodes (trigger_contents text.now) run.old }
    requires sampled { table.now.sampled ≡ true }
    requires room { IsRoom (trigger_hits (trigger_contents text.now)) room.old }

    ensures run { IsTriggerRun table.now.nodes (trigger_contents text.now) run.new }
    ensures steps { StepsAchievement table.now (trigger_contents text.now) run.old run.new result }
    ensures room { IsRoom (trigger_hits (trigger_contents text.now)) room.new }
    ensures read { row_of room.new ≡ row_read table.now.values run.old }
    ensures waited { (is_waiting result.before && is_waiting result.after)
        ≡ (shown_by (trigger_contents text.now) run.old.trigger (row_read table.now.values run.old)).moment.waited }
{
    read_frame(table, run, room);
    let laid = &run.laid;
    run.trigger.step(text, laid.order(), laid.pauses(), &room.truths, &room.lefts)
}

// Notes in an account what a frame over a memory of `size` bytes showed, by what it changed.
pub(crate) fn note_frame(
    text: &TriggerText,
    size: u32,
    change: Change,
    room: &Room,
    account: &mut TriggerAccount,
)
    requires room { IsRoom (trigger_hits (trigger_contents text.now)) room.now }
    requires ready { IsReady (trigger_contents text.now) account.old }
    requires few { account.old.frames < 2 ^ 60 }

    ensures ready { IsReady (trigger_contents text.now) account.new }
    ensures counted { account.new.frames ≡ account.old.frames + 1 }
    ensures noted { (earlier : List TriggerRow) → IsTriggerAccount (trigger_contents text.now) size earlier account.old
        → IsTriggerAccount (trigger_contents text.now) size
        (row_with (trigger_contents text.now) (is_waiting change.before && is_waiting change.after) (row_of room.now)
        ∷ earlier) account.new }
{
    let row = Row {
        truths: &room.truths,
        lefts: &room.lefts,
        rights: &room.rights,
        hits: &room.hits,
    };
    account.note(text, size, stays_waiting(change), &row);
}

// Reads what the table's last sample shows of a trigger that was not yet stepped by it, and its hits.
fn read_frame(table: &Table, run: &TriggerRun, room: &mut Room)
    requires laid { MayFill table.now.nodes run.now.laid }
    requires sampled { table.now.sampled ≡ true }
    requires room { IsRoom (length run.now.laid.ops) room.old }
    requires kept { length run.now.trigger.hits ≡ length run.now.laid.ops }

    ensures room { IsRoom (length run.now.laid.ops) room.new }
    ensures truths { room.new.truths.items ≡ truths_laid table.now.values run.now.laid }
    ensures lefts { room.new.lefts.items ≡ numbers_at table.now.values run.now.laid.plan.lefts }
    ensures rights { room.new.rights.items ≡ numbers_at table.now.values run.now.laid.plan.rights }
    ensures hits { room.new.hits.items ≡ run.now.trigger.hits }
{
    read_sides(
        &run.laid,
        table,
        &mut room.truths,
        &mut room.lefts,
        &mut room.rights,
    );
    room.hits.copy_from_slice(run.trigger.hits());
}

// Whether a trigger was waiting and waits after a frame, as it does where it is valid.
fn stays_waiting(change: Change) -> bool
    ensures { result ≡ (is_waiting change.before && is_waiting change.after) }
{
    matches!(change.before, State::Waiting) && matches!(change.after, State::Waiting)
}
