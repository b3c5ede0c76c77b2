ghost use Rattle.std.specs.Prelude.{◌≡◌, ℕ, ◌+◌, ◌<◌, ◌≤◌, ◌^◌, ◌∷◌, [], length, List, IfOk};
ghost use Rattle.ra_condition.specs.Contents.{group_contents};
ghost use Rattle.ra_account.specs.Alone.{StandAlone};
ghost use Rattle.ra_account.specs.Groups.{GroupRow, IsGroupAccount, IsGroupReady, GroupStandsAt, FitsGroup, IsRowOf, row_frame, row_in, wants_of};
ghost use Rattle.ra_account.specs.Running.{AllRunAt, AreRunning};
ghost use Rattle.ra_account.specs.Stops.{stops_of};

use crate::frame_row::FrameRow;
use crate::group::{note_group, stops_by};
use crate::noting::{Noting, found_in, is_steady, note_others};
use crate::running::Running;
use crate::sight::Sight;
use crate::stands::{are_alone, are_calm, stand_group};
use crate::stops::Stops;
use ra_chain::pausing_of;
use ra_condition::{Condition, Group};
use ra_group::Standing;
use ra_text::OutOfMemory;
use std::alloc::Global;

/// The accounts of a group's conditions, with room for how they stand at a frame: docs/DEFINITIONS.md, "Account of
/// an achievement".
#[derive(Drop)]
pub struct GroupAccount {
    /// The account of each condition, in text order.
    pub conditions: Vec<Running>,
    /// Whether the last frame wants each condition.
    pub wants: Vec<bool>,
    /// Whether each condition stands in a pause chain.
    pub pausing: Vec<bool>,
    /// No condition leaves anything for the next one in its chain.
    pub alone: bool,
    /// No condition pauses or resets the group or moves the cells of the next one.
    pub calm: bool,
    /// Room for how the conditions stand.
    pub room: Vec<Standing>,
    /// What the last frame showed of each condition, if that is kept.
    pub seen: Vec<Sight>,
    /// Whether the last frame paused the group, if that is kept.
    pub paused: bool,
    /// Whether it is kept what the last frame showed.
    pub kept: bool,
    /// How many frames were noted.
    pub frames: u64,
}

impl GroupAccount {
    /// Before the first frame.
    pub fn new(alloc: Global, group: &Group) -> Result<GroupAccount, OutOfMemory>
        requires few { length (group_contents group.now) ≤ 65536 }
        ensures fits { IfOk result (λ made. FitsGroup (group_contents group.now) made) }
        ensures stands { IfOk result (λ made. GroupStandsAt 0 made) }
        ensures begun { (size : ℕ) → IfOk result (λ made. IsGroupAccount (group_contents group.now) size [] made) }
    {
        let count = group.conditions.len();
        let pausing = pausing_of(alloc, &group.conditions)?;
        let alone = are_alone(&group.conditions);
        let calm = are_calm(&group.conditions);
        let conditions = new_accounts(alloc, count)?;
        Ok(GroupAccount {
            conditions,
            wants: vec![in alloc; false; count]?,
            pausing,
            alone,
            calm,
            room: vec![in alloc; NO_STANDING; count]?,
            seen: vec![in alloc; NO_SIGHT; count]?,
            paused: false,
            kept: false,
            frames: 0,
        })
    }

    /// Notes what a frame shows of the group's conditions, after all frames before it, and tells what stops the group.
    pub fn note(&mut self, group: &Group, frame: &FrameRow<'_>) -> Stops
        requires ready { IsGroupReady (group_contents group.now) frame.now.at self.old }
        requires few { frame.now.at < 2 ^ 60 }
        requires row { IsRowOf (length (group_contents group.now)) (row_in frame.now.row) }

        ensures ready { IsGroupReady (group_contents group.now) (frame.now.at + 1) self.new }
        ensures noted { (earlier : List GroupRow)
            → IsGroupAccount (group_contents group.now) frame.now.size earlier self.old
            → IsGroupAccount (group_contents group.now) frame.now.size (row_in frame.now.row ∷ earlier) self.new }
        ensures wants { self.new.wants.items ≡ wants_of (group_contents group.now) (row_in frame.now.row) }
        ensures stops { result ≡ stops_of (row_frame (group_contents group.now) (row_in frame.now.row)) }
    {
        let conditions = group.conditions.as_slice();
        if self.alone {
            self.note_apart(conditions, frame)
        } else {
            self.note_chained(conditions, frame)
        }
    }

    // The same of a group in which none leaves anything for the next one in its chain.
    fn note_apart(&mut self, conditions: &[Condition], frame: &FrameRow<'_>) -> Stops
        requires alone { StandAlone conditions.now }
        requires ready { IsGroupReady conditions.now frame.now.at self.old }
        requires few { frame.now.at < 2 ^ 60 }
        requires row { IsRowOf (length conditions.now) (row_in frame.now.row) }

        ensures ready { IsGroupReady conditions.now (frame.now.at + 1) self.new }
        ensures noted { (earlier : List GroupRow) → IsGroupAccount conditions.now frame.now.size earlier self.old
            → IsGroupAccount conditions.now frame.now.size (row_in frame.now.row ∷ earlier) self.new }
        ensures wants { self.new.wants.items ≡ wants_of conditions.now (row_in frame.now.row) }
        ensures stops { result ≡ stops_of (row_frame conditions.now (row_in frame.now.row)) }
    {
        let found = found_in(self.calm, conditions, &frame.row, &self.seen);
        let noting = Noting {
            conditions,
            pausing: &self.pausing,
            row: frame.row,
            size: frame.size,
            at: frame.at,
            paused: found.paused,
            steady: is_steady(self.kept, self.paused, found),
        };
        note_others(
            &noting,
            &mut self.seen,
            &mut self.wants,
            &mut self.conditions,
        );
        self.paused = found.paused;
        self.kept = true;
        self.frames += 1;
        stops_by(found.paused, found.resets)
    }

    // The same of any group, of which nothing is kept then.
    fn note_chained(&mut self, conditions: &[Condition], frame: &FrameRow<'_>) -> Stops
        requires ready { IsGroupReady conditions.now frame.now.at self.old }
        requires few { frame.now.at < 2 ^ 60 }
        requires row { IsRowOf (length conditions.now) (row_in frame.now.row) }

        ensures ready { IsGroupReady conditions.now (frame.now.at + 1) self.new }
        ensures noted { (earlier : List GroupRow) → IsGroupAccount conditions.now frame.now.size earlier self.old
            → IsGroupAccount conditions.now frame.now.size (row_in frame.now.row ∷ earlier) self.new }
        ensures wants { self.new.wants.items ≡ wants_of conditions.now (row_in frame.now.row) }
        ensures stops { result ≡ stops_of (row_frame conditions.now (row_in frame.now.row)) }
    {
        self.kept = false;
        self.frames += 1;
        let row = frame.row;
        let paused = stand_group(conditions, row.truths, row.hits, &mut self.room);
        let noting = Noting {
            conditions,
            pausing: &self.pausing,
            row,
            size: frame.size,
            at: frame.at,
            paused,
            steady: false,
        };
        let resets = note_group(&noting, &self.room, &mut self.wants, &mut self.conditions);
        stops_by(paused, resets)
    }
}

// What a standing is before any frame.
pub(crate) const NO_STANDING: Standing = Standing {
    met: false,
    reset: false,
    total: 0,
    valid: false,
};

// What is kept of a condition before any frame.
pub(crate) const NO_SIGHT: Sight = Sight {
    truth: false,
    left: 0,
    right: 0,
    hits: 0,
};

// This many accounts before the first frame.
fn new_accounts(alloc: Global, count: usize) -> Result<Vec<Running>, OutOfMemory>
    ensures many { IfOk result (λ accounts. length accounts.items ≡ count) }
    ensures begun { IfOk result (λ accounts. AreRunning (λ j. []) accounts.items) }
    ensures stand { IfOk result (λ accounts. AllRunAt 0 accounts.items) }
{
    let mut accounts = Vec::new(alloc);
    for _ in 0..count {
        accounts.push(Running::new(alloc)?)?;
    }
    Ok(accounts)
}
