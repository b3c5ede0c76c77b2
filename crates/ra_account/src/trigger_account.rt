ghost use Rattle.std.specs.Prelude.{◌≡◌, ℕ, ◌+◌, ◌<◌, ◌≤◌, ◌^◌, ◌&&◌, ◌||◌, not, ◌∷◌, [], length, map, sum_by, List, IfOk};
ghost use Rattle.ra_condition.specs.Contents.{TriggerContents, group_contents, trigger_contents, trigger_hits};
ghost use Rattle.ra_account.specs.Groups.{AllFit, AllGroupsStandAt, AreGroupAccounts, IsRowOf, row_in};
ghost use Rattle.ra_account.specs.Triggers.{TriggerRow, IsReady, IsTriggerAccount, row_with};

use crate::copying::copy_trigger;
use crate::frame_row::FrameRow;
use crate::group_account::GroupAccount;
use crate::groups::note_groups;
use crate::moment::Moment;
use crate::nearest::Nearest;
use crate::row::Row;
use crate::stops::Stops;
use crate::times::Times;
use ra_condition::{Group, TriggerText};
use ra_text::OutOfMemory;
use std::alloc::Global;

/// The account of a trigger: what each of its conditions did over the frames so far, and how often it reset, was
/// paused and waited. docs/DEFINITIONS.md, "Account of an achievement".
#[derive(Drop)]
pub struct TriggerAccount {
    /// The core group's conditions.
    pub core: GroupAccount,
    /// Those of each alt group.
    pub alts: Vec<GroupAccount>,
    /// The frames at which the trigger resets.
    pub resets: Times,
    /// The frames at which it is paused.
    pub paused: Times,
    /// The frames at which it was waiting and is valid.
    pub waited: Times,
    /// The frame at which the fewest conditions were missing.
    pub nearest: Nearest,
    /// How many frames were noted.
    pub frames: u64,
}

impl TriggerAccount {
    /// Before the first frame. At most 65,536 conditions.
    pub fn new(alloc: Global, text: &TriggerText) -> Result<TriggerAccount, OutOfMemory>
        requires few { trigger_hits (trigger_contents text.now) ≤ 65536 }
        ensures ready { IfOk result (IsReady (trigger_contents text.now)) }
        ensures none { IfOk result (λ made. made.frames ≡ 0) }
        ensures begun { (size : ℕ) → IfOk result (IsTriggerAccount (trigger_contents text.now) size []) }
    {
        let core = GroupAccount::new(alloc, &text.core)?;
        let alts = new_groups(alloc, &text.alts)?;
        let nearest = Nearest::new(alloc, count_of(text))?;
        Ok(TriggerAccount {
            core,
            alts,
            resets: Times::new(),
            paused: Times::new(),
            waited: Times::new(),
            nearest,
            frames: 0,
        })
    }

    /// Notes one frame more over a memory of `size` bytes, at which the trigger `waited` and is valid, or not.
    ///
    /// The row has an entry for each condition, core first.
    pub fn note(&mut self, text: &TriggerText, size: u32, waited: bool, row: &Row<'_>)
        requires ready { IsReady (trigger_contents text.now) self.old }
        requires few { self.old.frames < 2 ^ 60 }
        requires row { IsRowOf (trigger_hits (trigger_contents text.now)) (row_in row.now) }

        ensures ready { IsReady (trigger_contents text.now) self.new }
        ensures counted { self.new.frames ≡ self.old.frames + 1 }
        ensures noted { (earlier : List TriggerRow) → IsTriggerAccount (trigger_contents text.now) size earlier self.old
            → IsTriggerAccount (trigger_contents text.now) size
            (row_with (trigger_contents text.now) waited (row_in row.now) ∷ earlier) self.new }
    {
        let at = self.frames;
        let count = text.core.conditions.len();
        let own = FrameRow {
            at,
            size,
            row: row.part(0, count),
        };
        let all = FrameRow {
            at,
            size,
            row: *row,
        };
        let core = self.core.note(&text.core, &own);
        let alts = note_groups(&mut self.alts, &text.alts, count, &all);
        let now = moment_of(core, alts, !text.alts.is_empty(), waited);
        self.resets.note(at, now.reset);
        self.paused.note(at, now.paused);
        self.waited.note(at, now.waited);
        self.nearest.note(at, now.reset, &self.core, &self.alts);
        self.frames += 1;
    }

    /// A copy, as a save slot keeps one: it is an account of the same frames.
    pub fn copy(&self, alloc: Global) -> Result<TriggerAccount, OutOfMemory>
        ensures frames { IfOk result (λ copy. copy.frames ≡ self.now.frames) }
        ensures ready { (t : TriggerContents) → IsReady t self.now → IfOk result (IsReady t) }
        ensures same { (t : TriggerContents) (size : ℕ) (frames : List TriggerRow)
            → IsTriggerAccount t size frames self.now → IfOk result (IsTriggerAccount t size frames) }
    {
        copy_trigger(alloc, self)
    }
}

// What a trigger as a whole is, by what stops its core, what stops its alts together, and whether there are alts.
fn moment_of(core: Stops, alts: Stops, some: bool, waited: bool) -> Moment
    ensures { result ≡ record {
      reset = core.reset || alts.reset;
      paused = core.paused || (some && alts.paused);
      waited = waited;
    } }
{
    Moment {
        reset: core.reset || alts.reset,
        paused: core.paused || some && alts.paused,
        waited,
    }
}

// How many conditions a trigger has.
fn count_of(text: &TriggerText) -> usize
    requires { trigger_hits (trigger_contents text.now) ≤ 65536 }
    ensures { result ≡ trigger_hits (trigger_contents text.now) }
{
    let mut count = text.core.conditions.len();
    for alt in &text.alts {
        count += alt.conditions.len();
    }
    count
}

// The accounts of some groups before the first frame.
fn new_groups(alloc: Global, groups: &[Group]) -> Result<Vec<GroupAccount>, OutOfMemory>
    requires few { sum_by length (map group_contents groups.now) ≤ 65536 }
    ensures many { IfOk result (λ accounts. length accounts.items ≡ length groups.now) }
    ensures fit { IfOk result (λ accounts. AllFit (map group_contents groups.now) accounts.items) }
    ensures stand { IfOk result (λ accounts. AllGroupsStandAt 0 accounts.items) }
    ensures begun { (from size : ℕ) → IfOk result
        (λ accounts. AreGroupAccounts (map group_contents groups.now) from size [] accounts.items) }
{
    let mut accounts = Vec::new(alloc);
    for group in groups {
        accounts.push(GroupAccount::new(alloc, group)?)?;
    }
    Ok(accounts)
}
