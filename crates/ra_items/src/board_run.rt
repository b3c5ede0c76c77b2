ghost use Rattle.std.specs.Prelude.{◌≡◌, ◌+◌, ◌*◌, ◌≤◌, ◌^◌, ◌++◌, [], true, List, length, map, option_map, IfOk, IfSome};
ghost use Rattle.std.specs.Result.{OnOk};
ghost use Rattle.ra_condition.specs.Contents.{value_contents};
ghost use Rattle.ra_condition.specs.Spelled.{IsValue};
ghost use Rattle.ra_indirect.specs.declared.node.Node.{Node};
ghost use Rattle.ra_leaderboard.specs.Contents.{board_contents};
ghost use Rattle.ra_leaderboard.specs.Spelled.{IsBoard};
ghost use Rattle.ra_leaderboard.specs.States as states;
ghost use Rattle.ra_set.specs.Limits.{optional_value};
ghost use Rattle.ra_member.specs.Members.{MemberContents, member_conditions};
ghost use Rattle.ra_member.specs.MemberRuns.{IsMember, IsNewMember, StepsValues};
ghost use Rattle.ra_meaning.specs.Boards as boards;
ghost use Rattle.ra_meaning.specs.Order.{board_member, progress_in};
ghost use Rattle.ra_items.specs.BoardRuns.{FollowsValues, IsBoardRun, IsNewBoard, StepsBoard, board_kept};

use ra_condition::ValueText;
use ra_indirect::Pool;
use ra_leaderboard::{Board, BoardChange, BoardState, BoardText};
use ra_member::{Member, ValueRun};
use ra_memref::Table;
use ra_text::OutOfMemory;
use std::alloc::Global;

/// A leaderboard: what is kept of it, its plans, and what its last frame did.
#[derive(Drop)]
pub struct BoardRun {
    /// Start, cancel and submit, and the value with the progress after it where there is one.
    pub member: Member,
    pub board: Board,
    pub change: BoardChange,
    /// The tracked number before the last frame.
    pub tracked_before: i32,
}

impl BoardRun {
    // A board that waits, with its trees in the pool.
    pub(crate) fn new(alloc: Global, text: &BoardText, pool: &mut Pool) -> Result<Self, OutOfMemory>
        requires spelled { IsBoard (board_contents text.now) }
        requires room { length pool.old + 13 * member_conditions (board_member (board_contents text.now)) + 2 ≤ 2 ^ 31 }
        ensures { IfOk result (IsNewBoard pool.old pool.new (board_contents text.now)) }
    {
        let mut member = tested(alloc, text, pool)?;
        member.add_value(alloc, &text.value, pool)?;
        put_progress(alloc, &mut member, &text.progress, pool)?;
        Ok(BoardRun {
            member,
            board: Board::new(),
            change: BoardChange {
                before: BoardState::Waiting,
                after: BoardState::Waiting,
            },
            tracked_before: 0,
        })
    }

    // Steps the board by the frame of the table's last sample.
    pub(crate) fn step(&mut self, text: &BoardText, table: &Table)
        requires run { IsBoardRun table.now.nodes (board_contents text.now) self.old }
        requires sampled { table.now.sampled ≡ true }
        ensures run { IsBoardRun table.now.nodes (board_contents text.now) self.new }
        ensures steps { StepsBoard table.now (board_contents text.now) self.old self.new }
    {
        self.tracked_before = self.tracked();
        let start = self.member.step_test(0, &text.start, table);
        let cancel = self.member.step_test(1, &text.cancel, table);
        let submit = self.member.step_test(2, &text.submit, table);
        self.change = self.board.step(start, cancel, submit);
        follow(&mut self.member, text, table, self.change);
    }

    // The number of the value.
    pub(crate) fn value(&self) -> i32
        ensures { result ≡ boards.value_number (board_kept self.now) }
    {
        number_at(&self.member.values, 0)
    }

    // The tracked number: that of the progress where there is one, else that of the value.
    pub(crate) fn tracked(&self) -> i32
        ensures { result ≡ boards.tracked_number (board_kept self.now) }
    {
        let last = self.member.values.len().saturating_sub(1);
        number_at(&self.member.values, last)
    }
}

// The number of the value at a place, and 0 where there is none.
fn number_at(values: &[ValueRun], place: usize) -> i32
    ensures { result ≡ boards.number_at (map (λ v. v.value) values.now) place }
{
    if place < values.len() {
        values[place].value.greatest()
    } else {
        0
    }
}

// A member of the triggers of a board, without values.
fn tested(alloc: Global, text: &BoardText, pool: &mut Pool) -> Result<Member, OutOfMemory>
    requires spelled { IsBoard (board_contents text.now) }
    requires room { length pool.old + 13 * member_conditions (board_member (board_contents text.now)) + 2 ≤ 2 ^ 31 }
    ensures { IfOk result (IsNewMember pool.old pool.new
        (record { tests = (board_member (board_contents text.now)).tests; values = [] })) }
{
    // This call tells that the nodes are those of a pool, which the proof needs.
    let _ = pool.len();
    let mut member = Member::new(alloc);
    member.add_test(alloc, &text.start, pool)?;
    member.add_test(alloc, &text.cancel, pool)?;
    member.add_test(alloc, &text.submit, pool)?;
    Ok(member)
}

// Puts the progress of a board after its value, where it has one.
fn put_progress(
    alloc: Global,
    member: &mut Member,
    text: &Option<ValueText>,
    pool: &mut Pool,
) -> Result<(), OutOfMemory>
    requires spelled { IfSome (option_map value_contents text.now) IsValue }
    requires room { length pool.old + 13 * optional_value (option_map value_contents text.now) + 2 ≤ 2 ^ 31 }
    ensures { OnOk result ((before : List Node) (m : MemberContents) → IsNewMember before pool.old m member.old
        → IsNewMember before pool.new (record m {
          values = m.values ++ progress_in (option_map value_contents text.now);
        }) member.new) }
{
    match text {
        Some(text) => {
            member.add_value(alloc, text, pool)?;
            Ok(())
        }
        None => Ok(()),
    }
}

// Steps the values of a board: they begin anew where its state leaves active, and stay where none runs.
fn follow(member: &mut Member, text: &BoardText, table: &Table, change: BoardChange)
    requires run { IsMember table.now.nodes (board_member (board_contents text.now)) member.old }
    requires sampled { table.now.sampled ≡ true }
    ensures run { IsMember table.now.nodes (board_member (board_contents text.now)) member.new }
    ensures follows { FollowsValues table.now (board_member (board_contents text.now)).values
        change.before change.after member.old member.new }
{
    if !is_running(change.after) {
        return;
    }
    if begins(change) {
        member.reset_values();
    }
    step_values(member, text, table);
}

// An attempt runs, or was just submitted.
pub(crate) fn is_running(state: BoardState) -> bool
    ensures { result ≡ states.is_running state }
{
    matches!(state, BoardState::Started | BoardState::Submitted)
}

// The state leaves active for one that runs.
fn begins(change: BoardChange) -> bool
    ensures { result ≡ states.begins change.before change.after }
{
    matches!(change.before, BoardState::Active) && is_running(change.after)
}

// Steps the value of a board, and its progress where it has one.
fn step_values(member: &mut Member, text: &BoardText, table: &Table)
    requires run { IsMember table.now.nodes (board_member (board_contents text.now)) member.old }
    requires sampled { table.now.sampled ≡ true }
    ensures { StepsValues table.now (board_member (board_contents text.now)).values member.old member.new }
{
    member.step_value(0, &text.value, table);
    if let Some(progress) = &text.progress {
        member.step_value(1, progress, table);
    }
}
