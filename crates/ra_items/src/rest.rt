//! Which conditions of an item counted at its last step, and whether it rests: docs/INTERNALS.md, "Items at rest".

ghost use Rattle.std.specs.Prelude.{◌≡◌, ◌++◌, ◌<◌, true, length, option_map, IfOk, OnOk};
ghost use Rattle.ra_schedule.specs.Inputs.{TestsSeeSame, ValuesSeeSame};
ghost use Rattle.ra_schedule.specs.Signals.{KeepsAll};
ghost use Rattle.ra_schedule.specs.Waking.{IsMemberTold, IsTold};
ghost use Rattle.ra_condition.specs.Contents.{groups_of, trigger_contents, value_contents};
ghost use Rattle.ra_group.specs.declared.form.Form.TheVariants.{InTrigger};
ghost use Rattle.ra_set.specs.Contents.{item_contents};
ghost use Rattle.ra_leaderboard.specs.Contents.{board_contents};
ghost use Rattle.ra_member.specs.Members.{MemberContents};
ghost use Rattle.ra_member.specs.MemberRuns.{IsMember, kept_by};
ghost use Rattle.ra_member.specs.Runs.{IsTriggerRun};
ghost use Rattle.ra_schedule.specs.Counted.{CountsFit, free_in};
ghost use Rattle.ra_schedule.specs.Counts.{AreFor, IsFor, MayJudge, counts_of};
ghost use Rattle.ra_meaning.specs.Order.{board_member, progress_in};
ghost use Rattle.ra_items.specs.BoardRuns.{IsBoardRun, StepsBoard};
ghost use Rattle.ra_items.specs.ItemRuns.{IsItemRun, StepsItem, kept_run};
ghost use Rattle.ra_items.specs.Resting.{BoardRested, FitsRun, HasRoom, IsToldOf, JudgesBoard, JudgesTrigger, Rested, StaysItem, TriggerRested, board_owed, owed_run, seen_run, trigger_owed};
ghost use Rattle.ra_items.specs.Runs.{StepsAchievement};
ghost use Rattle.ra_items.specs.declared.item_run.ItemRun.TheVariants.{Achievement, Leaderboard};

use crate::achievement_run::AchievementRun;
use crate::board_run::{BoardRun, is_running};
use crate::item_run::ItemRun;
use crate::rooms::Rooms;
use ra_condition::{TriggerText, ValueText};
use ra_leaderboard::BoardText;
use ra_member::Member;
use ra_memref::Table;
use ra_schedule::{Counts, MemberCounts, Signals, note_trigger, note_value, pay, pay_member};
use ra_set::Item;
use ra_text::OutOfMemory;
use std::alloc::Global;

/// Which conditions of an item counted a hit at its last step.
#[derive(Drop)]
pub enum ItemCounts {
    Achievement(Counts),
    Leaderboard(Box<MemberCounts>),
}

impl ItemCounts {
    // Those of an item of which none counted. Memory is the only refusal.
    pub(crate) fn new(alloc: Global, item: &Item) -> Result<ItemCounts, OutOfMemory>
        ensures { IfOk result (HasRoom (item_contents item.now)) }
    {
        match item {
            Item::Achievement { text, .. } => {
                let counts = Counts::of_trigger(alloc, text)?;
                Ok(ItemCounts::Achievement(counts))
            }
            Item::Leaderboard { text, .. } => {
                let counts = Box::new(alloc, board_counts(alloc, text)?)?;
                Ok(ItemCounts::Leaderboard(counts))
            }
        }
    }
}

// Those of the conditions of a board, of which none counted. Memory is the only refusal.
fn board_counts(alloc: Global, text: &BoardText) -> Result<MemberCounts, OutOfMemory>
    ensures { IfOk result (AreFor (board_member (board_contents text.now))) }
{
    let mut counts = MemberCounts::new(alloc);
    counts.add_test(alloc, &text.start)?;
    counts.add_test(alloc, &text.cancel)?;
    counts.add_test(alloc, &text.submit)?;
    counts.add_value(alloc, &text.value)?;
    add_progress(alloc, &mut counts, &text.progress)?;
    Ok(counts)
}

// Adds those of the progress of a board, where it has one. Memory is the only refusal.
fn add_progress(
    alloc: Global,
    counts: &mut MemberCounts,
    text: &Option<ValueText>,
) -> Result<(), OutOfMemory>
    ensures { OnOk result ((m : MemberContents) → AreFor m counts.old
        → AreFor (record m { values = m.values ++ progress_in (option_map value_contents text.now) }) counts.new) }
{
    match text {
        Some(text) => {
            counts.add_value(alloc, text)?;
            Ok(())
        }
        None => Ok(()),
    }
}

// Pays what an item owes, where it rests.
pub(crate) fn pay_owed(run: &mut ItemRun, counts: &ItemCounts, owed: Option<u32>)
    requires { FitsRun counts.now run.old }
    ensures kept { kept_run run.new ≡ seen_run run.old counts.now owed }
    ensures run { StaysItem run.old run.new }
{
    if let Some(frames) = owed {
        pay_run(run, counts, frames);
    }
}

// Adds what an item owes for this many frames.
fn pay_run(run: &mut ItemRun, counts: &ItemCounts, frames: u32)
    requires { FitsRun counts.now run.old }
    ensures kept { kept_run run.new ≡ owed_run frames counts.now run.old }
    ensures run { StaysItem run.old run.new }
{
    match (run, counts) {
        (ItemRun::Achievement(run), ItemCounts::Achievement(counts)) => {
            pay_achievement(run, counts, frames);
        }
        (ItemRun::Leaderboard(run), ItemCounts::Leaderboard(counts)) => {
            pay_board(run, counts, frames);
        }
        _ => {}
    }
}

// Adds what an achievement owes for this many frames.
fn pay_achievement(run: &mut AchievementRun, counts: &Counts, frames: u32)
    requires { length counts.now.counted ≡ length run.old.run.trigger.hits }
    ensures kept { kept_run (Achievement run.new) ≡ trigger_owed frames counts.now run.old }
    ensures run { StaysItem (Achievement run.old) (Achievement run.new) }
{
    pay(run.run.trigger.hits_mut(), counts.counted(), frames);
}

// Adds what a board owes for this many frames.
fn pay_board(run: &mut BoardRun, counts: &MemberCounts, frames: u32)
    requires { CountsFit (counts_of counts.now) (kept_by run.old.member) }
    ensures kept { kept_run (Leaderboard run.new) ≡ board_owed frames counts.now run.old }
    ensures run { StaysItem (Leaderboard run.old) (Leaderboard run.new) }
{
    pay_member(&mut run.member, counts, frames);
}

// Steps an item by the frame of the table's last sample, notes which of its conditions counted, and says whether it rested.
pub(crate) fn step_rest(
    run: &mut ItemRun,
    counts: &mut ItemCounts,
    item: &Item,
    table: &Table,
    rooms: &mut Rooms,
) -> bool
    requires run { IsItemRun table.now.nodes (item_contents item.now) run.old }
    requires room { HasRoom (item_contents item.now) counts.old }
    requires sampled { table.now.sampled ≡ true }
    ensures run { IsItemRun table.now.nodes (item_contents item.now) run.new }
    ensures room { HasRoom (item_contents item.now) counts.new }
    ensures steps { StepsItem table.now (item_contents item.now) run.old run.new }
    ensures rests { result ≡ true → Rested (item_contents item.now) counts.new run.old run.new }
{
    match (run, counts, item) {
        (
            ItemRun::Achievement(run),
            ItemCounts::Achievement(counts),
            Item::Achievement { text, .. },
        ) => step_achievement(run, counts, text, table, rooms),
        (
            ItemRun::Leaderboard(run),
            ItemCounts::Leaderboard(counts),
            Item::Leaderboard { text, .. },
        ) => step_board(run, counts, text, table, rooms),
        _ => unreachable!(),
    }
}

// Steps an achievement, notes which of its conditions counted, and says whether it rested.
fn step_achievement(
    run: &mut AchievementRun,
    counts: &mut Counts,
    text: &TriggerText,
    table: &Table,
    rooms: &mut Rooms,
) -> bool
    requires run { IsTriggerRun table.now.nodes (trigger_contents text.now) run.old.run }
    requires room { IsFor (free_in InTrigger (groups_of (trigger_contents text.now))) counts.old }
    requires sampled { table.now.sampled ≡ true }
    ensures run { IsTriggerRun table.now.nodes (trigger_contents text.now) run.new.run }
    ensures room { IsFor (free_in InTrigger (groups_of (trigger_contents text.now))) counts.new }
    ensures steps { StepsAchievement table.now (trigger_contents text.now) run.old run.new }
    ensures rests { result ≡ true → TriggerRested (trigger_contents text.now) counts.new run.old run.new }
{
    let noted = rooms.note_trigger(run);
    run.step(text, table);
    noted && judge_trigger(counts, rooms, run)
}

// Notes which conditions of an achievement counted at its step, and says whether it rested.
fn judge_trigger(counts: &mut Counts, rooms: &Rooms, run: &AchievementRun) -> bool
    requires before { length rooms.now.hits.items ≡ length run.now.run.trigger.hits }
    requires free { length counts.old.free ≡ length run.now.run.trigger.hits }
    requires counted { length counts.old.counted ≡ length run.now.run.trigger.hits }
    ensures { JudgesTrigger counts.old counts.new rooms.now run.now result }
{
    let trigger = &run.run.trigger;
    let keeps = counts.judge(&rooms.hits, trigger.hits());
    keeps && trigger.state() == rooms.state && trigger.measured() == rooms.measured
}

// Steps a board, notes which of its conditions counted, and says whether it rested.
fn step_board(
    run: &mut BoardRun,
    counts: &mut MemberCounts,
    text: &BoardText,
    table: &Table,
    rooms: &mut Rooms,
) -> bool
    requires run { IsBoardRun table.now.nodes (board_contents text.now) run.old }
    requires room { AreFor (board_member (board_contents text.now)) counts.old }
    requires sampled { table.now.sampled ≡ true }
    ensures run { IsBoardRun table.now.nodes (board_contents text.now) run.new }
    ensures room { AreFor (board_member (board_contents text.now)) counts.new }
    ensures steps { StepsBoard table.now (board_contents text.now) run.old run.new }
    ensures rests { result ≡ true → BoardRested (board_contents text.now) counts.new run.old run.new }
{
    let noted = rooms.note_board(run);
    run.step(text, table);
    noted && judge_board(counts, rooms, run)
}

// Notes which conditions of a board counted at its step, and says whether it rested.
fn judge_board(counts: &mut MemberCounts, rooms: &Rooms, run: &BoardRun) -> bool
    requires { MayJudge counts.old rooms.now.member (kept_by run.now.member) }
    ensures { JudgesBoard counts.old counts.new rooms.now run.now result }
{
    let judged = counts.judge(&rooms.member, &run.member);
    let state = run.board.state();
    judged.tests && state == rooms.board && (judged.values || !is_running(state))
}

// Notes that a reader reads what an item needs. Memory is the only refusal.
pub(crate) fn note_item(
    signals: &mut Signals,
    item: &Item,
    run: &ItemRun,
    table: &Table,
    reader: u32,
) -> Result<(), OutOfMemory>
    requires run { IsItemRun table.now.nodes (item_contents item.now) run.now }
    requires nodes { length table.now.nodes ≡ signals.old.nodes }
    requires reader { reader < length signals.old.readers.due }
    ensures keeps { OnOk result (KeepsAll table.now.nodes signals.old signals.new) }
    ensures told { OnOk result (IsToldOf table.now.nodes signals.new.comparisons signals.new.readers (item_contents item.now) reader) }
{
    match (item, run) {
        (Item::Achievement { text, .. }, ItemRun::Achievement(run)) => {
            note_trigger(signals, text, &run.run.laid, table, reader)
        }
        (Item::Leaderboard { text, .. }, ItemRun::Leaderboard(run)) => {
            note_board(signals, text, &run.member, table, reader)
        }
        _ => unreachable!(),
    }
}

// Notes that a reader reads what a board needs. Memory is the only refusal.
fn note_board(
    signals: &mut Signals,
    text: &BoardText,
    member: &Member,
    table: &Table,
    reader: u32,
) -> Result<(), OutOfMemory>
    requires run { IsMember table.now.nodes (board_member (board_contents text.now)) member.now }
    requires nodes { length table.now.nodes ≡ signals.old.nodes }
    requires reader { reader < length signals.old.readers.due }
    ensures keeps { OnOk result (KeepsAll table.now.nodes signals.old signals.new) }
    ensures told { OnOk result (IsMemberTold table.now.nodes signals.new.comparisons signals.new.readers (board_member (board_contents text.now)) reader) }
{
    note_tests(signals, text, member, table, reader)?;
    note_value(signals, &text.value, &member.values[0], table, reader)?;
    note_progress(signals, text, member, table, reader)?;
    Ok(())
}

// Notes that a reader reads what the progress of a board needs, where it has one. Memory is the only refusal.
fn note_progress(
    signals: &mut Signals,
    text: &BoardText,
    member: &Member,
    table: &Table,
    reader: u32,
) -> Result<(), OutOfMemory>
    requires run { IsMember table.now.nodes (board_member (board_contents text.now)) member.now }
    requires nodes { length table.now.nodes ≡ signals.old.nodes }
    requires reader { reader < length signals.old.readers.due }
    ensures keeps { OnOk result (KeepsAll table.now.nodes signals.old signals.new) }
    ensures told { OnOk result (IsTold (λ now later. ValuesSeeSame now later (progress_in (board_contents text.now).progress))
        table.now.nodes signals.new.comparisons signals.new.readers reader) }
{
    match &text.progress {
        Some(progress) => note_value(signals, progress, &member.values[1], table, reader),
        None => Ok(()),
    }
}

// Notes that a reader reads what the tests of a board need. Memory is the only refusal.
fn note_tests(
    signals: &mut Signals,
    text: &BoardText,
    member: &Member,
    table: &Table,
    reader: u32,
) -> Result<(), OutOfMemory>
    requires run { IsMember table.now.nodes (board_member (board_contents text.now)) member.now }
    requires nodes { length table.now.nodes ≡ signals.old.nodes }
    requires reader { reader < length signals.old.readers.due }
    ensures keeps { OnOk result (KeepsAll table.now.nodes signals.old signals.new) }
    ensures told { OnOk result (IsTold (λ now later. TestsSeeSame now later (board_member (board_contents text.now)).tests)
        table.now.nodes signals.new.comparisons signals.new.readers reader) }
{
    note_trigger(signals, &text.start, &member.tests[0].laid, table, reader)?;
    note_trigger(signals, &text.cancel, &member.tests[1].laid, table, reader)?;
    note_trigger(signals, &text.submit, &member.tests[2].laid, table, reader)?;
    Ok(())
}
