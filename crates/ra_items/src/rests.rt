//! All items of a set, of which those that rest are not stepped: docs/INTERNALS.md, "Items at rest".

ghost use Rattle.std.specs.Prelude.{◌≡◌, ◌≤◌, ◌<◌, ◌^◌, ℕ, true, List, take, length, map, slice_index_or, IfOk};
ghost use Rattle.ra_indirect.specs.declared.node.Node.{Node};
ghost use Rattle.ra_set.specs.Contents.{ItemContents, item_contents};
ghost use Rattle.ra_schedule.specs.Signals.{AreSignals};
ghost use Rattle.ra_items.specs.declared.item_run.ItemRun.{ItemRun};
ghost use Rattle.ra_items.specs.AllRuns.{AreItemRuns};
ghost use Rattle.ra_items.specs.ItemRuns.{kept_run};
ghost use Rattle.ra_items.specs.Rests.{HaveRooms, AreItemsTold, AreRests, HasPlace, IsSomeFrame, IsSteppedAt, StepsItems, WereRests, seen_by};

use crate::item_run::ItemRun;
use crate::rest::{ItemCounts, note_item, pay_owed, step_rest};
use crate::rooms::Rooms;
use crate::told::may_tell;
use ra_memref::Table;
use ra_schedule::{Schedule, Signals};
use ra_set::Item;
use ra_text::OutOfMemory;
use std::alloc::Global;

/// Which conditions of each item counted at its last step, who is due, and who was stepped at the last frame.
#[derive(Drop)]
pub struct Rests {
    pub each: Vec<ItemCounts>,
    pub schedule: Schedule,
    /// The places of the items that were stepped at the last frame and may tell something, in order, as many as are
    /// counted.
    pub stepped: Vec<u32>,
    pub count: usize,
    /// What the item that is stepped kept before its step.
    pub rooms: Rooms,
}

impl Rests {
    /// No item rests, and each is due. Memory is the only refusal.
    pub fn new(
        alloc: Global,
        runs: &[ItemRun],
        items: &[Item],
        table: &Table,
        nodes: usize,
    ) -> Result<Rests, OutOfMemory>
        requires runs { AreItemRuns table.now.nodes (map item_contents items.now) runs.now }
        requires nodes { length table.now.nodes ≡ nodes }
        requires few_nodes { nodes ≤ 2 ^ 30 }
        requires few { length items.now < 2 ^ 32 }
        ensures rests { IfOk result (λ rests. (values : List ℕ) → AreRests table.now.nodes values (map item_contents items.now) runs.now rests) }
        ensures kept { IfOk result (λ rests. seen_by runs.now rests ≡ map kept_run runs.now) }
    {
        let signals = signals_of(alloc, runs, items, table, nodes)?;
        let schedule = Schedule::new(alloc, signals, items.len())?;
        let each = counts_of(alloc, items)?;
        let rooms = Rooms::new(alloc, runs)?;
        let stepped = vec![in alloc; 0; items.len()]?;
        Ok(Rests {
            each,
            schedule,
            stepped,
            count: 0,
            rooms,
        })
    }

    /// Steps each item that is due or reads what changed, by the frame of the table's last sample.
    pub fn step(&mut self, runs: &mut [ItemRun], items: &[Item], table: &Table)
        requires runs { AreItemRuns table.now.nodes (map item_contents items.now) runs.old }
        requires rests { WereRests table.now (map item_contents items.now) runs.old self.old }
        requires frame { IsSomeFrame table.now }
        requires sampled { table.now.sampled ≡ true }
        requires few { length items.now < 2 ^ 32 }
        ensures { StepsItems table.now (map item_contents items.now) runs.old runs.new self.old self.new }
    {
        let crowded = self.schedule.begin(table);
        self.rooms.close(crowded);
        self.count = 0;
        let mut at = 0;
        while let Some(place) = self.schedule.next_due(at) {
            self.step_at(runs, items, table, place);
            at = place + 1;
        }
        self.schedule.end();
    }

    /// The places of the items that were stepped at the last frame and may tell something, in order.
    pub fn stepped(&self) -> &[u32]
        requires { self.now.count ≤ length self.now.stepped.items }
        ensures { result.now ≡ take self.now.count self.now.stepped.items }
    {
        &self.stepped[..self.count]
    }

    // Steps the item at a place, which rests from the next count of frames on where it is seen to have rested at this one.
    fn step_at(&mut self, runs: &mut [ItemRun], items: &[Item], table: &Table, place: usize)
        requires here { place < length items.now }
        requires due { slice_index_or self.old.schedule.readers.due place true ≡ true }
        requires runs { AreItemRuns table.now.nodes (map item_contents items.now) runs.old }
        requires place { HasPlace (map item_contents items.now) self.old place }
        requires sampled { table.now.sampled ≡ true }
        requires few { length items.now < 2 ^ 32 }
        ensures { IsSteppedAt table.now (map item_contents items.now) place runs.old runs.new self.old self.new }
    {
        let owed = self.schedule.owed(place);
        let run = &mut runs[place];
        let counts = &mut self.each[place];
        pay_owed(run, counts, owed);
        let rests = step_rest(run, counts, &items[place], table, &mut self.rooms);
        self.stepped[self.count] = place as u32;
        self.count += usize::from(may_tell(run));
        self.schedule.note(place, rests);
    }

    /// No item rests any longer, and each is due. What they owe is given up.
    pub fn forget(&mut self)
        ensures each { (nodes : List Node) (values : List ℕ) (items : List ItemContents) (before runs : List ItemRun)
            → AreRests nodes values items before self.old → AreRests nodes values items runs self.new }
        ensures kept { (runs : List ItemRun) → length runs ≡ length self.old.each.items → seen_by runs self.new ≡ map kept_run runs }
    {
        self.schedule.forget();
    }
}

// What each of the items reads, and all are due. Memory is the only refusal.
fn signals_of(
    alloc: Global,
    runs: &[ItemRun],
    items: &[Item],
    table: &Table,
    nodes: usize,
) -> Result<Signals, OutOfMemory>
    requires runs { AreItemRuns table.now.nodes (map item_contents items.now) runs.now }
    requires nodes { length table.now.nodes ≡ nodes }
    requires few_nodes { nodes ≤ 2 ^ 30 }
    requires few { length items.now < 2 ^ 32 }
    ensures { IfOk result (λ signals. AreSignals table.now.nodes
        (AreItemsTold table.now.nodes (map item_contents items.now)) (length items.now) signals (length items.now)) }
{
    let mut signals = Signals::new(alloc, nodes as u32, items.len())?;
    for (place, item) in items.iter().enumerate() {
        note_item(&mut signals, item, &runs[place], table, place as u32)?;
    }
    Ok(signals)
}

// A bit for each condition of each item, of which none counted. Memory is the only refusal.
fn counts_of(alloc: Global, items: &[Item]) -> Result<Vec<ItemCounts>, OutOfMemory>
    ensures { IfOk result (λ counts. HaveRooms (map item_contents items.now) counts.items) }
{
    let mut counts = Vec::new(alloc);
    for item in items {
        let own = ItemCounts::new(alloc, item)?;
        counts.push(own)?;
    }
    Ok(counts)
}
