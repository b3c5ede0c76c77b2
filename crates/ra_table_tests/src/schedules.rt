//! Frames of a schedule over a table, by hand: which places are due, and what each of them owes.

ghost use Rattle.std.specs.Prelude.{◌≡◌, ◌<◌, ◌^◌, length, IfOk};
ghost use Rattle.ra_schedule.specs.Schedules.{ScheduleSeen};
ghost use Rattle.ra_truths.specs.Comparisons.{AreOver};

use crate::pools::pool_of;
use crate::truths::{cell, is_over, view};
use ra_indirect::{Node, Pool};
use ra_memory::{Counted, Memory, Steps};
use ra_memref::Table;
use ra_operand::Op;
use ra_schedule::{Schedule, Signals};
use ra_truths::Comparison;
use std::alloc::Global;
use std::marker::{Brand, Model};
use std::sync::ledger::{Blank, Ledger};
use std::test::Fail;

// A table with the memory that it samples, and a schedule of three places over it. It is seen as the schedule.
#[derive(Drop)]
struct Watch {
    table: Table,
    memory: Memory,
    schedule: Schedule,
}

impl Model for Watch {
    ghost use Rattle.std.specs.Prelude.{◌≡◌, length};
    ghost use Rattle.ra_memref.specs.Table.{Agrees};
    ghost use Rattle.ra_schedule.specs.Schedules.{IsHeard, ScheduleSeen};

    ghost Value = { ScheduleSeen };

    ghost view = { λ w. w.schedule };

    ghost invariant = { λ w. record {
      size : w.table.size ≡ length w.memory;
      agrees : Agrees w.table w.memory;
      heard : IsHeard w.table.nodes w.table.values w.schedule;
      due : length w.schedule.readers.due ≡ 3;
    } };
}

impl Watch {
    // A memory of 64 zeros.
    fn new(alloc: Global, pool: Pool) -> Result<Watch, Fail>
        requires { length pool < 2 ^ 30 }
    {
        let signals = signals_over(alloc, &pool)?;
        let schedule = Schedule::new(alloc, signals, 3)?;
        let memory = Memory::new(alloc, 64)?;
        let table = Table::new(alloc, pool, 64)?;
        Ok(Watch {
            table,
            memory,
            schedule,
        })
    }

    // Writes a byte, and tells the table; what does not fit is left out.
    fn write(&mut self, at: u32, byte: u8) {
        let _size = self.memory.size();
        if let Ok(()) = self.memory.write(at, &[byte]) {
            self.table.write(at, 1);
        }
    }

    // Which places are due at a frame. Each of them rests after it.
    fn frame<L: Ledger>(&mut self, blank: Blank) -> [bool; 3]
        requires name { blank.name ≡ L.name }
        requires parts { blank.parts ≡ L.parts }
        requires held { 0 < blank.parts }
    {
        let mut steps = Steps::<L>::open(blank);
        let mut image = Counted {
            memory: &self.memory,
            steps: &mut steps,
        };
        self.table.sample(&mut image);
        self.schedule.begin(&self.table);
        let first = step(&mut self.schedule, 0);
        let second = step(&mut self.schedule, 1);
        let third = step(&mut self.schedule, 2);
        self.schedule.end();
        [first, second, third]
    }

    // How many frames each place owes.
    fn owed(&self) -> [Option<u32>; 3] {
        [
            self.schedule.owed(0),
            self.schedule.owed(1),
            self.schedule.owed(2),
        ]
    }
}

// Whether a place is due. Then it is stepped, and rests.
fn step(schedule: &mut Schedule, place: usize) -> bool
    requires here { place < length schedule.old.readers.due }
    ensures truths { schedule.new.truths ≡ schedule.old.truths }
    ensures due { length schedule.new.readers.due ≡ length schedule.old.readers.due }
{
    match schedule.next_due(place) {
        Some(due) => {
            if due == place {
                schedule.note(due, true);
                return true;
            }
            false
        }
        None => false,
    }
}

// A byte is five, which the first and the last of three places read, and another is below five, which the last one reads. The
// second place reads the number of that byte.
const FIVE: Comparison = Comparison {
    op: Op::Eq,
    left: 2,
    right: 3,
};

const BELOW: Comparison = Comparison {
    op: Op::Lt,
    left: 5,
    right: 3,
};

fn signals_over(alloc: Global, pool: &Pool) -> Result<Signals, Fail>
    requires { length pool.now < 2 ^ 30 }
    ensures nodes { IfOk result (λ signals. signals.nodes ≡ length pool.now) }
    ensures over { IfOk result (λ signals. AreOver pool.now signals.comparisons) }
    ensures due { IfOk result (λ signals. length signals.readers.due ≡ 3) }
{
    if !is_over(pool, FIVE) || !is_over(pool, BELOW) {
        return Err(Fail::from("no comparisons"));
    }
    let mut signals = Signals::new(alloc, pool.len(), 3)?;
    signals.note_comparison(FIVE, 0)?;
    signals.note_comparison(FIVE, 2)?;
    signals.note_comparison(BELOW, 2)?;
    signals.note_node(BELOW.left, 1)?;
    Ok(signals)
}

// The bytes that are written before a frame, who is due at it, and what is owed after it.
type Row = (&'static [(u32, u8)], [bool; 3], [Option<u32>; 3]);

const FRAMES: &[Row] = &[
    (&[], [true, true, true], [Some(0), Some(0), Some(0)]),
    (&[], [false, false, false], [Some(1), Some(1), Some(1)]),
    // a number changes, and the comparison of it comes out as before
    (
        &[(0x20, 1)],
        [false, true, false],
        [Some(2), Some(0), Some(2)],
    ),
    // a comparison flips, of a number that nobody reads
    (
        &[(0x10, 5)],
        [true, false, true],
        [Some(0), Some(1), Some(0)],
    ),
    (
        &[(0x10, 6)],
        [true, false, true],
        [Some(0), Some(2), Some(0)],
    ),
    // a change that flips nothing
    (
        &[(0x10, 7)],
        [false, false, false],
        [Some(1), Some(3), Some(1)],
    ),
    // more than a quarter of the signals change
    (
        &[(0x10, 5), (0x20, 6)],
        [true, true, true],
        [Some(0), Some(0), Some(0)],
    ),
];

// The place of the first frame at which others are due, or after which others are owed.
fn other_frame(watch: &mut Watch) -> Option<usize> {
    for (place, (writes, due, owed)) in FRAMES.iter().enumerate() {
        for (at, byte) in *writes {
            watch.write(*at, *byte);
        }
        let found = watch.frame::<Brand>(Blank::new(1));
        if found != *due || watch.owed() != *owed {
            return Some(place);
        }
    }
    None
}

#[test]
fn changed_signals_wake_their_places_alone(rt: HostRuntime) -> Result<(), Fail> {
    let nodes = [
        Node::Const(0),
        cell(0x10),
        view(1),
        Node::Const(5),
        cell(0x20),
        view(4),
        Node::Const(6),
        Node::Const(7),
        Node::Const(8),
        Node::Const(9),
        Node::Const(10),
        Node::Const(11),
        Node::Const(12),
        Node::Const(13),
    ];
    let pool = pool_of(rt.alloc(), &nodes)?;
    let mut watch = Watch::new(rt.alloc(), pool)?;
    assert_eq!(rt; other_frame(&mut watch), None);
    Ok(())
}
