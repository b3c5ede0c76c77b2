//! Truths of comparisons over frames, by hand: docs/INTERNALS.md, "Truths of comparisons".

ghost use Rattle.std.specs.Prelude.{◌≡◌, ◌<◌, ◌^◌, false, length, true, IfOk, IsTrue};
ghost use Rattle.ra_operand.specs.Operators.{is_arithmetic};
ghost use Rattle.ra_truths.specs.Comparisons.{AreOver, IsOver};

use crate::pools::{is_valued, pool_of};
use ra_indirect::{Node, Pool};
use ra_memory::{Counted, Memory, Steps};
use ra_memref::Table;
use ra_operand::{Kind, Op, Size};
use ra_text::OutOfMemory;
use ra_truths::{Comparison, Comparisons, Truths};
use std::alloc::Global;
use std::marker::{Brand, Model};
use std::sync::ledger::{Blank, Ledger};
use std::test::Fail;

// A table with the memory that it samples, and the truths of comparisons over its nodes. It is seen as these.
#[derive(Drop)]
struct Judge {
    table: Table,
    memory: Memory,
    truths: Truths,
}

impl Model for Judge {
    ghost use Rattle.std.specs.Prelude.{◌≡◌, length, true};
    ghost use Rattle.ra_memref.specs.Table.{Agrees};
    ghost use Rattle.ra_truths.specs.Comparisons.{AreOver, truths_by};
    ghost use Rattle.ra_truths.specs.Truths.{TruthsSeen};

    ghost Value = { TruthsSeen };

    ghost view = { λ j. j.truths };

    ghost invariant = { λ j. record {
      size : j.table.size ≡ length j.memory;
      agrees : Agrees j.table j.memory;
      nodes : length j.table.nodes ≡ j.truths.nodes;
      over : AreOver j.table.nodes j.truths.comparisons;
      told : j.truths.known ≡ true → j.truths.truths ≡ truths_by j.table.values j.truths.comparisons;
    } };
}

impl Judge {
    // A memory of 64 zeros.
    fn new(alloc: Global, pool: Pool, comparisons: Comparisons) -> Result<Judge, OutOfMemory>
        requires few { length pool < 2 ^ 30 }
        requires over { AreOver pool comparisons }
    {
        let memory = Memory::new(alloc, 64)?;
        let truths = Truths::of(alloc, comparisons, pool.len())?;
        let table = Table::new(alloc, pool, 64)?;
        Ok(Judge {
            table,
            memory,
            truths,
        })
    }

    // Writes a byte, and tells the table; what does not fit is left out.
    fn write(&mut self, at: u32, byte: u8) {
        let _size = self.memory.size();
        if let Ok(()) = self.memory.write(at, &[byte]) {
            self.table.write(at, 1);
        }
    }

    fn frame<L: Ledger>(&mut self, blank: Blank)
        requires name { blank.name ≡ L.name }
        requires parts { blank.parts ≡ L.parts }
        requires held { 0 < blank.parts }
        ensures { self.new.known ≡ true }
    {
        let mut steps = Steps::<L>::open(blank);
        let mut image = Counted {
            memory: &self.memory,
            steps: &mut steps,
        };
        self.table.sample(&mut image);
        self.truths.take(&self.table);
    }

    // Whether these are the truths, and these flipped.
    fn shows(&self, truths: &[bool], flipped: &[u32]) -> bool
        requires { self.now.known ≡ true }
    {
        self.truths.len() as usize == truths.len()
            && has(&self.truths, truths)
            && self.truths.flipped() == flipped
    }
}

fn has(found: &Truths, truths: &[bool]) -> bool
    requires long { length truths.now ≡ length found.now.comparisons }
    requires known { found.now.known ≡ true }
{
    for number in 0..found.len() {
        if found.truth(number) != truths[number as usize] {
            return false;
        }
    }
    true
}

fn compares(op: Op) -> bool
    ensures { IsTrue result → is_arithmetic op ≡ false }
{
    match op {
        Op::Bare | Op::Eq | Op::Ne | Op::Lt | Op::Le | Op::Gt | Op::Ge => true,
        _ => false,
    }
}

pub(crate) fn is_over(pool: &Pool, comparison: Comparison) -> bool
    ensures { IsTrue result → IsOver pool.now comparison }
{
    compares(comparison.op) && is_valued(pool, comparison.left) && is_valued(pool, comparison.right)
}

fn comparisons_over(alloc: Global, pool: &Pool, comparisons: &[Sides]) -> Result<Comparisons, Fail>
    ensures { IfOk result (AreOver pool.now) }
{
    let mut set = Comparisons::new(alloc);
    for sides in comparisons {
        let comparison = comparison(*sides);
        if set.len() > 99_999 || !is_over(pool, comparison) {
            return Err(Fail::from("no comparisons"));
        }
        set.intern(comparison)?;
    }
    Ok(set)
}

fn judge_of(alloc: Global, nodes: &[Node], comparisons: &[Sides]) -> Result<Judge, Fail> {
    let pool = pool_of(alloc, nodes)?;
    let comparisons = comparisons_over(alloc, &pool, comparisons)?;
    let judge = Judge::new(alloc, pool, comparisons)?;
    Ok(judge)
}

// The bytes that are written before a frame, the truths after it, and those that flipped.
type Row = (&'static [(u32, u8)], &'static [bool], &'static [u32]);

// The place of the first frame with other truths, or where others flipped.
fn other_frame(judge: &mut Judge, rows: &[Row]) -> Option<usize> {
    for (place, (writes, truths, flipped)) in rows.iter().enumerate() {
        for (at, byte) in *writes {
            judge.write(*at, *byte);
        }
        judge.frame::<Brand>(Blank::new(1));
        if !judge.shows(truths, flipped) {
            return Some(place);
        }
    }
    None
}

// An operator, the left and the right node.
type Sides = (Op, u32, u32);

fn comparison(sides: Sides) -> Comparison
    ensures { result ≡ record { op = sides.0; left = sides.1; right = sides.2 } }
{
    let (op, left, right) = sides;
    Comparison { op, left, right }
}

// A byte and five, a byte and another, a byte and itself, the other and five.
const COMPARISONS: &[Sides] = &[
    (Op::Eq, 2, 3),
    (Op::Lt, 2, 5),
    (Op::Eq, 2, 2),
    (Op::Ne, 5, 3),
];

const FRAMES: &[Row] = &[
    // at the first frame all are computed, and those that hold are listed
    (&[], &[false, false, true, true], &[2, 3]),
    (&[], &[false, false, true, true], &[]),
    (&[(0x10, 5)], &[true, false, true, true], &[0]),
    // a flip back
    (&[(0x10, 6)], &[false, false, true, true], &[0]),
    // a change that flips nothing
    (&[(0x10, 7)], &[false, false, true, true], &[]),
    (&[(0x20, 9)], &[false, true, true, true], &[1]),
    // more than half of the nodes change
    (
        &[(0x10, 5), (0x20, 5)],
        &[true, false, true, false],
        &[0, 1, 3],
    ),
    // and a write that changes nothing
    (&[(0x10, 5)], &[true, false, true, false], &[]),
];

pub(crate) fn view(cell: u32) -> Node {
    Node::View {
        kind: Kind::Mem,
        size: Size::Byte,
        cell,
    }
}

pub(crate) fn cell(offset: u32) -> Node {
    Node::Cell {
        pointer: 0,
        offset,
        width: 1,
    }
}

#[test]
fn truths_that_flip_are_listed(rt: HostRuntime) -> Result<(), Fail> {
    let nodes = [
        Node::Const(0),
        cell(0x10),
        view(1),
        Node::Const(5),
        cell(0x20),
        view(4),
    ];
    let mut judge = judge_of(rt.alloc(), &nodes, COMPARISONS)?;
    assert_eq!(rt; other_frame(&mut judge, FRAMES), None);
    Ok(())
}

// Whether a comparison gets this number, of few.
fn gets(set: &mut Comparisons, comparison: Comparison, number: u32) -> Result<bool, OutOfMemory> {
    if set.len() > 8 {
        return Ok(false);
    }
    let found = set.intern(comparison)?;
    Ok(found == number)
}

// The place of the first comparison that does not get its number.
fn other_number(alloc: Global, rows: &[(Sides, u32)]) -> Result<Option<usize>, OutOfMemory> {
    let mut set = Comparisons::new(alloc);
    for (place, (sides, number)) in rows.iter().enumerate() {
        if !gets(&mut set, comparison(*sides), *number)? {
            return Ok(Some(place));
        }
    }
    Ok(None)
}

const NUMBERS: &[(Sides, u32)] = &[
    ((Op::Eq, 2, 3), 0),
    ((Op::Lt, 2, 3), 1),
    ((Op::Eq, 2, 3), 0),
    // sides are not swapped
    ((Op::Eq, 3, 2), 2),
    ((Op::Lt, 2, 3), 1),
];

#[test]
fn equal_comparisons_have_equal_numbers(rt: HostRuntime) -> Result<(), OutOfMemory> {
    assert_eq!(rt; other_number(rt.alloc(), NUMBERS)?, None);
    Ok(())
}
