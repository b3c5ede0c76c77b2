//! Steps of a machine, and what each has to answer.

ghost use Rattle.std.specs.Prelude.{◌≤◌, ◌<◌, ◌^◌, length};

use crate::pools::pool_of;
use crate::tables::machine::Machine;
use ra_indirect::{Node, Pool};
use ra_text::OutOfMemory;
use std::alloc::Global;
use std::marker::Brand;
use std::sync::ledger::Blank;
use std::test::Fail;

/// What is done to a machine, or looked at, and what that has to answer.
#[derive(Clone, Copy)]
pub(crate) enum Step<'a> {
    /// Writes these bytes at an address.
    Write(u32, &'a [u8]),
    /// Writes a byte at an address, this many times.
    Writes(u32, u32),
    /// Puts these kept numbers back, and whether they fit.
    PutBack(&'a [u8], bool),
    /// Sets the kept number of a cell, and whether there is such a cell.
    PutCell(u32, u32, bool),
    /// Sets the kept number of a tracked mask, and whether there is such a mask.
    PutPrior(u32, u32, bool),
    /// Samples the memory, and each node's value then.
    Frame(&'a [u32]),
    /// Samples the memory, and how often that reads it.
    Reads(u32),
    /// The kept number of each cell.
    Cells(&'a [u32]),
    /// The kept number of each tracked mask.
    Priors(&'a [u32]),
    /// The nodes that the last sample listed.
    Changed(&'a [u32]),
}

/// The place of the first step that a machine over these nodes, with a memory of this many bytes, answers otherwise.
pub(crate) fn other_step(
    alloc: Global,
    size: u32,
    nodes: &[Node],
    steps: &[Step<'_>],
) -> Result<Option<usize>, Fail>
    requires { size ≤ 2 ^ 27 }
{
    let pool = pool_of(alloc, nodes)?;
    let other = other_over(alloc, size, pool, steps)?;
    Ok(other)
}

fn other_over(
    alloc: Global,
    size: u32,
    pool: Pool,
    steps: &[Step<'_>],
) -> Result<Option<usize>, OutOfMemory>
    requires few { length pool < 2 ^ 30 }
    requires size { size ≤ 2 ^ 27 }
{
    let mut machine = Machine::new(alloc, pool, size)?;
    first_other(alloc, &mut machine, steps)
}

fn first_other(
    alloc: Global,
    machine: &mut Machine,
    steps: &[Step<'_>],
) -> Result<Option<usize>, OutOfMemory> {
    for (place, step) in steps.iter().enumerate() {
        if !answers(alloc, machine, *step)? {
            return Ok(Some(place));
        }
    }
    Ok(None)
}

fn answers(alloc: Global, machine: &mut Machine, step: Step<'_>) -> Result<bool, OutOfMemory> {
    match step {
        Step::Frame(values) => gives(alloc, machine, values),
        Step::Reads(reads) => Ok(reads_so(machine, reads)),
        Step::Cells(cells) => Ok(machine.cells() == cells),
        Step::Priors(priors) => Ok(machine.priors() == priors),
        Step::Changed(changed) => Ok(machine.changed() == changed),
        change => Ok(changes_so(machine, change)),
    }
}

fn gives(alloc: Global, machine: &mut Machine, values: &[u32]) -> Result<bool, OutOfMemory> {
    let found = machine.frame::<Brand>(alloc, Blank::new(1))?;
    Ok(found.as_slice() == values)
}

fn reads_so(machine: &mut Machine, reads: u32) -> bool {
    machine.reads::<Brand>(Blank::new(1)) == reads
}

fn changes_so(machine: &mut Machine, step: Step<'_>) -> bool {
    match step {
        Step::PutBack(bytes, fits) => machine.put_back(bytes) == fits,
        Step::PutCell(cell, number, fits) => machine.put_cell(cell, number) == fits,
        Step::PutPrior(prior, number, fits) => machine.put_prior(prior, number) == fits,
        Step::Writes(at, times) => {
            write_often(machine, at, times);
            true
        }
        Step::Write(at, bytes) => {
            machine.write(at, bytes);
            true
        }
        _ => false,
    }
}

fn write_often(machine: &mut Machine, at: u32, times: u32) {
    for _ in 0..times {
        machine.write(at, &[1]);
    }
}
