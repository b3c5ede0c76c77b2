//! A table beside the memory that it samples.

ghost use Rattle.std.specs.Prelude.{◌≡◌, ◌<◌, ◌≤◌, ◌^◌, length, true};
ghost use Rattle.ra_memref.specs.Table.{Agrees};

use ra_indirect::{Node, Pool};
use ra_memory::{Counted, Image, Memory, Steps};
use ra_memref::{Table, nodes_of};
use ra_text::OutOfMemory;
use std::alloc::Global;
use std::sync::ledger::{Blank, Ledger};

/// An image that also tells how often it was read.
#[derive(Drop)]
pub(crate) struct Tallied<'a, L: Ledger> {
    pub image: Counted<'a, L>,
    pub reads: u32,
}

impl<'a, L: Ledger> Image for Tallied<'a, L> {
    ghost bytes = { λ t. t.image.memory.now };

    ghost reads = { λ t. t.image.steps.now };

    ghost counter = { λ t. t.image.steps.ghost_name };

    fn read(&mut self, at: u32, width: u8) -> u32 {
        self.reads = self.reads.wrapping_add(1);
        self.image.read(at, width)
    }
}

/// A table with the memory that it samples.
#[derive(Drop)]
pub(crate) struct Machine {
    nodes: Vec<Node>,
    table: Table,
    memory: Memory,
    ghost nodes_too: { table.nodes ≡ nodes.items },
    ghost size: { table.size ≡ length memory },
    ghost few: { length nodes.items < 2 ^ 30 },
    ghost agrees: { Agrees table memory },
}

impl Machine {
    /// A table over a pool, and a memory of zeros.
    pub(crate) fn new(alloc: Global, pool: Pool, size: u32) -> Result<Machine, OutOfMemory>
        requires few { length pool < 2 ^ 30 }
        requires size { size ≤ 2 ^ 27 }
    {
        let nodes = nodes_of(alloc, &pool)?;
        let memory = Memory::new(alloc, size)?;
        let table = Table::new(alloc, pool, size)?;
        Ok(Machine::joined(nodes, table, memory))
    }

    fn joined(nodes: Vec<Node>, table: Table, memory: Memory) -> Machine
        requires nodes { table.nodes ≡ nodes.items }
        requires size { table.size ≡ length memory }
        requires few { length nodes.items < 2 ^ 30 }
        requires agrees { Agrees table memory }
    {
        Machine {
            nodes,
            table,
            memory,
        }
    }

    /// Writes bytes and tells the table; what does not fit is left out.
    pub(crate) fn write(&mut self, at: u32, bytes: &[u8]) {
        let _size = self.memory.size();
        if let Ok(()) = self.memory.write(at, bytes) {
            self.table.write(at, bytes.len() as u32);
        }
    }

    /// Samples the memory, and gives each node's value, 0 for a cell.
    pub(crate) fn frame<L: Ledger>(
        &mut self,
        alloc: Global,
        blank: Blank,
    ) -> Result<Vec<u32>, OutOfMemory>
        requires name { blank.name ≡ L.name }
        requires parts { blank.parts ≡ L.parts }
        requires held { 0 < blank.parts }
    {
        let mut steps = Steps::<L>::open(blank);
        let mut image = Counted {
            memory: &self.memory,
            steps: &mut steps,
        };
        self.table.sample(&mut image);
        values_of(alloc, &self.table, &self.nodes)
    }

    /// Samples the memory, and tells how often that reads it.
    pub(crate) fn reads<L: Ledger>(&mut self, blank: Blank) -> u32
        requires name { blank.name ≡ L.name }
        requires parts { blank.parts ≡ L.parts }
        requires held { 0 < blank.parts }
    {
        let mut steps = Steps::<L>::open(blank);
        let mut image = Tallied {
            image: Counted {
                memory: &self.memory,
                steps: &mut steps,
            },
            reads: 0,
        };
        self.table.sample(&mut image);
        image.reads
    }

    /// Puts the kept numbers back, where there are bytes for each.
    pub(crate) fn put_back(&mut self, bytes: &[u8]) -> bool {
        let fits = bytes.len() == 4 * (self.table.cells().len() + self.table.priors().len());
        if fits {
            self.table.put_back(bytes);
        }
        fits
    }

    /// Sets the kept number of a cell, where there is such a cell.
    pub(crate) fn put_cell(&mut self, cell: u32, number: u32) -> bool {
        let fits = (cell as usize) < self.table.cells().len();
        if fits {
            self.table.put_cell(cell, number);
        }
        fits
    }

    /// Sets the kept number of a tracked mask, where there is such a mask.
    pub(crate) fn put_prior(&mut self, prior: u32, number: u32) -> bool {
        let fits = (prior as usize) < self.table.priors().len();
        if fits {
            self.table.put_prior(prior, number);
        }
        fits
    }

    /// The kept number of each cell.
    pub(crate) fn cells(&self) -> &[u32] {
        self.table.cells()
    }

    /// The kept number of each tracked mask.
    pub(crate) fn priors(&self) -> &[u32] {
        self.table.priors()
    }

    /// The nodes that the last sample listed.
    pub(crate) fn changed(&self) -> &[u32] {
        self.table.changed()
    }
}

fn values_of(alloc: Global, table: &Table, nodes: &[Node]) -> Result<Vec<u32>, OutOfMemory>
    requires nodes { table.now.nodes ≡ nodes.now }
    requires sampled { table.now.sampled ≡ true }
    requires few { length nodes.now < 2 ^ 30 }
{
    let mut values = Vec::new(alloc);
    for (number, node) in nodes.iter().enumerate() {
        let value = match node {
            Node::Cell { .. } => 0,
            Node::Const(_) | Node::View { .. } | Node::Arith { .. } => table.value(number as u32),
        };
        values.push(value)?;
    }
    Ok(values)
}
