ghost use Rattle.std.specs.Prelude.{◌≡◌, ◌+◌, ◌-◌, ◌*◌, ◌<◌, ◌≤◌, ◌^◌, length, slice_index, true, not, IfOk, count_by};
ghost use Rattle.ra_indirect.specs.Interned.{IsPool};

use crate::agenda::{Agenda, gather};
use crate::changes::Changes;
use crate::late_watches::LateWatches;
use crate::layout::{lay_out, widths_of};
use crate::name_room::NameRoom;
use crate::node_plan::NodePlan;
use crate::numbers::Numbers;
use ra_indirect::{Node, Pool};
use ra_memory::Image;
use ra_text::OutOfMemory;
use std::alloc::Global;
use std::marker::Model;

/// The memory reference table: docs/DEFINITIONS.md, "Values at a frame".
///
/// It is seen as its pool, the size of the image, a number for each cell and for each tracked mask, and
/// a number for each node, which counts once a sample came.
#[derive(Drop)]
pub struct Table {
    nodes: Vec<Node>,
    slots: Vec<u32>,
    numbers: Numbers,
    agenda: Agenda,
    changes: Changes,
    sampled: bool,
}

impl Model for Table {
    ghost use Rattle.ra_memref.specs.Table.{TableSeen};

    ghost Value = { TableSeen };

    ghost use Rattle.ra_memref.specs.Seen.{table_seen, IsTable};

    ghost view = { table_seen };

    ghost invariant = { IsTable };
}

impl Table {
    ghost use Rattle.std.specs.Prelude.{map};
    ghost use Rattle.ra_indirect.specs.Pools.{IsValued, node_at, cells_of, tracked_of};
    ghost use Rattle.ra_memref.specs.Names as spec;
    ghost use Rattle.ra_memref.specs.Names.{tracked_name};
    ghost use Rattle.ra_memref.specs.Table.{IsFresh, IsTold, IsLooked, IsPutBack, Samples, ReadsWanted, ReadsLooked, ListsChanged, Agrees};
    ghost use Rattle.ra_memref.specs.Putting.{IsCellPut, IsPriorPut};
    ghost use Rattle.ra_text.specs.Words.{words_at};

    /// A table over a pool and an image of `size` bytes: all numbers are 0, each cell is marked and lies
    /// at its address, and no sample came.
    ///
    /// At most 134,217,728 bytes, and fewer than 2^30 nodes. Memory is the only refusal, and then the
    /// pool is given up. No later call takes memory.
    ///
    /// It is made to be told of writes: it has a list for each page of the image.
    pub fn new(alloc: Global, pool: Pool, size: u32) -> Result<Table, OutOfMemory>
        requires size { size ≤ 2 ^ 27 }
        requires few { length pool < 2 ^ 30 }
        ensures { IfOk result (IsFresh pool size) }
    {
        Table::with_lists(alloc, pool, size, size)
    }

    /// The same table, made to look at images: what it takes of memory does not grow with their size.
    ///
    /// It has no lists, so a write that it is told goes over all cells.
    pub fn for_looks(alloc: Global, pool: Pool, size: u32) -> Result<Table, OutOfMemory>
        requires size { size ≤ 2 ^ 27 }
        requires few { length pool < 2 ^ 30 }
        ensures { IfOk result (IsFresh pool size) }
    {
        Table::with_lists(alloc, pool, size, 0)
    }

    // A table with lists of the pages of an image of `listed` bytes.
    fn with_lists(alloc: Global, pool: Pool, size: u32, listed: u32) -> Result<Table, OutOfMemory>
        requires size { size ≤ 2 ^ 27 }
        requires listed { listed ≤ 2 ^ 27 }
        requires few { length pool < 2 ^ 30 }
        ensures { IfOk result (IsFresh pool size) }
    {
        let nodes = pool.into_nodes();
        let layout = lay_out(alloc, &nodes)?;
        let widths = widths_of(alloc, &nodes)?;
        let watches = LateWatches::new(alloc, size, listed, layout.places, widths)?;
        let numbers = Numbers::new(alloc, watches, layout.masks.len(), nodes.len())?;
        let agenda = Agenda::new(alloc, &nodes)?;
        let changes = Changes::new(alloc, nodes.len())?;
        Ok(Table {
            nodes,
            slots: layout.slots,
            numbers,
            agenda,
            changes,
            sampled: false,
        })
    }

    /// How many nodes the pool has.
    pub fn node_count(&self) -> usize
        ensures { result ≡ length self.now.nodes }
    {
        self.nodes.len()
    }

    /// Tells the table that `count` bytes from the address `at` on may have changed:
    /// docs/INTERNALS.md, "Marked and moved cells".
    ///
    /// The bytes lie within the size. The cells that watch a page of one of them are marked, and no kept
    /// number changes. A table that is made to be told looks at the lists of these pages alone.
    pub fn write(&mut self, at: u32, count: u32)
        requires { at + count ≤ self.old.size }
        ensures { IsTold self.old self.new at count }
    {
        self.numbers.tell(at, count);
    }

    /// Looks at the image for what no write told: docs/INTERNALS.md, "Marked and moved cells".
    ///
    /// It reads each cell that is not marked, once, at the place where it lay, and no other, and marks those
    /// that have another number there than the kept one. No kept number changes. A sample of this image may
    /// follow, whatever was written since the last one.
    pub fn look<I: Image>(&mut self, image: &mut I)
        ensures looked { IsLooked self.old self.new (I.bytes image.old) }
        ensures reads { I.reads image.new ≡ I.reads image.old + count_by not self.old.marked }

        ensures bytes { I.bytes image.new ≡ I.bytes image.old }
        ensures counter { I.counter image.new ≡ I.counter image.old }
    {
        self.numbers.look(image);
    }

    /// Takes up one frame of the image: docs/DEFINITIONS.md, "Values at a frame".
    ///
    /// The image has the table's size, and each cell that is not marked has its kept number there, as
    /// after a sample of an image that differs from this one only in bytes that were told. It reads each
    /// cell that is marked or has moved, once, and no other, and leaves none marked. A marked cell that has
    /// its kept number makes nothing due. It lists each node that it gives another number.
    pub fn sample<I: Image>(&mut self, image: &mut I)
        requires size { length (I.bytes image.old) ≡ self.old.size }
        requires agrees { Agrees self.old (I.bytes image.old) }

        ensures taken { Samples self.old self.new (I.bytes image.old) }
        ensures reads { ReadsWanted self.old self.new (I.reads image.new - I.reads image.old) }
        ensures counts { I.reads image.old ≤ I.reads image.new }
        ensures changed { ListsChanged self.old self.new }

        ensures bytes { I.bytes image.new ≡ I.bytes image.old }
        ensures counter { I.counter image.new ≡ I.counter image.old }
    {
        let all = self.numbers.saw_many() || self.agenda.all;
        gather(
            &mut self.agenda.due,
            &self.agenda.cell_nodes,
            &mut self.numbers,
            all,
        );
        let plan = NodePlan {
            nodes: &self.nodes,
            slots: &self.slots,
            dependents: &self.agenda.dependents,
            all,
        };
        let in_order = self
            .numbers
            .take_frame(image, &plan, &mut self.agenda.due, &mut self.changes);
        self.agenda.all = in_order
            && self.numbers.note_cells(
                &self.changes,
                &mut self.agenda.due,
                &self.agenda.cell_nodes,
            );
        self.sampled = true;
    }

    /// Takes up one frame of an image of the size, of which nothing was told: a look, and then a sample.
    pub fn follow<I: Image>(&mut self, image: &mut I)
        requires size { length (I.bytes image.old) ≡ self.old.size }

        ensures taken { Samples self.old self.new (I.bytes image.old) }
        ensures reads { ReadsLooked self.old self.new (I.bytes image.old) (I.reads image.new - I.reads image.old) }
        ensures counts { I.reads image.old ≤ I.reads image.new }
        ensures changed { ListsChanged self.old self.new }

        ensures bytes { I.bytes image.new ≡ I.bytes image.old }
        ensures counter { I.counter image.new ≡ I.counter image.old }
    {
        self.look(image);
        self.sample(image);
    }

    /// The value of a node's tree at the frame of the last sample.
    ///
    /// The node is one of the pool's that has a value, and a sample came since `new` and since the last
    /// `put_back`, `put_cell` or `put_prior`.
    pub fn value(&self, node: u32) -> u32
        requires within { node < length self.now.nodes }
        requires valued { IsValued (node_at self.now.nodes node) }
        requires sampled { self.now.sampled ≡ true }
        ensures { result ≡ slice_index self.now.values node }
    {
        self.numbers.value(node as usize)
    }

    /// The nodes that the last sample gave another number, and maybe others: docs/INTERNALS.md, "Due nodes".
    ///
    /// They come as numbers of nodes, at most as many as there are. A node that is not among them has the
    /// number that it had before that sample. No other call changes them.
    pub fn changed(&self) -> &[u32]
        ensures { result.now ≡ self.now.changed }
    {
        self.changes.listed()
    }

    /// The kept numbers of the cells, in order of first occurrence.
    pub fn cells(&self) -> &[u32]
        ensures { result.now ≡ self.now.cells }
    {
        self.numbers.cells()
    }

    /// The kept numbers of the tracked masks, in order of first occurrence.
    pub fn priors(&self) -> &[u32]
        ensures { result.now ≡ self.now.priors }
    {
        self.numbers.priors()
    }

    /// Puts the name of each cell and of each tracked mask, in order of first occurrence:
    /// docs/DEFINITIONS.md, "Names of cells and masks". No memory is taken.
    pub fn put_names(&self, room: &mut NameRoom, cells: &mut [[u8; 16]], priors: &mut [[u8; 16]])
        requires room { length self.now.nodes ≤ room.old }
        requires cells { length cells.old ≡ length self.now.cells }
        requires priors { length priors.old ≡ length self.now.priors }
        ensures cells { cells.new ≡ map spec.cell_name (cells_of self.now.nodes) }
        ensures priors { priors.new ≡ map tracked_name (tracked_of self.now.nodes) }
        ensures room { room.new ≡ room.old }
    {
        room.put_names(&self.nodes, &self.slots, cells, priors);
    }

    /// Sets the kept numbers from little-endian words, the cells first.
    ///
    /// There are four bytes for each cell and each tracked mask. Each cell is marked and keeps its place,
    /// and a sample is due before values count again.
    pub fn put_back(&mut self, bytes: &[u8])
        requires { length bytes.now ≡ 4 * (length self.old.cells + length self.old.priors) }
        ensures { IsPutBack self.old self.new (words_at bytes.now 0 (length self.old.cells))
            (words_at bytes.now (4 * length self.old.cells) (length self.old.priors)) }
    {
        self.numbers.put_back(bytes);
        self.agenda.all = true;
        self.sampled = false;
    }

    /// Sets the kept number of a cell, counted from 0 in order of first occurrence.
    ///
    /// Each cell is marked, in constant time, and a sample is due before values count again.
    pub fn put_cell(&mut self, cell: u32, number: u32)
        requires { cell < length self.old.cells }
        ensures { IsCellPut self.old self.new cell number }
    {
        self.numbers.put_cell(cell as usize, number);
        self.agenda.all = true;
        self.sampled = false;
    }

    /// Sets the kept number of a tracked mask, counted from 0 in order of first occurrence.
    ///
    /// Each cell is marked, in constant time, and a sample is due before values count again.
    pub fn put_prior(&mut self, prior: u32, number: u32)
        requires { prior < length self.old.priors }
        ensures { IsPriorPut self.old self.new prior number }
    {
        self.numbers.put_prior(prior as usize, number);
        self.agenda.all = true;
        self.sampled = false;
    }
}

/// The nodes of a pool, in order. Memory is the only refusal.
pub fn nodes_of(alloc: Global, pool: &Pool) -> Result<Vec<Node>, OutOfMemory>
    ensures nodes { IfOk result (λ nodes. nodes.items ≡ pool.now) }
    ensures pool { IsPool pool.now }
    ensures most { length pool.now ≤ 2 ^ 31 }
{
    let mut nodes = Vec::with_capacity(alloc, pool.len() as usize)?;
    for number in 0..pool.len() {
        nodes.push(pool.node(number))?;
    }
    Ok(nodes)
}
