ghost use Rattle.std.specs.Prelude.{◌≡◌, ◌≤◌, ◌^◌, false, IfOk};
ghost use Rattle.ra_progress.specs.Contents.{ShapeContents};
ghost use Rattle.ra_runtime.specs.Lazy.{HasRows, HasZeros, IsCopy, IsLazy, IsWhole, MakesNames, MayName, NamesTable};

use ra_memref::{NameRoom, Table};
use ra_progress::{OrderRoom, Shape, fill_up};
use ra_text::OutOfMemory;
use std::alloc::Global;

/// A shape of which the names of cells and tracked masks are missing until they are made: docs/INTERNALS.md, "Names are
/// made where they are first needed". Their rows have memory for all, which is not written before. Only `new` takes memory.
#[derive(Drop)]
pub struct LazyShape {
    pub shape: Shape,
    /// Whether the names and their orders are made.
    pub named: bool,
    pub room: NameRoom,
    pub orders: OrderRoom,
}

impl LazyShape {
    /// A shape without names, and room to make this many of cells and of tracked masks over a table of this many nodes.
    pub fn new(
        alloc: Global,
        shape: Shape,
        nodes: usize,
        cells: usize,
        priors: usize,
    ) -> Result<LazyShape, OutOfMemory>
        ensures shape { IfOk result (λ lazy. lazy.shape ≡ shape) }
        ensures unnamed { IfOk result (λ lazy. lazy.named ≡ false) }
        ensures room { IfOk result (λ lazy. lazy.room ≡ nodes) }
        ensures cells { IfOk result (λ lazy. cells ≤ lazy.orders) }
        ensures priors { IfOk result (λ lazy. priors ≤ lazy.orders) }
        ensures few { cells ≤ 2 ^ 32 → priors ≤ 2 ^ 32 → IfOk result (λ lazy. lazy.orders ≤ 2 ^ 32) }
    {
        let room = NameRoom::new(alloc, nodes)?;
        let orders = OrderRoom::new(alloc, cells.max(priors))?;
        Ok(LazyShape {
            shape,
            named: false,
            room,
            orders,
        })
    }

    /// The shape with its names, in memory of its own. Memory is the only refusal.
    pub fn whole(&self, alloc: Global, table: &Table) -> Result<Shape, OutOfMemory>
        requires { MayName table.now self.now }
        ensures { IfOk result (λ shape. (whole : ShapeContents) → IsLazy whole self.now → NamesTable table.now whole → IsWhole whole shape) }
    {
        let (cells, priors) = (table.cells().len(), table.priors().len());
        let shape = copy_of(alloc, &self.shape, cells, priors)?;
        let mut lazy = LazyShape::new(alloc, shape, table.node_count(), cells, priors)?;
        lazy.make(table);
        Ok(lazy.shape)
    }

    /// Makes the names and their orders, unless they are made. No memory is taken.
    pub fn make(&mut self, table: &Table)
        requires { MayName table.now self.old }
        ensures { (whole : ShapeContents) → IsLazy whole self.old → NamesTable table.now whole → MakesNames whole self.old self.new }
    {
        if self.named {
            return;
        }
        fill_names(&mut self.shape, table.cells().len(), table.priors().len());
        table.put_names(
            &mut self.room,
            &mut self.shape.cells,
            &mut self.shape.priors,
        );
        self.orders
            .put_order(&self.shape.cells, &mut self.shape.cell_order);
        self.orders
            .put_order(&self.shape.priors, &mut self.shape.prior_order);
        self.named = true;
    }
}

// Puts zeros in the place of this many names of cells and of tracked masks, and of their orders.
fn fill_names(shape: &mut Shape, cells: usize, priors: usize)
    requires { HasRows cells priors shape.old }
    ensures { HasZeros cells priors shape.old shape.new }
{
    fill_up(&mut shape.cells, [0; 16], cells);
    fill_up(&mut shape.priors, [0; 16], priors);
    fill_up(&mut shape.cell_order, 0, cells);
    fill_up(&mut shape.prior_order, 0, priors);
}

// A shape in memory of its own, without names, with room for this many of cells and of tracked masks.
fn copy_of(alloc: Global, shape: &Shape, cells: usize, priors: usize) -> Result<Shape, OutOfMemory>
    ensures { IfOk result (IsCopy cells priors shape.now) }
{
    Ok(Shape {
        digest: shape.digest,
        cells: Vec::with_capacity(alloc, cells)?,
        priors: Vec::with_capacity(alloc, priors)?,
        items: Vec::from_slice(alloc, &shape.items)?,
        item_names: Vec::from_slice(alloc, &shape.item_names)?,
        presence: shape.presence,
        presence_name: shape.presence_name,
        cell_order: Vec::with_capacity(alloc, cells)?,
        prior_order: Vec::with_capacity(alloc, priors)?,
        entry_order: Vec::from_slice(alloc, &shape.entry_order)?,
    })
}
