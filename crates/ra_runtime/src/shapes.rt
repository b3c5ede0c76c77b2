//! The shape of a set, and a table that is laid out for it.

ghost use Rattle.std.specs.Prelude.{◌≡◌, [], ◌+◌, ◌≤◌, ◌<◌, ◌^◌, length, map, option_map, All, IfOk};
ghost use Rattle.std.specs.Vec.{vec_capacity};
ghost use Rattle.ra_set.specs.Contents.{set_contents};
ghost use Rattle.ra_set.specs.Limits.{IsWithinLimits};
ghost use Rattle.ra_set.specs.Names.{IsNamed};
ghost use Rattle.ra_progress.specs.Contents.{shape_contents, plain_item, plain_presence};
ghost use Rattle.ra_progress.specs.Layout.{length_of};
ghost use Rattle.ra_progress.specs.Names.{IsOrder, IsUsable, entry_names};
ghost use Rattle.ra_progress.specs.Room.{IsRoom};
ghost use Rattle.ra_set.specs.Spelled.{OptionalScript, IsSpelled};
ghost use Rattle.ra_display.specs.LineRests.{AreOptionalRests, optional_presence_seen};
ghost use Rattle.ra_display.specs.PresenceRuns.{IsOptionalPresence, optional_presence_kept};
ghost use Rattle.ra_memref.specs.Table.{IsFresh};
ghost use Rattle.ra_items.specs.AllRuns.{AreItemRuns};
ghost use Rattle.ra_items.specs.ItemRuns.{kept_run};
ghost use Rattle.ra_items.specs.Rests.{AreRests, seen_by};
ghost use Rattle.ra_meaning.specs.Order as spec;
ghost use Rattle.ra_items.specs.Shapes.{run_shape, IsSmall};
ghost use Rattle.ra_display.specs.PresenceShapes.{optional_run_shape, IsSmallPresence};
ghost use Rattle.ra_runtime.specs.Laid.{HasNaming, IsLaidOut, IsOver, NameSet};
ghost use Rattle.ra_runtime.specs.Lazy.{IsLazy, IsWhole, with_names};

use crate::lazy_shape::LazyShape;
use ra_display::{
    LineRests, PresenceRun, counted_presence, new_presence, presence_shape, rest_lines,
};
use ra_indirect::Pool;
use ra_items::{ItemRun, Rests, item_shapes, new_runs};
use ra_memref::{Names, Table, names_of};
use ra_progress::{PresenceShape, Said, Shape, order_of};
use ra_set::{Set, conditions};
use ra_text::OutOfMemory;
use std::alloc::Global;

/// The shape of a set: docs/DEFINITIONS.md, "Shape of a set".
pub fn shape_of(alloc: Global, set: &Set) -> Result<Shape, OutOfMemory>
    requires limits { IsWithinLimits (set_contents set.now) }
    requires spelled { IsSpelled (set_contents set.now) }
    requires named { IsNamed (set_contents set.now) }
    ensures shape { IfOk result (λ shape. shape_contents shape ≡ spec.shape_of (set_contents set.now)) }
    ensures usable { IfOk result IsUsable }
{
    let mut pool = pool_for(alloc, set)?;
    let runs = new_runs(alloc, &set.items, &mut pool)?;
    let presence = counted_presence(alloc, &set.script, &mut pool)?;
    let names = names_of(alloc, &pool)?;
    let shape = shape_beside(alloc, set, &runs, presence, names)?;
    Ok(shape)
}

// A pool without nodes, with memory for those of most sets: three for each condition.
fn pool_for(alloc: Global, set: &Set) -> Result<Pool, OutOfMemory>
    requires { IsWithinLimits (set_contents set.now) }
    ensures { IfOk result (λ pool. pool ≡ []) }
{
    let nodes = 3 * conditions(set) as usize;
    Pool::with_room(alloc, nodes)
}

// A table over the trees of a set, made to look at images or to be told of writes, a run for each item, and one for the
// display.
pub(crate) fn laid_out(
    alloc: Global,
    set: &Set,
    size: u32,
    looks: bool,
) -> Result<(Table, Vec<ItemRun>, Option<PresenceRun>), OutOfMemory>
    requires limits { IsWithinLimits (set_contents set.now) }
    requires spelled { IsSpelled (set_contents set.now) }
    requires size { size ≤ 2 ^ 27 }
    ensures { IfOk result (λ laid. IsLaidOut (set_contents set.now) size laid.0 laid.1.items laid.2) }
{
    let mut pool = pool_for(alloc, set)?;
    let runs = new_runs(alloc, &set.items, &mut pool)?;
    let presence = new_presence(alloc, &set.script, &mut pool)?;
    let table = table_over(alloc, pool, size, looks)?;
    Ok((table, runs, presence))
}

// A table over a pool, made to look at images or to be told of writes.
fn table_over(alloc: Global, pool: Pool, size: u32, looks: bool) -> Result<Table, OutOfMemory>
    requires size { size ≤ 2 ^ 27 }
    requires few { length pool < 2 ^ 30 }
    ensures { IfOk result (IsFresh pool size) }
{
    if looks {
        Table::for_looks(alloc, pool, size)
    } else {
        Table::new(alloc, pool, size)
    }
}

// The same with a rest beside each run and each line, of which none rests.
pub(crate) fn at_rest(
    alloc: Global,
    set: &Set,
    size: u32,
    looks: bool,
) -> Result<(Table, Vec<ItemRun>, Rests, Option<PresenceRun>, LineRests), OutOfMemory>
    requires limits { IsWithinLimits (set_contents set.now) }
    requires spelled { IsSpelled (set_contents set.now) }
    requires size { size ≤ 2 ^ 27 }
    ensures laid { IfOk result (λ laid. IsLaidOut (set_contents set.now) size laid.0 laid.1.items laid.3) }
    ensures lines { IfOk result (λ laid. AreOptionalRests laid.0.nodes laid.0.values (set_contents set.now).script laid.3 laid.4) }
    ensures shown { IfOk result (λ laid. optional_presence_seen laid.3 laid.4 ≡ option_map plain_presence (option_map spec.presence_shape (set_contents set.now).script)) }
    ensures rests { IfOk result (λ laid. AreRests laid.0.nodes laid.0.values (set_contents set.now).items laid.1.items laid.2) }
    ensures kept { IfOk result (λ laid. seen_by laid.1.items laid.2 ≡ map plain_item (map spec.item_shape (set_contents set.now).items)) }
{
    let (table, runs, presence) = laid_out(alloc, set, size, looks)?;
    let (rests, line_rests) = rests_beside(alloc, set, &runs, &presence, &table)?;
    Ok((table, runs, rests, presence, line_rests))
}

// A rest beside each run, and one beside each line of the display, of which none rests.
fn rests_beside(
    alloc: Global,
    set: &Set,
    runs: &[ItemRun],
    presence: &Option<PresenceRun>,
    table: &Table,
) -> Result<(Rests, LineRests), OutOfMemory>
    requires spelled { OptionalScript (set_contents set.now).script }
    requires few { length set.now.items.items < 2 ^ 32 }
    requires runs { AreItemRuns table.now.nodes (set_contents set.now).items runs.now }
    requires presence { IsOptionalPresence table.now.nodes (set_contents set.now).script presence.now }
    requires few_nodes { length table.now.nodes ≤ 2 ^ 30 }
    ensures rests { IfOk result (λ both. AreRests table.now.nodes table.now.values (set_contents set.now).items runs.now both.0) }
    ensures kept { IfOk result (λ both. seen_by runs.now both.0 ≡ map kept_run runs.now) }
    ensures lines { IfOk result (λ both. AreOptionalRests table.now.nodes table.now.values (set_contents set.now).script presence.now both.1) }
    ensures shown { IfOk result (λ both. optional_presence_seen presence.now both.1 ≡ optional_presence_kept presence.now) }
{
    let nodes = table.node_count();
    let rests = Rests::new(alloc, runs, &set.items, table, nodes)?;
    let line_rests = rest_lines(alloc, presence, &set.script, table, nodes)?;
    Ok((rests, line_rests))
}

// The shape of a set, by its runs, the shape of its display and the names of its cells and masks.
fn shape_beside(
    alloc: Global,
    set: &Set,
    runs: &[ItemRun],
    presence: Option<PresenceShape>,
    names: Names,
) -> Result<Shape, OutOfMemory>
    requires limits { IsWithinLimits (set_contents set.now) }
    requires named { IsNamed (set_contents set.now) }
    requires names { NameSet (set_contents set.now) names }
    requires short { length_of (spec.shape_of (set_contents set.now)) ≤ 8388608 }
    requires small { All IsSmall (map run_shape runs.now) }
    requires items { map run_shape runs.now ≡ map spec.item_shape (set_contents set.now).items }
    requires presence { presence ≡ option_map spec.presence_shape (set_contents set.now).script }
    ensures { IfOk result (IsWhole (spec.shape_of (set_contents set.now))) }
{
    let cell_order = order_of(alloc, &names.cells, &None)?;
    let prior_order = order_of(alloc, &names.priors, &None)?;
    let naming = Naming {
        cells: names.cells,
        priors: names.priors,
        cell_order,
        prior_order,
    };
    let shape = shape_with(alloc, set, runs, presence, naming)?;
    Ok(shape)
}

// The names of cells and tracked masks, and the order of each.
#[derive(Drop)]
struct Naming {
    cells: Vec<[u8; 16]>,
    priors: Vec<[u8; 16]>,
    cell_order: Vec<u32>,
    prior_order: Vec<u32>,
}

// The shape of a set with these names of its cells and tracked masks, by its runs and the shape of its display.
fn shape_with(
    alloc: Global,
    set: &Set,
    runs: &[ItemRun],
    presence: Option<PresenceShape>,
    naming: Naming,
) -> Result<Shape, OutOfMemory>
    requires limits { IsWithinLimits (set_contents set.now) }
    requires named { IsNamed (set_contents set.now) }
    requires small { All IsSmall (map run_shape runs.now) }
    requires items { map run_shape runs.now ≡ map spec.item_shape (set_contents set.now).items }
    requires presence { presence ≡ option_map spec.presence_shape (set_contents set.now).script }
    ensures shape { IfOk result (λ shape. shape_contents shape ≡ with_names (spec.shape_of (set_contents set.now)) naming.cells.items naming.priors.items) }
    ensures naming { IfOk result (HasNaming naming) }
    ensures entries { IfOk result (λ shape. IsOrder (entry_names (spec.shape_of (set_contents set.now))) shape.entry_order.items) }
{
    let items = item_shapes(alloc, runs)?;
    let mut item_names = Vec::new(alloc);
    item_names.extend_from_slice(&set.item_names)?;
    let entry_order = order_of(alloc, &item_names, &set.script_name)?;
    Ok(Shape {
        digest: set.digest,
        cells: naming.cells,
        priors: naming.priors,
        items,
        item_names,
        presence,
        presence_name: set.script_name,
        cell_order: naming.cell_order,
        prior_order: naming.prior_order,
        entry_order,
    })
}

// No names of cells and of tracked masks and none of their orders, with memory for this many.
fn no_naming(alloc: Global, cells: usize, priors: usize) -> Result<Naming, OutOfMemory>
    ensures cells { IfOk result (λ naming. vec_capacity naming.cells ≡ cells) }
    ensures priors { IfOk result (λ naming. vec_capacity naming.priors ≡ priors) }
    ensures cell_order { IfOk result (λ naming. vec_capacity naming.cell_order ≡ cells) }
    ensures prior_order { IfOk result (λ naming. vec_capacity naming.prior_order ≡ priors) }
{
    Ok(Naming {
        cells: Vec::with_capacity(alloc, cells)?,
        priors: Vec::with_capacity(alloc, priors)?,
        cell_order: Vec::with_capacity(alloc, cells)?,
        prior_order: Vec::with_capacity(alloc, priors)?,
    })
}

// The shape of a set whose names of cells and tracked masks are made later, by its runs, its display and its table, and
// room for what a progress file says of it.
pub(crate) fn shape_and_room(
    alloc: Global,
    set: &Set,
    runs: &[ItemRun],
    presence: &Option<PresenceRun>,
    table: &Table,
) -> Result<(LazyShape, Said), OutOfMemory>
    requires limits { IsWithinLimits (set_contents set.now) }
    requires named { IsNamed (set_contents set.now) }
    requires over { IsOver (set_contents set.now) table.now }
    requires few { length table.now.cells + length table.now.priors < 2 ^ 32 }
    requires short { length_of (spec.shape_of (set_contents set.now)) ≤ 8388608 }
    requires small { All IsSmall (map run_shape runs.now) }
    requires items { map run_shape runs.now ≡ map spec.item_shape (set_contents set.now).items }
    requires small_presence { IsSmallPresence (optional_run_shape presence.now) }
    requires presence { optional_run_shape presence.now ≡ option_map spec.presence_shape (set_contents set.now).script }
    ensures shape { IfOk result (λ both. IsLazy (spec.shape_of (set_contents set.now)) both.0) }
    ensures names { IfOk result (λ both. length table.now.nodes ≤ both.0.room) }
    ensures room { IfOk result (λ both. IsRoom (spec.shape_of (set_contents set.now)) both.1) }
{
    let (cells, priors) = (table.cells().len(), table.priors().len());
    let naming = no_naming(alloc, cells, priors)?;
    let shape = shape_with(alloc, set, runs, presence_shape(presence), naming)?;
    let said = Said::new(alloc, cells, priors, &shape)?;
    let lazy = LazyShape::new(alloc, shape, table.node_count(), cells, priors)?;
    Ok((lazy, said))
}
