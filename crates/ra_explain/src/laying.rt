//! A table and a plan, laid out for a trigger.

ghost use Rattle.std.specs.Prelude.{◌≡◌, ◌<◌, ◌≤◌, ◌^◌, length, IfOk};
ghost use Rattle.ra_condition.specs.Contents.{trigger_contents, trigger_hits};
ghost use Rattle.ra_condition.specs.Spelled.{IsTrigger};
ghost use Rattle.ra_memref.specs.Table.{IsFresh};
ghost use Rattle.ra_explain.specs.Making.{IsLaidOut};

use ra_condition::TriggerText;
use ra_indirect::Pool;
use ra_member::TriggerRun;
use ra_memref::Table;
use ra_text::OutOfMemory;
use std::alloc::Global;

// A table over the trees of a trigger and images of this many bytes, made to look at them or to be told of writes, and
// the trigger's plan.
pub(crate) fn laid_out(
    alloc: Global,
    text: &TriggerText,
    size: u32,
    looks: bool,
) -> Result<(Table, TriggerRun), OutOfMemory>
    requires few { trigger_hits (trigger_contents text.now) ≤ 65536 }
    requires spelled { IsTrigger (trigger_contents text.now) }
    requires size { size ≤ 2 ^ 27 }
    ensures { IfOk result (λ laid. IsLaidOut (trigger_contents text.now) size laid.0 laid.1) }
{
    let mut pool = Pool::new(alloc);
    let run = TriggerRun::new(alloc, text, &mut pool)?;
    let table = table_over(alloc, pool, size, looks)?;
    Ok((table, run))
}

// A table over a pool, made to look at images or to be told of writes.
fn table_over(alloc: Global, pool: Pool, size: u32, looks: bool) -> Result<Table, OutOfMemory>
    requires size { size ≤ 2 ^ 27 }
    requires few { length pool < 2 ^ 30 }
    ensures { IfOk result (IsFresh pool size) }
{
    if looks {
        Table::for_looks(alloc, pool, size)
    } else {
        Table::new(alloc, pool, size)
    }
}
