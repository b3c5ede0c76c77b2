//! The shapes of items.

ghost use Rattle.std.specs.Prelude.{◌≡◌, ◌<◌, map, All, IfOk};
ghost use Rattle.ra_items.specs.Shapes.{run_shape, board_run_shape, IsSmall};

use crate::board_run::BoardRun;
use crate::item_run::ItemRun;
use ra_progress::ItemShape;
use ra_text::OutOfMemory;
use std::alloc::Global;

/// The shape of each item.
pub fn item_shapes(alloc: Global, runs: &[ItemRun]) -> Result<Vec<ItemShape>, OutOfMemory>
    requires { All IsSmall (map run_shape runs.now) }
    ensures { IfOk result (λ shapes. shapes.items ≡ map run_shape runs.now) }
{
    let mut shapes = Vec::new(alloc);
    for run in runs {
        shapes.push(item_shape(run))?;
    }
    Ok(shapes)
}

// How many hits and parts an item keeps.
fn item_shape(run: &ItemRun) -> ItemShape
    requires { IsSmall (run_shape run.now) }
    ensures { result ≡ run_shape run.now }
{
    match run {
        ItemRun::Achievement(run) => ItemShape::Achievement {
            hits: run.run.trigger.hits().len() as u32,
        },
        ItemRun::Leaderboard(run) => board_shape(run),
    }
}

// How many hits and parts a board keeps.
fn board_shape(run: &BoardRun) -> ItemShape
    requires { IsSmall (board_run_shape run.now) }
    ensures { result ≡ board_run_shape run.now }
{
    let saved = run.member.shape();
    ItemShape::Leaderboard {
        hits: saved.hits as u32,
        parts: saved.numbers as u32,
    }
}
