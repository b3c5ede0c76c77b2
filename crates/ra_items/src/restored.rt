//! What the runs keep, put back from the bytes of a progress file.

ghost use Rattle.std.specs.Prelude.{◌≡◌, ◌<◌, ◌≤◌, ℕ, None, List, length, map, get_or, slice_index_or};
ghost use Rattle.ra_indirect.specs.declared.node.Node.{Node};
ghost use Rattle.ra_set.specs.Contents.{ItemContents};
ghost use Rattle.ra_progress.specs.declared.shape.ItemShape.{ItemShape};
ghost use Rattle.ra_items.specs.declared.item_run.ItemRun.TheVariants.{Achievement};
ghost use Rattle.ra_items.specs.ItemRuns.{kept_run};
ghost use Rattle.ra_items.specs.AllRuns.{AreItemRuns};
ghost use Rattle.ra_items.specs.Shapes.{board_run_shape, run_shape};
ghost use Rattle.ra_items.specs.Restoring.{HasItem, PutsBackBoard, PutsBackItem, restored_items};

use crate::achievement_run::AchievementRun;
use crate::board_run::BoardRun;
use crate::item_run::ItemRun;
use ra_leaderboard::BoardState;
use ra_member::Places;
use ra_progress::{achievement_block, board_block};
use ra_trigger::State;

/// Puts back what the bytes say of all items, by the places of their blocks. What is earned stays earned.
pub fn put_back_runs(runs: &mut [ItemRun], bytes: &[u8], places: &[Option<u64>])
    requires many { length runs.old ≤ length places.now }
    requires blocks { (k : ℕ) (d : ItemShape) → k < length runs.old
        → HasItem bytes.now (slice_index_or places.now k None) (get_or (map run_shape runs.old) k d) }
    ensures kept { map kept_run runs.new ≡ restored_items bytes.now runs.old places.now }
    ensures runs { (nodes : List Node) (items : List ItemContents) → AreItemRuns nodes items runs.old → AreItemRuns nodes items runs.new }
{
    for place in 0..runs.len() {
        put_back_item(&mut runs[place], bytes, places[place]);
    }
}

// Puts back what the bytes say of an item, by the place of its block; without one it waits.
fn put_back_item(run: &mut ItemRun, bytes: &[u8], place: Option<u64>)
    requires { HasItem bytes.now place (run_shape run.old) }
    ensures { PutsBackItem bytes.now place run.old run.new }
{
    match run {
        ItemRun::Achievement(run) => put_back_achievement(run, bytes, place),
        ItemRun::Leaderboard(run) => put_back_board(run, bytes, place),
    }
}

// Puts back what the bytes say of an achievement, by the place of its block; without one it waits. It stays earned.
fn put_back_achievement(run: &mut AchievementRun, bytes: &[u8], place: Option<u64>)
    requires { HasItem bytes.now place (run_shape (Achievement run.old)) }
    ensures { PutsBackItem bytes.now place (Achievement run.old) (Achievement run.new) }
{
    let earned = run.is_earned();
    match place {
        Some(at) => {
            let block = achievement_block(bytes, at);
            let hits = block.hits as usize;
            let end = hits + 4 * run.run.trigger.hits().len();
            let state = State::of_byte(block.state);
            run.earned = earned | block.earned;
            run.run
                .trigger
                .put_back(state, block.measured, &bytes[hits..end]);
        }
        None => {
            run.earned = earned;
            run.run.trigger.clear();
        }
    }
}

// Puts back what the bytes say of a board, by the place of its block; without one it waits.
fn put_back_board(run: &mut BoardRun, bytes: &[u8], place: Option<u64>)
    requires { HasItem bytes.now place (board_run_shape run.old) }
    ensures { PutsBackBoard bytes.now place run.old run.new }
{
    match place {
        Some(at) => {
            let block = board_block(bytes, at, run.member.shape().hits as u64);
            run.board.put_back(BoardState::of_byte(block.state));
            let hits = block.hits as usize;
            let numbers = block.numbers as usize;
            run.member.put_back(bytes, Places { hits, numbers });
        }
        None => {
            run.board.put_back(BoardState::Waiting);
            run.member.clear();
        }
    }
}
