//! The lines of a display, each a member of its test, where it has one, and the values of its macros.

ghost use Rattle.std.specs.Prelude.{◌≡◌, ◌+◌, ◌*◌, ◌≤◌, ◌^◌, ◌++◌, ◌∷◌, [], true, None, List, length, map, option_map, IfOk, IfSome};
ghost use Rattle.std.specs.List.{filter_map};
ghost use Rattle.std.specs.Result.{OnOk};
ghost use Rattle.ra_condition.specs.Contents.{trigger_contents};
ghost use Rattle.ra_condition.specs.Spelled.{IsTrigger};
ghost use Rattle.ra_indirect.specs.declared.node.Node.{Node};
ghost use Rattle.ra_richpresence.specs.Contents.{piece_contents, line_contents, value_in};
ghost use Rattle.ra_richpresence.specs.Spelled.{IsPiece};
ghost use Rattle.ra_set.specs.Limits.{optional_trigger, optional_value, line_conditions};
ghost use Rattle.ra_member.specs.Beside.{AreBeside};
ghost use Rattle.ra_member.specs.Members.{MemberContents};
ghost use Rattle.ra_member.specs.MemberRuns.{IsNewMember, StepsValues};
ghost use Rattle.ra_member.specs.Runs.{IsValueRun};
ghost use Rattle.ra_meaning.specs.LineMembers.{tests_in};
ghost use Rattle.ra_display.specs.NewPresence.{IsNewLine};
ghost use Rattle.ra_meaning.specs.ShownLines.{IsShownLine};
ghost use Rattle.ra_display.specs.PresenceRuns.{IsLineRun, StepsLine};

use ra_condition::TriggerText;
use ra_indirect::Pool;
use ra_member::Member;
use ra_memref::Table;
use ra_richpresence::{Line, Piece};
use ra_text::OutOfMemory;
use std::alloc::Global;

// A line that was never stepped, with its trees in the pool: its test before its macros.
pub fn new_line(alloc: Global, line: &Line, pool: &mut Pool) -> Result<Member, OutOfMemory>
    requires spelled { IsShownLine (line_contents line.now) }
    requires room { length pool.old + 13 * line_conditions (line_contents line.now) + 2 ≤ 2 ^ 31 }
    ensures { IfOk result (IsNewLine pool.old pool.new (line_contents line.now)) }
{
    let mut member = tested(alloc, &line.test, pool)?;
    for piece in &line.pieces {
        put_piece(alloc, &mut member, piece, pool)?;
    }
    Ok(member)
}

// A member of a test that may be missing, without values.
fn tested(alloc: Global, text: &Option<TriggerText>, pool: &mut Pool) -> Result<Member, OutOfMemory>
    requires spelled { IfSome (option_map trigger_contents text.now) IsTrigger }
    requires room { length pool.old + 13 * optional_trigger (option_map trigger_contents text.now) + 2 ≤ 2 ^ 31 }
    ensures { IfOk result (IsNewMember pool.old pool.new
        (record { tests = tests_in (option_map trigger_contents text.now); values = [] })) }
{
    // This call tells that the nodes are those of a pool, which the proof needs.
    let _ = pool.len();
    let mut member = Member::new(alloc);
    match text {
        Some(text) => {
            member.add_test(alloc, text, pool)?;
            Ok(member)
        }
        None => Ok(member),
    }
}

// Puts the value of a macro after those before it. Text has none.
fn put_piece(
    alloc: Global,
    member: &mut Member,
    piece: &Piece,
    pool: &mut Pool,
) -> Result<(), OutOfMemory>
    requires spelled { IsPiece (piece_contents piece.now) }
    requires room { length pool.old + 13 * optional_value (value_in (piece_contents piece.now)) + 2 ≤ 2 ^ 31 }
    ensures { OnOk result ((before : List Node) (m : MemberContents) → IsNewMember before pool.old m member.old
        → IsNewMember before pool.new (record m {
          values = m.values ++ filter_map value_in (piece_contents piece.now ∷ []);
        }) member.new) }
{
    match piece {
        Piece::Text(_) => Ok(()),
        Piece::Macro { value, .. } => {
            member.add_value(alloc, value, pool)?;
            Ok(())
        }
    }
}

// Steps a line by the frame of the table's last sample, and says whether it holds.
pub fn step_line(member: &mut Member, line: &Line, table: &Table) -> bool
    requires run { IsLineRun table.now.nodes (line_contents line.now) member.old }
    requires sampled { table.now.sampled ≡ true }
    ensures run { IsLineRun table.now.nodes (line_contents line.now) member.new }
    ensures steps { StepsLine table.now (line_contents line.now) member.old member.new result }
    ensures untested { (line_contents line.now).test ≡ None → result ≡ true }
{
    step_macros(member, &line.pieces, table);
    match &line.test {
        Some(text) => member.step_test(0, text, table),
        None => true,
    }
}

// Steps the values of the macros among some pieces.
fn step_macros(member: &mut Member, pieces: &[Piece], table: &Table)
    requires values { AreBeside (IsValueRun table.now.nodes)
        (filter_map value_in (map piece_contents pieces.now)) member.old.values.items }
    requires sampled { table.now.sampled ≡ true }
    ensures { StepsValues table.now (filter_map value_in (map piece_contents pieces.now)) member.old member.new }
{
    let mut place = 0;
    for piece in pieces {
        if let Piece::Macro { value, .. } = piece {
            member.step_value(place, value, table);
            place += 1;
        }
    }
}
