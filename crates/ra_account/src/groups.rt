//! A frame noted in the accounts of several groups.

ghost use Rattle.std.specs.Prelude.{◌≡◌, ◌+◌, ◌<◌, ◌≤◌, ◌^◌, ◌∷◌, List, drop, length, map, sum_by};
ghost use Rattle.ra_condition.specs.Contents.{group_contents};
ghost use Rattle.ra_trigger.specs.Steps.{frames_along};
ghost use Rattle.ra_account.specs.Groups.{AllWant, GroupRow, AreGroupAccounts, AreReady, IsRowOf, row_in};
ghost use Rattle.ra_account.specs.Stops.{stops_of_all};

use crate::frame_row::FrameRow;
use crate::group_account::GroupAccount;
use crate::stops::Stops;
use ra_condition::Group;

// Notes in the account of each group what a frame shows of its conditions, after all frames before it, and tells whether
// all groups are paused and whether some resets.
//
// The row runs over the conditions of all groups of a trigger, and those of these groups start at `from`.
pub(crate) fn note_groups(
    accounts: &mut [GroupAccount],
    groups: &[Group],
    from: usize,
    frame: &FrameRow<'_>,
) -> Stops
    requires ready { AreReady (map group_contents groups.now) frame.now.at accounts.old }
    requires few { frame.now.at < 2 ^ 60 }
    requires row { IsRowOf (length frame.now.row.truths.now) (row_in frame.now.row) }
    requires within { from + sum_by length (map group_contents groups.now) ≤ length frame.now.row.truths.now }

    ensures ready { AreReady (map group_contents groups.now) (frame.now.at + 1) accounts.new }
    ensures noted { (earlier : List GroupRow)
        → AreGroupAccounts (map group_contents groups.now) from frame.now.size earlier accounts.old
        → AreGroupAccounts (map group_contents groups.now) from frame.now.size
        (row_in frame.now.row ∷ earlier) accounts.new }
    ensures wants { AllWant (map group_contents groups.now) from (row_in frame.now.row) accounts.new }
    ensures stops { result ≡ stops_of_all (frames_along (map group_contents groups.now)
        (drop from frame.now.row.truths.now) (drop from frame.now.row.lefts.now) (drop from frame.now.row.hits.now)) }
{
    let mut paused = true;
    let mut reset = false;
    let mut start = from;
    for place in 0..accounts.len() {
        let group = &groups[place];
        let end = start + group.conditions.len();
        let part = FrameRow {
            at: frame.at,
            size: frame.size,
            row: frame.row.part(start, end),
        };
        let stops = accounts[place].note(group, &part);
        paused &= stops.paused;
        reset |= stops.reset;
        start = end;
    }
    Stops { paused, reset }
}
