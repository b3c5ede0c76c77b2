//! How many frames are owed.

ghost use Rattle.std.specs.Prelude.{◌-◌};
ghost use Rattle.ra_schedule.specs.Owing.{AreFramesOwed};

// How many frames are owed between two counts of frames, as far as hits can tell: at most 4,294,967,295.
pub(crate) fn owed(since: u64, now: u64) -> u32
    ensures { AreFramesOwed (now - since) result }
{
    let frames = now.saturating_sub(since);
    if frames < 4_294_967_295 {
        frames as u32
    } else {
        4_294_967_295
    }
}
