ghost use Rattle.std.specs.Prelude.{◌≡◌, ◌≤◌, ◌^◌, true, length, None, IfOk, IfErr, IfSome};
ghost use Rattle.ra_condition.specs.Contents.{trigger_contents};
ghost use Rattle.ra_calls.specs.Recordings.{RecordsFrame};

use crate::told_unlock::{ToldHits, ToldUnlock, head_of, hits_of};
use ra_condition::TriggerText;
use ra_explain::Recording;
use ra_memory::Image;
use ra_text::OutOfMemory;
use std::alloc::Global;
use std::marker::Model;

/// An achievement that is recorded. It is seen as its recording.
#[derive(Drop)]
pub struct Recorded {
    recording: Recording,
    // whether the last frame was an unlock
    unlocked: bool,
}

impl Model for Recorded {
    ghost use Rattle.ra_explain.specs.Recordings.{RecordingSeen};

    ghost Value = { RecordingSeen };

    ghost use Rattle.ra_calls.specs.RecordingViews.{recording_seen, IsRecorded};

    ghost view = { recording_seen };

    ghost invariant = { IsRecorded };
}

impl Recorded {
    ghost use Rattle.ra_explain.specs.Recordings.{IsBegun};
    ghost use Rattle.ra_calls.specs.Choosing.{MayBeRecorded};
    ghost use Rattle.ra_calls.specs.Recordings.{FramesOrRefuses};
    ghost use Rattle.ra_calls.specs.Tellings.{TellsLast};

    /// The recording of a trigger from now on, over memories of `size` bytes.
    pub fn begun(alloc: Global, text: TriggerText, size: u32) -> Result<Recorded, OutOfMemory>
        requires usable { MayBeRecorded (trigger_contents text) }
        requires size { size ≤ 2 ^ 27 }
        ensures { IfOk result (IsBegun (trigger_contents text) size) }
    {
        let recording = Recording::for_looks(alloc, text, size)?;
        Ok(Recorded {
            recording,
            unlocked: false,
        })
    }

    /// Takes one frame of an image of the size, and answers whether it was taken.
    pub fn follow<I: Image>(&mut self, image: &mut I) -> bool
        requires { length (I.bytes image.old) ≡ self.old.size }
        ensures taken { FramesOrRefuses result (I.bytes image.old) self.old self.new }
    {
        match self.recording.follow(image) {
            Ok(unlocked) => {
                self.unlocked = unlocked;
                true
            }
            Err(_) => false,
        }
    }

    /// Why the unlock at the last frame came; none where the last frame was no unlock.
    pub fn explain(&self, alloc: Global) -> Result<Option<Told>, OutOfMemory>
        ensures told { IfOk result (TellsLast self.now) }
        ensures due { IfErr result (λ _. self.now.unlocked ≡ true) }
    {
        if !self.unlocked {
            return Ok(None);
        }
        let explanation = self.recording.explain(alloc)?;
        let hits = hits_of(alloc, &explanation.events)?;
        Ok(Some(Told {
            head: head_of(&explanation),
            hits,
        }))
    }
}

/// An explanation, as C reads it.
#[derive(Drop)]
pub struct Told {
    pub head: ToldUnlock,
    pub hits: Vec<ToldHits>,
}

/// Takes the frame, where something is recorded. What refuses it is given up.
pub fn follow_too<I: Image>(recorded: &mut Option<Recorded>, image: &mut I)
    requires { IfSome recorded.old (λ r. length (I.bytes image.old) ≡ r.size) }
    ensures { RecordsFrame (I.bytes image.old) recorded.old recorded.new }
{
    let Some(own) = recorded else {
        return;
    };
    if !own.follow(image) {
        give_up(recorded);
    }
}

// Records no longer. It stands apart, since a frame has no room for a recording that is moved.
#[inline(never)]
fn give_up(recorded: &mut Option<Recorded>)
    ensures { recorded.new ≡ None }
{
    drop(recorded.take());
}
