ghost use Rattle.std.specs.Prelude.{◌≡◌, ◌+◌, ◌≤◌, length, IfOk};
ghost use Rattle.ra_embed.specs.Embedding.{PlaysFrame, TellsOf};

use ra_runtime::{Event, Runtime};
use ra_text::OutOfMemory;
use std::alloc::Global;

/// What an emulator takes from a frame.
#[derive(Drop)]
pub struct Told {
    /// What happened: docs/DEFINITIONS.md, "Events".
    pub events: Vec<Event>,
    /// The presence line after it, as bytes; empty where the set has no script.
    pub presence: Vec<u8>,
    /// The progress file of what is kept after it, as bytes.
    pub progress: Vec<u8>,
}

/// Writes the bytes from the address `at` on, takes a frame, and tells what happened.
///
/// Only memory can run out, and then the frame was taken all the same.
pub fn play_frame(
    alloc: Global,
    runtime: &mut Runtime,
    at: u32,
    bytes: &[u8],
) -> Result<Told, OutOfMemory>
    requires { at + length bytes.now ≤ length runtime.old.image }
    ensures played { PlaysFrame runtime.old runtime.new at bytes.now }
    ensures told { IfOk result (λ told. TellsOf runtime.new told.events.items told.presence.items told.progress.items) }
{
    runtime.write(at, bytes);
    runtime.advance();
    Ok(Told {
        events: runtime.events().collect(alloc)?,
        presence: runtime.show(alloc)?,
        progress: runtime.save(alloc)?,
    })
}
