//! The trace of a workload: docs/DEFINITIONS.md, "Workload".

ghost use Rattle.std.specs.Prelude.{◌≡◌, ◌+◌, ◌*◌, [], ◌∷◌, IfOk, OnOk};
ghost use Rattle.ra_trace.specs.Entries.{Framed};
ghost use Rattle.ra_trace.specs.Workload.{writes, after_frame, drawn_times, made_size, made_trace};
ghost use Rattle.ra_trace.specs.Writing.{with_records};

use crate::draws::Draws;
use crate::writer::Writer;
use ra_text::OutOfMemory;
use std::alloc::Global;

// The bytes of the memory.
const SIZE: u32 = 65_536;

// How many writes come before a frame.
const WRITES: u32 = 8;

// How many frames a trace has.
const FRAMES: u32 = 4_096;

// Writes this many drawn bytes.
fn write_bytes(writer: &mut Writer, count: u32, draws: &mut Draws) -> Result<(), OutOfMemory>
    requires { writer.old.size ≡ made_size }
    ensures records { OnOk result (writer.new ≡ with_records writer.old (writes count draws.old [])) }
    ensures draws { OnOk result (draws.new ≡ drawn_times (2 * count) draws.old) }
{
    for _ in 0..count {
        let at = u32::from(draws.draw());
        let byte = (draws.draw() % 256) as u8;
        writer.write(at, &[byte])?;
    }
    Ok(())
}

// Writes what follows a frame.
fn write_behind_frame(writer: &mut Writer, frame: u32) -> Result<(), OutOfMemory>
    ensures { OnOk result (writer.new ≡ with_records writer.old (after_frame frame [])) }
{
    if frame % 64 == 63 {
        writer.save((frame / 64 % 16) as u8)?;
    }
    if frame % 512 == 511 {
        writer.show()?;
        writer.restore(0)?;
    }
    Ok(())
}

/// The trace file of the workload of a number: docs/DEFINITIONS.md, "Workload".
pub fn make_trace(alloc: Global, number: u32) -> Result<Vec<u8>, OutOfMemory>
    ensures { IfOk result (λ bytes. bytes.items ≡ made_trace number) }
{
    let mut writer = Writer::new(alloc, SIZE)?;
    let mut draws = Draws::new(number.wrapping_add(1));
    for frame in 0..FRAMES {
        write_bytes(&mut writer, WRITES, &mut draws)?;
        writer.frame()?;
        write_behind_frame(&mut writer, frame)?;
    }
    writer.finish()
}
