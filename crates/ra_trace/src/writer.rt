use ra_text::OutOfMemory;
use std::alloc::Global;
use std::marker::Model;

/// A trace file that is written record by record: docs/DEFINITIONS.md, "Trace file".
///
/// It is seen as its memory size and the bytes so far: the trace of the records that it was given, before the end. A
/// call that wants memory leaves it as it was.
#[derive(Drop)]
pub struct Writer {
    size: u32,
    bytes: Vec<u8>,
}

impl Model for Writer {
    ghost use Rattle.ra_trace.specs.Writing.{WriterSeen};

    ghost Value = { WriterSeen };

    ghost view = { λ w. record { size = w.size; bytes = w.bytes.items } };
}

impl Writer {
    ghost use Rattle.std.specs.Prelude.{◌≡◌, ◌+◌, ◌≤◌, ◌^◌, [], ◌++◌, true, length, replicate, List, IfOk, OnOk, OnErr};
    ghost use Rattle.ra_trace.specs.Entries.{Entry, Written, Framed, Saved, Restored, Shown, Ended, header_bytes, entry_bytes, last_slot, most_memory};
    ghost use Rattle.ra_trace.specs.Cutting.{trace_with};
    ghost use Rattle.ra_trace.specs.Rules.{whole_trace};
    ghost use Rattle.ra_trace.specs.Writing.{with_record, Wrote, Adds};

    /// The header of a trace over a memory of `size` bytes, at most 134,217,728.
    #[tactic(auto, using(crate::proofs::Writes::wrote_none))]
    pub fn new(alloc: Global, size: u32) -> Result<Writer, OutOfMemory>
        requires { size ≤ most_memory }
        ensures ok { IfOk result (λ writer. writer ≡ record { size = size; bytes = header_bytes size }) }
        ensures wrote { IfOk result (λ writer. Wrote writer []) }
    {
        let mut bytes = Vec::new(alloc);
        bytes.extend_from_slice(b"RATR\x01")?;
        bytes.extend_from_slice(&size.to_le_bytes())?;
        Ok(Writer { size, bytes })
    }

    /// Adds a write of bytes at the address `at`: at most 65,535 of them, which fit the memory.
    #[tactic(auto, using(crate::proofs::Writes::wrote_more))]
    pub fn write(&mut self, at: u32, bytes: &[u8]) -> Result<(), OutOfMemory>
        requires fits { at + length bytes.now ≤ self.old.size }
        requires short { length bytes.now ≤ 65535 }
        ensures ok { OnOk result (self.new ≡ with_record self.old (Written at bytes.now)) }
        ensures wrote { OnOk result (Adds (Written at bytes.now) self.old self.new) }
        ensures err { OnErr result (self.new ≡ self.old) }
    {
        let count = bytes.len() as u16;
        self.bytes.reserve(7 + bytes.len())?;
        self.bytes.push(b'W')?;
        self.bytes.extend_from_slice(&at.to_le_bytes())?;
        self.bytes.extend_from_slice(&count.to_le_bytes())?;
        self.bytes.extend_from_slice(bytes)?;
        Ok(())
    }

    /// Adds a frame.
    #[tactic(auto, using(crate::proofs::Writes::wrote_more))]
    pub fn frame(&mut self) -> Result<(), OutOfMemory>
        ensures ok { OnOk result (self.new ≡ with_record self.old Framed) }
        ensures wrote { OnOk result (Adds Framed self.old self.new) }
        ensures err { OnErr result (self.new ≡ self.old) }
    {
        self.bytes.push(b'F')?;
        Ok(())
    }

    /// Adds a save to a slot, 0 to 15.
    #[tactic(auto, using(crate::proofs::Writes::wrote_more))]
    pub fn save(&mut self, slot: u8) -> Result<(), OutOfMemory>
        requires { slot ≤ last_slot }
        ensures ok { OnOk result (self.new ≡ with_record self.old (Saved slot)) }
        ensures wrote { OnOk result (Adds (Saved slot) self.old self.new) }
        ensures err { OnErr result (self.new ≡ self.old) }
    {
        self.bytes.extend_from_slice(&[b'S', slot])?;
        Ok(())
    }

    /// Adds a restore of a slot, 0 to 15.
    #[tactic(auto, using(crate::proofs::Writes::wrote_more))]
    pub fn restore(&mut self, slot: u8) -> Result<(), OutOfMemory>
        requires { slot ≤ last_slot }
        ensures ok { OnOk result (self.new ≡ with_record self.old (Restored slot)) }
        ensures wrote { OnOk result (Adds (Restored slot) self.old self.new) }
        ensures err { OnErr result (self.new ≡ self.old) }
    {
        self.bytes.extend_from_slice(&[b'R', slot])?;
        Ok(())
    }

    /// Adds a show.
    #[tactic(auto, using(crate::proofs::Writes::wrote_more))]
    pub fn show(&mut self) -> Result<(), OutOfMemory>
        ensures ok { OnOk result (self.new ≡ with_record self.old Shown) }
        ensures wrote { OnOk result (Adds Shown self.old self.new) }
        ensures err { OnErr result (self.new ≡ self.old) }
    {
        self.bytes.push(b'P')?;
        Ok(())
    }

    /// The bytes, with the end record after them: they are cut into the records that were written, and the end. On
    /// running out of memory they are given up.
    #[tactic(auto, using(crate::proofs::Writes::wrote_all))]
    pub fn finish(self) -> Result<Vec<u8>, OutOfMemory>
        ensures ok { IfOk result (λ bytes. bytes.items ≡ self.bytes ++ entry_bytes Ended) }
        ensures wrote { IfOk result (λ bytes. (entries : List Entry) → Wrote self entries → trace_with (replicate 16 true) bytes.items ≡ whole_trace self.size entries) }
    {
        let mut bytes = self.bytes;
        bytes.push(b'E')?;
        Ok(bytes)
    }
}
