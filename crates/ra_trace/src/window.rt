//! The bytes of a file that are held for its next records.

ghost use Rattle.std.specs.Prelude.{◌≡◌, ◌+◌, ◌≤◌, ◌^◌, [], length, drop, IfOk, OnErr};
ghost use Rattle.ra_io.specs.Causes.{Rose};
ghost use Rattle.ra_io.specs.Files.{OnlyRead, most_place};
ghost use Rattle.ra_trace.specs.Window.{ReadsBehind, room_of};

use ra_io::{Failed, Files};
use ra_text::OutOfMemory;
use std::alloc::Global;
use std::marker::Model;

// How many bytes a window has room for, and how many it asks for at most.
const ROOM: usize = 131_072;

const PIECE: usize = 65_536;

/// Some bytes of a file, one after the other. It is seen as these bytes.
#[derive(Drop)]
pub struct Window {
    buffer: Vec<u8>,
    held: usize,
}

impl Model for Window {
    ghost use Rattle.std.specs.Prelude.{ℕ, List, length, take};
    ghost use Rattle.ra_trace.specs.Window.{IsWindow};

    ghost Value = { List ℕ };

    ghost view = { λ w. take w.held w.buffer.items };

    ghost invariant = { λ w. IsWindow (length w.buffer.items) w.held };
}

impl Window {
    /// A window that holds nothing.
    pub fn new(alloc: Global) -> Result<Window, OutOfMemory>
        ensures { IfOk result (λ window. window ≡ []) }
    {
        let buffer = vec![in alloc; 0u8; ROOM]?;
        Ok(Window { buffer, held: 0 })
    }

    /// How many bytes it holds.
    #[inline(always)]
    pub fn len(&self) -> usize
        ensures length { result ≡ length self.now }
        ensures most { result ≤ room_of }
    {
        self.held
    }

    /// The bytes from a place of it on.
    #[inline(always)]
    pub fn bytes_from(&self, at: usize) -> &[u8]
        requires { at ≤ length self.now }
        ensures { result.now ≡ drop at self.now }
    {
        &self.buffer[at..self.held]
    }

    /// Lets this many bytes at the front go.
    pub fn drop_front(&mut self, count: usize)
        requires { count ≤ length self.old }
        ensures { self.new ≡ drop count self.old }
    {
        if count > 0 {
            self.buffer.copy_within(count..self.held, 0);
            self.held -= count;
        }
    }

    /// Reads on after its bytes what stands at a place of the file, at most this many bytes, and says how many came.
    ///
    /// Without room, or where none may come, an empty buffer is read into.
    pub fn read_on<F: Files>(
        &mut self,
        name: &str,
        at: u64,
        most: u64,
        files: &mut F,
    ) -> Result<usize, Failed>
        requires { at + most ≤ most_place }
        ensures read { IfOk result (λ n. ReadsBehind (F.content files.old name.now) at most n self.old self.new) }
        ensures err { OnErr result (self.new ≡ self.old) }
        ensures failed { OnErr result (Rose (F.read_faults files.old name.now) (F.read_faults files.new name.now)) }
        ensures stays { OnlyRead F.content F.read_faults F.put_faults files.old files.new }
    {
        let room = PIECE.min(ROOM - self.held) as u64;
        let end = self.held + room.min(most) as usize;
        let more = files.read_at(name, at, &mut self.buffer[self.held..end])?;
        self.held += more;
        Ok(more)
    }
}
