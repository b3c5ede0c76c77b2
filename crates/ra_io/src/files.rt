//! Files by name, and how a call on them fails.

ghost use Rattle.std.specs.Prelude.{◌≡◌, ℕ, ◌+◌, ◌≤◌, Option, List, length, Some, IfOk, OnOk, OnErr, IfSome, IsErrOf};
ghost use Rattle.ra_io.specs.Causes.{Rose, NoneFell};
ghost use Rattle.ra_io.specs.Files.{ReadsAt, OnlyRead, SameContent, SameBut, most_place};

/// A read failed.
#[derive(Clone, Copy, Debug, PartialEq, Eq)]
pub struct Failed;

/// A put failed, or there was no memory for it.
#[derive(Clone, Copy, Debug, PartialEq, Eq)]
pub enum PutFailed {
    /// The put met a fault, which was counted.
    Failed,
    /// There was no memory for it, and every name is as it was.
    Memory,
}

/// Files by name: docs/DEFINITIONS.md, "Files and sinks".
///
/// Who tells content tells it of every name: a name that is not there reads as an empty file, and its
/// content is `Some []`. Of a name whose content is `None` nothing is promised of what a read gives and
/// what a put leaves.
pub trait Files {
    /// The bytes under a name; none where the files do not tell them.
    ghost content: { Self → List ℕ → Option (List ℕ) };

    /// How often reads of a name have failed.
    ghost read_faults: { Self → List ℕ → ℕ };

    /// How often puts of a name have failed.
    ghost put_faults: { Self → List ℕ → ℕ };

    /// Reads bytes at a place, counted from 0, into the front of the buffer, and says how many.
    ///
    /// The place and the room of the buffer together are at most 2^41. With room in the buffer,
    /// none come only at the end of the file or past it. `Failed` comes only where a fault of this
    /// name was counted. What stands in the buffer after the bytes that were read is left open,
    /// and so is all of it after an error.
    fn read_at(&mut self, name: &str, at: u64, buf: &mut [u8]) -> Result<usize, Failed>
        requires { at + length buf.old ≤ most_place }

        // What was read.
        ensures bound { IfOk result (λ n. n ≤ length buf.new) }
        ensures bytes { IfOk result (λ n. IfSome (content self.old name.now) (λ bytes. ReadsAt bytes at n buf.new)) }

        // What a fault shows.
        ensures failed { OnErr result (Rose (read_faults self.old name.now) (read_faults self.new name.now)) }

        // What stays.
        ensures stays { OnlyRead content read_faults put_faults self.old self.new };

    /// Replaces the whole content of one name; every other name stays.
    ///
    /// `Failed` comes only where a fault of this name was counted, and then the name may hold
    /// anything. `Memory` leaves every name as it was.
    fn put(&mut self, name: &str, bytes: &[u8]) -> Result<(), PutFailed>
        // What was put.
        ensures ok { OnOk result (IfSome (content self.old name.now) (λ _. content self.new name.now ≡ Some bytes.now)) }
        ensures others { SameBut name.now (content self.old) (content self.new) }

        // What a fault shows, and that running out of memory leaves everything.
        ensures failed { IsErrOf result PutFailed.Failed → Rose (put_faults self.old name.now) (put_faults self.new name.now) }
        ensures memory { IsErrOf result PutFailed.Memory → SameContent (content self.old) (content self.new) }

        // What stays.
        ensures reads { NoneFell (read_faults self.old) (read_faults self.new) }
        ensures puts { NoneFell (put_faults self.old) (put_faults self.new) };
}
