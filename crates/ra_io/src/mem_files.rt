ghost use Rattle.std.specs.Prelude.{◌≡◌, ◌⊎◌, ◌↔◌, ◌+◌, ◌-◌, ◌^◌, ◌≤◌, ℕ, List, [], None, Some, IsNone, IsErr, OnOk, OnErr, IfOk, IsErrOf, is_err, length, min};
ghost use Rattle.ra_io.specs.Causes.{Rose, NoneFell};
ghost use Rattle.ra_io.specs.Files.{ReadsAt, SameContent, most_place};
ghost use Rattle.ra_io.specs.Held.{SetsName, IsListed, bytes_under, no_calls, counted, put_failed};

use crate::calls::Calls;
use crate::sure_files::SureFiles;
use crate::{Failed, Files, PutFailed};
use ra_text::OutOfMemory;
use std::alloc::Global;

/// Files in memory that fail at the calls that are listed: docs/DEFINITIONS.md, "Files in memory".
///
/// Reads and puts are counted apart, from 1 on since `new`, calls that fail and calls with an
/// empty buffer among them. A read of a name that is not there is a fault too.
#[derive(Drop)]
pub struct MemFiles {
    files: SureFiles,
    reads: Calls,
    puts: Calls,
}

impl MemFiles {
    ghost use Rattle.ra_io.specs.MemFiles.{seen};

    /// No names, and no call is to fail.
    pub fn new(alloc: Global) -> Result<MemFiles, OutOfMemory>
        ensures names { IfOk result (λ files. (name : List ℕ) → (seen files).names name ≡ None) }
        ensures reads { IfOk result (λ files. (seen files).reads ≡ no_calls []) }
        ensures puts { IfOk result (λ files. (seen files).puts ≡ no_calls []) }
    {
        Ok(MemFiles {
            files: SureFiles::new(alloc)?,
            reads: Calls::new(Vec::new(alloc)),
            puts: Calls::new(Vec::new(alloc)),
        })
    }

    /// Sets the content of one name; no call is counted. When memory runs out, every name stays as it
    /// was.
    pub fn add(&mut self, name: &str, bytes: &[u8]) -> Result<(), OutOfMemory>
        ensures ok { OnOk result (SetsName (seen self.old).names (seen self.new).names name.now bytes.now) }
        ensures err { OnErr result (SameContent (seen self.old).names (seen self.new).names) }
        ensures reads { (seen self.new).reads ≡ (seen self.old).reads }
        ensures puts { (seen self.new).puts ≡ (seen self.old).puts }
    {
        self.files.add(name, bytes)
    }

    /// Sets the numbers of the reads and of the puts that are to fail, in place of those before.
    /// The counting goes on.
    pub fn fail(&mut self, reads: Vec<u64>, puts: Vec<u64>)
        ensures reads { (seen self.new).reads ≡ record (seen self.old).reads { failing = reads.items } }
        ensures puts { (seen self.new).puts ≡ record (seen self.old).puts { failing = puts.items } }
        ensures names { SameContent (seen self.old).names (seen self.new).names }
    {
        self.reads.list(reads);
        self.puts.list(puts);
    }
}

impl Files for MemFiles {
    ghost use Rattle.ra_io.specs.MemFiles.{seen};

    ghost content = { λ s name. Some (bytes_under (seen s).names name) };

    ghost read_faults = { λ s _. s.reads.faults };

    ghost put_faults = { λ s _. s.puts.faults };

    /// Fails exactly where the call is listed or the name is not there; else it gives as many
    /// bytes as there are and as there is room for.
    fn read_at(&mut self, name: &str, at: u64, buf: &mut [u8]) -> Result<usize, Failed>
        requires { at + length buf.old ≤ most_place }

        // What was read.
        ensures bound { IfOk result (λ n. n ≤ length buf.new) }
        ensures bytes { IfOk result (λ n. ReadsAt (bytes_under (seen self.old).names name.now) at n buf.new) }
        ensures amount { IfOk result (λ n. n ≡ min (length buf.old) (length (bytes_under (seen self.old).names name.now) - at)) }

        // When it fails, and what is counted.
        ensures exact { IsErr result ↔ (IsListed (seen self.old).reads ⊎ IsNone ((seen self.old).names name.now)) }
        ensures failed { OnErr result (Rose (seen self.old).reads.faults (seen self.new).reads.faults) }
        ensures counted { (seen self.new).reads ≡ counted (is_err result) (seen self.old).reads }
        ensures later { (seen self.old).reads.faults ≤ (seen self.new).reads.faults }

        // What stays.
        ensures names { SameContent (seen self.old).names (seen self.new).names }
        ensures puts { (seen self.new).puts ≡ (seen self.old).puts }
    {
        let listed = self.reads.begin();
        if listed || !self.files.has(name) {
            self.reads.add_fault();
            return Err(Failed);
        }
        Ok(self.files.copy(name, at, buf))
    }

    /// Fails exactly where the call is listed, and then no name changes.
    fn put(&mut self, name: &str, bytes: &[u8]) -> Result<(), PutFailed>
        // What was put.
        ensures ok { OnOk result (SetsName (seen self.old).names (seen self.new).names name.now bytes.now) }
        ensures err { OnErr result (SameContent (seen self.old).names (seen self.new).names) }

        // When it fails, and what is counted.
        ensures exact { IsErrOf result PutFailed.Failed ↔ IsListed (seen self.old).puts }
        ensures failed { IsErrOf result PutFailed.Failed → Rose (seen self.old).puts.faults (seen self.new).puts.faults }
        ensures counted { (seen self.new).puts ≡ counted (put_failed result) (seen self.old).puts }
        ensures later { (seen self.old).puts.faults ≤ (seen self.new).puts.faults }

        // What stays.
        ensures reads { (seen self.new).reads ≡ (seen self.old).reads }
    {
        if self.puts.begin() {
            self.puts.add_fault();
            return Err(PutFailed::Failed);
        }
        match self.files.add(name, bytes) {
            Ok(()) => Ok(()),
            Err(OutOfMemory) => Err(PutFailed::Memory),
        }
    }
}
