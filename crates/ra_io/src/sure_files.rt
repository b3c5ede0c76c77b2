ghost use Rattle.std.specs.Prelude.{◌≡◌, ◌+◌, ◌-◌, ◌^◌, ◌≤◌, ℕ, List, None, Some, IsOk, IsOkUnless, OnOk, OnErr, IfOk, is_some, length, min};
ghost use Rattle.ra_io.specs.Files.{ReadsAt, SameContent, most_place};
ghost use Rattle.ra_io.specs.Held.{SetsName, bytes_under};

use crate::copies::copy_at;
use crate::{Failed, Files, PutFailed};
use ra_text::OutOfMemory;
use std::alloc::Global;
use std::collections::BTreeMap;

/// Files in memory that never fail, with a file for each name that was added: docs/DEFINITIONS.md,
/// "Files in memory".
#[derive(Drop)]
pub struct SureFiles {
    alloc: Global,
    files: BTreeMap<String, Vec<u8>>,
}

impl SureFiles {
    ghost use Rattle.ra_io.specs.SureFiles.{names_of};

    /// No names.
    pub fn new(alloc: Global) -> Result<SureFiles, OutOfMemory>
        ensures { IfOk result (λ files. (name : List ℕ) → names_of files name ≡ None) }
    {
        Ok(SureFiles {
            alloc,
            files: BTreeMap::new(alloc),
        })
    }

    /// Sets the content of one name. When memory runs out, every name stays as it was.
    pub fn add(&mut self, name: &str, bytes: &[u8]) -> Result<(), OutOfMemory>
        ensures ok { OnOk result (SetsName (names_of self.old) (names_of self.new) name.now bytes.now) }
        ensures err { OnErr result (SameContent (names_of self.old) (names_of self.new)) }
    {
        let key = String::from_str(self.alloc, name)?;
        let content = Vec::from_slice(self.alloc, bytes)?;
        self.files.insert(key, content)?;
        Ok(())
    }

    /// Whether a name is there.
    pub(crate) fn has(&self, name: &str) -> bool
        ensures { result ≡ is_some (names_of self.now name.now) }
    {
        self.files.contains_key(name)
    }

    /// Copies the bytes of a name at a place, as many as there are and as there is room for, and
    /// says how many.
    pub(crate) fn copy(&self, name: &str, at: u64, buf: &mut [u8]) -> usize
        ensures amount { result ≡ min (length buf.old) (length (bytes_under (names_of self.now) name.now) - at) }
        ensures read { ReadsAt (bytes_under (names_of self.now) name.now) at result buf.new }
    {
        match self.files.get(name) {
            Some(content) => copy_at(content.as_slice(), at, buf),
            None => copy_at(&[], at, buf),
        }
    }
}

impl Files for SureFiles {
    ghost use Rattle.ra_io.specs.SureFiles.{names_of};

    ghost content = { λ s name. Some (bytes_under (names_of s) name) };

    ghost read_faults = { λ _ _. 0 };

    ghost put_faults = { λ _ _. 0 };

    /// Never fails, and gives as many bytes as there are and as there is room for.
    fn read_at(&mut self, name: &str, at: u64, buf: &mut [u8]) -> Result<usize, Failed>
        requires { at + length buf.old ≤ most_place }
        ensures bound { IfOk result (λ n. n ≤ length buf.new) }
        ensures bytes { IfOk result (λ n. ReadsAt (bytes_under (names_of self.old) name.now) at n buf.new) }
        ensures exact { IsOk result }
        ensures amount { IfOk result (λ n. n ≡ min (length buf.old) (length (bytes_under (names_of self.old) name.now) - at)) }
        ensures names { SameContent (names_of self.old) (names_of self.new) }
    {
        Ok(self.copy(name, at, buf))
    }

    /// Fails only for running out of memory.
    fn put(&mut self, name: &str, bytes: &[u8]) -> Result<(), PutFailed>
        ensures ok { OnOk result (SetsName (names_of self.old) (names_of self.new) name.now bytes.now) }
        ensures exact { IsOkUnless result PutFailed.Memory }
        ensures err { OnErr result (SameContent (names_of self.old) (names_of self.new)) }
    {
        match self.add(name, bytes) {
            Ok(()) => Ok(()),
            Err(OutOfMemory) => Err(PutFailed::Memory),
        }
    }
}
