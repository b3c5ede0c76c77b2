//! Files that are read whole, up to a limit.

ghost use Rattle.std.specs.Prelude.{◌≡◌, ℕ, ◌^◌, ◌<◌, ◌≤◌, take, vec_len, IfOk, IsErrOf, IfSome};
ghost use Rattle.ra_io.specs.Causes.{Rose};
ghost use Rattle.ra_io.specs.Files.{OnlyRead};
ghost use Rattle.ra_jobs.specs.Reading.{ReadsOn};
ghost use Rattle.ra_jobs.specs.declared.reading.ReadFailed.TheVariants as read;

use ra_io::{Failed, Files};
use std::alloc::{AllocError, Global};

/// Why a file is not read.
#[derive(Clone, Copy, Debug, PartialEq, Eq)]
pub enum ReadFailed {
    /// There was no memory for its bytes.
    Memory,
    /// A read of it failed.
    Failed,
}

impl From<AllocError> for ReadFailed {
    ghost from_gives = { λ _ e. e ≡ read.Memory };

    fn from(_error: AllocError) -> ReadFailed {
        ReadFailed::Memory
    }
}

// The most bytes of one read.
const CHUNK: usize = 4096;

// Reads on after the bytes that are there, and says whether more may come.
fn read_on<F: Files>(
    name: &str,
    limit: usize,
    bytes: &mut Vec<u8>,
    files: &mut F,
) -> Result<bool, ReadFailed>
    requires room { vec_len bytes.old < limit }
    requires limit { limit ≤ 2 ^ 40 }
    ensures ok { IfOk result (λ more. (n : ℕ) × ReadsOn (F.content files.old name.now) bytes.old.items bytes.new.items more n × (vec_len bytes.new ≤ limit)) }
    ensures stays { OnlyRead F.content F.read_faults F.put_faults files.old files.new }
    ensures failed { IsErrOf result ReadFailed.Failed → Rose (F.read_faults files.old name.now) (F.read_faults files.new name.now) }
{
    let mut buf = [0u8; CHUNK];
    let room = CHUNK.min(limit - bytes.len());
    let read = files.read_at(name, bytes.len() as u64, &mut buf[..room]);
    match read {
        Ok(n) => {
            bytes.extend_from_slice(&buf[..n])?;
            Ok(0 < n)
        }
        Err(Failed) => Err(ReadFailed::Failed),
    }
}

/// The bytes of a file, up to a limit. It stops at a read that failed, and where memory ran out; no file changes.
pub fn read_whole<F: Files>(
    alloc: Global,
    name: &str,
    limit: usize,
    files: &mut F,
) -> Result<Vec<u8>, ReadFailed>
    requires { limit ≤ 2 ^ 40 }
    ensures ok { IfOk result (λ bytes. IfSome (F.content files.old name.now) (λ all. bytes.items ≡ take limit all)) }
    ensures stays { OnlyRead F.content F.read_faults F.put_faults files.old files.new }
    ensures failed { IsErrOf result ReadFailed.Failed → Rose (F.read_faults files.old name.now) (F.read_faults files.new name.now) }
{
    let mut bytes = Vec::new(alloc);
    while bytes.len() < limit {
        if !read_on(name, limit, &mut bytes, files)? {
            return Ok(bytes);
        }
    }
    Ok(bytes)
}
