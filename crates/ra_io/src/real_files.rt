ghost use Rattle.std.specs.Prelude.{◌≡◌, ◌≤◌, length, None, IfOk};
ghost use Rattle.ra_io.specs.Held.{FaultsSeen};

use crate::real_put::put_file;
use crate::{Failed, Files, PutFailed};
use std::alloc::Alloc;
use std::io::{Read, Seek, SeekFrom};
use std::marker::Model;
use std::{fs, io};

// A file that was read, and the place after the bytes that it gave.
#[derive(Drop)]
struct Opened<R: std::rt::Files + Alloc> {
    name: String<R::A>,
    at: u64,
    file: R::File,
}

/// The files of the system, a thin adapter: docs/DEFINITIONS.md, "Files in memory".
///
/// A read that goes on where the last one of its file ended reads on from it, so that a pipe can be read;
/// every other one opens its file anew. A put that fails leaves what stood under the name, where that is a regular file or
/// nothing: the bytes are written into a file beside it, which takes the name once they are all there. A link, a device
/// or a pipe is written in place. It tells no content. Each error of the system is counted as a fault.
#[derive(Drop)]
pub struct RealFiles<'a, R: std::rt::Files + Alloc> {
    rt: &'a R,
    last: Option<Opened<R>>,
    reads: u64,
    puts: u64,
}

impl<'a, R: std::rt::Files + Alloc> Model for RealFiles<'a, R> {
    ghost Value = { FaultsSeen };

    ghost view = { λ s. record { reads = s.reads; puts = s.puts } };
}

impl<'a, R: std::rt::Files + Alloc> RealFiles<'a, R> {
    /// The files that the runtime gives, with no faults yet.
    pub fn new(rt: &'a R) -> RealFiles<'a, R>
        ensures { result ≡ record { reads = 0; puts = 0 } }
    {
        RealFiles {
            rt,
            last: None,
            reads: 0,
            puts: 0,
        }
    }

    // Reads the bytes of a file at a place into the front of the buffer, and says how many.
    fn read_file(&mut self, name: &str, at: u64, buf: &mut [u8]) -> io::Result<usize>
        ensures read { IfOk result (λ n. n ≤ length buf.new) }
        ensures same { self.new ≡ self.old }
    {
        let mut file = match self.last.take() {
            Some(opened) if opened.at == at && opened.name.as_str() == name => opened.file,
            _ => open_at(self.rt, name, at)?,
        };
        let count = file.read(buf)?;
        // Without memory for its name, the next read opens the file anew.
        if let Ok(name) = String::from_str(self.rt.alloc(), name) {
            let at = at.saturating_add(count as u64);
            self.last = Some(Opened { name, at, file });
        }
        Ok(count)
    }
}

// Opens a file to be read from a place on. At its start nothing is sought, which a pipe would refuse.
fn open_at<R: std::rt::Files>(rt: &R, name: &str, at: u64) -> io::Result<R::File> {
    let mut file = fs::open(rt, name)?;
    if at > 0 {
        file.seek(SeekFrom::Start(at))?;
    }
    Ok(file)
}

impl<R: std::rt::Files + Alloc> Files for RealFiles<'_, R> {
    ghost content = { λ _ _. None };

    ghost read_faults = { λ s _. s.reads };

    ghost put_faults = { λ s _. s.puts };

    fn read_at(&mut self, name: &str, at: u64, buf: &mut [u8]) -> Result<usize, Failed> {
        match self.read_file(name, at, buf) {
            Ok(n) => Ok(n),
            Err(_) => {
                self.reads = self.reads.saturating_add(1);
                Err(Failed)
            }
        }
    }

    fn put(&mut self, name: &str, bytes: &[u8]) -> Result<(), PutFailed> {
        self.last = None;
        let answer = put_file(self.rt, name, bytes);
        if answer == Err(PutFailed::Failed) {
            self.puts = self.puts.saturating_add(1);
        }
        answer
    }
}
