//! A trace file that is read record by record.

use crate::error::{TraceError, Why};
use crate::front::{front_head, read_header};
use crate::head::Head;
use crate::record::Record;
use crate::window::Window;
use ra_io::Files;
use ra_text::OutOfMemory;
use std::alloc::Global;
use std::marker::Model;

// The length of a header.
const HEADER_LENGTH: usize = 9;

/// A trace file that is read record by record: docs/INTERNALS.md, "Reading a trace".
///
/// It is seen as its name, its limit of bytes, the memory size once the header was read, the places of its last and
/// its next record, the place up to which it has read, and the bytes that it holds, which end there. Only `open`
/// takes memory, whatever the limit, no call reads past the limit, and each reads only while what it answers is not
/// whole among the bytes that are held.
#[derive(Drop)]
pub struct Reader {
    name: String,
    window: Window,
    limit: u64,
    taken: u64,
    size: Option<u32>,
    last: u64,
    next: u64,
}

impl Model for Reader {
    ghost use Rattle.std.specs.Prelude.{length};
    ghost use Rattle.ra_trace.specs.Reading.{ReaderSeen, IsInside};

    ghost Value = { ReaderSeen };

    ghost view = { λ r. record {
      name = r.name.bytes.items;
      limit = r.limit;
      size = r.size;
      last = r.last;
      next = r.next;
      taken = r.taken;
      held = r.window;
    } };

    ghost invariant = { λ r. IsInside (length r.window) r.limit r.taken r.next };
}

impl Reader {
    ghost use Rattle.std.specs.Prelude.{◌≡◌, ◌≤◌, Some, IfOk, IfErr, OnErr, IfSome, IsSome, OnOk, length, drop, take, replicate, true, Err, ◌<◌, ◌-◌};
    ghost use Rattle.std.specs.Borrow.{sem};
    ghost use Rattle.ra_io.specs.Causes.{Rose};
    ghost use Rattle.ra_io.specs.Files.{OnlyRead};
    ghost use Rattle.ra_trace.specs.Entries.{entry_of, most_memory};
    ghost use Rattle.ra_trace.specs.Cutting.{header_size, refusal, front};
    ghost use Rattle.ra_trace.specs.Heads.{head_length, head_of, why_of};
    ghost use Rattle.ra_trace.specs.declared.error.Why.TheVariants.{Cut};
    ghost use Rattle.ra_trace.specs.Reading.{Holds, ReadsFront, ReadsOn, Knows, Found, Stands, LiesWithin, StaysBefore, IsBehindHeader, IsInside, refused_as, opened, passed, most_bytes, unanswered, header_stop, next_stop, IsStop, ByFault};
    ghost use Rattle.ra_trace.specs.Ending.{EndsAs};

    /// A reader of the file of this name that takes no more bytes than the limit, which is 9 to
    /// 1,099,511,627,776. It holds none yet.
    pub fn open(alloc: Global, name: &str, limit: u64) -> Result<Reader, OutOfMemory>
        requires least { 9 ≤ limit }
        requires most { limit ≤ most_bytes }
        ensures { IfOk result (λ reader. reader ≡ opened name.now limit) }
    {
        let name = String::from_str(alloc, name)?;
        let window = Window::new(alloc)?;
        Ok(Reader {
            name,
            window,
            limit,
            taken: 0,
            size: None,
            last: 0,
            next: 0,
        })
    }

    /// The memory size that the header says. The first call on a reader.
    ///
    /// `Refused` at 0 exactly where a told file begins with no good header, and `Read` only where a
    /// fault was counted. An error leaves the place 0.
    pub fn header<F: Files>(&mut self, files: &mut F) -> Result<u32, TraceError>
        requires { self.old ≡ opened self.old.name self.old.limit }
        ensures ok { IfOk result (λ size. IfSome (F.content files.old self.old.name) (λ bytes. header_size (take self.old.limit bytes) ≡ Some size)) }
        ensures most { IfOk result (λ size. size ≤ most_memory) }
        ensures seen { IfOk result (λ size. IsBehindHeader size self.old self.new) }
        ensures held { IfOk result (λ size. IfSome (F.content files.old self.old.name) (Holds self.new)) }
        ensures err { IfErr result (λ why. IfSome (F.content files.old self.old.name) (λ bytes. IsStop why (header_stop self.old.limit bytes))) }
        ensures last { OnErr result (StaysBefore self.old self.new) }
        ensures fault { IfErr result (λ why. ByFault why (F.read_faults files.old self.old.name) (F.read_faults files.new self.old.name)) }
        ensures stays { OnlyRead F.content F.read_faults F.put_faults files.old files.new }
    {
        self.read_front(files)?;
        let Some(size) = read_header(self.window.bytes_from(0)) else {
            return Err(TraceError::Refused {
                at: 0,
                why: Why::Header,
            });
        };
        self.size = Some(size);
        self.next = HEADER_LENGTH as u64;
        Ok(size)
    }

    // Reads on until the bytes of a header are held, or no more come.
    fn read_front<F: Files>(&mut self, files: &mut F) -> Result<(), TraceError>
        requires { self.old ≡ opened self.old.name self.old.limit }
        ensures read { OnOk result (ReadsFront (F.content files.old self.old.name) self.old self.new) }
        ensures only { IfErr result (λ why. why ≡ TraceError.Read) }
        ensures last { OnErr result (StaysBefore self.old self.new) }
        ensures fault { OnErr result (Rose (F.read_faults files.old self.old.name) (F.read_faults files.new self.old.name)) }
        ensures stays { OnlyRead F.content F.read_faults F.put_faults files.old files.new }
    {
        let mut more = true;
        while self.window.len() < HEADER_LENGTH && more {
            more = self.read_on(files)?;
        }
        Ok(())
    }

    // Where the next record starts among the bytes that are held.
    #[inline(always)]
    fn front(&self) -> usize
        ensures front { drop result self.now.held ≡ unanswered self.now }
        ensures within { result ≤ length self.now.held }
        ensures left { length self.now.held - result ≡ self.now.taken - self.now.next }
    {
        self.window.len() - (self.taken - self.next) as usize
    }

    // The head of the next record among the bytes that are held, or why none stands there.
    #[inline(always)]
    fn next_head(&self, size: u32) -> Result<Head, Why>
        ensures why { why_of result ≡ refusal size (replicate 16 true) (unanswered self.now) }
        ensures head { IfOk result (λ head. head ≡ head_of (front (unanswered self.now))) }
        ensures long { IfOk result (λ head. head_length head ≤ length (unanswered self.now)) }
        ensures short { result ≡ Err Cut → length (unanswered self.now) < 65542 }
        ensures inside { IsInside (length self.now.held) self.now.limit self.now.taken self.now.next }
    {
        let front = self.front();
        front_head(size, self.window.bytes_from(front))
    }

    // Reads on, and says whether bytes came.
    fn read_on<F: Files>(&mut self, files: &mut F) -> Result<bool, TraceError>
        requires { length (unanswered self.old) < 65542 }
        ensures on { IfOk result (λ more. ReadsOn (F.content files.old self.old.name) more self.old self.new) }
        ensures only { IfErr result (λ why. why ≡ TraceError.Read) }
        ensures last { OnErr result (StaysBefore self.old self.new) }
        ensures fault { OnErr result (Rose (F.read_faults files.old self.old.name) (F.read_faults files.new self.old.name)) }
        ensures stays { OnlyRead F.content F.read_faults F.put_faults files.old files.new }
    {
        if self.taken == self.limit {
            return Ok(false);
        }
        let front = self.front();
        self.window.drop_front(front);
        let most = self.limit - self.taken;
        let Ok(more) = self.window.read_on(&self.name, self.taken, most, files) else {
            return Err(TraceError::Read);
        };
        self.taken += more as u64;
        Ok(more > 0)
    }

    // Reads on as far as the next record goes, and answers its head, or why none stands there.
    fn look<F: Files>(&mut self, size: u32, files: &mut F) -> Result<Result<Head, Why>, TraceError>
        ensures knows { IfOk result (λ found. Knows (F.content files.old self.old.name) size (why_of found) self.old self.new) }
        ensures head { IfOk result (λ found. IfOk found (λ head. head ≡ head_of (front (unanswered self.new)))) }
        ensures long { IfOk result (λ found. IfOk found (λ head. head_length head ≤ length (unanswered self.new))) }
        ensures only { IfErr result (λ why. why ≡ TraceError.Read) }
        ensures last { OnErr result (StaysBefore self.old self.new) }
        ensures fault { OnErr result (Rose (F.read_faults files.old self.old.name) (F.read_faults files.new self.old.name)) }
        ensures stays { OnlyRead F.content F.read_faults F.put_faults files.old files.new }
    {
        let mut more = true;
        let mut found = self.next_head(size);
        while more && matches!(found, Err(Why::Cut)) {
            more = self.read_on(files)?;
            found = self.next_head(size);
        }
        Ok(found)
    }

    // What is answered where no record stands next: a cut one is past the limit where that was taken.
    fn refused(&self, why: Why) -> TraceError
        ensures { result ≡ refused_as self.now why }
    {
        match why {
            Why::Cut if self.taken == self.limit => TraceError::TooLong,
            _ => TraceError::Refused { at: self.next, why },
        }
    }

    // Moves past the next record, which takes this many bytes, and answers where it starts among the bytes that are held.
    #[inline(always)]
    fn pass(&mut self, count: usize) -> usize
        requires { count ≤ length (unanswered self.old) }
        ensures front { drop result self.old.held ≡ unanswered self.old }
        ensures passed { self.new ≡ passed count self.old }
        ensures within { self.new.next ≤ self.new.limit }
    {
        let at = self.front();
        self.last = self.next;
        self.next += count as u64;
        at
    }

    // Moves to the next record, and answers where it starts among the bytes that are held, and its head.
    #[inline(never)]
    fn step<F: Files>(&mut self, files: &mut F) -> Result<(usize, Head), TraceError>
        requires { IsSome self.old.size }
        ensures found { IfOk result (λ next. Found (F.content files.old self.old.name) next.0 self.old self.new) }
        ensures head { IfOk result (λ next. next.1 ≡ head_of (front (drop next.0 self.new.held))) }
        ensures long { IfOk result (λ next. head_length next.1 ≤ length (drop next.0 self.new.held)) }
        ensures err { IfErr result (λ why. IfSome (F.content files.old self.old.name) (λ bytes. Holds self.old bytes → IfSome self.old.size (λ size. IsStop why (next_stop self.old.limit size self.old.next bytes)))) }
        ensures last { OnErr result (StaysBefore self.old self.new) }
        ensures fault { IfErr result (λ why. ByFault why (F.read_faults files.old self.old.name) (F.read_faults files.new self.old.name)) }
        ensures stays { OnlyRead F.content F.read_faults F.put_faults files.old files.new }
    {
        let size = self.size.unwrap_or(0);
        match self.look(size, files)? {
            Ok(head) => {
                let at = self.pass(head.length());
                Ok((at, head))
            }
            Err(why) => Err(self.refused(why)),
        }
    }

    /// The next record. Not called before the header was read, nor after an end record or an error.
    ///
    /// `Refused` with the place and the reason, or `TooLong`, exactly as "Reading a trace" says of
    /// a told file, and `Read` only where a fault was counted. An error leaves the place.
    #[inline(always)]
    pub fn next_record<'a, F: Files>(&'a mut self, files: &mut F) -> Result<Record<'a>, TraceError>
        requires { IsSome self.old.size }
        ensures ok { IfOk result (λ found. IfSome (F.content files.old self.old.name) (λ bytes. Holds self.old bytes → IfSome self.old.size (λ size. Stands self.old.limit size self.old.next (entry_of found) bytes))) }
        ensures lies { IfOk result (λ found. IfSome self.old.size (λ size. LiesWithin size (entry_of found))) }
        ensures err { IfErr result (λ why. IfSome (F.content files.old self.old.name) (λ bytes. Holds self.old bytes → IfSome self.old.size (λ size. IsStop why (next_stop self.old.limit size self.old.next bytes)))) }
        ensures fault { IfErr result (λ why. ByFault why (F.read_faults files.old self.old.name) (F.read_faults files.new self.old.name)) }
        ensures stays { OnlyRead F.content F.read_faults F.put_faults files.old files.new }
        ensures* after { sem 𝓛 (EndsAs (F.content files.old self.old.name) self.entry result) }
    {
        let size = self.size.unwrap_or(0);
        // frames and writes, which most records are, are matched once
        match self.next_head(size) {
            Ok(Head::Frame) => {
                let _ = self.pass(1);
                Ok(Record::Frame)
            }
            Ok(head @ Head::Write { .. }) => {
                let at = self.pass(head.length());
                Ok(head.record(self.window.bytes_from(at)))
            }
            _ => {
                let (at, head) = self.step(files)?;
                Ok(head.record(self.window.bytes_from(at)))
            }
        }
    }

    /// The place where the last record starts, in bytes from 0, and 0 where none was read.
    pub fn place(&self) -> u64
        ensures { result ≡ self.now.last }
    {
        self.last
    }
}
