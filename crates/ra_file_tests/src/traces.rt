//! Worked traces, and what refuses their neighbours.

ghost use Rattle.std.specs.Prelude.{◌≡◌, length};
ghost use Rattle.ra_trace.specs.Reading.{opened};

use ra_io::{Failed, Files, PutFailed, SureFiles};
use ra_text::OutOfMemory;
use ra_trace::TraceError::{Refused, TooLong};
use ra_trace::{Reader, Record, TraceError, Why, Writer, make_set, make_trace};
use std::alloc::Global;

// A memory of 32 bytes: F, W 10=05, F, F, W 10=00, F, W 10=05, F, E.
const WORKED: [u8; 39] = [
    0x52, 0x41, 0x54, 0x52, 1, 0x20, 0, 0, 0, b'F', b'W', 0x10, 0, 0, 0, 1, 0, 5, b'F', b'F', b'W',
    0x10, 0, 0, 0, 1, 0, 0, b'F', b'W', 0x10, 0, 0, 0, 1, 0, 5, b'F', b'E',
];

fn write_worked(writer: &mut Writer) -> Result<(), OutOfMemory>
    requires { writer.old.size ≡ 32 }
{
    writer.frame()?;
    writer.write(0x10, &[5])?;
    writer.frame()?;
    writer.frame()?;
    writer.write(0x10, &[0])?;
    writer.frame()?;
    writer.write(0x10, &[5])?;
    writer.frame()
}

fn worked(alloc: Global) -> Result<Vec<u8>, OutOfMemory> {
    let mut writer = Writer::new(alloc, 32)?;
    write_worked(&mut writer)?;
    writer.finish()
}

#[test]
fn the_worked_trace_is_written(rt: HostRuntime) -> Result<(), OutOfMemory> {
    let bytes = worked(rt.alloc())?;
    assert_eq!(rt; bytes.as_slice(), WORKED.as_slice());
    Ok(())
}

fn write_others(writer: &mut Writer) -> Result<(), OutOfMemory>
    requires { writer.old.size ≡ 16 }
{
    writer.save(15)?;
    writer.restore(0)?;
    writer.show()?;
    writer.write(16, &[])
}

fn others(alloc: Global) -> Result<Vec<u8>, OutOfMemory> {
    let mut writer = Writer::new(alloc, 16)?;
    write_others(&mut writer)?;
    writer.finish()
}

#[test]
fn each_kind_of_record_is_written(rt: HostRuntime) -> Result<(), OutOfMemory> {
    let bytes = others(rt.alloc())?;
    let wanted = b"RATR\x01\x10\0\0\0S\x0fR\0PW\x10\0\0\0\0\0E";
    assert_eq!(rt; bytes.as_slice(), wanted.as_slice());
    Ok(())
}

// Files that give this many bytes a read at most.
#[derive(Drop)]
struct SlowFiles {
    files: SureFiles,
    most: usize,
}

impl Files for SlowFiles {
    ghost use Rattle.std.specs.Prelude.{Some};
    ghost use Rattle.ra_io.specs.Held.{bytes_under};
    ghost use Rattle.ra_io.specs.SureFiles.{names_of};

    ghost content = { λ s name. Some (bytes_under (names_of s.files) name) };

    ghost read_faults = { λ _ _. 0 };

    ghost put_faults = { λ _ _. 0 };

    fn read_at(&mut self, name: &str, at: u64, buf: &mut [u8]) -> Result<usize, Failed> {
        let most = buf.len().min(self.most.max(1));
        self.files.read_at(name, at, &mut buf[..most])
    }

    fn put(&mut self, name: &str, bytes: &[u8]) -> Result<(), PutFailed> {
        self.files.put(name, bytes)
    }
}

// Files in which t has these bytes, of which a read gives this many at most.
fn slow(alloc: Global, trace: &[u8], most: usize) -> Result<SlowFiles, OutOfMemory> {
    let mut files = SureFiles::new(alloc)?;
    files.add("t", trace)?;
    Ok(SlowFiles { files, most })
}

// Whether a new reader reads this size and these records, each at its place.
fn reads_so(
    reader: &mut Reader,
    files: &mut SlowFiles,
    size: u32,
    records: &[(Record<'_>, u64)],
) -> bool
    requires { reader.old ≡ opened reader.old.name reader.old.limit }
{
    if reader.header(files) != Ok(size) || reader.place() != 0 {
        return false;
    }
    for (record, place) in records {
        if reader.next_record(files) != Ok(*record) || reader.place() != *place {
            return false;
        }
    }
    true
}

// A trace of a memory of the most bytes of a write, all of which are written.
fn filled(alloc: Global, filling: &[u8]) -> Result<Vec<u8>, OutOfMemory>
    requires { length filling.now ≡ 65535 }
{
    let mut writer = Writer::new(alloc, 65535)?;
    writer.write(0, filling)?;
    writer.finish()
}

// Whether a trace is read as that write and its end, each at its place.
fn reads_filled(alloc: Global, trace: &[u8], filling: &[u8]) -> Result<bool, OutOfMemory> {
    let mut files = slow(alloc, trace, 65_552)?;
    let mut reader = Reader::open(alloc, "t", 65552)?;
    let write = Record::Write {
        at: 0,
        bytes: filling,
    };
    let records = [(write, 9), (Record::End, 65551)];
    Ok(reads_so(&mut reader, &mut files, 65535, &records))
}

// Whether it has its length and is read so.
fn is_filled(alloc: Global) -> Result<bool, OutOfMemory> {
    let filling = vec![in alloc; 7u8; 65535]?;
    let bytes = filled(alloc, &filling)?;
    let read = reads_filled(alloc, &bytes, &filling)?;
    Ok(read && bytes.len() == 9 + 7 + 65535 + 1)
}

#[test]
fn a_write_of_most_bytes(rt: HostRuntime) -> Result<(), OutOfMemory> {
    assert!(rt; is_filled(rt.alloc())?);
    Ok(())
}

const WORKED_RECORDS: &[(Record<'static>, u64)] = &[
    (Record::Frame, 9),
    (
        Record::Write {
            at: 16,
            bytes: &[5],
        },
        10,
    ),
    (Record::Frame, 18),
    (Record::Frame, 19),
    (
        Record::Write {
            at: 16,
            bytes: &[0],
        },
        20,
    ),
    (Record::Frame, 28),
    (
        Record::Write {
            at: 16,
            bytes: &[5],
        },
        29,
    ),
    (Record::Frame, 37),
    (Record::End, 38),
];

// Whether the worked trace is read as its size and its records, each at its place, from this many bytes a read.
fn reads_worked(alloc: Global, most: usize) -> Result<bool, OutOfMemory> {
    let mut files = slow(alloc, &WORKED, most)?;
    let mut reader = Reader::open(alloc, "t", 39)?;
    Ok(reads_so(&mut reader, &mut files, 32, WORKED_RECORDS))
}

#[test]
fn the_worked_trace_is_read_in_any_pieces(rt: HostRuntime) -> Result<(), OutOfMemory> {
    let alloc = rt.alloc();
    assert!(rt; reads_worked(alloc, 1)? && reads_worked(alloc, 7)? && reads_worked(alloc, 65_536)?);
    Ok(())
}

// Three writes of the most bytes, a frame after the first and the second.
fn write_long(writer: &mut Writer, filling: &[u8]) -> Result<(), OutOfMemory>
    requires size { writer.old.size ≡ 131072 }
    requires filling { length filling.now ≡ 65535 }
{
    writer.write(0, filling)?;
    writer.frame()?;
    writer.write(0x10000, filling)?;
    writer.frame()?;
    writer.write(1, filling)
}

fn long_trace(alloc: Global) -> Result<Vec<u8>, OutOfMemory> {
    let filling = vec![in alloc; 5u8; 65535]?;
    let mut writer = Writer::new(alloc, 131_072)?;
    write_long(&mut writer, &filling)?;
    writer.finish()
}

// The places of its records.
const LONG_PLACES: &[u64] = &[9, 65_551, 65_552, 131_094, 131_095, 196_637];

// Whether a new reader reads records at these places.
fn stands_so(reader: &mut Reader, files: &mut SlowFiles, places: &[u64]) -> bool
    requires { reader.old ≡ opened reader.old.name reader.old.limit }
{
    if reader.header(files).is_err() {
        return false;
    }
    for place in places {
        if reader.next_record(files).is_err() || reader.place() != *place {
            return false;
        }
    }
    true
}

// Whether the records of a long trace stand at their places, from this many bytes a read.
fn reads_long(alloc: Global, trace: &[u8], most: usize) -> Result<bool, OutOfMemory> {
    let mut files = slow(alloc, trace, most)?;
    let mut reader = Reader::open(alloc, "t", 1_099_511_627_776)?;
    Ok(stands_so(&mut reader, &mut files, LONG_PLACES))
}

// The first of these counts of bytes a read from which they do not.
fn other_pieces(
    alloc: Global,
    trace: &[u8],
    mosts: &[usize],
) -> Result<Option<usize>, OutOfMemory> {
    for most in mosts {
        if !reads_long(alloc, trace, *most)? {
            return Ok(Some(*most));
        }
    }
    Ok(None)
}

// What is left of a record and a piece after it may be more than there is room for.
#[test]
fn each_long_record_passes_the_front(rt: HostRuntime) -> Result<(), OutOfMemory> {
    let trace = long_trace(rt.alloc())?;
    let other = other_pieces(rt.alloc(), &trace, &[1, 7, 65_535, 65_536])?;
    assert_eq!(rt; other, None);
    Ok(())
}

// The first answer of a new reader that is no record, after this many frames.
fn stop_of(reader: &mut Reader, files: &mut SlowFiles, frames: u32) -> Option<TraceError>
    requires { reader.old ≡ opened reader.old.name reader.old.limit }
{
    if let Err(why) = reader.header(files) {
        return Some(why);
    }
    for _ in 0..frames {
        let is_frame = matches!(reader.next_record(files), Ok(Record::Frame));
        if !is_frame {
            return None;
        }
    }
    reader.next_record(files).err()
}

// The same of a trace within a limit of this many bytes after the header.
fn stops(
    alloc: Global,
    trace: &[u8],
    behind: u8,
    frames: u32,
) -> Result<Option<TraceError>, OutOfMemory> {
    let mut files = slow(alloc, trace, 65_536)?;
    let mut reader = Reader::open(alloc, "t", 9 + u64::from(behind))?;
    Ok(stop_of(&mut reader, &mut files, frames))
}

// A trace, how far it is read after the header, and why it stops after this many frames.
type Stop = (&'static [u8], u8, u32, TraceError);

const STOPS: &[Stop] = &[
    (
        b"RATR\x01\x10\0\0\0F",
        90,
        1,
        Refused {
            at: 10,
            why: Why::Cut,
        },
    ),
    (
        b"RATR\x01\x10\0\0\0W\x0f\0\0\0\x02\0\x01\x02",
        90,
        0,
        Refused {
            at: 9,
            why: Why::PastMemory,
        },
    ),
    (
        b"RATR\x01\x10\0\0\0\0",
        90,
        0,
        Refused {
            at: 9,
            why: Why::Kind,
        },
    ),
    (
        b"RATR\x01\x10\0\0\0S\x10",
        90,
        0,
        Refused {
            at: 9,
            why: Why::Slot,
        },
    ),
    (
        b"RATR\x01\x10\0\0\0R\x10",
        90,
        0,
        Refused {
            at: 9,
            why: Why::Slot,
        },
    ),
    (
        b"RATR",
        90,
        0,
        Refused {
            at: 0,
            why: Why::Header,
        },
    ),
    (
        b"RATR\x01\x10\0\0",
        90,
        0,
        Refused {
            at: 0,
            why: Why::Header,
        },
    ),
    (
        b"RATR\x02\x10\0\0\0F",
        0,
        0,
        Refused {
            at: 0,
            why: Why::Header,
        },
    ),
    (
        b"RATR\x01\x01\0\0\x08F",
        90,
        0,
        Refused {
            at: 0,
            why: Why::Header,
        },
    ),
    (
        b"RATR\x01\x10\0\0\0W\xff\0\0\0\x02\0\x01",
        90,
        0,
        Refused {
            at: 9,
            why: Why::Cut,
        },
    ),
    (b"RATR\x01\x10\0\0\0F", 1, 1, TooLong),
    (
        b"RATR\x01\x10\0\0\0F",
        2,
        1,
        Refused {
            at: 10,
            why: Why::Cut,
        },
    ),
    (b"RATR\x01\x10\0\0\0FFE", 1, 1, TooLong),
];

fn other_stop(alloc: Global, rows: &[Stop]) -> Result<Option<usize>, OutOfMemory> {
    for (place, (trace, behind, frames, why)) in rows.iter().enumerate() {
        if stops(alloc, *trace, *behind, *frames)? != Some(*why) {
            return Ok(Some(place));
        }
    }
    Ok(None)
}

#[test]
fn refusals_with_their_places(rt: HostRuntime) -> Result<(), OutOfMemory> {
    assert_eq!(rt; other_stop(rt.alloc(), STOPS)?, None);
    Ok(())
}

// Whether the set of a number begins with these bytes, and has its length and its end. It has 47 bytes a line and its id,
// and 109 bytes after the achievements.
fn makes_set(alloc: Global, number: u32, first: &[u8]) -> Result<bool, OutOfMemory> {
    let last = b"::VAL:0x 0000\nP\nDisplay:\n@Number(0xX0000)\n";
    let text = make_set(alloc, number)?;
    let length = 256 * 47 + 9 + 2 * 90 + 3 * 157 + 109;
    Ok(text.starts_with(first) && text.ends_with(last) && text.len() == length)
}

const SET_0: &[u8] = b"A 1 I:0x 3c6e_0xH4750>d0xH4750.2._R:0xHd1cc=255\nA 2 I:0x 6252_";

const SET_LAST: &[u8] = b"A 1 I:0x 3c55_0xH3017>d0xH3017.8._R:0xH2283=255\n";

#[test]
fn sets_of_the_workload(rt: HostRuntime) -> Result<(), OutOfMemory> {
    assert!(rt; makes_set(rt.alloc(), 0, SET_0)?);
    assert!(rt; makes_set(rt.alloc(), 4_294_967_295, SET_LAST)?);
    Ok(())
}

// Whether the trace of a number begins with these bytes, and has its length and its end.
fn makes_trace(alloc: Global, number: u32, first: &[u8]) -> Result<bool, OutOfMemory> {
    let bytes = make_trace(alloc, number)?;
    let length = 9 + 4096 * (8 * 8 + 1) + 64 * 2 + 8 * 3 + 1;
    Ok(bytes.starts_with(first) && bytes.ends_with(b"FS\x0fPR\0E") && bytes.len() == length)
}

const TRACE_0: &[u8] = b"RATR\x01\0\0\x01\0W\x88\x3c\0\0\x01\0\x88W\x16\x81\0\0\x01\0\x73";

const TRACE_LAST: &[u8] = b"RATR\x01\0\0\x01\0W\x6e\x3c\0\0\x01\0\x50W\xcc\xd1\0\0\x01\0\xf9";

#[test]
fn traces_of_the_workload(rt: HostRuntime) -> Result<(), OutOfMemory> {
    assert!(rt; makes_trace(rt.alloc(), 0, TRACE_0)?);
    assert!(rt; makes_trace(rt.alloc(), 4_294_967_295, TRACE_LAST)?);
    Ok(())
}
