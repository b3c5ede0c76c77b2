//! Files and sinks: which calls fail, and what the adapters leave.

use ra_io::{
    Failed, Files, MemFiles, MemSink, PutFailed, RealFiles, RealSink, Sink, SinkFailed, SureFiles,
    SureSink,
};
use ra_text::OutOfMemory;
use std::alloc::Global;
use std::fs;
use std::test::Fail;

// A name, a place in its file, the room of a read there, and the read's answer.
type Read = (&'static str, u32, usize, Result<usize, Failed>);

// The place of the first of these reads that answers otherwise.
fn other_read<F: Files>(files: &mut F, reads: &[Read]) -> Option<usize> {
    let mut buf = [0u8; 8];
    for (place, (name, at, room, answer)) in reads.iter().enumerate() {
        let room = (*room).min(8);
        if files.read_at(*name, u64::from(*at), &mut buf[..room]) != *answer {
            return Some(place);
        }
    }
    None
}

// Whether a read of as many bytes gives these.
fn gives<F: Files>(files: &mut F, name: &str, at: u32, bytes: &[u8; 3]) -> bool {
    let mut buf = [0u8; 3];
    files.read_at(name, u64::from(at), &mut buf) == Ok(3) && buf == *bytes
}

// Bytes that are put, the answer, and how many the file then has.
type Put = (&'static [u8], Result<(), PutFailed>, usize);

// The place of the first of these puts that answers otherwise, or leaves another length.
fn other_put<F: Files>(files: &mut F, name: &str, puts: &[Put]) -> Option<usize> {
    let mut buf = [0u8; 8];
    for (place, (bytes, answer, len)) in puts.iter().enumerate() {
        if files.put(name, *bytes) != *answer || files.read_at(name, 0, &mut buf) != Ok(*len) {
            return Some(place);
        }
    }
    None
}

// Files whose calls of these numbers fail.
fn failing(alloc: Global, reads: &[u64], puts: &[u64]) -> Result<MemFiles, OutOfMemory> {
    let reads = reads.to_vec(alloc)?;
    let puts = puts.to_vec(alloc)?;
    let mut files = MemFiles::new(alloc)?;
    files.fail(reads, puts);
    Ok(files)
}

// The second read has no room and counts, the fourth is listed.
const LISTED_READS: &[Read] = &[
    ("a", 0, 0, Ok(0)),
    ("b", 0, 3, Err(Failed)),
    ("a", 0, 3, Err(Failed)),
    ("a", 3, 3, Ok(2)),
    ("a", 5, 3, Ok(0)),
    ("a", u32::MAX, 3, Ok(0)),
    ("a", 4, 3, Ok(1)),
    ("a", 4, 3, Err(Failed)),
];

fn reads_fail(files: &mut MemFiles) -> Result<bool, OutOfMemory> {
    files.add("a", b"hello")?;
    Ok(gives(files, "a", 1, b"ell") && other_read(files, LISTED_READS) == None)
}

#[test]
fn reads_fail_where_listed_or_missing(rt: HostRuntime) -> Result<(), OutOfMemory> {
    let mut files = failing(rt.alloc(), &[4, 9], &[])?;
    let fail = reads_fail(&mut files)?;
    assert!(rt; fail);
    Ok(())
}

// The second put is listed and leaves the name as it was.
const LISTED_PUTS: &[Put] = &[
    (b"one", Ok(()), 3),
    (b"three", Err(PutFailed::Failed), 3),
    (b"", Ok(()), 0),
];

#[test]
fn puts_fail_where_listed(rt: HostRuntime) -> Result<(), OutOfMemory> {
    let mut files = failing(rt.alloc(), &[], &[2])?;
    let other = other_put(&mut files, "a", LISTED_PUTS);
    assert_eq!(rt; other, None);
    Ok(())
}

fn sure_reads(files: &mut SureFiles) -> Result<bool, OutOfMemory> {
    let missing = other_read(files, &[("a", 0, 8, Ok(0))]);
    files.add("a", b"one")?;
    let added = other_read(files, &[("a", 1, 8, Ok(2))]);
    let put = other_put(files, "a", &[(b"three", Ok(()), 5)]);
    Ok(missing == None && added == None && put == None)
}

#[test]
fn sure_files_read_a_missing_name_as_empty(rt: HostRuntime) -> Result<(), OutOfMemory> {
    let mut files = SureFiles::new(rt.alloc())?;
    let empty = sure_reads(&mut files)?;
    assert!(rt; empty);
    Ok(())
}

// A piece, the answer of its write, and what the sink has taken then.
type Piece = (&'static [u8], Result<usize, SinkFailed>, &'static [u8]);

// Whether a write answers so, and leaves these bytes.
fn writes_so(
    out: &mut MemSink,
    piece: &[u8],
    answer: Result<usize, SinkFailed>,
    text: &[u8],
) -> bool {
    out.write(piece) == answer && out.taken() == text
}

// The place of the first of these writes that answers otherwise, or leaves other bytes.
fn other_write(out: &mut MemSink, pieces: &[Piece]) -> Option<usize> {
    for (place, (piece, answer, text)) in pieces.iter().enumerate() {
        if !writes_so(out, *piece, *answer, *text) {
            return Some(place);
        }
    }
    None
}

// Two bytes a call, and the third call is listed.
const PIECES: &[Piece] = &[
    (b"abc", Ok(2), b"ab"),
    (b"", Ok(0), b"ab"),
    (b"cd", Err(SinkFailed::Failed), b"ab"),
    (b"c", Ok(1), b"abc"),
    (b"de", Ok(2), b"abcde"),
];

#[test]
fn writes_take_the_most_and_fail_where_listed(rt: HostRuntime) -> Result<(), OutOfMemory> {
    let fails = [3].to_vec(rt.alloc())?;
    let mut out = MemSink::new(rt.alloc(), 2, fails);
    let other = other_write(&mut out, PIECES);
    assert_eq!(rt; other, None);
    Ok(())
}

fn takes_whole(out: &mut SureSink) -> bool {
    let written = [out.write(b"abc"), out.write(b""), out.write(b"de")];
    written == [Ok(3), Ok(0), Ok(2)] && out.taken() == b"abcde".as_slice()
}

#[test]
fn sure_sinks_take_whole_pieces(rt: HostRuntime) {
    let mut out = SureSink::new(rt.alloc());
    let whole = takes_whole(&mut out);
    assert!(rt; whole);
}

const READ_BACK: &[Read] = &[
    ("put.bin", 4, 3, Ok(1)),
    ("put.bin", 5, 3, Ok(0)),
    ("missing.bin", 0, 3, Err(Failed)),
];

// What was put comes back in pieces; a name that is not there is a fault.
#[test]
fn the_adapters_read_and_write(rt: HostRuntime) {
    let mut files = RealFiles::new(&rt);
    let put = files.put("put.bin", b"hello");
    let read = gives(&mut files, "put.bin", 1, b"ell");
    let other = other_read(&mut files, READ_BACK);
    let missing = files.put("missing/put.bin", b"hello");
    assert_eq!(rt;
        (put, read, other, missing),
        (Ok(()), true, None, Err(PutFailed::Failed))
    );

    let mut out = RealSink::new(&rt);
    assert_eq!(rt; [out.write(b""), out.write(b"\n")], [Ok(0), Ok(1)]);
}

// The place of the first of these puts of the real files that answers otherwise, or leaves another length.
fn other_real(rt: &HostRuntime, name: &str, puts: &[Put]) -> Option<usize> {
    let mut files = RealFiles::new(rt);
    other_put(&mut files, name, puts)
}

const PLACED: &[Put] = &[(b"hello", Ok(()), 5), (b"one", Ok(()), 3)];

// Whether nothing is left beside the file, which is removed.
fn is_alone(rt: &HostRuntime) -> Result<bool, Fail> {
    let beside = fs::exists(rt, "ra_put.0")?;
    fs::remove_file(rt, "placed.bin")?;
    Ok(!beside)
}

// A shorter content takes the place of a longer one, and nothing is left beside it.
#[test]
fn a_put_takes_the_place_of_a_file(rt: HostRuntime) -> Result<(), Fail> {
    let other = other_real(&rt, "placed.bin", PLACED);
    assert!(rt; other.is_none() && is_alone(&rt)?);
    Ok(())
}

// Takes every name beside a file of this folder.
fn take_names(rt: &HostRuntime) -> Result<(), Fail> {
    for number in 0..1_000 {
        let beside = format!(in rt.alloc(); "full/ra_put.{number}")?;
        fs::write(rt, beside.as_str(), b"")?;
    }
    Ok(())
}

const FIRST: &[Put] = &[(b"hello", Ok(()), 5)];

const FAILING: &[Put] = &[(b"one", Err(PutFailed::Failed), 5)];

// Whether a put fails where every name beside the file is taken, and leaves the file.
fn fails_so(rt: &HostRuntime) -> Result<bool, Fail> {
    let _ = fs::remove_dir_all(rt, "full");
    fs::create_dir(rt, "full")?;
    let first = other_real(rt, "full/kept.bin", FIRST);
    take_names(rt)?;
    let second = other_real(rt, "full/kept.bin", FAILING);
    fs::remove_dir_all(rt, "full")?;
    Ok(first.is_none() && second.is_none())
}

// Every name beside the file is taken, so the put fails, and the file is as it was.
#[test]
fn a_put_that_fails_leaves_the_file(rt: HostRuntime) -> Result<(), Fail> {
    assert!(rt; fails_so(&rt)?);
    Ok(())
}
