//! The header and the record at the front of bytes.

ghost use Rattle.std.specs.Prelude.{◌≡◌, ◌+◌, ◌<◌, ◌≤◌, IfOk, IfSome, Err, true, length, replicate, slice_index};
ghost use Rattle.ra_trace.specs.declared.error.Why.TheVariants.{Cut};
ghost use Rattle.ra_trace.specs.declared.head.Head.TheVariants as heads;
ghost use Rattle.ra_trace.specs.Cutting.{header_size, place_in, count_in, write_refusal, save_refusal, restore_refusal, refusal, front};
ghost use Rattle.ra_trace.specs.Entries.{most_memory};
ghost use Rattle.ra_trace.specs.Heads.{head_length, head_of, why_of};

use crate::error::Why;
use crate::head::Head;

// The most bytes of a memory.
const SIZE_LIMIT: u32 = 134_217_728;

// The greatest number of a slot.
const SLOT_LIMIT: u8 = 15;

/// The memory size in a good header.
pub fn read_header(bytes: &[u8]) -> Option<u32>
    ensures size { result ≡ header_size bytes.now }
    ensures most { IfSome result (λ size. size ≤ most_memory) }
{
    let [b'R', b'A', b'T', b'R', 1, a, b, c, d, ..] = bytes else {
        return None;
    };
    let size = u32::from_le_bytes([*a, *b, *c, *d]);
    if size <= SIZE_LIMIT { Some(size) } else { None }
}

// The head of the write after its first byte, or why none stands there.
#[inline(always)]
fn write_head(size: u32, rest: &[u8]) -> Result<Head, Why>
    ensures why { why_of result ≡ write_refusal size rest.now }
    ensures head { IfOk result (λ head. head ≡ heads.Write (place_in rest.now) (count_in rest.now)) }
    ensures long { IfOk result (λ head. 6 + count_in rest.now ≤ length rest.now) }
    ensures short { result ≡ Err Cut → length rest.now < 65541 }
{
    let [a, b, c, d, low, high, bytes @ ..] = rest else {
        return Err(Why::Cut);
    };
    let at = u32::from_le_bytes([*a, *b, *c, *d]);
    let count = u16::from_le_bytes([*low, *high]);
    if bytes.len() < usize::from(count) {
        Err(Why::Cut)
    } else if u64::from(size) < u64::from(at) + u64::from(count) {
        Err(Why::PastMemory)
    } else {
        Ok(Head::Write { at, count })
    }
}

// The slot after the first byte of a save or a restore, or why none stands there.
fn slot_at(rest: &[u8]) -> Result<u8, Why>
    ensures save { why_of result ≡ save_refusal rest.now }
    ensures restore { why_of result ≡ restore_refusal (replicate 16 true) rest.now }
    ensures slot { IfOk result (λ slot. slot ≡ slice_index rest.now 0) }
    ensures there { IfOk result (λ slot. 1 ≤ length rest.now) }
    ensures short { result ≡ Err Cut → length rest.now ≡ 0 }
{
    match rest {
        [] => Err(Why::Cut),
        [slot, ..] if *slot > SLOT_LIMIT => Err(Why::Slot),
        [slot, ..] => Ok(*slot),
    }
}

/// The head of the record at the front, every slot taken as filled, or why none stands there. What is cut is shorter
/// than the longest record.
#[inline(always)]
pub fn front_head(size: u32, bytes: &[u8]) -> Result<Head, Why>
    ensures why { why_of result ≡ refusal size (replicate 16 true) bytes.now }
    ensures head { IfOk result (λ head. head ≡ head_of (front bytes.now)) }
    ensures long { IfOk result (λ head. head_length head ≤ length bytes.now) }
    ensures short { result ≡ Err Cut → length bytes.now < 65542 }
{
    match bytes {
        [] => Err(Why::Cut),
        [b'W', rest @ ..] => write_head(size, rest),
        [b'S', rest @ ..] => match slot_at(rest) {
            Ok(slot) => Ok(Head::Save { slot }),
            Err(why) => Err(why),
        },
        [b'R', rest @ ..] => match slot_at(rest) {
            Ok(slot) => Ok(Head::Restore { slot }),
            Err(why) => Err(why),
        },
        [b'F', ..] => Ok(Head::Frame),
        [b'P', ..] => Ok(Head::Show),
        [b'E', ..] => Ok(Head::End),
        _ => Err(Why::Kind),
    }
}
