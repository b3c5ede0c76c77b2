ghost use Rattle.std.specs.Prelude.{◌≡◌, ◌+◌, ◌*◌, ◌<◌, ◌≤◌, ◌^◌, None, length, drop, slice_index, IfSome};
ghost use Rattle.ra_memory.specs.Image.{raw, IsReadWidth};
ghost use Rattle.ra_banks.specs.Banks.{bytes_of, IsPart};

/// The most bytes that an image has.
const MOST: usize = 134217728;

/// The bits of the first bytes of a number, by how many they are.
const MASKS: [u32; 5] = [0, 255, 65535, 16777215, 4294967295];

/// A part of the memory of the machine, as it lies: a pointer and a length to a caller in C.
#[repr(C)]
#[derive(Clone, Copy)]
pub struct Bank<'a> {
    /// The bytes of the bank.
    pub bytes: &'a [u8],
}

/// How many bytes the banks have together. None exactly where they are more than 134,217,728.
pub fn size_of(banks: &[Bank<'_>]) -> Option<u32>
    ensures some { IfSome result (λ size. size ≡ length (bytes_of banks.now)) }
    ensures most { IfSome result (λ size. size ≤ 2 ^ 27) }
    ensures none { result ≡ None → 2 ^ 27 < length (bytes_of banks.now) }
{
    let mut size: usize = 0;
    for bank in banks {
        let more = bank.bytes.len();
        if more > MOST - size {
            return None;
        }
        size += more;
    }
    Some(size as u32)
}

// The number of bytes that stand in one bank.
#[inline(always)]
pub(crate) fn number_in(bytes: &[u8], at: usize, width: u8) -> u32
    requires width { IsReadWidth width }
    requires within { at + width ≤ length bytes.now }
    ensures { result ≡ raw width bytes.now at }
{
    match width {
        1 => u32::from(bytes[at]),
        2 => u32::from(bytes[at]) + 256 * u32::from(bytes[at + 1]),
        _ => {
            let low = u32::from(bytes[at]) + 256 * u32::from(bytes[at + 1]);
            let high = u32::from(bytes[at + 2]) + 256 * u32::from(bytes[at + 3]);
            low + 65536 * high
        }
    }
}

// The number of bytes that stand in one bank, with three more of it past the first: one load and one mask.
#[inline(always)]
pub(crate) fn number_within(bytes: &[u8], at: usize, width: u8) -> u32
    requires width { IsReadWidth width }
    requires within { at + 4 ≤ length bytes.now }
    ensures { result ≡ raw width bytes.now at }
{
    let four = [bytes[at], bytes[at + 1], bytes[at + 2], bytes[at + 3]];
    u32::from_le_bytes(four) & MASKS[usize::from(width)]
}

// The byte at an address, 0 past the end.
pub(crate) fn byte_at(banks: &[Bank<'_>], at: usize) -> u32
    ensures byte { result ≡ slice_index (bytes_of banks.now) at }
    ensures small { result < 256 }
{
    let mut left = at;
    for bank in banks {
        if left < bank.bytes.len() {
            return u32::from(bank.bytes[left]);
        }
        left -= bank.bytes.len();
    }
    0
}

// Among the banks from this one on: the bytes of the bank in which an address lies, counted from the first
// of theirs, the address of the first of its bytes, and the number of the bank after it. None past the end.
#[inline(always)]
pub(crate) fn bank_of<'a>(
    banks: &[Bank<'a>],
    first: usize,
    at: usize,
) -> Option<(&'a [u8], usize, usize)>
    requires { first ≤ length banks.now }
    ensures found { IfSome result (λ found.
        IsPart (bytes_of (drop first banks.now)) found.0.now (bytes_of (drop found.2 banks.now)) found.1) }
    ensures before { IfSome result (λ found. found.1 ≤ at) }
    ensures next { IfSome result (λ found. found.2 ≤ length banks.now) }
{
    let mut left = at;
    for number in first..banks.len() {
        let bytes = banks[number].bytes;
        if left < bytes.len() {
            return Some((bytes, at - left, number + 1));
        }
        left -= bytes.len();
    }
    None
}
