ghost use Rattle.std.specs.Prelude.{◌≡◌, ◌+◌, ◌*◌, ◌≤◌, ◌++◌, length, IfOk, OnOk};
ghost use Rattle.ra_text.specs.Words as spec;

use crate::refusals::OutOfMemory;
use std::alloc::Global;

/// The word whose four bytes begin at a place, the least byte first: docs/DEFINITIONS.md,
/// "Progress file".
#[tactic(auto, using(crate::proofs::Bytes::four_bytes))]
pub fn word_at(bytes: &[u8], at: u64) -> u32
    requires { at + 4 ≤ length bytes.now }
    ensures { result ≡ spec.word_at bytes.now at }
{
    let at = at as usize;
    u32::from_le_bytes([bytes[at], bytes[at + 1], bytes[at + 2], bytes[at + 3]])
}

/// This many words in a row, the first of which begins at a place counted in bytes.
pub fn words_at(alloc: Global, bytes: &[u8], at: u64, count: u32) -> Result<Vec<u32>, OutOfMemory>
    requires { at + 4 * count ≤ length bytes.now }
    ensures { IfOk result (λ numbers. numbers.items ≡ spec.words_at bytes.now at count) }
{
    let mut numbers = Vec::with_capacity(alloc, count as usize)?;
    for k in 0..count {
        numbers.push(word_at(bytes, at + 4 * u64::from(k)))?;
    }
    Ok(numbers)
}

/// Takes words into numbers that are there, as many as there are numbers; the first word begins at
/// a place counted in bytes.
pub fn read_words(numbers: &mut [u32], bytes: &[u8], at: u64)
    requires { at + 4 * length numbers.old ≤ length bytes.now }
    ensures { numbers.new ≡ spec.words_at bytes.now at (length numbers.old) }
{
    for place in 0..numbers.len() {
        numbers[place] = word_at(bytes, at + 4 * place as u64);
    }
}

/// Writes numbers as words after the bytes. After `OutOfMemory` some of them may be there.
pub fn write_words(bytes: &mut Vec<u8>, numbers: &[u32]) -> Result<(), OutOfMemory>
    ensures { OnOk result (bytes.new.items ≡ bytes.old.items ++ spec.words numbers.now) }
{
    for number in numbers {
        bytes.extend_from_slice(&number.to_le_bytes())?;
    }
    Ok(())
}
