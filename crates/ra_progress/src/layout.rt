//! Where the fields of versions 2 and 3 stand, and how long such a file has to be.

ghost use Rattle.std.specs.Prelude.{◌≡◌, ◌+◌, ◌*◌, ◌≤◌, ◌<◌, length};
ghost use Rattle.ra_progress.specs.Layout as spec;
ghost use Rattle.ra_progress.specs.Reading.{HasLayout};

use ra_text::word_at;

/// How many cells the bytes have numbers of.
pub fn cell_count(bytes: &[u8]) -> u32
    requires { HasLayout bytes.now }
    ensures { result ≡ spec.cell_count bytes.now }
{
    word_at(bytes, 29)
}

/// How many tracked masks the bytes have numbers of.
pub fn prior_count(bytes: &[u8]) -> u32
    requires { HasLayout bytes.now }
    ensures { result ≡ spec.prior_count bytes.now }
{
    word_at(bytes, 33 + 20 * u64::from(word_at(bytes, 29)))
}

/// How many entries the bytes have.
pub fn entry_count(bytes: &[u8]) -> u32
    requires { HasLayout bytes.now }
    ensures { result ≡ spec.entry_count bytes.now }
{
    let named = u64::from(cell_count(bytes)) + u64::from(prior_count(bytes));
    word_at(bytes, 37 + 20 * named)
}

/// Where the first entry stands.
pub fn first_entry(bytes: &[u8]) -> u64
    requires { HasLayout bytes.now }
    ensures { result ≡ spec.first_entry bytes.now }
{
    41 + 20 * (u64::from(cell_count(bytes)) + u64::from(prior_count(bytes)))
}

/// Where the entry after one stands.
pub fn entry_after(bytes: &[u8], at: u64) -> u64
    requires { at + 20 ≤ length bytes.now }
    ensures { result ≡ spec.entry_after bytes.now at }
{
    at + 20 + u64::from(word_at(bytes, at + 16))
}

// The need of the bytes, as far as it grows without passing their length.
pub(crate) fn need(bytes: &[u8]) -> u64
    requires { length bytes.now ≤ 8388608 }
    ensures { result ≡ spec.need_of bytes.now }
{
    let found = bytes.len() as u64;
    if found < 49 {
        return 49;
    }
    let cells = u64::from(word_at(bytes, 29));
    let need = 53 + 20 * cells;
    if found < need {
        return need;
    }
    let priors = u64::from(word_at(bytes, 33 + 20 * cells));
    let named = cells + priors;
    let need = 57 + 20 * named;
    if found < need {
        return need;
    }
    let entries = word_at(bytes, 37 + 20 * named);
    let need = 57 + 20 * (named + u64::from(entries));
    if found < need {
        return need;
    }
    need_of_entries(bytes, entries, 41 + 20 * named)
}

// The need once the lengths of this many entries were read from a place on.
fn need_of_entries(bytes: &[u8], count: u32, first: u64) -> u64
    requires within { first + 20 * count + 16 ≤ length bytes.now }
    requires most { length bytes.now ≤ 8388608 }
    ensures { result ≡ spec.need_from bytes.now count first (first + 20 * count + 16) }
{
    let found = bytes.len() as u64;
    let mut need = first + 20 * u64::from(count) + 16;
    let mut at = first;
    let mut left = count;
    while left > 0 {
        let size = u64::from(word_at(bytes, at + 16));
        need += size;
        if found < need {
            return need;
        }
        at += 20 + size;
        left -= 1;
    }
    need
}
