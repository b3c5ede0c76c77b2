//! The bytes of banks are bytes, which their type knows.

ghost use Rattle.ra_banks.specs.Banks.{bytes_of};
ghost use Rattle.ra_memory.specs.Image.{AreBytes};

use ra_banks::Bank;

// Each byte of a bank is one. It does nothing.
fn is_bytes(bytes: &[u8])
    ensures { AreBytes bytes.now }
{}

// Each byte of the banks is one. It changes nothing.
pub fn are_bytes(banks: &[Bank<'_>])
    ensures { AreBytes (bytes_of banks.now) }
{
    for bank in banks {
        is_bytes(bank.bytes);
    }
}
