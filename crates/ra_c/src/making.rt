ghost use Rattle.std.specs.Prelude.{◌≡◌, ◌≢◌, ◌⊎◌, ◌↔◌, ◌<◌, ◌^◌, None, IsSomeAnd};
ghost use Rattle.ra_calls.specs.Answers.{IsRefusedText};
ghost use Rattle.ra_judge.specs.Codes.{done, memory, no_set, out_of_range, empty, full};
ghost use Rattle.ra_calls.specs.Games.{IsNew};
ghost use Rattle.ra_calls.specs.Handles.{held_in, whole_in};

use ra_calls::Handle;
use ra_judge::Refusal;
use std::alloc::Global;

/// Makes a game of a set's text over memories of `size` bytes: docs/DEFINITIONS.md, "Calls from C".
///
/// `MEERKAT_HELD` where the handle holds one already, `MEERKAT_RANGE` where the size is above 134,217,728, `MEERKAT_SET` where the text is
/// no set, with the reason, and `MEERKAT_MEMORY` where memory runs out. Then nothing else changes.
#[unsafe(no_mangle)]
pub extern "C" fn meerkat_new(
    alloc: Global,
    text: &[u8],
    size: u32,
    handle: &mut Handle,
    why: &mut Refusal,
) -> u32
    ensures held { result ≡ full ↔ held_in handle.old ≢ None }
    ensures range { result ≡ out_of_range ↔ ((held_in handle.old ≡ None) × (2 ^ 27 < size)) }
    ensures other { (result ≡ done) ⊎ ((result ≡ memory)
        ⊎ ((result ≡ no_set) ⊎ ((result ≡ out_of_range) ⊎ (result ≡ full)))) }

    // what the handle holds then
    ensures made { result ≡ done → IsSomeAnd (whole_in handle.new) (IsNew text.now size) }
    ensures kept { result ≢ done → whole_in handle.new ≡ whole_in handle.old }

    // the reason
    ensures refused { result ≡ no_set → IsRefusedText text.now why.new }
    ensures unsaid { result ≢ no_set → why.new ≡ why.old }
{
    ra_calls::make(alloc, text, size, handle, why)
}

/// Frees the game that the handle holds, which then holds nothing: docs/DEFINITIONS.md, "Calls from C".
///
/// `MEERKAT_EMPTY` where it holds nothing.
#[unsafe(no_mangle)]
pub extern "C" fn meerkat_free(alloc: Global, handle: &mut Handle) -> u32
    ensures emptied { held_in handle.new ≡ None }
    ensures none { result ≡ empty ↔ held_in handle.old ≡ None }
    ensures freed { result ≡ done ↔ held_in handle.old ≢ None }
{
    ra_calls::free(alloc, handle)
}

/// The version of this interface, which a later one that differs counts up.
#[unsafe(no_mangle)]
pub extern "C" fn meerkat_version() -> u32
    ensures { result ≡ 2 }
{
    2
}
