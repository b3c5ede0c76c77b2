ghost use Rattle.std.specs.Prelude.{◌≡◌, ◌≢◌, ◌⊎◌, ◌↔◌, ◌<◌, ◌^◌, None, IsSomeAnd};
ghost use Rattle.ra_calls.specs.Answers.{IsRefusedText};
ghost use Rattle.ra_judge.specs.Codes.{done, memory, no_set, out_of_range, empty, full};
ghost use Rattle.ra_calls.specs.Games.{IsNew};
ghost use Rattle.ra_calls.specs.Handles.{held_in, whole_in};

use crate::game::Game;
use crate::handle::Handle;
use ra_judge::codes::{DONE, EMPTY, HELD, MEMORY, RANGE, SET};
use ra_judge::{Refusal, of_set};
use ra_set::SetRefused;
use std::alloc::Global;

/// Makes a game of a set's text over memories of `size` bytes: docs/DEFINITIONS.md, "Calls from C".
///
/// `HELD` where the handle holds one already, `RANGE` where the size is above 134,217,728, `SET` where the text is
/// no set, with the reason, and `MEMORY` where memory runs out. Then nothing else changes.
pub fn make(alloc: Global, text: &[u8], size: u32, handle: &mut Handle, why: &mut Refusal) -> u32
    ensures held { result ≡ full ↔ held_in handle.old ≢ None }
    ensures range { result ≡ out_of_range ↔ ((held_in handle.old ≡ None) × (2 ^ 27 < size)) }
    ensures other { (result ≡ done) ⊎ ((result ≡ memory)
        ⊎ ((result ≡ no_set) ⊎ ((result ≡ out_of_range) ⊎ (result ≡ full)))) }

    // what the handle holds then
    ensures made { result ≡ done → IsSomeAnd (whole_in handle.new) (IsNew text.now size) }
    ensures kept { result ≢ done → whole_in handle.new ≡ whole_in handle.old }

    // the reason
    ensures refused { result ≡ no_set → IsRefusedText text.now why.new }
    ensures unsaid { result ≢ no_set → why.new ≡ why.old }
{
    if !handle.is_empty() {
        return HELD;
    }
    if size > 134_217_728 {
        return RANGE;
    }
    match Game::boxed(alloc, text, size) {
        Ok(game) => {
            handle.put(game);
            DONE
        }
        Err(SetRefused::Memory) => MEMORY,
        Err(reason) => {
            *why = of_set(text, reason);
            SET
        }
    }
}

/// Frees the game that the handle holds, which then holds nothing: docs/DEFINITIONS.md, "Calls from C".
///
/// `EMPTY` where it holds nothing.
pub fn free(alloc: Global, handle: &mut Handle) -> u32
    ensures emptied { held_in handle.new ≡ None }
    ensures none { result ≡ empty ↔ held_in handle.old ≡ None }
    ensures freed { result ≡ done ↔ held_in handle.old ≢ None }
{
    match handle.take(alloc) {
        Some(_) => DONE,
        None => EMPTY,
    }
}
