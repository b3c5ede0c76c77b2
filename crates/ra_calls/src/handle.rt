ghost use Rattle.std.specs.Prelude.{◌≡◌, ◌≢◌, ◌↔◌, true, None, Some, option_map};

use crate::cell::Cell;
use crate::game::Game;
use crate::parts::Parts;
use std::alloc::Global;
use std::mem;

/// What the emulator keeps of a runtime: a pointer that it never reads. All zero it holds nothing.
///
/// In C it is `meerkat_game`: docs/DEFINITIONS.md, "Calls from C". A full handle that is dropped forgets what it holds; `free`
/// frees it.
#[repr(C)]
#[derive(Drop)]
pub struct Handle {
    cell: Cell,
    held: u32,
    // 0 exactly where nothing is held
    ghost tells: { (held ≡ 0 → cell.value ≡ None) × (held ≢ 0 → cell.value ≢ None) },
}

impl Handle {
    ghost use Rattle.ra_calls.specs.Handles.{held_in, whole_in};

    /// A handle that holds nothing.
    pub fn empty(alloc: Global) -> Handle
        ensures { held_in result ≡ None }
    {
        Handle {
            cell: Cell::empty(alloc),
            held: 0,
        }
    }

    // A handle that holds this.
    fn full(game: Box<Game>) -> Handle
        ensures { whole_in result ≡ Some game.value }
    {
        Handle {
            cell: Cell::of_parts(Parts::of(game)),
            held: 1,
        }
    }

    /// Whether nothing is held.
    pub fn is_empty(&self) -> bool
        ensures { result ≡ true ↔ held_in self.now ≡ None }
    {
        self.held == 0
    }

    // What a full handle holds, and then it holds nothing.
    pub fn take(&mut self, alloc: Global) -> Option<Box<Game>>
        ensures taken { option_map (λ game. game.value) result ≡ whole_in self.old }
        ensures emptied { whole_in self.new ≡ None }
    {
        if self.held == 0 {
            return None;
        }
        let Handle { cell, held: _ } = mem::replace(self, Handle::empty(alloc));
        Some(cell.into_parts().into_box())
    }

    // Holds this.
    pub fn put(&mut self, game: Box<Game>)
        requires { held_in self.old ≡ None }
        ensures { whole_in self.new ≡ Some game.value }
    {
        let _ = mem::replace(self, Handle::full(game));
    }
}
