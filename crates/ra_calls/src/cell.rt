ghost use Rattle.std.specs.Prelude.{◌≡◌, Option, None, Some, IsSome};
ghost use Rattle.ra_calls.specs.Owned.{cell_owns, optional_coded};
ghost use Rattle.ra_calls.specs.contracts.game.Game.{the_row};

use crate::game::Game;
use crate::parts::Parts;
use std::alloc::Global;
use std::marker::Model;
use std::ptr;

// A pointer that may own what it points to. It crosses to C as one of bytes.
#[repr(C)]
#[derive(Drop)]
pub struct Cell {
    at: *mut u8,
    alloc: Global,
    pub ghost value: { Option the_row.Denot } by { optional_coded },
}

impl Model for Cell {
    ghost also_owns = { λ c. cell_owns c.alloc c.at c.value };
}

impl Cell {
    // A cell that owns nothing.
    pub fn empty(alloc: Global) -> Cell
        ensures { result.value ≡ None }
    {
        Cell {
            at: ptr::null_mut(),
            alloc,
        }
    }

    // A cell that owns what these parts own.
    pub fn of_parts(parts: Parts<Game, Global>) -> Cell
        ensures { result.value ≡ Some parts.value }
    {
        let Parts { ptr, alloc } = parts;
        Cell {
            at: ptr as *mut u8,
            alloc,
        }
    }

    // The parts that a full cell owns.
    pub fn into_parts(self) -> Parts<Game, Global>
        requires { IsSome self.value }
        ensures { self.value ≡ Some result.value }
    {
        let Cell { at, alloc } = self;
        Parts {
            ptr: at as *mut Game,
            alloc,
        }
    }
}

// What it owns is a box of plain data, which any thread may free.
unsafe impl Send for Cell {}
