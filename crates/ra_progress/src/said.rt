ghost use Rattle.std.specs.Prelude.{◌≡◌, None, length, slice_index_or, IfOk};
ghost use Rattle.ra_progress.specs.Contents.{own_entries, shape_contents};
ghost use Rattle.ra_progress.specs.Names.{IsPaired, IsUsable};
ghost use Rattle.ra_progress.specs.Reading.{IsAccepted};

use crate::entry_places::read_places;
use crate::filling::fill_up;
use crate::numbers::{read_cells, read_priors};
use crate::own::own_count;
use crate::relation::is_own;
use crate::shape::Shape;
use ra_text::OutOfMemory;
use std::alloc::Global;

/// What a progress file says of the numbers of a set, and where it has the blocks of the set's entries:
/// docs/DEFINITIONS.md, "Progress file".
///
/// It is made once for a shape, and then takes up one file after the other without memory.
#[derive(Drop)]
pub struct Said {
    /// The number of each cell, in order of first occurrence.
    pub cells: Vec<u32>,
    /// The number of each tracked mask, in order of first occurrence.
    pub priors: Vec<u32>,
    /// Where the block of each item and then of the script begins, in bytes from the start; none
    /// where the file has no block of it.
    pub places: Vec<Option<u64>>,
}

impl Said {
    ghost use Rattle.ra_progress.specs.Room.{HasRoom, IsFilled, IsRoom, Says};

    /// Room for the files that a shape accepts which has this many names of cells and of tracked masks, and the entries of
    /// this one. It is not written before the first file is read.
    pub fn new(
        alloc: Global,
        cells: usize,
        priors: usize,
        shape: &Shape,
    ) -> Result<Said, OutOfMemory>
        requires { IsPaired (shape_contents shape.now) }
        ensures { IfOk result (HasRoom cells priors (length (own_entries (shape_contents shape.now)))) }
    {
        Ok(Said {
            cells: Vec::with_capacity(alloc, cells)?,
            priors: Vec::with_capacity(alloc, priors)?,
            places: Vec::with_capacity(alloc, own_count(shape) as usize)?,
        })
    }

    /// Takes up what bytes say which `check` accepts. No memory is taken.
    ///
    /// In version 1 and in a file of this set all fields are read by their places, and else by the
    /// names of the shape: the last one of a name counts. A cell or mask without a name in the file is
    /// 0, and an entry without one has no place.
    pub fn read(&mut self, shape: &Shape, bytes: &[u8])
        requires usable { IsUsable shape.now }
        requires accepted { IsAccepted (shape_contents shape.now) bytes.now }
        requires room { IsRoom (shape_contents shape.now) self.old }
        ensures says { Says (shape_contents shape.now) bytes.now self.new }
        ensures filled { IsFilled (shape_contents shape.now) self.new }
        ensures room { IsRoom (shape_contents shape.now) self.new }
    {
        self.fill(shape);
        let own = is_own(shape, bytes);
        read_cells(&mut self.cells, shape, bytes, own);
        read_priors(&mut self.priors, shape, bytes, own);
        read_places(&mut self.places, shape, bytes, own);
    }

    // Puts a number for each cell and each tracked mask, and a place for each own entry, where they are not there yet.
    fn fill(&mut self, shape: &Shape)
        requires paired { IsPaired (shape_contents shape.now) }
        requires room { IsRoom (shape_contents shape.now) self.old }
        ensures { IsFilled (shape_contents shape.now) self.new }
    {
        fill_up(&mut self.cells, 0, shape.cells.len());
        fill_up(&mut self.priors, 0, shape.priors.len());
        fill_up(&mut self.places, None, own_count(shape) as usize);
    }

    /// Where the block of an own entry begins, in bytes from the start, where the file has one. Entries are
    /// counted from 0, the items in set order and then the script.
    pub fn place(&self, number: usize) -> Option<u64>
        ensures { result ≡ slice_index_or self.now.places.items number None }
    {
        match self.places.get(number) {
            Some(place) => *place,
            None => None,
        }
    }
}
