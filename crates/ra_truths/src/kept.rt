ghost use Rattle.std.specs.Prelude.{◌≡◌, ◌≢◌, ◌<◌, ◌≤◌, [], false, length, replicate, slice_index_or, IfOk};
ghost use Rattle.ra_truths.specs.Kept.{put_in};

use ra_text::OutOfMemory;
use std::alloc::Global;
use std::marker::Model;

/// A row of truths, and the places of those that flipped, in a row with room for all. Room that was never used takes no
/// memory of the machine.
///
/// Only `new` takes memory.
#[derive(Drop)]
pub struct Kept {
    truths: Vec<bool>,
    places: Vec<u32>,
}

impl Model for Kept {
    ghost use Rattle.std.specs.Prelude.{◌≤◌, length};
    ghost use Rattle.std.specs.Vec.{vec_capacity};
    ghost use Rattle.ra_truths.specs.Kept.{KeptSeen};

    ghost Value = { KeptSeen };

    ghost view = { λ k. record { truths = k.truths.items; flipped = k.places.items } };

    ghost invariant = { λ k. record {
      few : length k.places.items ≤ length k.truths.items;
      room : length k.truths.items ≤ vec_capacity k.places;
    } };
}

impl Kept {
    /// This many truths, all false, of which none flipped. Memory is the only refusal.
    pub fn new(alloc: Global, count: usize) -> Result<Kept, OutOfMemory>
        ensures { IfOk result (λ kept. kept ≡ record { truths = replicate count false; flipped = [] }) }
    {
        let truths = vec![in alloc; false; count]?;
        let places = Vec::with_capacity(alloc, count)?;
        Ok(Kept { truths, places })
    }

    /// Takes all places off the list.
    pub fn clear(&mut self)
        ensures { self.new ≡ record self.old { flipped = [] } }
    {
        self.places.clear();
    }

    /// Sets a truth, and lists its place where it is another than before.
    #[inline(always)]
    pub fn put(&mut self, place: u32, truth: bool)
        requires place { place < length self.old.truths }
        requires room { slice_index_or self.old.truths place false ≢ truth
            → length self.old.flipped < length self.old.truths }
        ensures { self.new ≡ put_in self.old place truth }
    {
        if self.truths[place as usize] != truth {
            self.truths[place as usize] = truth;
            // There is memory for the place of each truth.
            let _ = self.places.push(place);
        }
    }

    /// The truths.
    pub fn truths(&self) -> &[bool]
        ensures { result.now ≡ self.now.truths }
    {
        &self.truths
    }

    /// The truth of a place.
    pub fn truth(&self, place: u32) -> bool
        requires { place < length self.now.truths }
        ensures { result ≡ slice_index_or self.now.truths place false }
    {
        self.truths[place as usize]
    }

    /// The listed places, in the order in which they were listed.
    pub fn flipped(&self) -> &[u32]
        ensures places { result.now ≡ self.now.flipped }
        ensures few { length result.now ≤ length self.now.truths }
    {
        &self.places
    }
}
