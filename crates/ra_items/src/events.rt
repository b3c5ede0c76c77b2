ghost use Rattle.std.specs.Prelude.{◌≡◌, map};
ghost use Rattle.ra_set.specs.Contents.{item_contents};
ghost use Rattle.ra_items.specs.Rests.{events_of};

use crate::item_run::ItemRun;
use crate::told::Told;
use ra_meaning::Event;
use ra_set::Item;
use std::marker::Model;

/// The events of a frame, items in set order: docs/DEFINITIONS.md, "Events".
///
/// An iterator that takes no memory. It is seen as the list of the events that are left.
#[derive(Drop)]
pub struct Events<'a> {
    // those that are left of the item before those at `places`
    told: Told,
    items: &'a [Item],
    runs: &'a [ItemRun],
    places: &'a [u32],
}

impl<'a> Model for Events<'a> {
    ghost use Rattle.std.specs.Prelude.{List};
    ghost use Rattle.ra_meaning.specs.declared.event.Event.{Event};

    ghost Value = { List Event };

    ghost use Rattle.ra_items.specs.Left.{events_left};

    ghost view = { events_left };
}

impl<'a> Events<'a> {
    /// The events of the items at these places, by their runs.
    pub fn new(items: &'a [Item], runs: &'a [ItemRun], places: &'a [u32]) -> Events<'a>
        ensures { result ≡ events_of (map item_contents items.now) runs.now places.now }
    {
        Events {
            told: Told::nothing(),
            items,
            runs,
            places,
        }
    }
}

impl<'a> Iterator for Events<'a> {
    ghost use Rattle.std.specs.Iterator.{YieldsFirst, item_count};

    type Item = Event;

    ghost next_gives = { YieldsFirst (λ left. left) };

    ghost remaining = { item_count (λ left. left) };

    fn next(&mut self) -> Option<Event> {
        let mut event = self.told.next();
        while event.is_none() {
            let (place, places) = self.places.split_first()?;
            self.places = places;
            self.told = Told::at(self.items, self.runs, *place as usize);
            event = self.told.next();
        }
        event
    }
}
