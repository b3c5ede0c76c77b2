ghost use Rattle.std.specs.Prelude.{◌≡◌, ◌≤◌, ◌↔◌, Contains, IsTrue};
ghost use Rattle.ra_io.specs.Causes.{next_count};
ghost use Rattle.ra_io.specs.Held.{CallsSeen, no_calls, IsListed};

use std::marker::Model;

/// The calls of one kind: how many were made, which are to fail, and how many faults came of them.
#[derive(Drop)]
pub struct Calls {
    made: u64,
    failing: Vec<u64>,
    faults: u64,
}

impl Model for Calls {
    ghost Value = { CallsSeen };

    ghost view = { λ c. record { made = c.made; failing = c.failing.items; faults = c.faults } };
}

impl Calls {
    /// No calls yet, and these are to fail.
    pub fn new(failing: Vec<u64>) -> Self
        ensures { result ≡ no_calls failing.items }
    {
        Calls {
            made: 0,
            failing,
            faults: 0,
        }
    }

    /// From now on these calls are to fail.
    pub fn list(&mut self, failing: Vec<u64>)
        ensures { self.new ≡ record self.old { failing = failing.items } }
    {
        self.failing = failing;
    }

    /// Counts a call, and says whether it is to fail.
    pub fn begin(&mut self) -> bool
        ensures made { self.new ≡ record self.old { made = next_count self.old.made } }
        ensures listed { IsTrue result ↔ IsListed self.old }
    {
        self.made = self.made.saturating_add(1);
        self.failing.contains(&self.made)
    }

    /// Counts a fault.
    pub fn add_fault(&mut self)
        ensures counted { self.new ≡ record self.old { faults = next_count self.old.faults } }
        ensures later { self.old.faults ≤ self.new.faults }
    {
        self.faults = self.faults.saturating_add(1);
    }
}
