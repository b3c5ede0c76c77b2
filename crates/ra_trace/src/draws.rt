use std::marker::Model;

/// The numbers that a workload draws, seen as their state: docs/DEFINITIONS.md, "Workload".
#[derive(Drop)]
pub struct Draws {
    state: u32,
}

impl Model for Draws {
    ghost use Rattle.std.specs.Prelude.{ℕ};

    ghost Value = { ℕ };

    ghost view = { λ d. d.state };
}

impl Draws {
    ghost use Rattle.std.specs.Prelude.{◌≡◌};
    ghost use Rattle.ra_trace.specs.Workload.{drawn, given};

    /// The draws from a state on.
    pub fn new(state: u32) -> Draws
        ensures { result ≡ state }
    {
        Draws { state }
    }

    /// Draws a number.
    #[tactic(auto, unfolding(crate::specs::Workload::drawn))]
    pub fn draw(&mut self) -> u16
        ensures state { self.new ≡ drawn self.old }
        ensures number { result ≡ given (drawn self.old) }
    {
        self.state = self
            .state
            .wrapping_mul(1_664_525)
            .wrapping_add(1_013_904_223);
        (self.state / 65_536) as u16
    }
}
