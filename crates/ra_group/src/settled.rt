ghost use Rattle.std.specs.Prelude.{◌≡◌, ◌^◌, None, Some};

use crate::equations;
use ra_condition::{Condition, Flag};

/// What a condition comes to at a frame: docs/DEFINITIONS.md, "Equations of a condition".
#[derive(Clone, Copy, Debug)]
pub struct Settled {
    /// The flag of the condition.
    pub flag: Flag,
    /// A ResetNextIf reaches it.
    pub reset: bool,
    /// Its hits after the frame.
    pub hit: u32,
    /// The hits that the chain adds.
    pub add: i128,
    /// Its hits with those that the chain adds, at least 0 and at most the greatest `u32`.
    pub total: u32,
    /// Whether it is valid.
    pub valid: bool,
}

impl Settled {
    ghost use Rattle.ra_group.specs.Equations.{settled};
    ghost use Rattle.ra_group.specs.Bounds.{AddWithin};

    /// The condition, from its comparison, its hits before the frame, and what stands before it.
    pub fn of(condition: &Condition, truth: bool, hits: u32, before: Option<Settled>) -> Self
        requires { AddWithin (2 ^ 65) before }
        ensures { result ≡ settled condition.now truth hits before }
    {
        match before {
            None => Settled::first(condition, truth, hits),
            Some(before) => Settled::behind(condition, truth, hits, before),
        }
    }

    // A condition with none before it, as most are: nothing resets it, and its hits are all there are.
    fn first(condition: &Condition, truth: bool, hits: u32) -> Self
        ensures { result ≡ settled condition.now truth hits None }
    {
        let target = condition.target;
        let hit = equations::hits_after(false, truth, target, hits);
        Settled {
            flag: condition.flag,
            reset: false,
            hit,
            add: 0,
            total: hit,
            valid: equations::is_valid_alone(false, truth, target, hit),
        }
    }

    // A condition with one before it in its chain.
    fn behind(condition: &Condition, truth: bool, hits: u32, before: Settled) -> Self
        requires { AddWithin (2 ^ 65) (Some before) }
        ensures { result ≡ settled condition.now truth hits (Some before) }
    {
        let before = Some(before);
        let met = equations::is_met(before, truth);
        let reset = equations::is_reset(before);
        let hit = equations::hits_after(reset, met, condition.target, hits);
        let add = equations::added(before);
        let total = equations::total(hit, add);
        let alone = equations::is_valid_alone(reset, met, condition.target, hit);
        Settled {
            flag: condition.flag,
            reset,
            hit,
            add,
            total,
            valid: equations::is_valid(condition, total, alone),
        }
    }
}
