ghost use Rattle.std.specs.Prelude.{◌≡◌};
ghost use Rattle.std.proofs.Common.{rules};
ghost use Rattle.std.specs.Cmp.Rules.{hashing};
ghost use Rattle.std.specs.Hash as fed;
ghost use Rattle.ra_truths.specs.Packing as spec;

use ra_operand::Op;
use std::hash::{Hash, Hasher};

/// A comparison of the values of two nodes of a pool, by their numbers:
/// docs/INTERNALS.md, "Truths of comparisons".
#[derive(Clone, Copy, Debug, PartialEq, Eq)]
pub struct Comparison {
    pub op: Op,
    pub left: u32,
    pub right: u32,
}

impl Hash for Comparison {
    ghost hash_input = { λ comparison. fed.u128 (spec.packed comparison) };

    ghost respects_eq = { Prim.search (hashing, rules) };

    // One number for the whole comparison: a number each for its fields would cost several times as much.
    fn hash<H: Hasher>(&self, state: &mut H) {
        state.write_u128(packed(*self));
    }
}

// The fields of a comparison as one number, which no other comparison has.
fn packed(comparison: Comparison) -> u128
    ensures { result ≡ spec.packed comparison }
{
    let Comparison { op, left, right } = comparison;
    left as u128 + right as u128 * (1 << 32) + op as u128 * (1 << 64)
}
