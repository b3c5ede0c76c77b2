//! The legacy sum of a part, as a node of a pool.

ghost use Rattle.std.specs.Prelude.{◌≡◌, ℕ, ◌+◌, ◌*◌, ◌≤◌, ◌^◌, [], ◌∷◌, length, IfOk};
ghost use Rattle.ra_chain.specs.Elaboration.{term_tree, terms_tree};
ghost use Rattle.ra_chain.specs.Planting.{Names, Plants, HasRoom, IsKept};
ghost use Rattle.ra_chain.specs.Terms.{PlantsTerms, terms_sum};

use crate::nodes::{added_node, constant_node, joined_node, operand_node};
use ra_condition::Term;
use ra_indirect::Pool;
use ra_operand::Op;
use ra_text::OutOfMemory;
use std::alloc::Global;

/// The node of the legacy sum of terms: docs/DEFINITIONS.md, "Trees of a group".
///
/// It adds at most 12 nodes for each term and one more; the nodes that are there, 12 for each term
/// and two are together at most 2^31. After `OutOfMemory` the pool keeps what it has.
pub fn elaborate_terms(alloc: Global, terms: &[Term], pool: &mut Pool) -> Result<u32, OutOfMemory>
    requires { length pool.old + 12 * length terms.now + 2 ≤ 2 ^ 31 }
    ensures ok { IfOk result (Plants pool.old pool.new (terms_tree terms.now ∷ []) (terms_tree terms.now)) }
    ensures kept { IsKept pool.old pool.new (12 * length terms.now + 1) (2 * length terms.now) (2 * length terms.now) }
{
    let _ = alloc;
    // This call tells that the nodes are those of a pool, which the proof needs.
    let _ = pool.len();
    let sum = summed_node(pool, terms)?;
    match sum {
        Some(sum) => Ok(sum),
        None => {
            let zero = constant_node(pool, 0)?;
            Ok(zero)
        }
    }
}

// The sum of the terms, if there are some.
fn summed_node(pool: &mut Pool, terms: &[Term]) -> Result<Option<u32>, OutOfMemory>
    requires room { HasRoom pool.old (12 * length terms.now) }
    ensures ok { IfOk result (PlantsTerms pool.old pool.new (terms_sum terms.now)) }
    ensures kept { IsKept pool.old pool.new (12 * length terms.now) (2 * length terms.now) (2 * length terms.now) }
{
    let mut sum = None;
    for term in terms {
        let product = term_node(pool, *term)?;
        let more = added_node(pool, sum, product)?;
        sum = Some(more);
    }
    Ok(sum)
}

// An operand, or an operand and its factor.
fn term_node(pool: &mut Pool, term: Term) -> Result<u32, OutOfMemory>
    requires room { HasRoom pool.old 7 }
    ensures ok { IfOk result (Plants pool.old pool.new (term_tree term ∷ []) (term_tree term)) }
    ensures named { IfOk result (Names pool.new) }
    ensures kept { IsKept pool.old pool.new 7 2 2 }
{
    let operand = operand_node(pool, term.operand, None, None)?;
    match term.factor {
        None => Ok(operand),
        Some(factor) => {
            let factor = operand_node(pool, factor, None, None)?;
            let product = joined_node(pool, Op::Mul, operand, factor)?;
            Ok(product)
        }
    }
}
