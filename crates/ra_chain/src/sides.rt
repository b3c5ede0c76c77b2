//! The two trees of a condition, put into a pool.

ghost use Rattle.std.specs.Prelude.{Option, List, ◌∷◌, ◌++◌, [], IsTrue, IfOk, ◌⊎◌};
ghost use Rattle.ra_operand.specs.Operators.{is_arithmetic, is_bare};
ghost use Rattle.ra_condition.specs.Flags.{hands_on};
ghost use Rattle.ra_indirect.specs.declared.node.Node.{Node};
ghost use Rattle.ra_indirect.specs.Trees.{Tree};
ghost use Rattle.ra_indirect.specs.Pools.{Spells};
ghost use Rattle.ra_indirect.specs.Growing.{GrowsBy};
ghost use Rattle.ra_chain.specs.Elaboration.{operand_tree, joined, handed_on};
ghost use Rattle.ra_chain.specs.Planting.{Names, NamesSome, SpellsOrZero, SpellsSum, Plants, HasRoom, IsKept};
ghost use Rattle.ra_chain.specs.Sides.{AreNamed, JoinsValues, left_side, right_side, GrewByLeft, PlantsSides};

use crate::nodes::{added_node, joined_node, operand_node};
use ra_condition::{Condition, Flag};
use ra_indirect::Pool;
use ra_operand::{Op, Operand};
use ra_text::OutOfMemory;

/// What the operands of a condition may name: its pointer, and the value last remembered.
#[derive(Clone, Copy)]
pub struct Named {
    /// The node of the pointer, if the condition before is an AddAddress.
    pub pointer: Option<u32>,
    /// The node of the value last remembered, if one was.
    pub recalled: Option<u32>,
}

/// The nodes of a condition's left and right trees, from its sum and its left operand.
pub fn sides_node(
    pool: &mut Pool,
    condition: &Condition,
    sum: Option<u32>,
    left: u32,
    named: Named,
) -> Result<(u32, u32), OutOfMemory>
    requires room { HasRoom pool.old 5 }
    requires joins { JoinsValues condition.now }
    requires sum { NamesSome pool.old sum }
    requires left { Names pool.old left }
    requires named { AreNamed pool.old named }
    ensures ok { IfOk result (λ n. (base : List Node) (s : Option Tree) (l p r : Tree)
        → SpellsSum pool.old sum s → Spells pool.old left l
        → SpellsOrZero pool.old named.pointer p → SpellsOrZero pool.old named.recalled r
        → GrewByLeft base pool.old s l
        → PlantsSides base pool.new (left_side condition.now s l (operand_tree condition.now.right p r))
        (right_side condition.now s l (operand_tree condition.now.right p r)) n.0 n.1) }
    ensures kept { IsKept pool.old pool.new 5 1 1 }
{
    if condition.flag.hands_on() {
        let value = value_node(pool, condition, sum, left, named)?;
        Ok((value, value))
    } else {
        let left = added_node(pool, sum, left)?;
        let right = operand_node(pool, condition.right, named.pointer, named.recalled)?;
        Ok((left, right))
    }
}

// The node of the value that a condition hands on.
fn value_node(
    pool: &mut Pool,
    condition: &Condition,
    sum: Option<u32>,
    left: u32,
    named: Named,
) -> Result<u32, OutOfMemory>
    requires room { HasRoom pool.old 5 }
    requires hands_on { IsTrue (hands_on condition.now.flag) }
    requires joins { JoinsValues condition.now }
    requires sum { NamesSome pool.old sum }
    requires left { Names pool.old left }
    requires named { AreNamed pool.old named }
    ensures ok { IfOk result (λ n. (base : List Node) (s : Option Tree) (l p r : Tree)
        → SpellsSum pool.old sum s → Spells pool.old left l
        → SpellsOrZero pool.old named.pointer p → SpellsOrZero pool.old named.recalled r
        → GrewByLeft base pool.old s l
        → Plants base pool.new
        (handed_on condition.now.flag s (joined condition.now.op l (operand_tree condition.now.right p r)) ∷ [])
        (handed_on condition.now.flag s (joined condition.now.op l (operand_tree condition.now.right p r))) n) }
    ensures kept { IsKept pool.old pool.new 5 1 1 }
{
    let value = with_right(pool, condition, left, named)?;
    match condition.flag {
        Flag::Remember => {
            let value = added_node(pool, sum, value)?;
            Ok(value)
        }
        _ => Ok(value),
    }
}

// The left operand joined with the right one by the arithmetic of their condition, if it has one.
fn with_right(
    pool: &mut Pool,
    condition: &Condition,
    left: u32,
    named: Named,
) -> Result<u32, OutOfMemory>
    requires room { HasRoom pool.old 4 }
    requires joins { IsTrue (is_bare condition.now.op) ⊎ IsTrue (is_arithmetic condition.now.op) }
    requires left { Names pool.old left }
    requires named { AreNamed pool.old named }
    ensures ok { IfOk result (λ n. (base : List Node) (trees : List Tree) (l p r : Tree)
        → Spells pool.old left l
        → SpellsOrZero pool.old named.pointer p → SpellsOrZero pool.old named.recalled r
        → GrowsBy base pool.old (trees ++ l ∷ [])
        → Plants base pool.new (trees ++ joined condition.now.op l (operand_tree condition.now.right p r) ∷ [])
        (joined condition.now.op l (operand_tree condition.now.right p r)) n) }
    ensures named { IfOk result (Names pool.new) }
    ensures kept { IsKept pool.old pool.new 4 1 1 }
{
    match condition.op {
        Op::Bare => Ok(left),
        op => {
            let right = operand_node(pool, condition.right, named.pointer, named.recalled)?;
            let number = joined_node(pool, op, left, right)?;
            Ok(number)
        }
    }
}
