//! Trees put into a pool, a node or a few at a time.

ghost use Rattle.std.specs.Prelude.{ℕ, Option, [], ◌∷◌, IsTrue, IfOk};
ghost use Rattle.ra_operand.specs.Operators.{is_arithmetic};
ghost use Rattle.ra_indirect.specs.Trees.{Tree, constant, join, view};
ghost use Rattle.ra_indirect.specs.Pools.{MayFollow, IsValued, Spells};
ghost use Rattle.ra_indirect.specs.Growing.{GainsNode};
ghost use Rattle.ra_chain.specs.Elaboration.{operand_tree, added, subtracted, sum_after};
ghost use Rattle.ra_chain.specs.Planting.{Names, NamesSome, SpellsOrZero, SpellsSum, Plants, PlantsSum, HasRoom, IsCarried, IsKept, cells_at, views_at};

use ra_condition::Flag;
use ra_indirect::{Node, Pool};
use ra_operand::{Kind, Op, Operand, Size, width};
use ra_text::OutOfMemory;

// The number of a node, which goes last where it is new.
fn node_of(pool: &mut Pool, node: Node) -> Result<u32, OutOfMemory>
    requires room { HasRoom pool.old 1 }
    requires follows { MayFollow pool.old node }
    ensures ok { IfOk result (GainsNode pool.old pool.new node) }
    ensures named { IfOk result (λ n. IsValued node → Names pool.new n) }
    ensures kept { IsKept pool.old pool.new 1 (cells_at node) (views_at node) }
{
    let number = pool.intern(node)?;
    Ok(number)
}

/// A constant.
pub fn constant_node(pool: &mut Pool, value: u32) -> Result<u32, OutOfMemory>
    requires room { HasRoom pool.old 1 }
    ensures ok { IfOk result (Plants pool.old pool.new (constant value ∷ []) (constant value)) }
    ensures named { IfOk result (Names pool.new) }
    ensures kept { IsKept pool.old pool.new 1 0 0 }
{
    let number = node_of(pool, Node::Const(value))?;
    Ok(number)
}

// A node that is there, or else the constant 0.
fn number_or_zero(pool: &mut Pool, number: Option<u32>) -> Result<u32, OutOfMemory>
    requires room { HasRoom pool.old 1 }
    requires named { NamesSome pool.old number }
    ensures ok { IfOk result (λ n. (tree : Tree) → SpellsOrZero pool.old number tree
        → Plants pool.old pool.new [] tree n) }
    ensures named { IfOk result (Names pool.new) }
    ensures kept { IsKept pool.old pool.new 1 0 0 }
{
    match number {
        Some(number) => Ok(number),
        None => {
            let zero = constant_node(pool, 0)?;
            Ok(zero)
        }
    }
}

// A view of the cell at an address that a pointer moves: the cell, and then the view.
fn view_node(
    pool: &mut Pool,
    kind: Kind,
    size: Size,
    pointer: u32,
    address: u32,
) -> Result<u32, OutOfMemory>
    requires room { HasRoom pool.old 2 }
    requires named { Names pool.old pointer }
    ensures ok { IfOk result (λ n. (p : Tree) → Spells pool.old pointer p
        → Plants pool.old pool.new (view kind size p address ∷ []) (view kind size p address) n) }
    ensures named { IfOk result (Names pool.new) }
    ensures kept { IsKept pool.old pool.new 2 1 1 }
{
    let cell = Node::Cell {
        pointer,
        offset: address,
        width: width(size),
    };
    let cell = node_of(pool, cell)?;
    let view = node_of(pool, Node::View { kind, size, cell })?;
    Ok(view)
}

/// The tree of an operand, from the pointer of its condition and the value last remembered.
pub fn operand_node(
    pool: &mut Pool,
    operand: Operand,
    pointer: Option<u32>,
    recalled: Option<u32>,
) -> Result<u32, OutOfMemory>
    requires room { HasRoom pool.old 3 }
    requires pointer { NamesSome pool.old pointer }
    requires recalled { NamesSome pool.old recalled }
    ensures ok { IfOk result (λ n. (p r : Tree) → SpellsOrZero pool.old pointer p → SpellsOrZero pool.old recalled r
        → Plants pool.old pool.new (operand_tree operand p r ∷ []) (operand_tree operand p r) n) }
    ensures named { IfOk result (Names pool.new) }
    ensures kept { IsKept pool.old pool.new 3 1 1 }
{
    match operand {
        Operand::Const(value) => {
            let number = constant_node(pool, value)?;
            Ok(number)
        }
        Operand::Recall => {
            let number = number_or_zero(pool, recalled)?;
            Ok(number)
        }
        Operand::Cell(kind, size, address) => {
            let pointer = number_or_zero(pool, pointer)?;
            let view = view_node(pool, kind, size, pointer, address)?;
            Ok(view)
        }
    }
}

/// A value added to a sum, which may have nothing yet.
pub fn added_node(pool: &mut Pool, sum: Option<u32>, value: u32) -> Result<u32, OutOfMemory>
    requires room { HasRoom pool.old 1 }
    requires sum { NamesSome pool.old sum }
    requires value { Names pool.old value }
    ensures ok { IfOk result (λ n. (s : Option Tree) (v : Tree) → SpellsSum pool.old sum s → Spells pool.old value v
        → Plants pool.old pool.new [] (added s v) n) }
    ensures kept { IsKept pool.old pool.new 1 0 0 }
{
    match sum {
        Some(sum) => {
            let number = joined_node(pool, Op::Add, sum, value)?;
            Ok(number)
        }
        None => Ok(value),
    }
}

// A value taken from a sum, or from 0.
fn subtracted_node(pool: &mut Pool, sum: Option<u32>, value: u32) -> Result<u32, OutOfMemory>
    requires room { HasRoom pool.old 2 }
    requires sum { NamesSome pool.old sum }
    requires value { Names pool.old value }
    ensures ok { IfOk result (λ n. (s : Option Tree) (v : Tree) → SpellsSum pool.old sum s → Spells pool.old value v
        → Plants pool.old pool.new [] (subtracted s v) n) }
    ensures kept { IsKept pool.old pool.new 2 0 0 }
{
    match sum {
        Some(sum) => {
            let number = joined_node(pool, Op::Sub, sum, value)?;
            Ok(number)
        }
        None => {
            let zero = constant_node(pool, 0)?;
            let number = joined_node(pool, Op::Sub, zero, value)?;
            Ok(number)
        }
    }
}

/// The sum after a condition, from the value that it hands on and the sum before it.
pub fn sum_node(
    pool: &mut Pool,
    flag: Flag,
    value: u32,
    sum: Option<u32>,
) -> Result<Option<u32>, OutOfMemory>
    requires room { HasRoom pool.old 2 }
    requires sum { IsCarried flag → NamesSome pool.old sum }
    requires value { IsCarried flag → Names pool.old value }
    ensures ok { IfOk result (λ n. (v : Tree) (s : Option Tree) → (IsCarried flag → Spells pool.old value v)
        → (IsCarried flag → SpellsSum pool.old sum s) → PlantsSum pool.old pool.new (sum_after flag v s) n) }
    ensures kept { IsKept pool.old pool.new 2 0 0 }
{
    match flag {
        Flag::AddSource => {
            let number = added_node(pool, sum, value)?;
            Ok(Some(number))
        }
        Flag::SubSource => {
            let number = subtracted_node(pool, sum, value)?;
            Ok(Some(number))
        }
        Flag::AddAddress => Ok(sum),
        _ => Ok(None),
    }
}

/// An operator over two trees that are there.
pub fn joined_node(pool: &mut Pool, op: Op, left: u32, right: u32) -> Result<u32, OutOfMemory>
    requires room { HasRoom pool.old 1 }
    requires arithmetic { IsTrue (is_arithmetic op) }
    requires left { Names pool.old left }
    requires right { Names pool.old right }
    ensures ok { IfOk result (λ n. (s t : Tree) → Spells pool.old left s → Spells pool.old right t
        → Plants pool.old pool.new [] (join op s t) n) }
    ensures named { IfOk result (Names pool.new) }
    ensures kept { IsKept pool.old pool.new 1 0 0 }
{
    let joined = node_of(pool, Node::Arith { op, left, right })?;
    Ok(joined)
}
