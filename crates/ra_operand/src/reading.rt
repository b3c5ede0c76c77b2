//! The productions of the grammar of operands, one a function: docs/DEFINITIONS.md, "Operands".

ghost use Rattle.std.specs.Prelude.{◌≡◌, Ok};
ghost use Rattle.ra_operand.specs.Grammar.{kinds, sizes};
ghost use Rattle.ra_operand.specs.Reading.{begins_memory, cell_or_constant_at, constant_at, decimal_constant_at, hex_constant_at, memory_at, operand_at, recall_at, unsigned_at};
ghost use Rattle.ra_text.specs.Moves.{Moves};
ghost use Rattle.ra_text.specs.Reading.{optional_at};
ghost use Rattle.ra_text.specs.Table.{lookup};

use crate::kind::Kind;
use crate::operand::Operand;
use crate::size::Size;
use crate::tables::{kind_of, size_of};
use ra_text::{Cursor, Stop};

/// Reads an operand: docs/DEFINITIONS.md, "Operands".
///
/// `Stop` exactly where what stands before the first byte that goes on with no operand is no whole
/// operand; the cursor then stands before that byte.
#[tactic(auto, unfolding(crate::specs::Reading::operand_at))]
#[inline(always)]
pub fn take_operand(cursor: &mut Cursor<'_>) -> Result<Operand, Stop>
    ensures { Moves result cursor.new.rest.now (operand_at cursor.old.rest.now) }
{
    if cursor.is_at(b'{') {
        take_recall(cursor)
    } else {
        take_cell_or_constant(cursor)
    }
}

// `{recall}`
#[tactic(auto, unfolding(crate::specs::Reading::recall_at))]
#[inline(never)]
fn take_recall(cursor: &mut Cursor<'_>) -> Result<Operand, Stop>
    ensures { Moves result cursor.new.rest.now (recall_at cursor.old.rest.now) }
{
    cursor.literal(b"{recall}")?;
    Ok(Operand::Recall)
}

// A 0 may begin either.
#[tactic(auto, unfolding(crate::specs::Reading::cell_or_constant_at))]
#[inline(always)]
fn take_cell_or_constant(cursor: &mut Cursor<'_>) -> Result<Operand, Stop>
    ensures { Moves result cursor.new.rest.now (cell_or_constant_at cursor.old.rest.now) }
{
    if is_memory(cursor.rest) {
        take_memory(cursor)
    } else {
        take_constant(cursor)
    }
}

// Whether memory begins here: with a prefix, or with `0x`.
#[inline(always)]
fn is_memory(text: &[u8]) -> bool
    ensures { result ≡ begins_memory text.now }
{
    match text {
        [] => false,
        [byte, after @ ..] => {
            if *byte == b'0' {
                Cursor { rest: after }.is_at_letter(b'X')
            } else {
                kind_of(*byte).is_some()
            }
        }
    }
}

// [d | p | b | ~] 0x [size] hexnum
#[tactic(auto, unfolding(crate::specs::Reading::memory_at))]
#[inline(always)]
fn take_memory(cursor: &mut Cursor<'_>) -> Result<Operand, Stop>
    ensures { Moves result cursor.new.rest.now (memory_at cursor.old.rest.now) }
{
    let kind = take_kind(cursor);
    cursor.byte(b'0')?;
    cursor.letter(b'X')?;
    let size = take_size(cursor);
    let address = cursor.hexadecimal()?;
    Ok(Operand::Cell(kind, size, address))
}

// [d | p | b | ~]
#[inline(always)]
fn take_kind(cursor: &mut Cursor<'_>) -> Kind
    ensures { optional_at (lookup kinds) Kind.Mem cursor.old.rest.now ≡ Ok (result, cursor.new.rest.now) }
{
    if let [byte, after @ ..] = cursor.rest {
        if let Some(kind) = kind_of(*byte) {
            cursor.rest = after;
            return kind;
        }
    }
    Kind::Mem
}

// [size]
#[inline(always)]
fn take_size(cursor: &mut Cursor<'_>) -> Size
    ensures { optional_at (lookup sizes) Size.Two cursor.old.rest.now ≡ Ok (result, cursor.new.rest.now) }
{
    if let [byte, after @ ..] = cursor.rest {
        if let Some(size) = size_of(*byte) {
            cursor.rest = after;
            return size;
        }
    }
    Size::Two
}

// [v] h hexnum | [v] [+ | -] dec
#[tactic(auto, unfolding(crate::specs::Reading::constant_at))]
#[inline(always)]
fn take_constant(cursor: &mut Cursor<'_>) -> Result<Operand, Stop>
    ensures { Moves result cursor.new.rest.now (constant_at cursor.old.rest.now) }
{
    cursor.optional_letter(b'V');
    take_unsigned(cursor)
}

// h hexnum | [+ | -] dec
#[tactic(auto, unfolding(crate::specs::Reading::unsigned_at))]
#[inline(always)]
fn take_unsigned(cursor: &mut Cursor<'_>) -> Result<Operand, Stop>
    ensures { Moves result cursor.new.rest.now (unsigned_at cursor.old.rest.now) }
{
    if cursor.is_at_letter(b'H') {
        take_hex_constant(cursor)
    } else {
        take_decimal_constant(cursor)
    }
}

// h hexnum
#[tactic(auto, unfolding(crate::specs::Reading::hex_constant_at))]
#[inline(never)]
fn take_hex_constant(cursor: &mut Cursor<'_>) -> Result<Operand, Stop>
    ensures { Moves result cursor.new.rest.now (hex_constant_at cursor.old.rest.now) }
{
    cursor.letter(b'H')?;
    Ok(Operand::Const(cursor.hexadecimal()?))
}

// [+ | -] dec
#[tactic(auto, unfolding(crate::specs::Reading::decimal_constant_at))]
#[inline(always)]
fn take_decimal_constant(cursor: &mut Cursor<'_>) -> Result<Operand, Stop>
    ensures { Moves result cursor.new.rest.now (decimal_constant_at cursor.old.rest.now) }
{
    Ok(Operand::Const(cursor.signed()?))
}
