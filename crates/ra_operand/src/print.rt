//! The canonical text of operands: docs/DEFINITIONS.md, "Canonical text".

ghost use Rattle.std.specs.Prelude.{◌≡◌, ◌++◌, IfOk, OnErr, OnOk, string_bytes};
ghost use Rattle.ra_operand.specs.Canonical.{letter_of, operand_text, prefix_of};
ghost use Rattle.ra_operand.specs.Fitting.{Fits32};
ghost use Rattle.ra_operand.specs.Grammar as grammar;

use crate::kind::Kind;
use crate::operand::Operand;
use crate::size::Size;
use ra_text::OutOfMemory;
use std::alloc::{AllocError, Global};

// The prefix of a kind.
fn prefix(kind: Kind) -> &'static str
    ensures { result.now ≡ prefix_of kind }
{
    match kind {
        Kind::Mem => "",
        Kind::Delta => "d",
        Kind::Prior => "p",
        Kind::Bcd => "b",
        Kind::Inverted => "~",
    }
}

// The letter of a size, or the blank.
fn letter(size: Size) -> &'static str
    ensures { result.now ≡ letter_of size }
{
    match size {
        Size::Bit0 => "M",
        Size::Bit1 => "N",
        Size::Bit2 => "O",
        Size::Bit3 => "P",
        Size::Bit4 => "Q",
        Size::Bit5 => "R",
        Size::Bit6 => "S",
        Size::Bit7 => "T",
        Size::Low => "L",
        Size::High => "U",
        Size::Byte => "H",
        Size::Count => "K",
        Size::Two => " ",
        Size::TwoBig => "I",
        Size::Three => "W",
        Size::ThreeBig => "J",
        Size::Four => "X",
        Size::FourBig => "G",
    }
}

// The canonical text of an operand.
fn text_of(alloc: Global, operand: &Operand) -> Result<String, AllocError>
    ensures text { IfOk result (λ text. string_bytes text ≡ operand_text operand.now) }
    ensures number { Fits32 operand.now }
{
    match *operand {
        Operand::Cell(kind, size, address) => {
            format!(in alloc; "{}0x{}{address:04x}", prefix(kind), letter(size))
        }
        Operand::Const(number) => format!(in alloc; "{number}"),
        Operand::Recall => String::from_str(alloc, "{recall}"),
    }
}

/// Writes the canonical text of an operand at the end of a text: docs/DEFINITIONS.md, "Canonical
/// text". It fails only for running out of memory, and then the text stays as it was.
pub fn write_operand(text: &mut String, operand: &Operand) -> Result<(), AllocError>
    ensures text { OnOk result (string_bytes text.new ≡ string_bytes text.old ++ operand_text operand.now) }
    ensures err { OnErr result (string_bytes text.new ≡ string_bytes text.old) }
    ensures number { Fits32 operand.now }
{
    let own = text_of(*text.allocator(), operand)?;
    text.push_str(own.as_str())
}

/// The canonical text of an operand: docs/DEFINITIONS.md, "Canonical text". It spells the operand.
pub fn print_operand(alloc: Global, operand: &Operand) -> Result<Vec<u8>, OutOfMemory>
    ensures text { IfOk result (λ text. text.items ≡ operand_text operand.now) }
    ensures spelled { IfOk result (λ text. grammar.operand text.items operand.now) }
{
    let text = text_of(alloc, operand)?;
    Ok(text.into_bytes())
}
