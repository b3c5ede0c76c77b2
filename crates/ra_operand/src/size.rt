/// What an operand views of the number of its cell: docs/DEFINITIONS.md, "Sizes".
#[derive(Clone, Copy, Debug, PartialEq, Eq, Hash)]
pub enum Size {
    /// Bit 0 of a byte, the lowest.
    Bit0,
    /// Bit 1 of a byte.
    Bit1,
    /// Bit 2 of a byte.
    Bit2,
    /// Bit 3 of a byte.
    Bit3,
    /// Bit 4 of a byte.
    Bit4,
    /// Bit 5 of a byte.
    Bit5,
    /// Bit 6 of a byte.
    Bit6,
    /// Bit 7 of a byte, the highest.
    Bit7,
    /// The lower nibble.
    Low,
    /// The upper nibble.
    High,
    /// 8 bits.
    Byte,
    /// 16 bits.
    Two,
    /// 24 bits.
    Three,
    /// 32 bits.
    Four,
    /// The number of ones in a byte.
    Count,
    /// 16 bits, the bytes in reverse.
    TwoBig,
    /// 24 bits, the bytes in reverse.
    ThreeBig,
    /// 32 bits, the bytes in reverse.
    FourBig,
}
