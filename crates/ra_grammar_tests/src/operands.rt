use crate::reading::{Reader, other_refusal};
use ra_operand::{
    Kind, Op, Operand, Size, compare, compute, mask, parse_operand, print_operand, transform, view,
    width,
};
use ra_text::Syntax;
use std::alloc::Global;

// Texts, what stands at their front, and where it ends.
const READ: &[(&str, Operand, usize)] = &[
    ("99999999999", Operand::Const(4294967295), 11),
    ("-99999999999", Operand::Const(2147483648), 12),
    ("hfffffffff", Operand::Const(4294967295), 10),
    ("~0xK3g", Operand::Cell(Kind::Inverted, Size::Count, 3), 5),
    ("0xa", Operand::Cell(Kind::Mem, Size::Two, 10), 3),
    ("0xb10", Operand::Cell(Kind::Mem, Size::Two, 0xB10), 5),
    ("0xC5", Operand::Cell(Kind::Mem, Size::Two, 0xC5), 4),
    ("0xd0", Operand::Cell(Kind::Mem, Size::Two, 0xD0), 4),
    ("0xg5", Operand::Cell(Kind::Mem, Size::FourBig, 5), 4),
    ("0xk5", Operand::Cell(Kind::Mem, Size::Count, 5), 4),
    ("0xS5", Operand::Cell(Kind::Mem, Size::Bit6, 5), 4),
    ("0x 1=1", Operand::Cell(Kind::Mem, Size::Two, 1), 4),
    ("D0Xh1", Operand::Cell(Kind::Delta, Size::Byte, 1), 5),
    ("p0x1", Operand::Cell(Kind::Prior, Size::Two, 1), 4),
    ("b0xX1", Operand::Cell(Kind::Bcd, Size::Four, 1), 5),
    ("0", Operand::Const(0), 1),
    ("v0x1", Operand::Const(0), 2),
    ("v-1", Operand::Const(4294967295), 3),
    ("-0", Operand::Const(0), 2),
    ("-2147483649", Operand::Const(2147483648), 11),
    ("vh0A", Operand::Const(10), 4),
    ("{recall}=1", Operand::Recall, 8),
];

#[test]
fn operands_end_where_nothing_goes_on(rt: HostRuntime) {
    for &(text, operand, end) in READ {
        assert!(rt;
            parse_operand(text.as_bytes(), 0) == Ok((operand, end)),
            "at {text}"
        );
    }
}

// Texts that are no operand, and their first bad place.
const REFUSED: &[(&str, usize)] = &[
    ("", 0),
    ("0xz", 2),
    ("0x", 2),
    ("0x  1", 3),
    ("0x H10", 3),
    ("0xHG", 3),
    ("{Recall}", 1),
    ("{recal}=1", 6),
    ("v", 1),
    ("vh", 2),
    ("v+h1", 2),
    ("-h1", 1),
    ("-v1", 1),
    ("h-1", 1),
    ("h", 1),
    ("~5", 1),
    ("d{recall}", 1),
    ("d0=", 2),
    ("b1=1", 1),
    ("=", 0),
];

#[test]
fn operands_are_refused_at_the_first_bad_place(rt: HostRuntime) {
    assert_eq!(rt; other_refusal(rt.alloc(), Reader::Operand, REFUSED), None);
}

#[test]
fn operands_are_read_from_a_place(rt: HostRuntime) {
    let read = parse_operand(b"A:5", 2) == Ok((Operand::Const(5), 3));
    assert!(rt; read && parse_operand(b"A:0xz", 2) == Err(Syntax { at: 4 }));
}

// The operand has this canonical text.
fn prints(alloc: Global, operand: &Operand, text: &str) -> bool {
    match print_operand(alloc, operand) {
        Ok(printed) => printed.as_slice() == text.as_bytes(),
        Err(_) => false,
    }
}

// Operands, and their canonical text.
const PRINTED: &[(Operand, &str)] = &[
    (Operand::Cell(Kind::Inverted, Size::Count, 3), "~0xK0003"),
    (Operand::Cell(Kind::Mem, Size::Two, 0x20), "0x 0020"),
    (Operand::Cell(Kind::Delta, Size::Byte, 0xABCDE), "d0xHabcde"),
    (
        Operand::Cell(Kind::Prior, Size::Bit0, 4294967295),
        "p0xMffffffff",
    ),
    (Operand::Cell(Kind::Bcd, Size::Three, 0x1000), "b0xW1000"),
    (Operand::Const(4294967295), "4294967295"),
    (Operand::Const(0), "0"),
    (Operand::Recall, "{recall}"),
];

#[test]
fn printed_operands_are_canonical(rt: HostRuntime) {
    for (operand, text) in PRINTED {
        assert!(rt; prints(rt.alloc(), operand, text), "at {text}");
    }
}

// Sizes, a raw number, and what is seen of it.
const VIEWED: &[(Size, u32, u32)] = &[
    (Size::Bit0, 0xFE, 0),
    (Size::Bit5, 0xFFFF_FFFF, 1),
    (Size::Bit7, 0x80, 1),
    (Size::Low, 0xAB, 0x0B),
    (Size::High, 0x1AB, 0x0A),
    (Size::Byte, 4294967295, 255),
    (Size::Count, 0xFFFF_FF07, 3),
    (Size::Two, 0x1234_5678, 0x5678),
    (Size::TwoBig, 0x1234_5678, 0x7856),
    (Size::Three, 0x1234_5678, 0x34_5678),
    (Size::ThreeBig, 0x1234_5678, 0x78_5634),
    (Size::Four, 0x1234_5678, 0x1234_5678),
    (Size::FourBig, 0x1234_5678, 0x7856_3412),
];

#[test]
fn views_look_at_masked_bits(rt: HostRuntime) {
    for &(size, raw, seen) in VIEWED {
        let masked = view(size, raw & mask(size));
        assert!(rt; view(size, raw) == seen && masked == seen, "at {size:?}");
    }
    for (size, bytes) in [
        (Size::Bit3, 1),
        (Size::Count, 1),
        (Size::TwoBig, 2),
        (Size::Three, 4),
        (Size::ThreeBig, 4),
        (Size::Four, 4),
    ] {
        assert!(rt; width(size) == bytes, "at {size:?}");
    }
}

// Kinds and sizes, what is seen, and what it is changed into.
const CHANGED: &[(Kind, Size, u32, u32)] = &[
    (Kind::Bcd, Size::Four, 4294967295, 166666665),
    (Kind::Bcd, Size::Byte, 0x25, 25),
    (Kind::Bcd, Size::Byte, 0xFF, 165),
    (Kind::Inverted, Size::Bit2, 0, 1),
    (Kind::Inverted, Size::Low, 0x1A, 0x15),
    (Kind::Inverted, Size::Count, 3, 252),
    (Kind::Inverted, Size::Three, 0, 0xFF_FFFF),
    (Kind::Inverted, Size::FourBig, 1, 4294967294),
    (Kind::Prior, Size::Two, 77, 77),
];

#[test]
fn kinds_change_the_view(rt: HostRuntime) {
    for &(kind, size, x, changed) in CHANGED {
        assert!(rt; transform(kind, size, x) == changed, "at {kind:?} {size:?}");
    }
}

// The worked results of the operators that join.
fn compute_as_worked() -> bool {
    compute(Op::Mul, 65536, 65537) == 65536
        && compute(Op::Div, 7, 2) == 3
        && compute(Op::Div, 7, 0) == 0
        && compute(Op::Rem, 7, 4) == 3
        && compute(Op::Rem, 7, 0) == 0
        && compute(Op::And, 12, 10) == 8
        && compute(Op::Xor, 12, 10) == 6
        && compute(Op::Add, 4294967295, 2) == 1
        && compute(Op::Sub, 1, 2) == 4294967295
}

// The worked answers of the operators that compare.
fn compare_as_worked() -> bool {
    compare(Op::Bare, 1, 2)
        && compare(Op::Eq, 2, 2)
        && !compare(Op::Ne, 2, 2)
        && compare(Op::Lt, 1, 4294967295)
        && compare(Op::Le, 2, 2)
        && !compare(Op::Gt, 2, 2)
        && compare(Op::Ge, 4294967295, 1)
}

#[test]
fn operators_go_without_sign(rt: HostRuntime) {
    assert!(rt; compute_as_worked() && compare_as_worked());
}
