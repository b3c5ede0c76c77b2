use ra_text::{read_decimal, read_hex, read_signed};

// Texts, and the decimal number at their front with its end.
const DECIMAL: &[(&str, Option<(u32, usize)>)] = &[
    ("", None),
    ("x1", None),
    ("-1", None),
    ("0", Some((0, 1))),
    ("007a", Some((7, 3))),
    ("4294967295", Some((4294967295, 10))),
    ("4294967296", Some((4294967295, 10))),
    ("99999999999", Some((4294967295, 11))),
];

#[test]
fn decimal_numbers_saturate(rt: HostRuntime) {
    for &(text, found) in DECIMAL {
        assert!(rt; read_decimal(text.as_bytes(), 0) == found, "at {text}");
    }
}

// Texts, and the signed number at their front with its end.
const SIGNED: &[(&str, Option<(u32, usize)>)] = &[
    ("", None),
    ("-", None),
    ("+-1", None),
    ("--1", None),
    ("5.", Some((5, 1))),
    ("+5", Some((5, 2))),
    ("-0", Some((0, 2))),
    ("-1", Some((4294967295, 2))),
    ("-2147483648", Some((2147483648, 11))),
    ("-2147483649", Some((2147483648, 11))),
    ("-99999999999", Some((2147483648, 12))),
    ("+99999999999", Some((4294967295, 12))),
];

#[test]
fn signed_numbers_are_kept_in_32_bits(rt: HostRuntime) {
    for &(text, found) in SIGNED {
        assert!(rt; read_signed(text.as_bytes(), 0) == found, "at {text}");
    }
}

// Texts, and the hexadecimal number at their front with its end.
const HEXADECIMAL: &[(&str, Option<(u32, usize)>)] = &[
    ("", None),
    ("g", None),
    ("aF0g", Some((0xAF0, 3))),
    ("FFFFFFFF", Some((4294967295, 8))),
    ("fffffffff", Some((4294967295, 9))),
    ("0000000000001", Some((1, 13))),
];

#[test]
fn hexadecimal_digits_are_of_either_case(rt: HostRuntime) {
    for &(text, found) in HEXADECIMAL {
        assert!(rt; read_hex(text.as_bytes(), 0) == found, "at {text}");
    }
}

#[test]
fn numbers_are_read_from_a_place(rt: HostRuntime) {
    let text = b"ab12";
    let decimal = read_decimal(text, 2) == Some((12, 4)) && read_decimal(text, 4).is_none();
    let others = read_hex(text, 1) == Some((0xB12, 4)) && read_signed(text, 3) == Some((2, 4));
    assert!(rt; decimal && others);
}
