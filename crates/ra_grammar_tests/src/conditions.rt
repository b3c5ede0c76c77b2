ghost use Rattle.std.specs.Prelude.{◌≤◌, length};

use crate::reading::{Reader, other_refusal, repeated};
use ra_condition::{
    Flag, Refused, TriggerText, parse_trigger, parse_value, print_trigger, print_value,
    read_trigger, read_value,
};
use ra_text::OutOfMemory;
use std::alloc::Global;

// The text spells a trigger with this canonical text.
fn trigger_prints(alloc: Global, text: &str, canonical: &str) -> bool {
    let Ok(trigger) = parse_trigger(alloc, text.as_bytes()) else {
        return false;
    };
    match print_trigger(alloc, &trigger) {
        Ok(printed) => printed.as_slice() == canonical.as_bytes(),
        Err(_) => false,
    }
}

// The text spells a value with this canonical text.
fn value_prints(alloc: Global, text: &str, canonical: &str) -> bool {
    let Ok(value) = parse_value(alloc, text.as_bytes()) else {
        return false;
    };
    match print_value(alloc, &value) {
        Ok(printed) => printed.as_slice() == canonical.as_bytes(),
        Err(_) => false,
    }
}

// The first condition of the trigger has this flag.
fn is_first_flag(trigger: &TriggerText, flag: Flag) -> bool {
    match trigger.core.conditions.first() {
        Some(condition) => condition.flag == flag,
        None => false,
    }
}

// The text spells a trigger whose first condition has this flag.
fn has_flag(alloc: Global, text: &str, flag: Flag) -> bool {
    match parse_trigger(alloc, text.as_bytes()) {
        Ok(trigger) => is_first_flag(&trigger, flag),
        Err(_) => false,
    }
}

// Texts that are no trigger, and their first bad place.
const NO_TRIGGERS: &[(&str, usize)] = &[
    ("0xH10=5.3", 9),
    ("fF0010=1", 0),
    ("0xH10=5_", 8),
    ("R0xH1=1", 1),
    ("R:", 2),
    ("b1=1", 1),
    ("d0=1", 2),
    ("0xH1=1.", 7),
    ("0xH1=1..", 7),
    ("0xH1=1.2)", 8),
    ("0xH1=1(2.", 8),
    ("0xH1=1.2.3.", 9),
    ("0xH1==", 6),
    ("0xH1=<1", 5),
    ("0xH1!1", 5),
    ("0=1__0=1", 4),
    ("0=1_S0=1", 4),
    ("M:5", 3),
    ("A:5-", 4),
    ("A:5=3.2", 7),
    ("A:5.3.", 3),
    ("{Recall}=1", 1),
    ("{recal}=1", 6),
    ("v=1", 1),
    ("v+h1=1", 2),
    ("-h1=1", 1),
    ("h=1", 1),
    ("0x=1", 2),
    ("0x  1=1", 3),
    ("0xHG=1", 3),
    ("v0x1=1", 2),
    ("~5=1", 1),
    ("d{recall}=1", 1),
    ("0=1:", 3),
    ("A:0=1*2", 5),
    ("A:5*2*3", 5),
    ("0xH1*2=1", 4),
    ("5.3.", 1),
];

#[test]
fn triggers_are_refused_at_the_first_bad_place(rt: HostRuntime) {
    assert_eq!(rt;
        other_refusal(rt.alloc(), Reader::Trigger, NO_TRIGGERS),
        None
    );
}

// Texts of triggers, and their canonical text.
const TRIGGERS: &[(&str, &str)] = &[
    ("r:0Xh10==05(3)_a:0x20=7", "R:0xH0010=5.3._A:0x 0020"),
    ("", ""),
    ("S", "S"),
    ("Ss", "SS"),
    ("0=1s", "0=1S"),
    ("A:5", "A:5"),
    ("A:5--3", "A:5-4294967293"),
    ("A:5-3.2.", "A:5-3"),
    ("A:0xH0010=5.3.", "A:0xH0010"),
    ("v-1=1", "4294967295=1"),
    ("0x 1=1", "0x 0001=1"),
    ("0xG1=1", "0xG0001=1"),
    ("0xga=1", "0xG000a=1"),
    ("0xa=1", "0x 000a=1"),
    ("0=1.0.", "0=1"),
    ("0=1(99999999999)", "0=1.4294967295."),
    ("0<1_0<=1_0>1_0>=1_0!=1_0==1", "0<1_0<=1_0>1_0>=1_0!=1_0=1"),
    (
        "I:1*2_B:3/4_K:5&6_A:7^8_A:9%1_A:2+3",
        "I:1*2_B:3/4_K:5&6_A:7^8_A:9%1_A:2+3",
    ),
    ("d:0=0_d0x0=0_b:0xH1=p0xM1", "D:0=0_d0x 0000=0_B:0xH0001"),
    ("m:0=1_{recall}=1", "M:0=1_{recall}=1"),
];

#[test]
fn triggers_print_what_they_keep(rt: HostRuntime) {
    for &(text, canonical) in TRIGGERS {
        assert!(rt; trigger_prints(rt.alloc(), text, canonical), "at {text}");
    }
}

// A condition of each flag, in either case.
const FLAGS: &[(&str, &str, Flag)] = &[
    ("P:0=0", "p:0=0", Flag::PauseIf),
    ("R:0=0", "r:0=0", Flag::ResetIf),
    ("A:0=0", "a:0=0", Flag::AddSource),
    ("B:0=0", "b:0=0", Flag::SubSource),
    ("C:0=0", "c:0=0", Flag::AddHits),
    ("D:0=0", "d:0=0", Flag::SubHits),
    ("N:0=0", "n:0=0", Flag::AndNext),
    ("O:0=0", "o:0=0", Flag::OrNext),
    ("M:0=0", "m:0=0", Flag::Measured),
    ("G:0=0", "g:0=0", Flag::MeasuredPercent),
    ("Q:0=0", "q:0=0", Flag::MeasuredIf),
    ("I:0=0", "i:0=0", Flag::AddAddress),
    ("T:0=0", "t:0=0", Flag::TriggerIf),
    ("Z:0=0", "z:0=0", Flag::ResetNextIf),
    ("K:0=0", "k:0=0", Flag::Remember),
];

// The place of the first condition that is read with another flag, in one of its cases.
fn other_flag(alloc: Global, rows: &[(&str, &str, Flag)]) -> Option<usize> {
    for (place, (upper, lower, flag)) in rows.iter().enumerate() {
        if !(has_flag(alloc, *upper, *flag) && has_flag(alloc, *lower, *flag)) {
            return Some(place);
        }
    }
    None
}

#[test]
fn flags_are_read_in_either_case(rt: HostRuntime) {
    assert_eq!(rt; other_flag(rt.alloc(), FLAGS), None);
}

// How many alt groups a trigger has that is read from a place, and where it ends.
fn alts_from(alloc: Global, text: &[u8], at: usize) -> Result<(usize, usize), Refused>
    requires { at ≤ length text.now }
{
    let (trigger, end) = read_trigger(alloc, text, at)?;
    Ok((trigger.alts.len(), end))
}

#[test]
fn triggers_are_read_from_a_place(rt: HostRuntime) {
    let read = alts_from(rt.alloc(), b"STA:0=1S0=2::CAN", 4) == Ok((1, 11));
    let refused = Err(Refused::Syntax { at: 8 });
    assert!(rt; read && alts_from(rt.alloc(), b"STA:0=1_::CAN", 4) == refused);
}

// Texts that are no value, and their first bad place.
const NO_VALUES: &[(&str, usize)] = &[
    ("0xH10=5", 5),
    ("A:0=1", 5),
    ("", 0),
    ("5$", 2),
    ("$5", 0),
    ("5_", 2),
    ("A:5", 3),
    ("A:5$1", 3),
    ("M:5.3.", 3),
    ("M:5=", 4),
    ("M:5_0xH1", 8),
    ("0xH1*2*3", 6),
    ("5_M:1", 2),
    ("R5", 1),
    ("B:1", 3),
    ("M:5*2", 3),
];

#[test]
fn values_are_refused_at_the_first_bad_place(rt: HostRuntime) {
    assert_eq!(rt; other_refusal(rt.alloc(), Reader::Value, NO_VALUES), None);
}

// Texts of values, and their canonical text.
const VALUES: &[(&str, &str)] = &[
    ("v-1$h0a", "4294967295$10"),
    ("A:5_M:1", "A:5_M:1"),
    ("M:5_0xH1=1", "M:5_0xH0001=1"),
    ("b0xH0", "b0xH0000"),
    ("v5*-1", "5*4294967295"),
    ("0xH1*~0xH2", "0xH0001*~0xH0002"),
    ("Q:0=1_M:1$3", "Q:0=1_M:1$3"),
    ("m:0=1(3)_g:2", "M:0=1.3._G:2"),
    ("1_2$3", "1_2$3"),
    ("A:0=1_M:0xH1", "A:0_M:0xH0001"),
];

#[test]
fn values_print_what_they_keep(rt: HostRuntime) {
    for &(text, canonical) in VALUES {
        assert!(rt; value_prints(rt.alloc(), text, canonical), "at {text}");
    }
}

// How many parts a value has that is read from a place, and where it ends.
fn parts_from(alloc: Global, text: &[u8], at: usize) -> Result<(usize, usize), Refused>
    requires { at ≤ length text.now }
{
    let (value, end) = read_value(alloc, text, at)?;
    Ok((value.parts.len(), end))
}

#[test]
fn values_are_read_from_a_place(rt: HostRuntime) {
    let read = parts_from(rt.alloc(), b"@N(M:0=1(3))", 3) == Ok((1, 11));
    let refused = Err(Refused::Syntax { at: 8 });
    assert!(rt; read && parts_from(rt.alloc(), b"@N(A:0=1)", 3) == refused);
}

// A text of 65,535 conditions, and what follows them.
fn long_text(alloc: Global, end: &[u8]) -> Result<Vec<u8>, OutOfMemory> {
    let condition = b"M:d0xH0000000000000010=99999999999999999999999.000000000000010._";
    repeated(alloc, &[], condition, 65_535, end)
}

// How many conditions the core group of a trigger has.
fn core_count(alloc: Global, text: &[u8]) -> Result<usize, Refused> {
    let trigger = parse_trigger(alloc, text)?;
    Ok(trigger.core.conditions.len())
}

// The same of such a text, and how many bytes it has.
fn long_count(alloc: Global, end: &[u8]) -> Result<(Result<usize, Refused>, usize), OutOfMemory> {
    let text = long_text(alloc, end)?;
    Ok((core_count(alloc, &text), text.len()))
}

#[test]
fn a_trigger_of_four_mebibytes_is_read(rt: HostRuntime) -> Result<(), OutOfMemory> {
    assert_eq!(rt; long_count(rt.alloc(), b"0=1")?, (Ok(65_536), 4_194_243));
    let refused = Refused::Syntax { at: 4_194_244 };
    assert_eq!(rt; long_count(rt.alloc(), b"0=1_")?, (Err(refused), 4_194_244));
    Ok(())
}
