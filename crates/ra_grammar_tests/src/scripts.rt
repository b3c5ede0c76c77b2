use crate::pieces::{Shown, ends_with, has_pieces};
use crate::reading::{Reader, other_refusal};
use ra_condition::Refused;
use ra_richpresence::{Lookup, Script, one_script, parse_script};
use ra_value_format::Format;
use std::alloc::Global;

// Texts that are no script, and where their first bad line begins.
const NO_SCRIPTS: &[(&str, usize)] = &[
    ("", 0),
    ("\n// nothing\n", 12),
    ("Foo\nDisplay:\nx", 0),
    ("Display:\n?0=1?z", 15),
    ("Display:\nx\ny", 11),
    ("Display:\nx\nDisplay:\ny", 11),
    ("Format:F\nLookup:L", 9),
    ("Format:F\n", 9),
    ("Format:F\nDisplay:\nx", 9),
    ("Format:F\nFormatType=a(b\nDisplay:\nx", 9),
    ("Format:F\nFormatType=\nDisplay:\nx", 9),
    ("Format:F\nFormatType=VALUE\n0=a\nDisplay:\nx", 26),
    ("FormatType=VALUE\n", 0),
    ("Lookup:\nDisplay:\nx", 0),
    ("Lookup:a@b\nDisplay:\nx", 0),
    ("Lookup:L\n0x=1\n", 9),
    ("Lookup:L\n1,=a\n", 9),
    ("Lookup:L\n1-=a\n", 9),
    ("Lookup:L\n*a=b\n", 9),
    ("0=a\nDisplay:\nx", 0),
    ("Display:\r", 0),
    ("Display: x\n", 0),
    (" Display:\nx", 0),
    ("Display:\n@N(A:0=1)", 9),
    ("Display:\n@(1)", 9),
    ("Display:\n@N", 9),
    ("Display:\n@N(0xH10", 9),
    ("Display:\n?0=1 x\ny", 9),
    ("Display:\n?0=1?@N(?\ny", 9),
    ("Lookup:L\r\n1=a\r\nDisplay:\r\n@L(1", 25),
    ("Display:\nx\nLookup:L\n1=a\nFormat:F", 32),
];

#[test]
fn scripts_are_refused_at_their_first_bad_line(rt: HostRuntime) {
    assert_eq!(rt; other_refusal(rt.alloc(), Reader::Script, NO_SCRIPTS), None);
}

// Texts of scripts.
const SCRIPTS: &[&str] = &[
    "Display:\nx",
    "Display:\nx\n",
    "Display:\nLookup:X",
    "Display:\nFormat:X",
    "Display:\n1=a",
    "Display:\nDisplay:\n",
    "Display:\n?0=1?\ny\n",
    "Display:\n??a\nb",
    "Display:\n\\//x",
    "Display:\n@N(M:0=1(3))",
    "Display:\n\\@N(",
    "Format:F\n\n//c\nFormatType=VALUE\nDisplay:\n@F(5)",
    "Lookup:L\n5-3,0x1f,0XAB-99999999999=\n*=\nDisplay:\n@L(0xH10)",
    "Lookup:L\nDisplay:\nx\nFormat:F\nFormatType=SECS\nLookup:M\n1=a",
    "Display:// the display\n\n // a blank\n  x",
    "Display:  \t\nHi\r",
];

fn is_script(alloc: Global, text: &[u8]) -> bool {
    match parse_script(alloc, text) {
        Ok(_) => true,
        Err(_) => false,
    }
}

#[test]
fn scripts_are_accepted(rt: HostRuntime) {
    for &text in SCRIPTS {
        assert!(rt; is_script(rt.alloc(), text.as_bytes()), "at {text}");
    }
}

// The text spells a script whose only line is this.
fn shows(alloc: Global, text: &[u8], shown: &[u8]) -> bool {
    let Ok(script) = parse_script(alloc, text) else {
        return false;
    };
    script.lines.len() == 1 && ends_with(&script, &[Shown::Text(shown)])
}

// Texts of scripts of one line, and the text of it.
const LAST_LINES: &[(&str, &str)] = &[
    ("Display:\nLookup:X", "Lookup:X"),
    ("Display:\n\\//x", "\\"),
    ("Display:\n  a b \t", "  a b"),
    ("Display:\na\\@b\\\\c\\d", "a@b\\cd"),
    ("Display:\na\\", "a\\"),
    ("Display:\na\\ ", "a\\"),
    ("Display:\nHi\r", "Hi\r"),
    ("Display:\r\nHi\r\n", "Hi"),
    ("Display:\n/ /", "/ /"),
];

#[test]
fn last_lines_keep_their_text(rt: HostRuntime) {
    for &(text, shown) in LAST_LINES {
        let is_shown = shows(rt.alloc(), text.as_bytes(), shown.as_bytes());
        assert!(rt; is_shown, "at {text}");
    }
}

// A script with two sections of one name, two `*` lines and a macro.
const SAMPLE: &[u8] = b"Lookup:L\n1-3,0x10=a\\=\\b=c\n*=first\n2=b\n*=second\n\
    Format:L\nFormatType=SECS\nFormat:F\nFormatType=FIXED2\n\
    Display:\n?0=1?Yes @F(5)\\@@L(0xH10)!\nNo\nLookup:F\n9=z\nFormat:G\nFormatType=what\n";

fn sample(alloc: Global) -> Result<Script, Refused> {
    parse_script(alloc, SAMPLE)
}

// The lookup has the keys and the rest of the first section of its name.
fn is_first_lookup(lookup: &Lookup) -> bool {
    lookup.name.as_slice() == b"L".as_slice()
        && lookup.rest.as_deref() == Some(b"first".as_slice())
        && lookup.keys.len() == 2
}

// The only lookup of the sample is the first section of its name.
fn keeps_first_lookup(script: &Script) -> bool {
    match script.lookups.as_slice() {
        [lookup] => is_first_lookup(lookup),
        _ => false,
    }
}

// The formats of the sample are those of names that no lookup has before them.
fn keeps_formats(script: &Script) -> bool {
    match script.formats.as_slice() {
        [(fixed, Format::Fixed(2)), (value, Format::Value)] => {
            fixed.as_slice() == b"F".as_slice() && value.as_slice() == b"G".as_slice()
        }
        _ => false,
    }
}

// The sample has the first section of each name.
fn sample_keeps_first_sections(alloc: Global) -> bool {
    match sample(alloc) {
        Ok(script) => keeps_first_lookup(&script) && keeps_formats(&script),
        Err(_) => false,
    }
}

#[test]
fn the_first_section_of_a_name_is_kept(rt: HostRuntime) {
    assert!(rt; sample_keeps_first_sections(rt.alloc()));
}

// The two keys lines of the sample's lookup have their ranges and texts.
fn has_ranges(script: &Script) -> bool {
    let [lookup] = script.lookups.as_slice() else {
        return false;
    };
    match lookup.keys.as_slice() {
        [first, second] => {
            first.ranges.as_slice() == [(1, 3), (16, 16)].as_slice()
                && first.text.as_slice() == b"a=b=c".as_slice()
                && second.ranges.as_slice() == [(2, 2)].as_slice()
        }
        _ => false,
    }
}

// The sample has these ranges and texts.
fn sample_has_ranges(alloc: Global) -> bool {
    match sample(alloc) {
        Ok(script) => has_ranges(&script),
        Err(_) => false,
    }
}

#[test]
fn keys_have_ranges_and_a_text(rt: HostRuntime) {
    assert!(rt; sample_has_ranges(rt.alloc()));
}

// Three texts around two macros.
const MAXIMAL: &[Shown<'static>] = &[
    Shown::Text(b"Yes "),
    Shown::Macro(b"F"),
    Shown::Text(b"@"),
    Shown::Macro(b"L"),
    Shown::Text(b"!"),
];

// The texts of the sample's two lines are as long as they can be.
fn has_maximal_texts(script: &Script) -> bool {
    match script.lines.first() {
        Some(tested) => {
            script.lines.len() == 2
                && tested.test.is_some()
                && has_pieces(tested, MAXIMAL)
                && ends_with(script, &[Shown::Text(b"No")])
        }
        None => false,
    }
}

// The sample has these lines.
fn sample_has_maximal_texts(alloc: Global) -> bool {
    match sample(alloc) {
        Ok(script) => has_maximal_texts(&script),
        Err(_) => false,
    }
}

#[test]
fn texts_of_a_line_are_maximal(rt: HostRuntime) {
    assert!(rt; sample_has_maximal_texts(rt.alloc()));
}

#[test]
fn one_spelling_holds(_rt: HostRuntime) {
    one_script();
}
