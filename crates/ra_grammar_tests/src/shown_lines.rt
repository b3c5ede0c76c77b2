//! The texts of presence lines.

use ra_richpresence::parse_script;
use std::alloc::Global;
use std::test::Fail;

// The line of the script that the text spells has this text.
fn is_shown(alloc: Global, text: &str, index: u32, values: &[i32], shown: &str) -> bool {
    let Ok(script) = parse_script(alloc, text.as_bytes()) else {
        return false;
    };
    if index as usize >= script.lines.len() {
        return false;
    }
    match script.line(alloc, index, values) {
        Ok(line) => line.as_slice() == shown.as_bytes(),
        Err(_) => false,
    }
}

// Macros, a number, and the text that it shows.
const MACROS: &[(&str, i32, &str)] = &[
    ("Number", -1, "-1"),
    ("Score", 1234, "001234"),
    ("Centisecs", 6543, "1:05.43"),
    ("Seconds", 3661, "1h01:01"),
    ("Minutes", 135, "2h15"),
    ("SecondsAsMinutes", 7300, "2h01"),
    ("Unformatted", -1, "4294967295"),
    ("Fixed1", 123, "12.3"),
    ("Fixed2", -5, "-0.05"),
    ("Fixed3", 1234, "1.234"),
    ("Float1", 7, "7.0"),
    ("Float2", 7, "7.00"),
    ("Float3", 7, "7.000"),
    ("Float4", 7, "7.0000"),
    ("Float5", 7, "7.00000"),
    ("Float6", 7, "7.000000"),
    ("number", 7, "[Unknown macro]number"),
    ("VALUE", 7, "[Unknown macro]VALUE"),
    ("ASCIIChar", 7, "[Unknown macro]ASCIIChar"),
];

// A macro of this name shows this text for a number.
fn macro_shows(alloc: Global, name: &str, value: i32, text: &str) -> Result<bool, Fail> {
    let script = format!(in alloc; "Display:\n<@{name}(0)>")?;
    let wanted = format!(in alloc; "<{text}>")?;
    Ok(is_shown(alloc, &script, 0, &[value], &wanted))
}

#[test]
fn built_in_macros_have_their_formats(rt: HostRuntime) -> Result<(), Fail> {
    for &(name, value, text) in MACROS {
        let shows = macro_shows(rt.alloc(), name, value, text)?;
        assert!(rt; shows, "at {name}");
    }
    Ok(())
}

// What a macro `Score` shows for a number, in a script that begins with these sections, is this text.
fn score_shows(alloc: Global, sections: &str, value: i32, text: &str) -> Result<bool, Fail> {
    let script = format!(in alloc; "{sections}Display:\n@Score(0)")?;
    Ok(is_shown(alloc, &script, 0, &[value], text))
}

// Sections of a script, a number, and what a macro `Score` shows for it.
const OWN_NAMES: &[(&str, i32, &str)] = &[
    ("Format:Score\nFormatType=VALUE\n", 5, "5"),
    ("Lookup:Score\n5=five\n", 5, "five"),
    ("Lookup:Score\n5=five\n", 6, ""),
    (
        "Lookup:Score\n5=five\nFormat:Score\nFormatType=VALUE\n",
        5,
        "five",
    ),
    (
        "Format:Score\nFormatType=VALUE\nLookup:Score\n5=five\n",
        5,
        "5",
    ),
    (
        "Lookup:Score\n5=five\nLookup:Score\n5=V\n*=many\n",
        5,
        "five",
    ),
];

#[test]
fn own_names_come_before_built_in_ones(rt: HostRuntime) -> Result<(), Fail> {
    for &(head, value, text) in OWN_NAMES {
        let shows = score_shows(rt.alloc(), head, value, text)?;
        assert!(rt; shows, "at {head}");
    }
    Ok(())
}

#[test]
fn the_first_keys_that_hold_a_number_give_its_text(rt: HostRuntime) -> Result<(), Fail> {
    let digits = "Lookup:Score\n7-6,0=none\n1-4=few\n0-9=digit\n*=all\n*=rest\n";
    for (head, value, text) in [
        (digits, 0, "none"),
        (digits, 4, "few"),
        (digits, 7, "digit"),
        (digits, -1, "all"),
        ("Lookup:Score\n4294967295=last\n", -1, "last"),
    ] {
        let shows = score_shows(rt.alloc(), head, value, text)?;
        assert!(rt; shows, "at {value}");
    }
    Ok(())
}

// A script of three lines with four values.
const STAGES: &str =
    "Lookup:Stage\n0=Title\n1-4=Forest\n*=Castle\n\nFormat:Pts\nFormatType=SCORE\n\nDisplay:\n\
    ?0xH00fe=0?In the menu @Number(1) of @Number(2)\n??\n@Stage(0xH0010) with @Pts(0x 0030) points // stage";

#[test]
fn values_run_over_the_lines_of_a_script(rt: HostRuntime) {
    for (index, text) in [
        (0, "In the menu 4 of 7"),
        (1, ""),
        (2, "Castle with 001000 points"),
    ] {
        let shows = is_shown(rt.alloc(), STAGES, index, &[4, 7, 5, 1000], text);
        assert!(rt; shows, "at {text}");
    }
}

// The pieces of the only line of a script, the values of its macros, and the text of the line.
const PIECES: &[(&str, [i32; 2], &str)] = &[
    ("\\@@Foo(5)\\\\", [5, 0], "@[Unknown macro]Foo\\"),
    ("@Number(v5$v-1)/@Number(v-1$h80000000)", [5, -1], "5/-1"),
    ("@Number(A:7/0_M:5)@Number(B:1_M:0)", [5, -1], "5-1"),
    (
        "@Number(0xH0010*3_v2)@Number(A:0xH0010=9.3._M:1)",
        [14, 5],
        "145",
    ),
];

// The only line of a script of these pieces has this text.
fn pieces_show(alloc: Global, pieces: &str, values: &[i32], text: &str) -> Result<bool, Fail> {
    let script = format!(in alloc; "Display:\n{pieces}")?;
    Ok(is_shown(alloc, &script, 0, values, text))
}

#[test]
fn values_run_over_the_pieces_of_a_line(rt: HostRuntime) -> Result<(), Fail> {
    for (pieces, values, text) in PIECES {
        let shows = pieces_show(rt.alloc(), pieces, values, text)?;
        assert!(rt; shows, "at {pieces}");
    }
    Ok(())
}
