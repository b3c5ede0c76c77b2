//! Texts of boards, and the states of an attempt row by row.

use crate::reading::{Reader, other_refusal};
use ra_condition::{Part, TriggerText, ValueText};
use ra_leaderboard::BoardState::{Active, Cancelled, Started, Submitted, Waiting};
use ra_leaderboard::{Board, BoardState, parse_board, take_board};
use ra_operand::Operand;
use ra_text::Cursor;
use std::alloc::Global;

// The number that the first condition of a trigger compares with.
fn number_of(trigger: &TriggerText) -> Option<u32> {
    match trigger.core.conditions.first()?.right {
        Operand::Const(number) => Some(number),
        _ => None,
    }
}

// The first operand of a part.
fn operand_of(part: &Part) -> Option<Operand> {
    match part {
        Part::Terms(terms) => Some(terms.first()?.operand),
        Part::Conditions(group) => Some(group.conditions.first()?.left),
    }
}

// The number of the first term or condition of a value.
fn first_number(value: &ValueText) -> Option<u32> {
    match operand_of(value.parts.first()?) {
        Some(Operand::Const(number)) => Some(number),
        _ => None,
    }
}

// Texts that are no board, and their first bad place.
const NO_BOARDS: &[(&str, usize)] = &[
    ("", 0),
    ("S", 1),
    ("STA:0=1::STA:0=1", 10),
    ("STA:::", 6),
    ("STA::CAN", 5),
    ("STA:0=1:", 8),
    ("STA:0=1::SUB:0=1::S", 18),
    ("STA:0=1::CAN:0=1::SUB:0=1::VAL:5::", 34),
    ("STA:0=1::CAN:0=1::SUB:0=1::VAL:5::V", 34),
    ("STA:0=1::CAN:0=1::SUB:0=1::VAL:5::PRO:1:", 39),
    ("STA:0=1::CAN:0=1::SUB:0=1::PRO:5", 32),
    ("VAL:A:0=1::CAN:", 9),
    ("STA:0=1SUB:0=1", 8),
    ("PRO:5::PRO:", 7),
];

#[test]
fn boards_are_refused_at_the_first_bad_place(rt: HostRuntime) {
    assert_eq!(rt; other_refusal(rt.alloc(), Reader::Board, NO_BOARDS), None);
}

// The numbers of the fields of the board that the text spells, in the order STA, CAN, SUB, VAL, PRO.
fn field_numbers(alloc: Global, text: &str) -> Option<[Option<u32>; 5]> {
    let board = parse_board(alloc, text.as_bytes()).ok()?;
    let tracked = match &board.progress {
        Some(value) => first_number(value),
        None => None,
    };
    Some([
        number_of(&board.start),
        number_of(&board.cancel),
        number_of(&board.submit),
        first_number(&board.value),
        tracked,
    ])
}

// Texts of boards, and the numbers of their fields.
const BOARDS: &[(&str, [Option<u32>; 5])] = &[
    (
        "STA:0=1::CAN:0=2::SUB:0=3::VAL:5",
        [Some(1), Some(2), Some(3), Some(5), None],
    ),
    (
        "PRO:6::VAL:5::SUB:::CAN:0=2S::STA:0=1",
        [Some(1), Some(2), None, Some(5), Some(6)],
    ),
    (
        "sta:::can:::Sub:::val:M:1::pro:5",
        [None, None, None, Some(1), Some(5)],
    ),
];

#[test]
fn boards_keep_their_fields_in_any_order(rt: HostRuntime) {
    for &(text, numbers) in BOARDS {
        assert!(rt;
            field_numbers(rt.alloc(), text) == Some(numbers),
            "at {text}"
        );
    }
}

// How many conditions the SUB of the board has that stands at the cursor.
fn submit_count(alloc: Global, cursor: &mut Cursor<'_>) -> Option<usize> {
    let board = take_board(alloc, cursor).ok()?;
    Some(board.submit.core.conditions.len())
}

#[test]
fn a_board_is_read_by_a_cursor(rt: HostRuntime) {
    let mut cursor = Cursor::new(b"L CAN:::STA:::VAL:1::SUB:0=1\nA", 2);
    let count = submit_count(rt.alloc(), &mut cursor);
    assert!(rt; count == Some(1) && cursor.rest == b"\nA".as_slice());
}

// What a board tells of a step from a state: the state before it and after it, and that which it then has.
fn step_from(
    before: BoardState,
    start: bool,
    cancel: bool,
    submit: bool,
) -> (BoardState, BoardState, BoardState) {
    let mut board = Board::new();
    board.put_back(before);
    let change = board.step(start, cancel, submit);
    (change.before, change.after, board.state())
}

// A state, the truths of start, cancel and submit, and the state after them.
const STATES: &[(BoardState, bool, bool, bool, BoardState)] = &[
    (Waiting, true, false, true, Waiting),
    (Waiting, false, true, true, Active),
    (Active, true, false, true, Submitted),
    (Active, true, false, false, Started),
    (Active, true, true, true, Active),
    (Active, false, false, true, Active),
    (Started, true, true, true, Cancelled),
    (Started, false, false, true, Submitted),
    (Started, false, false, false, Started),
    (Cancelled, true, false, true, Cancelled),
    (Cancelled, false, false, false, Active),
    (Submitted, true, false, true, Submitted),
    (Submitted, false, true, true, Active),
];

#[test]
fn states_follow_one_another(rt: HostRuntime) {
    assert!(rt; Board::new().state() == Waiting);
    for &(before, start, cancel, submit, after) in STATES {
        let told = step_from(before, start, cancel, submit);
        assert!(rt; told == (before, after, after), "from {before:?}");
    }
}
