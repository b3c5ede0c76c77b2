//! Worked calls, as an emulator makes them. One test owns one handle, and lends it.

use crate::{
    Bank, Handle, Refusal, ToldCell, ToldEvent, ToldHits, ToldItem, ToldUnlock, meerkat_cells,
    meerkat_earn, meerkat_error, meerkat_events, meerkat_explain, meerkat_frame, meerkat_free,
    meerkat_import, meerkat_items, meerkat_judge, meerkat_keep, meerkat_lines, meerkat_new,
    meerkat_number, meerkat_presence, meerkat_record, meerkat_refusal_text, meerkat_reset,
    meerkat_restore, meerkat_save, meerkat_save_size, meerkat_slots, meerkat_take, meerkat_version,
};
use ra_judge::codes::{DONE, EMPTY, HELD, NOTHING, PROGRESS, RANGE, ROOM, SET};
use std::alloc::Global;

const ROW: &[u8] = b"A 1 0xH0010=5.3.\n";

/// Beside the achievement a leaderboard and a script: two items and three cells.
const WHOLE: &[u8] =
    b"A 1 0xH0010=5.3.\nL 7 SCORE STA:0xH0001=1::CAN:0xH0001=2::SUB:0xH0001=3::VAL:0xH0002\nP\nDisplay:\nHi\n";

const DOCUMENT: &[u8] =
    b"{\"PatchData\":{\"Achievements\":[{\"ID\":1,\"MemAddr\":\"0xH10=5\"}],\"Leaderboards\":[]}}";

fn no_reason() -> Refusal {
    Refusal {
        kind: 0,
        id: 0,
        at: 0,
        found: 0,
        wanted: 0,
        line: 0,
        column: 0,
    }
}

fn begin(alloc: Global, handle: &mut Handle) {
    let _ = meerkat_new(alloc, ROW, 32, handle, &mut no_reason());
}

// Takes a frame of two banks of 16 bytes, all 0 but the first of the second one.
fn frame(alloc: Global, handle: &mut Handle, byte: u8) -> u32 {
    let first = [0u8; 16];
    let mut second = [0u8; 16];
    second[0] = byte;
    let banks = [Bank { bytes: &first }, Bank { bytes: &second }];
    meerkat_frame(alloc, handle, &banks)
}

// Plays frames with these bytes at the address 0x10.
fn play(alloc: Global, handle: &mut Handle, bytes: &[u8]) {
    for byte in bytes {
        let _ = frame(alloc, handle, *byte);
    }
}

// Whether these are the lines of the last frame.
fn prints(alloc: Global, handle: &mut Handle, lines: &str) -> bool {
    let mut out = [0u8; 64];
    let mut count = 0usize;
    let _ = meerkat_lines(alloc, handle, &mut out, &mut count);
    out.get(..count) == Some(lines.as_bytes())
}

// Whether a frame with 5 at the address 0x10 unlocks after these ones.
fn unlocks_after(alloc: Global, handle: &mut Handle, bytes: &[u8]) -> bool {
    begin(alloc, handle);
    play(alloc, handle, bytes);
    let before = prints(alloc, handle, "");
    play(alloc, handle, &[5]);
    let after = prints(alloc, handle, "unlock 4 1\n");
    let _ = meerkat_free(alloc, handle);
    before && after
}

// Whether the frame that would unlock says nothing where the service said that it is earned.
fn is_silent_when_earned(alloc: Global, handle: &mut Handle) -> bool {
    begin(alloc, handle);
    let code = meerkat_earn(alloc, handle, &[7, 1]);
    play(alloc, handle, &[0, 5, 5, 5]);
    let silent = prints(alloc, handle, "");
    let _ = meerkat_free(alloc, handle);
    code == DONE && silent
}

// The codes of calls over a handle that is empty, and made, and full, and emptied.
fn codes(alloc: Global, handle: &mut Handle) -> [u32; 10] {
    let mut why = no_reason();
    let mut out = [0u8; 1];
    let mut count = 0usize;
    [
        frame(alloc, handle, 0),
        meerkat_new(alloc, b"A 1 0xH10=5.3\n", 32, handle, &mut why),
        meerkat_new(alloc, ROW, 134_217_729, handle, &mut why),
        meerkat_new(alloc, ROW, 32, handle, &mut why),
        meerkat_new(alloc, ROW, 32, handle, &mut why),
        meerkat_frame(alloc, handle, &[Bank { bytes: &[1, 2] }]),
        meerkat_save(alloc, handle, &mut out, &mut count),
        meerkat_restore(alloc, handle, &[1], &mut why),
        meerkat_free(alloc, handle),
        meerkat_free(alloc, handle),
    ]
}

// The kind and the place of the reason why a text is no set.
fn refused(alloc: Global, handle: &mut Handle, text: &[u8]) -> (u32, u64) {
    let mut why = no_reason();
    let _ = meerkat_new(alloc, text, 32, handle, &mut why);
    (why.kind, why.at)
}

// The event after a whole memory was seen three times with 5 in it, a save, a reset and a restore between.
fn event_after_a_restore(alloc: Global, handle: &mut Handle) -> (usize, ToldEvent) {
    let mut saved = [0u8; 128];
    let mut size = 0usize;
    let mut events = [no_event()];
    let mut count = 0usize;
    begin(alloc, handle);
    play(alloc, handle, &[0, 5, 5]);
    let _ = meerkat_save(alloc, handle, &mut saved, &mut size);
    let _ = meerkat_reset(alloc, handle);
    play(alloc, handle, &[5]);
    let _ = meerkat_restore(alloc, handle, &saved[..size.min(128)], &mut no_reason());
    let _ = frame(alloc, handle, 5);
    let _ = meerkat_events(alloc, handle, &mut events, &mut count);
    let _ = meerkat_free(alloc, handle);
    (count, events[0])
}

fn no_event() -> ToldEvent {
    ToldEvent {
        kind: 0,
        id: 0,
        number: 0,
    }
}

fn hits(row: u32, hits: u32) -> ToldHits {
    ToldHits {
        condition: 0,
        row,
        hits,
    }
}

// The answer of an explanation with room for three events, what it gives, and how many events there are.
fn explained(alloc: Global, handle: &mut Handle) -> (u32, ToldUnlock, [ToldHits; 3], usize) {
    let mut out = [hits(0, 0); 3];
    let mut count = 0usize;
    let mut unlock = ToldUnlock {
        last: 9,
        since: 9,
        waited: 9,
    };
    let code = meerkat_explain(alloc, handle, &mut out, &mut count, &mut unlock);
    (code, unlock, out, count)
}

// Whether an unlock at the last of these frames, which was recorded, is explained by these rows.
fn explains(
    alloc: Global,
    handle: &mut Handle,
    bytes: &[u8],
    unlock: ToldUnlock,
    rows: [ToldHits; 3],
) -> bool {
    begin(alloc, handle);
    let recorded = meerkat_record(alloc, handle, 1);
    play(alloc, handle, bytes);
    let told = explained(alloc, handle);
    let _ = meerkat_free(alloc, handle);
    recorded == DONE && told == (DONE, unlock, rows, 3)
}

// The codes of records and of explanations: over nothing, of another id, before an unlock, after it, and after a reset.
fn record_codes(alloc: Global, handle: &mut Handle) -> [u32; 7] {
    let empty = meerkat_record(alloc, handle, 1);
    begin(alloc, handle);
    let other = meerkat_record(alloc, handle, 2);
    let unrecorded = explained(alloc, handle).0;
    let done = meerkat_record(alloc, handle, 1);
    play(alloc, handle, &[0, 5]);
    let late = meerkat_record(alloc, handle, 1);
    let locked = explained(alloc, handle).0;
    play(alloc, handle, &[5, 5]);
    let _ = meerkat_reset(alloc, handle);
    let reset = explained(alloc, handle).0;
    let _ = meerkat_free(alloc, handle);
    [empty, other, unrecorded, done, late, locked, reset]
}

// The first of these that is not so, or nothing; each leaves the handle empty.
fn first_wrong(alloc: Global, handle: &mut Handle) -> &'static str {
    if !unlocks_after(alloc, handle, &[0, 5, 5, 0]) {
        return "the third frame with five unlocks";
    }
    if !is_silent_when_earned(alloc, handle) {
        return "what is earned is silent";
    }
    let each = [
        EMPTY, SET, RANGE, DONE, HELD, RANGE, ROOM, PROGRESS, DONE, EMPTY,
    ];
    if codes(alloc, handle) != each {
        return "each code has its call";
    }
    if refused(alloc, handle, b"A 1 0xH10=5.3\n") != (1, 13) {
        return "a refused text tells its first bad place";
    }
    let unlock = ToldEvent {
        kind: 4,
        id: 1,
        number: 0,
    };
    if event_after_a_restore(alloc, handle) != (1, unlock) {
        return "a restore goes on where the save stood";
    }
    let unlock = ToldUnlock {
        last: 4,
        since: 0,
        waited: 1,
    };
    let rows = [hits(1, 1), hits(2, 2), hits(4, 3)];
    if !explains(alloc, handle, &[0, 5, 5, 0, 5], unlock, rows) {
        return "an unlock is explained by its hits";
    }
    if record_codes(alloc, handle) != [EMPTY, RANGE, NOTHING, DONE, RANGE, NOTHING, NOTHING] {
        return "a record answers its codes";
    }
    ""
}

#[test]
fn worked_calls_answer(rt: HostRuntime) {
    let mut handle = Handle::empty(rt.alloc());
    assert_eq!(rt; first_wrong(rt.alloc(), &mut handle), "");
}

// The codes of the calls that need no game, and the version.
fn codes_of_texts(alloc: Global) -> [u32; 5] {
    let mut why = no_reason();
    let mut out = [0u8; 64];
    let mut count = 0usize;
    let mut left = 0usize;
    [
        meerkat_judge(alloc, 1, b"0xH10=5", &mut why),
        meerkat_import(
            alloc, DOCUMENT, 0, &mut out, &mut count, &mut left, &mut why,
        ),
        meerkat_error(ROOM, &mut out, &mut count),
        meerkat_refusal_text(alloc, &Refusal { kind: 1, ..why }, &mut out, &mut count),
        meerkat_version(),
    ]
}

#[test]
fn each_call_without_a_game_is_done(rt: HostRuntime) {
    assert_eq!(rt; codes_of_texts(rt.alloc()), [DONE, DONE, DONE, DONE, 2]);
}

// The codes of the calls that tell of a game.
fn codes_of_telling(alloc: Global, handle: &mut Handle) -> [u32; 8] {
    let cell = ToldCell {
        address: 0,
        width: 0,
        whole: 0,
    };
    let item = ToldItem {
        kind: 0,
        id: 0,
        state: 0,
        earned: 0,
        measured: 0,
        target: 0,
        percent: 0,
        running: 0,
        number: 0,
    };
    let mut out = [0u8; 64];
    let mut count = 0usize;
    [
        meerkat_events(alloc, handle, &mut [no_event(); 5], &mut count),
        meerkat_lines(alloc, handle, &mut out, &mut count),
        meerkat_items(alloc, handle, &mut [item; 2], &mut count),
        meerkat_cells(alloc, handle, &mut [cell; 3], &mut count),
        meerkat_number(alloc, handle, 7, 75, &mut out, &mut count),
        meerkat_presence(alloc, handle, &mut out, &mut count),
        meerkat_save_size(alloc, handle, &mut count),
        explained(alloc, handle).0,
    ]
}

// The codes of a save and of what takes up a state.
fn codes_of_keeping(alloc: Global, handle: &mut Handle) -> [u32; 6] {
    let mut saved = [0u8; 512];
    let mut size = 0usize;
    [
        meerkat_save(alloc, handle, &mut saved, &mut size),
        meerkat_restore(alloc, handle, &saved[..size.min(512)], &mut no_reason()),
        meerkat_slots(alloc, handle, 2),
        meerkat_keep(alloc, handle, 1),
        meerkat_take(alloc, handle, 1),
        meerkat_reset(alloc, handle),
    ]
}

// Whether each call over a game is done, with ample memory: the game unlocks at its last frame, which was recorded.
fn is_each_call_done(alloc: Global, handle: &mut Handle) -> bool {
    let begun = [
        meerkat_new(alloc, WHOLE, 32, handle, &mut no_reason()),
        meerkat_earn(alloc, handle, &[7]),
        meerkat_record(alloc, handle, 1),
        frame(alloc, handle, 0),
    ];
    play(alloc, handle, &[5, 5, 5]);
    let told = codes_of_telling(alloc, handle);
    let kept = codes_of_keeping(alloc, handle);
    let freed = meerkat_free(alloc, handle);
    begun == [DONE; 4] && told == [DONE; 8] && kept == [DONE; 6] && freed == DONE
}

#[test]
fn each_call_over_a_game_is_done(rt: HostRuntime) {
    let mut handle = Handle::empty(rt.alloc());
    assert!(rt; is_each_call_done(rt.alloc(), &mut handle));
}
