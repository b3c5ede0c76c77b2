//! What the block of an entry says before its rows, and where these stand: docs/DEFINITIONS.md, "Progress file".

ghost use Rattle.std.specs.Prelude.{◌≡◌, ◌+◌, ◌*◌, ◌<◌, ◌≤◌, length, slice_index};
ghost use Rattle.ra_progress.specs.Layout.{version_in};
ghost use Rattle.ra_progress.specs.Saying as spec;
ghost use Rattle.ra_text.specs.Words as words;

use crate::reading::{is_earned, state_said};
use ra_text::word_at;

/// What the block of an achievement says before its hits, and the place of these, in bytes from the start of the file.
#[derive(Clone, Copy)]
pub struct AchievementBlock {
    pub state: u8,
    pub measured: u32,
    pub earned: bool,
    pub hits: u64,
}

/// What the block of a leaderboard says before its rows, and the places of these, in bytes from the start of the file.
#[derive(Clone, Copy)]
pub struct BoardBlock {
    pub state: u8,
    pub hits: u64,
    pub numbers: u64,
}

/// What the block of the script says before its rows, and the places of these, in bytes from the start of the file.
#[derive(Clone, Copy)]
pub struct PresenceBlock {
    pub shown: u32,
    pub hits: u64,
    pub numbers: u64,
}

/// What the block of an achievement at a place says before its hits, and where these stand.
pub fn achievement_block(bytes: &[u8], at: u64) -> AchievementBlock
    requires versioned { 4 < length bytes.now }
    requires within { at + 5 ≤ length bytes.now }
    ensures state { result.state ≡ spec.state_said (version_in bytes.now) (slice_index bytes.now at) }
    ensures measured { result.measured ≡ words.word_at bytes.now (at + 1) }
    ensures earned { result.earned ≡ spec.is_earned (version_in bytes.now) (slice_index bytes.now at) }
    ensures hits { result.hits ≡ at + 5 }
{
    let byte = bytes[at as usize];
    AchievementBlock {
        state: state_said(bytes[4], byte),
        measured: word_at(bytes, at + 1),
        earned: is_earned(bytes[4], byte),
        hits: at + 5,
    }
}

/// What the block of a leaderboard with this many hits says at a place before its rows, and where these stand.
pub fn board_block(bytes: &[u8], at: u64, hits: u64) -> BoardBlock
    requires { at + 1 + 4 * hits ≤ length bytes.now }
    ensures state { result.state ≡ slice_index bytes.now at }
    ensures hits { result.hits ≡ at + 1 }
    ensures numbers { result.numbers ≡ at + 1 + 4 * hits }
{
    BoardBlock {
        state: bytes[at as usize],
        hits: at + 1,
        numbers: at + 1 + 4 * hits,
    }
}

/// What the block of the script whose lines keep this many hits says at a place before its rows, and where these stand.
pub fn presence_block(bytes: &[u8], at: u64, hits: u32) -> PresenceBlock
    requires { at + 4 ≤ length bytes.now }
    ensures shown { result.shown ≡ words.word_at bytes.now at }
    ensures hits { result.hits ≡ at + 4 }
    ensures numbers { result.numbers ≡ at + 4 + 4 * hits }
{
    PresenceBlock {
        shown: word_at(bytes, at),
        hits: at + 4,
        numbers: at + 4 + 4 * u64::from(hits),
    }
}
