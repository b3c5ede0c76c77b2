//! The set of a workload: docs/DEFINITIONS.md, "Workload".

ghost use Rattle.std.specs.Prelude.{◌≡◌, ◌<◌, ◌++◌, IfOk, OnOk, string_bytes};
ghost use Rattle.ra_trace.specs.Workload.{achievement_lines, drawn_line, drawn_times, made_set};

use crate::draws::Draws;
use crate::four_digits::FourDigits;
use ra_text::OutOfMemory;
use std::alloc::{AllocError, Global};
use std::fmt::Write;

// How many achievements a set has.
const ACHIEVEMENTS: u32 = 256;

// The lines after the achievements.
const LEADERBOARD_AND_PRESENCE: &str =
    "L 1 VALUE STA:0xH0000>d0xH0000::CAN:0xH0001=0::SUB:0xH0002>d0xH0002::VAL:0x 0000\nP\nDisplay:\n@Number(0xX0000)\n";

// Writes the line of an achievement.
fn write_achievement(text: &mut String, id: u32, draws: &mut Draws) -> Result<(), AllocError>
    ensures text { OnOk result (string_bytes text.new ≡ string_bytes text.old ++ drawn_line id draws.old) }
    ensures draws { draws.new ≡ drawn_times 4 draws.old }
{
    let a = FourDigits(draws.draw());
    let b = FourDigits(draws.draw());
    let c = FourDigits(draws.draw());
    let target = 1 + draws.draw() % 8;
    write!(text, "A {id} I:0x {a}")?;
    write!(text, "_0xH{b}>d0xH{b}")?;
    write!(text, ".{target}._R:0xH{c}=255\n")
}

// Writes this many achievements, from the id 1 on.
fn write_achievements(text: &mut String, count: u32, draws: &mut Draws) -> Result<(), AllocError>
    requires { count < 65536 }
    ensures { OnOk result (string_bytes text.new ≡ string_bytes text.old ++ achievement_lines count 1 draws.old) }
{
    for id in 1..count + 1 {
        write_achievement(text, id, draws)?;
    }
    Ok(())
}

/// The set file of the workload of a number: docs/DEFINITIONS.md, "Workload".
#[tactic(auto, unfolding(crate::specs::Workload::made_set))]
pub fn make_set(alloc: Global, number: u32) -> Result<Vec<u8>, OutOfMemory>
    ensures { IfOk result (λ text. text.items ≡ made_set number) }
{
    let mut text = String::new(alloc);
    write_achievements(&mut text, ACHIEVEMENTS, &mut Draws::new(number))?;
    text.push_str(LEADERBOARD_AND_PRESENCE)?;
    Ok(text.into_bytes())
}
