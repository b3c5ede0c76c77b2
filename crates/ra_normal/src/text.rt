//! Normal texts: docs/DEFINITIONS.md, "Normal text".

ghost use Rattle.std.specs.Prelude.{◌≡◌, ◌≤◌, ◌↔◌, IfErr, IfOk, IsOk};
ghost use Rattle.ra_set.specs.Accepted.{IsSet};
ghost use Rattle.ra_set.specs.Contents.{set_contents};
ghost use Rattle.ra_set.specs.Limits.{most_of};
ghost use Rattle.ra_normal.specs.Meaning.{KeepsMeaning};
ghost use Rattle.ra_normal.specs.Text.{IsNormal, IsPastLimit};
ghost use Rattle.ra_normal.specs.Text as spec;

use crate::counting::normal_conditions;
use crate::lines::put_items;
use crate::refused::NormalRefused;
use crate::script::script_bytes;
use ra_set::{Set, Which};
use ra_text::OutOfMemory;
use std::alloc::Global;

/// The normal text of a set that a file spells: docs/DEFINITIONS.md, "Normal text". It is a set file, which prints
/// the same over every trace and is its own normal text.
///
/// `Limit` comes exactly where the text passes the limit of bytes, or else that of conditions.
pub fn normal(alloc: Global, bytes: &[u8], set: &Set) -> Result<Vec<u8>, NormalRefused>
    requires { IsSet bytes.now (set_contents set.now) }
    ensures ok { IfOk result (λ text. IsNormal bytes.now (set_contents set.now) text.items) }
    ensures keeps { IfOk result (λ text. KeepsMeaning bytes.now (set_contents set.now) text.items) }
    ensures refused { IfErr result (IsPastLimit bytes.now (set_contents set.now)) }
{
    let text = normal_text(alloc, bytes, set)?;
    keep_limit(Which::Bytes, text.len() as u64)?;
    keep_limit(Which::Conditions, normal_conditions(set))?;
    Ok(text)
}

// The normal text, however long it is.
fn normal_text(alloc: Global, bytes: &[u8], set: &Set) -> Result<Vec<u8>, OutOfMemory>
    requires { IsSet bytes.now (set_contents set.now) }
    ensures { IfOk result (λ text. text.items ≡ spec.normal_text bytes.now (set_contents set.now)) }
{
    let mut text = Vec::new(alloc);
    put_items(alloc, &mut text, &set.items)?;
    text.extend_from_slice(script_bytes(bytes))?;
    Ok(text)
}

// Refuses what passes a limit.
fn keep_limit(which: Which, found: u64) -> Result<(), NormalRefused>
    ensures ok { IsOk result ↔ (found ≤ most_of which) }
    ensures err { IfErr result (λ why. why ≡ NormalRefused.Limit which found) }
{
    if found <= which.most() {
        Ok(())
    } else {
        Err(NormalRefused::Limit { which, found })
    }
}
