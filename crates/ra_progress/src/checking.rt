//! Whether bytes are a progress file of a shape.

ghost use Rattle.std.specs.Prelude.{◌≡◌, ◌≤◌, ◌↔◌, length as length_of_list, None, Some, IsOk, IfErr, MatchResult, false};
ghost use Rattle.md5.specs.Md5.{md5};
ghost use Rattle.ra_progress.specs.Contents.{shape_contents};
ghost use Rattle.ra_progress.specs.Layout as layout;
ghost use Rattle.ra_progress.specs.Names.{IsUsable};
ghost use Rattle.ra_progress.specs.Reading as spec;

use crate::entries::{bad_entries, has_own};
use crate::layout::need;
use crate::names::name_at;
use crate::places::length_1;
use crate::refused::ProgressRefused;
use crate::relation::of_this_set;
use crate::shape::Shape;
use crate::states::{bad_state_1, bad_state_beside, bad_state_named};
use md5::{Digest, Md5};

/// Whether the bytes are a progress file that the shape accepts: docs/DEFINITIONS.md, "Progress
/// file".
///
/// The first check that fails is told, with the values that differ: length under 45 or over
/// 8,388,608, mark, version, length, closing sum, set, length of an entry, state byte or shown
/// index.
pub fn check(shape: &Shape, bytes: &[u8]) -> Result<(), ProgressRefused>
    requires { IsUsable shape.now }
    ensures ok { IsOk result ↔ spec.IsAccepted (shape_contents shape.now) bytes.now }
    ensures err { IfErr result (λ why. spec.refusal (shape_contents shape.now) bytes.now ≡ Some why) }
{
    refusal(shape, bytes)
}

/// The same, by the first refusal alone.
fn refusal(shape: &Shape, bytes: &[u8]) -> Result<(), ProgressRefused>
    requires { IsUsable shape.now }
    ensures { MatchResult result
        (λ _. spec.refusal (shape_contents shape.now) bytes.now ≡ None)
        (λ why. spec.refusal (shape_contents shape.now) bytes.now ≡ Some why) }
{
    let found = bytes.len() as u64;
    if found > 8_388_608 {
        return Err(ProgressRefused::WrongLength {
            wanted: 8_388_608,
            found,
        });
    }
    if found < 45 {
        return Err(ProgressRefused::WrongLength { wanted: 45, found });
    }
    let mark = [bytes[0], bytes[1], bytes[2], bytes[3]];
    if mark != *b"RAPG" {
        return Err(ProgressRefused::WrongMark { found: mark });
    }
    if !is_version(bytes[4]) {
        return Err(ProgressRefused::WrongVersion { found: bytes[4] });
    }
    let wanted = wanted_length(shape, bytes);
    if found != wanted {
        return Err(ProgressRefused::WrongLength { wanted, found });
    }
    let kept = kept_sum(bytes);
    let sum = found_sum(bytes);
    if kept != sum {
        return Err(ProgressRefused::WrongSum { kept, found: sum });
    }
    misfit(shape, bytes)
}

/// The closing sum that the bytes keep.
fn kept_sum(bytes: &[u8]) -> [u8; 16]
    requires { 16 ≤ length_of_list bytes.now }
    ensures { result ≡ layout.sum_in bytes.now }
{
    name_at(bytes, bytes.len() as u64 - 16)
}

/// The sum of all bytes before it.
fn found_sum(bytes: &[u8]) -> [u8; 16]
    requires { 16 ≤ length_of_list bytes.now }
    ensures { result ≡ md5 (layout.summed_in bytes.now) }
{
    Md5::digest(&bytes[..bytes.len() - 16])
}

/// Whether a version is read.
fn is_version(version: u8) -> bool
    ensures { result ≡ spec.is_version version }
{
    version == 1 || version == 2 || version == 3
}

/// How long the file has to be.
fn wanted_length(shape: &Shape, bytes: &[u8]) -> u64
    requires usable { IsUsable shape.now }
    requires fewest { 45 ≤ length_of_list bytes.now }
    requires most { length_of_list bytes.now ≤ 8388608 }
    ensures { result ≡ spec.wanted_length (shape_contents shape.now) bytes.now }
{
    if bytes[4] == 1 {
        length_1(shape)
    } else {
        need(bytes)
    }
}

/// The last three checks.
fn misfit(shape: &Shape, bytes: &[u8]) -> Result<(), ProgressRefused>
    requires usable { IsUsable shape.now }
    requires whole { spec.IsWhole (shape_contents shape.now) bytes.now }
    ensures { MatchResult result
        (λ _. spec.misfit (shape_contents shape.now) bytes.now ≡ None)
        (λ why. spec.misfit (shape_contents shape.now) bytes.now ≡ Some why) }
{
    if bytes[4] == 1 {
        misfit_1(shape, bytes)
    } else {
        misfit_named(shape, bytes)
    }
}

/// The last three checks of a file in version 1.
fn misfit_1(shape: &Shape, bytes: &[u8]) -> Result<(), ProgressRefused>
    requires usable { IsUsable shape.now }
    requires version { layout.version_in bytes.now ≡ 1 }
    requires long { length_of_list bytes.now ≡ layout.length_1_of (shape_contents shape.now) }
    ensures { MatchResult result
        (λ _. spec.misfit (shape_contents shape.now) bytes.now ≡ None)
        (λ why. spec.misfit (shape_contents shape.now) bytes.now ≡ Some why) }
{
    let digest = name_at(bytes, 5);
    if digest != shape.digest {
        return Err(ProgressRefused::OtherSet {
            wanted: shape.digest,
            found: digest,
        });
    }
    told(bad_state_1(shape, bytes))
}

/// The last three checks of a file with names.
fn misfit_named(shape: &Shape, bytes: &[u8]) -> Result<(), ProgressRefused>
    requires usable { IsUsable shape.now }
    requires layout { spec.HasLayout bytes.now }
    ensures { MatchResult result
        (λ _. spec.misfit (shape_contents shape.now) bytes.now ≡ None)
        (λ why. spec.misfit (shape_contents shape.now) bytes.now ≡ Some why) }
{
    if of_this_set(shape, bytes) {
        return told(bad_state_beside(shape, bytes));
    }
    if !has_own(shape, bytes) {
        return Err(ProgressRefused::OtherSet {
            wanted: shape.digest,
            found: name_at(bytes, 5),
        });
    }
    match bad_entries(shape, bytes) {
        Some(refused) => Err(refused),
        None => told(bad_state_named(shape, bytes)),
    }
}

/// A refusal as an answer.
fn told(refused: Option<ProgressRefused>) -> Result<(), ProgressRefused>
    ensures { MatchResult result (λ _. refused ≡ None) (λ why. refused ≡ Some why) }
{
    match refused {
        Some(refused) => Err(refused),
        None => Ok(()),
    }
}
