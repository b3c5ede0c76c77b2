//! Sets of a file: docs/DEFINITIONS.md, "Set file", "Limits of a set" and "Names of items and scripts".

ghost use Rattle.std.specs.Prelude.{◌≡◌, ◌⊎◌, IfErr, IfOk, IsErrAnd, MatchResult, map, option_map};
ghost use Rattle.ra_richpresence.specs.Contents.{script_contents};
ghost use Rattle.ra_set.specs.Accepted.{IsSet, named_by};
ghost use Rattle.ra_set.specs.Contents.{SetContents, item_contents, set_contents};
ghost use Rattle.ra_set.specs.Names.{HasZeroNames, IsNamed, zero_name};
ghost use Rattle.ra_set.specs.Refusals.{Refuses};
ghost use Rattle.ra_set.specs.Spelled.{IsSpelled};

use crate::file::read_file;
use crate::item::Item;
use crate::limits::check_limits;
use crate::names::names_of;
use crate::refused::{SetRefused, Which};
use crate::set::Set;
use md5::{Digest, Md5};
use ra_richpresence::{ReadScript, Script};
use ra_text::OutOfMemory;
use std::alloc::Global;

/// The set that a file spells, with the MD5 of the file and the names of its items and of its
/// script: docs/DEFINITIONS.md, "Set file" and "Names of items and scripts".
///
/// Of several reasons why the file is none the first is told, in this order ("Limits of a set"):
/// its bytes pass their limit; it is outside the grammar, with the first bad place; a line repeats
/// an id of its own letter, with the first such line; its items pass their limit, or else its
/// conditions, the macros of a display line, a lookup text. `Memory` comes for running out of memory
/// alone.
pub fn parse_set(alloc: Global, bytes: &[u8]) -> Result<Set, SetRefused>
    ensures ok { IfOk result (λ set. IsSet bytes.now (set_contents set)) }
    ensures structure { IfOk result (λ set. IsSpelled (set_contents set)) }
    ensures named { IfOk result (λ set. IsNamed (set_contents set)) }
    ensures err { IfErr result (λ why. why ≡ SetRefused.Memory ⊎ Refuses bytes.now why) }

    // No other answer is given, running out of memory aside.
    ensures accepted { (set : SetContents) → IsSet bytes.now set
        → MatchResult result (λ s. set_contents s ≡ set) (λ why. why ≡ SetRefused.Memory) }
    ensures refused { (why : SetRefused) → Refuses bytes.now why → IsErrAnd result (λ e. e ≡ SetRefused.Memory ⊎ e ≡ why) }
{
    let read = read_unnamed(alloc, bytes)?;
    let names = names_of(alloc, bytes)?;
    Ok(Set {
        items: read.items,
        script: read.script,
        digest: Md5::digest(bytes),
        item_names: names.items,
        script_name: names.script,
    })
}

/// The set that a file spells, with zeros in the place of the MD5 of the file and of each name: docs/DEFINITIONS.md,
/// "Set file".
///
/// What a set says of a trace needs no name; a progress file does. It is refused as `parse_set` refuses it.
pub fn read_unnamed(alloc: Global, bytes: &[u8]) -> Result<Set, SetRefused>
    ensures ok { IfOk result (λ set. IsSet bytes.now (named_by bytes.now (set_contents set))) }
    ensures structure { IfOk result (λ set. IsSpelled (set_contents set)) }
    ensures named { IfOk result (λ set. IsNamed (set_contents set)) }
    ensures zeros { IfOk result (λ set. HasZeroNames (set_contents set)) }
    ensures err { IfErr result (λ why. why ≡ SetRefused.Memory ⊎ Refuses bytes.now why) }
{
    if bytes.len() as u64 > Which::Bytes.most() {
        return Err(SetRefused::Limit {
            which: Which::Bytes,
            found: bytes.len() as u64,
        });
    }
    let read = read_file(alloc, bytes)?;
    check_limits(&read.items, read.script.as_ref())?;
    let item_names = zero_names(alloc, &read.items)?;
    let script = script_alone(read.script);
    let script_name = zeros_beside(&script);
    Ok(Set {
        items: read.items,
        script,
        digest: [0; 16],
        item_names,
        script_name,
    })
}

// Zeros in the place of the names of these items.
fn zero_names(alloc: Global, items: &[Item]) -> Result<Vec<[u8; 16]>, OutOfMemory>
    ensures { IfOk result (λ names. names.items ≡ map (λ item. zero_name) (map item_contents items.now)) }
{
    let mut names = Vec::with_capacity(alloc, items.len())?;
    for _item in items {
        names.push([0; 16])?;
    }
    Ok(names)
}

// Zeros in the place of the name of a script, if there is one.
fn zeros_beside(script: &Option<Script>) -> Option<[u8; 16]>
    ensures { result ≡ option_map (λ script. zero_name) (option_map script_contents script.now) }
{
    match script {
        Some(_) => Some([0; 16]),
        None => None,
    }
}

// The script that was read, if there is one.
fn script_alone(read: Option<ReadScript>) -> Option<Script>
    ensures { result ≡ option_map (λ r. r.script) read }
{
    match read {
        Some(read) => Some(read.script),
        None => None,
    }
}
