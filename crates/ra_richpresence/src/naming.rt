//! What the names of macros stand for, found once for a whole script.

ghost use Rattle.std.specs.Prelude.{◌≡◌, List, ℕ, [], ◌∷◌, ◌++◌, IfOk, OnOk, map};
ghost use Rattle.std.specs.BTreeMap.{get};
ghost use Rattle.ra_value_format.specs.declared.format.Format.{Format};
ghost use Rattle.ra_value_format.specs.Formats.{entry_of};
ghost use Rattle.ra_richpresence.specs.Lines.{builtin_macros};
ghost use Rattle.ra_richpresence.specs.Meanings.{AreMeanings, FindsNames, meaning_by, meanings_in, name_cmp};
ghost use Rattle.ra_richpresence.specs.Parts.{LookupContents, lookup_contents, piece_contents};

use crate::builtin::builtin_format;
use crate::line::Line;
use crate::lookup::Lookup;
use crate::meaning::Meaning;
use crate::piece::Piece;
use ra_text::OutOfMemory;
use ra_value_format::Format;
use std::alloc::Global;
use std::collections::BTreeMap;

/// What the macros of each line show, by the lookups and formats of their script.
pub fn meanings_of_lines(
    alloc: Global,
    lookups: &[Lookup],
    formats: &[(Vec<u8>, Format)],
    lines: &[Line],
) -> Result<Vec<Vec<Meaning>>, OutOfMemory>
    ensures { IfOk result (λ meanings. AreMeanings lookups.now formats.now lines.now meanings.items) }
{
    let mut names = BTreeMap::new(alloc);
    put_formats(&mut names, formats)?;
    put_lookups(&mut names, lookups)?;
    let mut meanings = Vec::with_capacity(alloc, lines.len())?;
    for line in lines {
        meanings.push(meanings_of_pieces(alloc, &names, &line.pieces)?)?;
    }
    Ok(meanings)
}

// Puts formats under their names, the last first, so that of those that share a name the first stays.
fn put_formats(
    names: &mut BTreeMap<Vec<u8>, Meaning>,
    formats: &[(Vec<u8>, Format)],
) -> Result<(), OutOfMemory>
    requires { FindsNames [] 0 [] names.old }
    ensures { OnOk result (FindsNames [] 0 (map (λ f. (f.0.items, f.1)) formats.now) names.new) }
{
    let mut at = formats.len();
    while at > 0 {
        at -= 1;
        let (name, format) = &formats[at];
        let name = name.clone()?;
        names.insert(name, Meaning::Format(*format))?;
    }
    Ok(())
}

// Puts lookups under their names, the last first, so that of all that share a name the first lookup stays.
fn put_lookups(
    names: &mut BTreeMap<Vec<u8>, Meaning>,
    lookups: &[Lookup],
) -> Result<(), OutOfMemory>
    ensures { OnOk result ((formats : List (List ℕ × Format)) → FindsNames [] 0 formats names.old
        → FindsNames (map lookup_contents lookups.now) 0 formats names.new) }
{
    let mut at = lookups.len();
    while at > 0 {
        at -= 1;
        let name = lookups[at].name.clone()?;
        names.insert(name, Meaning::Lookup(at))?;
    }
    Ok(())
}

// What the macros among pieces show, in order.
fn meanings_of_pieces(
    alloc: Global,
    names: &BTreeMap<Vec<u8>, Meaning>,
    pieces: &[Piece],
) -> Result<Vec<Meaning>, OutOfMemory>
    ensures { IfOk result (λ meanings. (lookups : List LookupContents) (formats : List (List ℕ × Format)) → FindsNames lookups 0 formats names.now
        → meanings.items ≡ meanings_in lookups formats (map piece_contents pieces.now)) }
{
    let mut meanings = Vec::new(alloc);
    for piece in pieces {
        put_meaning(&mut meanings, names, piece)?;
    }
    Ok(meanings)
}

// Puts what a piece shows after others, if it is a macro.
fn put_meaning(
    meanings: &mut Vec<Meaning>,
    names: &BTreeMap<Vec<u8>, Meaning>,
    piece: &Piece,
) -> Result<(), OutOfMemory>
    ensures { OnOk result ((lookups : List LookupContents) (formats : List (List ℕ × Format)) → FindsNames lookups 0 formats names.now
        → meanings.new.items ≡ meanings.old.items ++ meanings_in lookups formats (piece_contents piece.now ∷ [])) }
{
    match piece {
        Piece::Text(_) => Ok(()),
        Piece::Macro { name, .. } => {
            meanings.push(meaning_of_name(names, name))?;
            Ok(())
        }
    }
}

// What a macro of a name shows.
fn meaning_of_name(names: &BTreeMap<Vec<u8>, Meaning>, name: &Vec<u8>) -> Meaning
    ensures { result ≡ meaning_by (get name_cmp names.now name.now) (entry_of name.now.items builtin_macros) }
{
    if let Some(said) = names.get(name) {
        return *said;
    }
    match builtin_format(name) {
        Some(format) => Meaning::Format(format),
        None => Meaning::Unknown,
    }
}
