//! The text of a presence line: docs/DEFINITIONS.md, "Presence over frames".

ghost use Rattle.std.specs.Prelude.{◌≡◌, ◌++◌, ◌<◌, All, IfOk, OnOk, codes, drop, length, map};
ghost use Rattle.std.specs.List.{flat_map};
ghost use Rattle.ra_richpresence.specs.Contents.{line_contents, piece_contents, script_contents, values_in_line};
ghost use Rattle.ra_richpresence.specs.Lines.{line_text, macro_text, pieces_text};
ghost use Rattle.ra_richpresence.specs.Meanings.{meaning_of, meanings_in};
ghost use Rattle.ra_richpresence.specs.Shown.{BeginsWithMeaning, piece_text, values_of};
ghost use Rattle.ra_value_format.specs.Formats.{HasDigits};

use crate::line::Line;
use crate::looked_up::text_in;
use crate::meaning::Meaning;
use crate::piece::Piece;
use crate::script::Script;
use ra_text::OutOfMemory;
use ra_value_format::put_value;
use std::alloc::Global;

impl Script {
    /// The text of a line of the display: docs/DEFINITIONS.md, "Presence over frames".
    ///
    /// `shown` is the index of the line, from 0 and below the number of lines. `values` has the
    /// value of each macro of the whole script in text order; one that is not there counts as 0.
    /// The formats are those of names, as in every script that was read.
    pub fn line(&self, alloc: Global, shown: u32, values: &[i32]) -> Result<Vec<u8>, OutOfMemory>
        requires shown { shown < length self.now.lines.items }
        requires formats { All (λ format. HasDigits format.1) (script_contents self.now).formats }
        ensures { IfOk result (λ text. text.items ≡ line_text (script_contents self.now) shown values.now) }
    {
        let mut text = Vec::new(alloc);
        self.put_line(&mut text, shown, values)?;
        Ok(text)
    }

    /// Puts the text of a line of the display behind another text, by what `line` takes.
    ///
    /// When memory runs out, a part of it may stand there.
    pub fn put_line(&self, out: &mut Vec<u8>, shown: u32, values: &[i32]) -> Result<(), OutOfMemory>
        requires shown { shown < length self.now.lines.items }
        requires formats { All (λ format. HasDigits format.1) (script_contents self.now).formats }
        ensures { OnOk result (out.new.items ≡ out.old.items ++ line_text (script_contents self.now) shown values.now) }
    {
        let index = shown as usize;
        let left = behind_lines(&self.lines[..index], values);
        self.put_pieces(out, &self.lines[index].pieces, &self.meanings[index], left)
    }

    // Puts the text of pieces, with what their macros show and their values in order.
    fn put_pieces(
        &self,
        out: &mut Vec<u8>,
        pieces: &[Piece],
        meanings: &[Meaning],
        values: &[i32],
    ) -> Result<(), OutOfMemory>
        requires formats { All (λ format. HasDigits format.1) (script_contents self.now).formats }
        requires meanings { meanings.now ≡ meanings_in (script_contents self.now).lookups (script_contents self.now).formats (map piece_contents pieces.now) }
        ensures { OnOk result
            (out.new.items ≡ out.old.items ++ pieces_text (script_contents self.now) (map piece_contents pieces.now) values.now) }
    {
        let mut meant = meanings;
        let mut left = values;
        for piece in pieces {
            self.put_piece(out, piece, meant, left)?;
            meant = behind_meaning(piece, meant);
            left = behind_piece(piece, left);
        }
        Ok(())
    }

    // Puts the text of a piece; a macro shows the first value as its first meaning says.
    fn put_piece(
        &self,
        out: &mut Vec<u8>,
        piece: &Piece,
        meanings: &[Meaning],
        values: &[i32],
    ) -> Result<(), OutOfMemory>
        requires formats { All (λ format. HasDigits format.1) (script_contents self.now).formats }
        requires meanings { BeginsWithMeaning (script_contents self.now) (piece_contents piece.now) meanings.now }
        ensures { OnOk result
            (out.new.items ≡ out.old.items ++ piece_text (script_contents self.now) (piece_contents piece.now) values.now) }
    {
        match piece {
            Piece::Text(bytes) => out.extend_from_slice(bytes)?,
            Piece::Macro { name, .. } => {
                let meaning = meanings.first().copied().unwrap_or(Meaning::Unknown);
                let value = values.first().copied().unwrap_or(0);
                self.put_macro(out, name, meaning, value)?;
            }
        }
        Ok(())
    }

    // Puts the text of a macro: by the lookup or the format that it shows, else its name as unknown.
    fn put_macro(
        &self,
        out: &mut Vec<u8>,
        name: &[u8],
        meaning: Meaning,
        value: i32,
    ) -> Result<(), OutOfMemory>
        requires formats { All (λ format. HasDigits format.1) (script_contents self.now).formats }
        requires meaning { meaning ≡ meaning_of (script_contents self.now).lookups (script_contents self.now).formats name.now }
        ensures { OnOk result (out.new.items ≡ out.old.items ++ macro_text (script_contents self.now) name.now value) }
    {
        match meaning {
            Meaning::Lookup(place) => {
                let found = text_in(
                    &self.lookups[place],
                    &self.spans[place],
                    value.cast_unsigned(),
                );
                out.extend_from_slice(found)?;
                Ok(())
            }
            Meaning::Format(format) => put_value(out, format, value),
            Meaning::Unknown => put_unknown(out, name),
        }
    }
}

// Puts the name of a macro that is unknown.
fn put_unknown(out: &mut Vec<u8>, name: &[u8]) -> Result<(), OutOfMemory>
    ensures { OnOk result (out.new.items ≡ out.old.items ++ (codes "[Unknown macro]" ++ name.now)) }
{
    out.extend_from_slice(b"[Unknown macro]")?;
    out.extend_from_slice(name)?;
    Ok(())
}

// The values after those of the macros of these lines.
fn behind_lines<'a>(lines: &[Line], values: &'a [i32]) -> &'a [i32]
    ensures { result.now ≡ drop (length (flat_map values_in_line (map line_contents lines.now))) values.now }
{
    let mut left = values;
    for line in lines {
        left = behind_line(line, left);
    }
    left
}

// The values after those of the macros of a line.
fn behind_line<'a>(line: &Line, values: &'a [i32]) -> &'a [i32]
    ensures { result.now ≡ drop (length (values_in_line (line_contents line.now))) values.now }
{
    let mut left = values;
    for piece in &line.pieces {
        left = behind_piece(piece, left);
    }
    left
}

// The values after that of a piece, if it has one.
fn behind_piece<'a>(piece: &Piece, values: &'a [i32]) -> &'a [i32]
    ensures { result.now ≡ drop (values_of (piece_contents piece.now)) values.now }
{
    match (piece, values) {
        (Piece::Macro { .. }, [_, others @ ..]) => others,
        _ => values,
    }
}

// The meanings after that of a piece, if it has one.
fn behind_meaning<'a>(piece: &Piece, meanings: &'a [Meaning]) -> &'a [Meaning]
    ensures { result.now ≡ drop (values_of (piece_contents piece.now)) meanings.now }
{
    match (piece, meanings) {
        (Piece::Macro { .. }, [_, others @ ..]) => others,
        _ => meanings,
    }
}
