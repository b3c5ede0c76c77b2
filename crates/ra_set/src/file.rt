//! What a file contains: docs/DEFINITIONS.md, "Set file" and "First bad place".

ghost use Rattle.std.specs.Prelude.{◌≡◌, ◌⊎◌, ◌+◌, ◌-◌, ◌≤◌, IfErr, IfOk, length};
ghost use Rattle.ra_richpresence.specs.Contents.{script_contents};
ghost use Rattle.ra_richpresence.specs.Spelled.{IsScript};
ghost use Rattle.ra_richpresence.specs.Texts.{IsRead};
ghost use Rattle.ra_set.specs.Limits.{most_bytes, most_text};
ghost use Rattle.ra_set.specs.Read.{IsBadScript, IsBadText, IsReadBehind, IsReadFile, script_read};
ghost use Rattle.ra_set.specs.Refusals.{Refuses};
ghost use Rattle.ra_set.specs.Spelled.{OptionalScript};

use crate::lines::take_lines;
use crate::read_file::ReadFile;
use crate::refused::{SetRefused, Which};
use ra_condition::{Fault, Refused};
use ra_richpresence::{ReadScript, read_script};
use ra_text::Cursor;
use std::alloc::Global;

// The items of a file, of which none repeats an id of its own letter, and its script.
pub fn read_file(alloc: Global, bytes: &[u8]) -> Result<ReadFile, SetRefused>
    requires { length bytes.now ≤ most_bytes }
    ensures ok { IfOk result (λ read. IsReadFile bytes.now read) }
    ensures structure { IfOk result (λ read. OptionalScript (script_read read.script)) }
    ensures err { IfErr result (λ why. why ≡ SetRefused.Memory ⊎ Refuses bytes.now why) }
{
    let mut cursor = Cursor::new(bytes, 0);
    match take_lines(alloc, &mut cursor) {
        Ok(found) => match read_behind(alloc, bytes, &cursor, found.has_script) {
            Ok(script) => Ok(ReadFile {
                items: found.kept.distinct()?,
                script,
            }),
            Err(why) => Err(why),
        },
        Err(Fault::Stop) => Err(SetRefused::Syntax {
            at: cursor.place(bytes),
        }),
        Err(Fault::Memory) => Err(SetRefused::Memory),
    }
}

// The script that what is left of a file is, where it comes after a line `P`.
fn read_behind(
    alloc: Global,
    bytes: &[u8],
    cursor: &Cursor<'_>,
    has_script: bool,
) -> Result<Option<ReadScript>, SetRefused>
    requires size { length bytes.now ≤ most_bytes }
    requires within { length cursor.now.rest.now ≤ length bytes.now }
    ensures ok { IfOk result (λ read. IsReadBehind has_script cursor.now.rest.now read) }
    ensures structure { IfOk result (λ read. OptionalScript (script_read read)) }
    ensures err { IfErr result (λ why. why ≡ SetRefused.Memory
        ⊎ IsBadScript has_script cursor.now.rest.now (length bytes.now - length cursor.now.rest.now) why) }
{
    if has_script {
        let read = read_at(alloc, cursor.rest, cursor.place(bytes))?;
        Ok(Some(read))
    } else {
        Ok(None)
    }
}

// The script that the text from this place on is.
fn read_at(alloc: Global, text: &[u8], start: usize) -> Result<ReadScript, SetRefused>
    requires { start + length text.now ≤ most_bytes }
    ensures ok { IfOk result (λ read. IsRead text.now most_text read) }
    ensures structure { IfOk result (λ read. IsScript (script_contents read.script)) }
    ensures err { IfErr result (λ why. why ≡ SetRefused.Memory ⊎ IsBadText text.now start why) }
{
    match read_script(alloc, text, Which::Lookup.most()) {
        Ok(read) => Ok(read),
        Err(Refused::Syntax { at }) => Err(SetRefused::Syntax { at: start + at }),
        Err(Refused::Memory) => Err(SetRefused::Memory),
    }
}
