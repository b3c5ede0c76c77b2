//! Texts that are judged before a game is made of them.
ghost use Rattle.std.specs.Prelude.{◌≡◌, ◌≢◌, ◌⊎◌, ◌↔◌, None};
ghost use Rattle.ra_judge.specs.Codes.{done, memory, no_set, no_document, no_room, out_of_range};
ghost use Rattle.ra_judge.specs.Giving.{GivesText};
ghost use Rattle.ra_judge.specs.Importing.{AnswersImport};
ghost use Rattle.ra_judge.specs.Judging.{AcceptsKind, RefusesKind, kind_of};
ghost use Rattle.ra_judge.specs.Texts.{code_text, reason_text};

use ra_judge::{Document, LeftCounts, Refusal};
use std::alloc::Global;

/// Whether a set with this one item alone is accepted: docs/DEFINITIONS.md, "Calls from C".
///
/// `MEERKAT_RANGE` where the number is no kind; `MEERKAT_SET` where it is not accepted, with the reason and the place in the text;
/// `MEERKAT_MEMORY` where memory runs out.
#[unsafe(no_mangle)]
pub extern "C" fn meerkat_judge(alloc: Global, kind: u32, text: &[u8], why: &mut Refusal) -> u32
    ensures range { result ≡ out_of_range ↔ kind_of kind ≡ None }
    ensures accepted { result ≡ done → AcceptsKind (kind_of kind) text.now }
    ensures refused { result ≡ no_set → RefusesKind (kind_of kind) text.now why.new }
    ensures unsaid { result ≢ no_set → why.new ≡ why.old }
    ensures other { (result ≡ done) ⊎ ((result ≡ memory) ⊎ ((result ≡ no_set) ⊎ (result ≡ out_of_range))) }
{
    ra_judge::judge(alloc, kind, text, why)
}

/// The set file of what is left of a document in JSON: docs/DEFINITIONS.md, "Calls from C" and "What is left of a
/// document".
///
/// The flag 1 leaves out the unofficial achievements too, and counts them. `MEERKAT_RANGE` where another flag is set;
/// `MEERKAT_DOCUMENT` where nothing is left, with the reason; `MEERKAT_ROOM` where there is too little room;
/// `MEERKAT_MEMORY` where memory runs out.
#[unsafe(no_mangle)]
pub extern "C" fn meerkat_import(
    alloc: Global,
    document: &[u8],
    flags: u32,
    out: &mut [u8],
    count: &mut usize,
    left: &mut usize,
    why: &mut Refusal,
) -> u32
    ensures answers { AnswersImport document.now flags out.old out.new count.new left.new why.new result }
    ensures unwritten { result ≢ done → out.new ≡ out.old }
    ensures uncounted { result ≢ done → result ≢ no_room → count.new ≡ count.old }
    ensures left_uncounted { result ≢ done → result ≢ no_room → left.new ≡ left.old }
    ensures unsaid { result ≢ no_document → why.new ≡ why.old }
{
    let document = Document {
        bytes: document,
        flags,
    };
    let mut counts = LeftCounts {
        count: *count,
        left: *left,
    };
    let code = ra_judge::import(alloc, document, out, &mut counts, why);
    *count = counts.count;
    *left = counts.left;
    code
}

/// What a code says: docs/DEFINITIONS.md, "Calls from C".
///
/// `MEERKAT_RANGE` where the number is no code; `MEERKAT_ROOM` where there is too little room; the count is that of the whole.
#[unsafe(no_mangle)]
pub extern "C" fn meerkat_error(code: u32, out: &mut [u8], count: &mut usize) -> u32
    ensures told { GivesText (code_text code) out.old out.new count.new result }
    ensures unwritten { result ≢ done → out.new ≡ out.old }
    ensures uncounted { result ≢ done → result ≢ no_room → count.new ≡ count.old }
{
    ra_judge::error(code, out, count)
}

/// What a reason says: docs/DEFINITIONS.md, "Calls from C".
///
/// `MEERKAT_RANGE` where its kind is none; `MEERKAT_ROOM` where there is too little room; the count is that of the whole.
/// `MEERKAT_MEMORY` where memory runs out.
#[unsafe(no_mangle)]
pub extern "C" fn meerkat_refusal_text(
    alloc: Global,
    why: &Refusal,
    out: &mut [u8],
    count: &mut usize,
) -> u32
    ensures told { result ≢ memory → GivesText (reason_text why.now) out.old out.new count.new result }
    ensures unwritten { result ≢ done → out.new ≡ out.old }
    ensures uncounted { result ≢ done → result ≢ no_room → count.new ≡ count.old }
{
    ra_judge::reason(alloc, why, out, count)
}
