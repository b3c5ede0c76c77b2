ghost use Rattle.std.specs.Prelude.{◌≡◌, ◌≢◌, ◌⊎◌, ◌≤◌, IfErr, IfOk};
ghost use Rattle.ra_patch.specs.LeftAnswers.{LeavesNothing};
ghost use Rattle.ra_judge.specs.Codes.{done, no_document, no_room};
ghost use Rattle.ra_judge.specs.Importing.{AnswersImport, LeavesBy};

use crate::codes::{DOCUMENT, MEMORY, RANGE};
use crate::given::give_whole;
use crate::refusal::{Refusal, of_document};
use ra_patch::{CountedLeft, DocumentRefused, left_of, official_of};
use std::alloc::Global;

// The flag that leaves out the unofficial achievements.
const OFFICIAL: u32 = 1;

/// A document in JSON, and by which flags it is imported.
#[derive(Clone, Copy)]
pub struct Document<'a> {
    /// Its bytes.
    pub bytes: &'a [u8],
    /// 1 where the unofficial achievements are left out too, else 0.
    pub flags: u32,
}

/// How many bytes a set file has, and how many things its document has that are left out of it.
#[derive(Clone, Copy, Debug, PartialEq, Eq)]
pub struct LeftCounts {
    pub count: usize,
    pub left: usize,
}

/// The set file of what is left of a document: docs/DEFINITIONS.md, "Calls from C" and "What is left of a
/// document".
///
/// The flag 1 leaves out the unofficial achievements too, and counts them. `RANGE` where another flag is set;
/// `DOCUMENT` where nothing is left, with the reason; `ROOM` where there is too little room; `MEMORY` where memory runs out.
pub fn import(
    alloc: Global,
    document: Document<'_>,
    out: &mut [u8],
    counts: &mut LeftCounts,
    why: &mut Refusal,
) -> u32
    ensures answers { AnswersImport document.entry.bytes.now document.entry.flags out.old out.new counts.new.count counts.new.left why.new result }
    ensures unwritten { result ≢ done → out.new ≡ out.old }
    ensures uncounted { result ≢ done → result ≢ no_room → counts.new ≡ counts.old }
    ensures unsaid { result ≢ no_document → why.new ≡ why.old }
{
    if document.flags > OFFICIAL {
        return RANGE;
    }
    match left_by(alloc, document.bytes, document.flags) {
        Ok(whole) => {
            counts.left = whole.left_out;
            give_whole(whole.text.as_slice(), out, &mut counts.count)
        }
        Err(DocumentRefused::Memory) => MEMORY,
        Err(reason) => {
            *why = of_document(reason);
            DOCUMENT
        }
    }
}

// What is left of a document by these flags.
fn left_by(alloc: Global, document: &[u8], flags: u32) -> Result<CountedLeft, DocumentRefused>
    requires { flags ≤ 1 }
    ensures ok { IfOk result (λ left. LeavesBy flags document.now left.text.items left.left_out) }
    ensures err { IfErr result (λ why. why ≡ DocumentRefused.Memory ⊎ LeavesNothing document.now why) }
{
    if flags == OFFICIAL {
        return official_of(alloc, document);
    }
    match left_of(alloc, document) {
        Ok(left) => Ok(CountedLeft {
            left_out: left.left_out.len(),
            text: left.text,
        }),
        Err(why) => Err(why),
    }
}
