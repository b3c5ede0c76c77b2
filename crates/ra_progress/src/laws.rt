//! Laws on the definitions, for whoever reads them.

ghost use Rattle.std.specs.Prelude.{◌≡◌, ℕ, ◌<◌, List};
ghost use Rattle.std.specs.List.{AllByRecursion};
ghost use Rattle.ra_progress.specs.Contents.{ShapeContents, Opening, IsOpening};
ghost use Rattle.ra_progress.specs.Spelling.{progress_bytes};
ghost use Rattle.ra_progress.specs.Names.{IsPaired};
ghost use Rattle.ra_progress.specs.Reading.{IsAccepted};
ghost use Rattle.ra_progress.specs.Saying.{says};
ghost use Rattle.ra_progress.specs.Laws.{IsShape, HasLines, ComesBack, IsOwn};

/// The bytes of an opening are accepted, say it again and are the set's own; the set's own bytes
/// are those of what they say; and what accepted bytes say is an opening, where a script has a line:
/// docs/DEFINITIONS.md, "Progress file".
///
/// A law; no effect at run time.
pub fn both_ways()
    ensures from_openings { (shape : ShapeContents) (o : Opening) → IsShape shape → IsOpening shape o → ComesBack shape o }
    ensures own { (shape : ShapeContents) (o : Opening) → IsShape shape → IsOpening shape o → IsOwn shape (progress_bytes shape o) }
    ensures from_bytes { (shape : ShapeContents) (bytes : List ℕ) → AllByRecursion (λ b. b < 256) bytes
        → IsShape shape → IsAccepted shape bytes → IsOwn shape bytes → progress_bytes shape (says shape bytes) ≡ bytes }
    ensures says_opening { (shape : ShapeContents) (bytes : List ℕ) → AllByRecursion (λ b. b < 256) bytes
        → IsPaired shape → HasLines shape → IsAccepted shape bytes → IsOpening shape (says shape bytes) }
{}
