//! What holds of all runs.

ghost use Rattle.std.specs.Prelude.{◌≡◌, ℕ, List};
ghost use Rattle.std.specs.List.{concat};
ghost use Rattle.ra_set.specs.Contents.{SetContents};
ghost use Rattle.ra_memory.specs.Image.{History};
ghost use Rattle.ra_progress.specs.Contents.{Opening};
ghost use Rattle.ra_meaning.specs.Earned.{Earned};
ghost use Rattle.ra_meaning.specs.Play.{text_of};
ghost use Rattle.ra_session.specs.Expected.{played, trace_in};

/// What a run prints, record by record, is the text of its trace: docs/DEFINITIONS.md, "Printed lines".
///
/// A law; no effect at run time. It holds for every set, every opening, every frames before and every earned
/// achievements, and every file.
pub fn runs_print_their_texts()
    ensures { (set : SetContents) (o : Opening) (behind : History) (earned : Earned) (bytes : List ℕ)
        → concat (played set o behind earned bytes).pieces ≡ text_of set o behind earned (trace_in bytes).size (trace_in bytes).entries }
{}
