ghost use Rattle.std.specs.Prelude.{Bool, List};
ghost use Rattle.ra_condition.specs.Contents.{TriggerContents};
ghost use Rattle.ra_explain.specs.Explains.{ExplanationContents, Explains, UnlockFollows};

/// From explained rows the unlock follows: docs/DEFINITIONS.md, "Explanations".
pub fn explained_rows_unlock()
    ensures { (t : TriggerContents) (rows : List Bool) (e : ExplanationContents) → Explains t rows e → UnlockFollows t rows e }
{}
