//! What holds of notices, for whoever reads their definitions.

ghost use Rattle.std.specs.Prelude.{◌≡◌, false, true};
ghost use Rattle.ra_condition.specs.Contents.{TriggerContents};
ghost use Rattle.ra_condition.specs.Spelled.{IsTrigger};
ghost use Rattle.ra_member.specs.Folds.{after};
ghost use Rattle.ra_member.specs.Frames.{achievement_next};
ghost use Rattle.ra_memory.specs.Image.{History};
ghost use Rattle.ra_memref.specs.Values.{Start};
ghost use Rattle.ra_trigger.specs.States.{is_triggered};
ghost use Rattle.ra_trigger.specs.Steps.{TriggerKept};
ghost use Rattle.ra_notices.specs.Notices.{is_locked};

/// An achievement with `no-unlock` is not triggered at any frame of any history, from any opening in
/// which it is not triggered: docs/DEFINITIONS.md, "Review of a set".
///
/// A law; no effect at run time.
pub fn no_unlock()
    ensures { (start : Start) (t : TriggerContents) (kept : TriggerKept) (history : History)
        → IsTrigger t → is_locked t ≡ true → is_triggered kept.state ≡ false
        → is_triggered (after (achievement_next start t) kept history).state ≡ false }
{}
