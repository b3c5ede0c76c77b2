//! What holds of all accounts.

ghost use Rattle.std.specs.Prelude.{◌≡◌, ℕ, List};
ghost use Rattle.ra_account.specs.Conditions.{IsAccountOf};
ghost use Rattle.ra_account.specs.Marks.{IsSound, IsWidth, width_of};
ghost use Rattle.ra_account.specs.Text.{told_by, told_of};
ghost use Rattle.ra_account.specs.declared.condition.ConditionAccount.{ConditionAccount};
ghost use Rattle.ra_account.specs.declared.facts.Facts.{Facts};

/// What an account tells is what its frames tell: docs/DEFINITIONS.md, "Account of an achievement".
///
/// A law; no effect at run time.
pub fn accounts_tell_their_frames()
    ensures { (frames : List Facts) (a : ConditionAccount) → IsAccountOf frames a → IsSound a.columns → told_by a ≡ told_of frames }
{}

/// The width of columns is the least power of two with which 60 of them have room for the frames:
/// docs/DEFINITIONS.md, "Account of an achievement".
///
/// A law; no effect at run time.
pub fn widths_are_least()
    ensures { (frames : ℕ) → IsWidth frames (width_of frames) }
{}
