ghost use Rattle.std.specs.Prelude.{◌≡◌, IfOk};
ghost use Rattle.std.specs.List.{AllByRecursion};
ghost use Rattle.ra_set.specs.Contents.{set_contents};
ghost use Rattle.ra_set.specs.Limits.{IsWithinLimits};
ghost use Rattle.ra_set.specs.Spelled.{IsSpelled};
ghost use Rattle.ra_lint.specs.Fewness.{HasFewAlts};
ghost use Rattle.ra_lint.specs.Laws.{Holds};
ghost use Rattle.ra_lint.specs.Warnings.{warnings_of};

use crate::on_item::lint_item;
use crate::warning::Warning;
use ra_set::Set;
use ra_text::OutOfMemory;
use std::alloc::Global;

/// The warnings on a set: docs/DEFINITIONS.md, "Warnings".
///
/// They stand by items, then by triggers, then by groups, then by conditions, then by words; the word of an item is
/// its last. The set is one that `parse_set` accepts: it is within the limits, some file spells it, and it has fewer
/// than 2^32 alt groups. `OutOfMemory` comes for running out of memory alone. It goes over each condition once.
pub fn lint(alloc: Global, set: &Set) -> Result<Vec<Warning>, OutOfMemory>
    requires limits { IsWithinLimits (set_contents set.now) }
    requires spelled { IsSpelled (set_contents set.now) }
    requires groups { HasFewAlts (set_contents set.now) }
    ensures all { IfOk result (λ warnings. warnings.items ≡ warnings_of (set_contents set.now)) }
    ensures hold { IfOk result (λ warnings. AllByRecursion (Holds (set_contents set.now).items) warnings.items) }
{
    let mut found = Vec::new(alloc);
    for (number, item) in set.items.iter().enumerate() {
        lint_item(alloc, &mut found, number as u32, item)?;
    }
    Ok(found)
}
