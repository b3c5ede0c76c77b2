//! What a member keeps, as a progress file keeps it.

ghost use Rattle.std.specs.Result.{OnOk};
ghost use Rattle.std.specs.List.{flat_map};
ghost use Rattle.ra_member.specs.MemberRuns.{kept_by, PutsBehind};
ghost use Rattle.ra_member.specs.Members.{saved_hits, saved_numbers};

use crate::member::Member;
use crate::trigger_run::TriggerRun;
use crate::value_run::ValueRun;
use ra_text::OutOfMemory;

impl Member {
    /// Puts what is kept after other hits and other numbers, the hits of the tests first:
    /// docs/DEFINITIONS.md, "Progress file".
    pub fn save(&self, hits: &mut Vec<u32>, numbers: &mut Vec<u32>) -> Result<(), OutOfMemory>
        ensures hits { OnOk result
            (PutsBehind hits.old.items hits.new.items (saved_hits (kept_by self.now))) }
        ensures numbers { OnOk result
            (PutsBehind numbers.old.items numbers.new.items (saved_numbers (kept_by self.now))) }
    {
        put_tests(hits, &self.tests)?;
        put_values(hits, numbers, &self.values)?;
        Ok(())
    }
}

// Puts the hits of tests after others.
fn put_tests(hits: &mut Vec<u32>, tests: &[TriggerRun]) -> Result<(), OutOfMemory>
    ensures { OnOk result
        (PutsBehind hits.old.items hits.new.items (flat_map (λ t. t.trigger.hits) tests.now)) }
{
    for test in tests {
        put_numbers(hits, test.trigger.hits())?;
    }
    Ok(())
}

// Puts what is kept of values after other hits and other numbers.
fn put_values(
    hits: &mut Vec<u32>,
    numbers: &mut Vec<u32>,
    values: &[ValueRun],
) -> Result<(), OutOfMemory>
    ensures hits { OnOk result
        (PutsBehind hits.old.items hits.new.items (flat_map (λ v. v.value.hits) values.now)) }
    ensures numbers { OnOk result
        (PutsBehind numbers.old.items numbers.new.items (flat_map (λ v. v.value.numbers) values.now)) }
{
    for value in values {
        put_numbers(hits, value.value.hits())?;
        put_numbers(numbers, value.value.kept())?;
    }
    Ok(())
}

/// Puts numbers after others.
pub fn put_numbers(words: &mut Vec<u32>, numbers: &[u32]) -> Result<(), OutOfMemory>
    ensures { OnOk result (PutsBehind words.old.items words.new.items numbers.now) }
{
    for number in numbers {
        words.push(*number)?;
    }
    Ok(())
}
