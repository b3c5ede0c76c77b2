//! How many hits and numbers a member keeps.

ghost use Rattle.std.specs.Prelude.{◌≡◌, ◌<◌, ◌^◌, length};
ghost use Rattle.ra_member.specs.MemberRuns.{kept_by};
ghost use Rattle.ra_member.specs.Members.{saved_hits, saved_numbers};
ghost use Rattle.std.specs.List.{flat_map};

use crate::member::Member;
use crate::places::Places;
use crate::trigger_run::TriggerRun;
use crate::value_run::ValueRun;

impl Member {
    /// How many hits and how many numbers are kept: docs/DEFINITIONS.md, "Shape of a set".
    pub fn shape(&self) -> Places
        requires hits { length (saved_hits (kept_by self.now)) < 2 ^ 62 }
        requires numbers { length (saved_numbers (kept_by self.now)) < 2 ^ 62 }
        ensures hits { result.hits ≡ length (saved_hits (kept_by self.now)) }
        ensures numbers { result.numbers ≡ length (saved_numbers (kept_by self.now)) }
    {
        let tests = hits_of_tests(&self.tests);
        let values = shape_of_values(&self.values);
        Places {
            hits: tests + values.hits,
            numbers: values.numbers,
        }
    }
}

// How many hits tests keep.
fn hits_of_tests(tests: &[TriggerRun]) -> usize
    requires { length (flat_map (λ t. t.trigger.hits) tests.now) < 2 ^ 62 }
    ensures { result ≡ length (flat_map (λ t. t.trigger.hits) tests.now) }
{
    let mut hits = 0;
    for test in tests {
        hits += test.trigger.hits().len();
    }
    hits
}

// How many hits and numbers values keep.
fn shape_of_values(values: &[ValueRun]) -> Places
    requires hits { length (flat_map (λ v. v.value.hits) values.now) < 2 ^ 62 }
    requires numbers { length (flat_map (λ v. v.value.numbers) values.now) < 2 ^ 62 }
    ensures hits { result.hits ≡ length (flat_map (λ v. v.value.hits) values.now) }
    ensures numbers { result.numbers ≡ length (flat_map (λ v. v.value.numbers) values.now) }
{
    let mut hits = 0;
    let mut numbers = 0;
    for value in values {
        hits += value.value.hits().len();
        numbers += value.value.kept().len();
    }
    Places { hits, numbers }
}
