//! What a member keeps, put back from the bytes of a progress file.

ghost use Rattle.std.specs.Prelude.{◌≡◌, ◌+◌, ◌*◌, ◌≤◌, length};
ghost use Rattle.std.specs.List.{flat_map};
ghost use Rattle.ra_text.specs.Words.{words_at};
ghost use Rattle.ra_member.specs.MemberRuns.{StaysMember, StayTests, StayValues, kept_by, PutsBackTest, PutsBackValue};
ghost use Rattle.ra_member.specs.Members.{saved_hits, saved_numbers};

use crate::member::Member;
use crate::places::Places;
use crate::trigger_run::TriggerRun;
use crate::value_run::ValueRun;
use ra_trigger::State;

impl Member {
    /// Puts back the hits and the numbers that stand from two places on, as little-endian words of four
    /// bytes, the hits of the tests first, and gives the places after: docs/DEFINITIONS.md, "Progress
    /// file".
    pub fn put_back(&mut self, bytes: &[u8], at: Places) -> Places
        requires hits { at.hits + 4 * length (saved_hits (kept_by self.old)) ≤ length bytes.now }
        requires numbers { at.numbers + 4 * length (saved_numbers (kept_by self.old)) ≤ length bytes.now }

        ensures stays { StaysMember self.old self.new }
        ensures hits { saved_hits (kept_by self.new)
            ≡ words_at bytes.now at.hits (length (saved_hits (kept_by self.old))) }
        ensures numbers { saved_numbers (kept_by self.new)
            ≡ words_at bytes.now at.numbers (length (saved_numbers (kept_by self.old))) }

        // The places after.
        ensures next_hits { result.hits ≡ at.hits + 4 * length (saved_hits (kept_by self.old)) }
        ensures next_numbers { result.numbers ≡ at.numbers + 4 * length (saved_numbers (kept_by self.old)) }
    {
        let hits = put_back_tests(&mut self.tests, bytes, at.hits);
        let numbers = at.numbers;
        put_back_values(&mut self.values, bytes, Places { hits, numbers })
    }
}

// Puts back the hits of tests, and gives the place after.
fn put_back_tests(tests: &mut [TriggerRun], bytes: &[u8], from: usize) -> usize
    requires { from + 4 * length (flat_map (λ t. t.trigger.hits) tests.old) ≤ length bytes.now }
    ensures stay { StayTests tests.old tests.new }
    ensures hits { flat_map (λ t. t.trigger.hits) tests.new
        ≡ words_at bytes.now from (length (flat_map (λ t. t.trigger.hits) tests.old)) }
    ensures place { result ≡ from + 4 * length (flat_map (λ t. t.trigger.hits) tests.old) }
{
    let mut at = from;
    for place in 0..tests.len() {
        at = put_back_test(&mut tests[place], bytes, at);
    }
    at
}

// Puts back the hits of a test, and gives the place after.
fn put_back_test(run: &mut TriggerRun, bytes: &[u8], at: usize) -> usize
    requires { at + 4 * length run.old.trigger.hits ≤ length bytes.now }
    ensures test { PutsBackTest bytes.now at run.old run.new }
    ensures place { result ≡ at + 4 * length run.old.trigger.hits }
{
    let end = at + 4 * run.trigger.hits().len();
    run.trigger.put_back(State::Waiting, 0, &bytes[at..end]);
    end
}

// Puts back what the bytes from two places on say of values, and gives the places after.
fn put_back_values(values: &mut [ValueRun], bytes: &[u8], from: Places) -> Places
    requires hits { from.hits + 4 * length (flat_map (λ v. v.value.hits) values.old) ≤ length bytes.now }
    requires numbers { from.numbers + 4 * length (flat_map (λ v. v.value.numbers) values.old) ≤ length bytes.now }
    ensures stay { StayValues values.old values.new }
    ensures hits { flat_map (λ v. v.value.hits) values.new
        ≡ words_at bytes.now from.hits (length (flat_map (λ v. v.value.hits) values.old)) }
    ensures numbers { flat_map (λ v. v.value.numbers) values.new
        ≡ words_at bytes.now from.numbers (length (flat_map (λ v. v.value.numbers) values.old)) }
    ensures next_hits { result.hits ≡ from.hits + 4 * length (flat_map (λ v. v.value.hits) values.old) }
    ensures next_numbers { result.numbers
        ≡ from.numbers + 4 * length (flat_map (λ v. v.value.numbers) values.old) }
{
    let mut at = from;
    for place in 0..values.len() {
        at = put_back_value(&mut values[place], bytes, at);
    }
    at
}

// Puts back the hits and the numbers of a value, and gives the places after.
fn put_back_value(run: &mut ValueRun, bytes: &[u8], at: Places) -> Places
    requires hits { at.hits + 4 * length run.old.value.hits ≤ length bytes.now }
    requires numbers { at.numbers + 4 * length run.old.value.numbers ≤ length bytes.now }
    ensures value { PutsBackValue bytes.now at.hits at.numbers run.old run.new }
    ensures hits { result.hits ≡ at.hits + 4 * length run.old.value.hits }
    ensures numbers { result.numbers ≡ at.numbers + 4 * length run.old.value.numbers }
{
    let hits = at.hits + 4 * run.value.hits().len();
    let numbers = at.numbers + 4 * run.value.kept().len();
    run.value
        .put_back(&bytes[at.hits..hits], &bytes[at.numbers..numbers]);
    Places { hits, numbers }
}
