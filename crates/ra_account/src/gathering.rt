//! What a frame wants of all conditions of a trigger.

ghost use Rattle.std.specs.Prelude.{◌≡◌, ◌+◌, ◌<◌, ◌^◌, ◌++◌, length, map, sum_by};
ghost use Rattle.ra_account.specs.Counting.{count_of};
ghost use Rattle.ra_account.specs.Wanting.{fewest_of, of_alts};

use crate::group_account::GroupAccount;

// How many conditions the last frame wants of the alt of which it wants the fewest.
pub(crate) fn fewest(alts: &[GroupAccount]) -> u64
    ensures { result ≡ fewest_of (map (λ g. g.wants.items) alts.now) }
{
    let mut least = u64::MAX;
    for alt in alts {
        least = least.min(count_true(&alt.wants));
    }
    least
}

// How many conditions the last frame wants of all, where it wants this many of the alt of which it wants the fewest.
pub(crate) fn count_wanted(core: &GroupAccount, alts: &[GroupAccount], least: u64) -> u64
    requires least { least ≡ fewest_of (map (λ g. g.wants.items) alts.now) }
    requires few { length core.now.wants.items + sum_by (λ g. length g.wants.items) alts.now < 2 ^ 64 }
    ensures { result ≡ count_of (core.now.wants.items ++ of_alts (map (λ g. g.wants.items) alts.now)) }
{
    let count = count_true(&core.wants);
    if alts.is_empty() {
        count
    } else {
        count + least
    }
}

// Writes what the last frame wants of all conditions, core first: those of the core, and those of the alt of which it
// wants the fewest, the first of such alts, where it wants this many of it.
pub(crate) fn gather_wants(
    core: &GroupAccount,
    alts: &[GroupAccount],
    least: u64,
    wanted: &mut [bool],
)
    requires least { least ≡ fewest_of (map (λ g. g.wants.items) alts.now) }
    requires room { length wanted.old ≡ length core.now.wants.items + sum_by (λ g. length g.wants.items) alts.now }
    ensures { wanted.new ≡ core.now.wants.items ++ of_alts (map (λ g. g.wants.items) alts.now) }
{
    wanted.fill(false);
    let mut from = core.wants.len();
    wanted[..from].copy_from_slice(&core.wants);
    for alt in alts {
        let end = from + alt.wants.len();
        if count_true(&alt.wants) == least {
            wanted[from..end].copy_from_slice(&alt.wants);
            return;
        }
        from = end;
    }
}

// How many of them are so.
fn count_true(wants: &[bool]) -> u64
    ensures { result ≡ count_of wants.now }
{
    let mut count = 0;
    for wanted in wants {
        if *wanted {
            count += 1;
        }
    }
    count
}
