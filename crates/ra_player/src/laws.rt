//! What holds of all workloads and all calls.

ghost use Rattle.std.specs.Prelude.{ℕ, List};
ghost use Rattle.ra_set.specs.Accepted.{IsSet};
ghost use Rattle.ra_set.specs.Contents.{SetContents};
ghost use Rattle.ra_trace.specs.Workload.{made_set};
ghost use Rattle.ra_session.specs.Expected.{Expected, MakeSays};
ghost use Rattle.ra_jobs.specs.Outside.{Outside};
ghost use Rattle.ra_session.specs.Running.{deciding};
ghost use Rattle.ra_player.specs.Statuses.{Answers, IsWhole, SaysEachStatus};

/// The set of every workload is accepted, and so it keeps each limit; and `make` says something of every number:
/// docs/DEFINITIONS.md, "Workload".
///
/// A law; no effect at run time. It holds for every number.
pub fn made_sets_are_accepted()
    ensures set { (number : ℕ) → (set : SetContents) × IsSet (made_set number) set }
    ensures told { (number : ℕ) → (e : Expected) × MakeSays number e }
{}

/// What `play` answers, read off its status: docs/DEFINITIONS.md, "What each status says".
///
/// A law; no effect at run time. `whole`: where no count rose of what decides, a job over told files is done as they
/// say. `statuses`: what each status says, and the same of all files that the job reads.
pub fn each_status_says_its_cause()
    ensures whole { (words : List (List ℕ)) (old new : Outside) (status : ℕ) → Answers words old new status → IsWhole words old new deciding status }
    ensures statuses { (words : List (List ℕ)) (old new : Outside) (status : ℕ) → Answers words old new status → SaysEachStatus words old new status }
{}
