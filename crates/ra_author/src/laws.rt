//! What holds of all calls.

ghost use Rattle.std.specs.Prelude.{◌≡◌, ℕ, List, Option};
ghost use Rattle.ra_args.specs.AuthorWords.{AuthorJob};
ghost use Rattle.ra_author.specs.Endings.{Ends};
ghost use Rattle.ra_author.specs.Statuses.{LeavesFiles, SaysEachStatus};
ghost use Rattle.ra_author_jobs.specs.Expected.{Expected, JobSays};
ghost use Rattle.ra_jobs.specs.Outside.{Outside};

/// What a job says over told files is one thing: docs/DEFINITIONS.md, "Jobs for authors".
///
/// A law; no effect at run time.
pub fn each_job_says_one_thing()
    ensures { (content : List ℕ → Option (List ℕ)) (job : AuthorJob) (a b : Expected) → JobSays content job a → JobSays content job b → a ≡ b }
{}

/// What `author` answers, read off its status: docs/DEFINITIONS.md, "Jobs for authors".
///
/// A law; no effect at run time.
pub fn each_status_says_its_cause()
    ensures statuses { (words : List (List ℕ)) (old new : Outside) (status : ℕ) → Ends old new words status → SaysEachStatus words old new status }
    ensures leaves { (words : List (List ℕ)) (old new : Outside) (status : ℕ) → Ends old new words status → LeavesFiles words old new status }
{}
