//! The top call: does what the words say, over any files and any output.

ghost use Rattle.std.specs.Prelude.{◌≤◌, map, string_bytes};
ghost use Rattle.ra_args.specs.JobWords.{job_contents};
ghost use Rattle.ra_jobs.specs.Outside.{outside_of};
ghost use Rattle.ra_session.specs.Running.{Leaves, Ran};
ghost use Rattle.ra_player.specs.Statuses.{Answers, LeavesFiles};

use ra_args::{Job, read_job};
use ra_explain_job::{AskedUnlock, explain_job};
use ra_io::{Files, Sink};
use ra_session::{
    Ending, RunFiles, check_job, finish, import_job, lint_job, make_job, normal_job, run_job,
};
use std::alloc::Global;

// Does a job, up to its last line.
fn do_job<F: Files, K: Sink>(alloc: Global, job: &Job<'_>, files: &mut F, out: &mut K) -> Ending
    ensures ran { Ran (job_contents job.now)
        (outside_of (F.content files.old) (F.read_faults files.old) (F.put_faults files.old) (K.text out.old) (K.faults out.old))
        (outside_of (F.content files.new) (F.read_faults files.new) (F.put_faults files.new) (K.text out.new) (K.faults out.new))
        result }
    ensures leaves { Leaves (job_contents job.now)
        (outside_of (F.content files.old) (F.read_faults files.old) (F.put_faults files.old) (K.text out.old) (K.faults out.old))
        (outside_of (F.content files.new) (F.read_faults files.new) (F.put_faults files.new) (K.text out.new) (K.faults out.new))
        result }
    ensures later { K.faults out.old ≤ K.faults out.new }
{
    match *job {
        Job::Run {
            set,
            trace,
            restore,
            save,
        } => {
            let run = RunFiles {
                set,
                trace,
                restore,
                save,
            };
            run_job(alloc, &run, files, out)
        }
        Job::Check { set } => check_job(alloc, set, files, out),
        Job::Make { number } => make_job(alloc, number, out),
        Job::Import { file, set } => import_job(alloc, file, set, files, out),
        Job::Lint { set } => lint_job(alloc, set, files, out),
        Job::Normal { set, out: file } => normal_job(alloc, set, file, files, out),
        Job::Explain { set, trace, id } => {
            let asked = AskedUnlock { set, trace, id };
            explain_job(alloc, &asked, files, out)
        }
    }
}

/// Does what the words after the program's name say, and answers the status:
/// docs/DEFINITIONS.md, "Statuses".
///
/// What was printed, and why, is said by the status. No file changes but the one that the words put,
/// and that one only with status 0, where a put of it failed, or where the line after it was not
/// written whole.
pub fn play<F: Files, K: Sink>(alloc: Global, words: &[String], files: &mut F, out: &mut K) -> u8
    ensures answers { Answers (map string_bytes words.now)
        (outside_of (F.content files.old) (F.read_faults files.old) (F.put_faults files.old) (K.text out.old) (K.faults out.old))
        (outside_of (F.content files.new) (F.read_faults files.new) (F.put_faults files.new) (K.text out.new) (K.faults out.new))
        result }
    ensures leaves { LeavesFiles (map string_bytes words.now)
        (outside_of (F.content files.old) (F.read_faults files.old) (F.put_faults files.old) (K.text out.old) (K.faults out.old))
        (outside_of (F.content files.new) (F.read_faults files.new) (F.put_faults files.new) (K.text out.new) (K.faults out.new))
        result }
{
    match read_job(alloc, words) {
        Ok(Some(job)) => {
            let ending = do_job(alloc, &job, files, out);
            finish(alloc, ending, out)
        }
        Ok(None) => finish(alloc, Ending::NoJob, out),
        Err(_) => 1,
    }
}
