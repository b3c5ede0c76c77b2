//! The words of the command line: the job of each shape, and words that are none.

use ra_args::{Job, read_job};
use ra_text::OutOfMemory;
use std::alloc::Global;

fn words_of(alloc: Global, texts: &[&str]) -> Result<Vec<String>, OutOfMemory> {
    let mut words = Vec::new(alloc);
    for text in texts {
        words.push(String::from_str(alloc, *text)?)?;
    }
    Ok(words)
}

// Words, and the job that they are.
type Row = (&'static [&'static str], Job<'static>);

const JOBS: [Row; 14] = [
    (
        &["run", "S", "T"],
        Job::Run {
            set: "S",
            trace: "T",
            restore: None,
            save: None,
        },
    ),
    (
        &["run", "S", "T", "--restore", "P"],
        Job::Run {
            set: "S",
            trace: "T",
            restore: Some("P"),
            save: None,
        },
    ),
    (
        &["run", "S", "T", "--save", "Q"],
        Job::Run {
            set: "S",
            trace: "T",
            restore: None,
            save: Some("Q"),
        },
    ),
    (
        &["run", "S", "T", "--restore", "P", "--save", "Q"],
        Job::Run {
            set: "S",
            trace: "T",
            restore: Some("P"),
            save: Some("Q"),
        },
    ),
    (&["check", "S"], Job::Check { set: "S" }),
    (&["check", "a b=-"], Job::Check { set: "a b=-" }),
    (&["lint", "S"], Job::Lint { set: "S" }),
    (&["normal", "S", "O"], Job::Normal { set: "S", out: "O" }),
    (
        &["explain", "S", "T", "0"],
        Job::Explain {
            set: "S",
            trace: "T",
            id: 0,
        },
    ),
    (
        &["explain", "S", "T", "4294967295"],
        Job::Explain {
            set: "S",
            trace: "T",
            id: 4294967295,
        },
    ),
    (&["make", "0"], Job::Make { number: 0 }),
    (&["make", "17"], Job::Make { number: 17 }),
    (&["make", "4294967295"], Job::Make { number: 4294967295 }),
    (
        &["import", "F", "S"],
        Job::Import {
            file: "F",
            set: "S",
        },
    ),
];

const NO_JOBS: [&'static [&'static str]; 50] = [
    &[],
    &["run", "S"],
    &["run", "S", "T", "--save"],
    &["make", "x"],
    &["make", "4294967296"],
    &["help"],
    &["--help"],
    &["run", "--help"],
    &["run", "S", "T", "--help"],
    &["run", "S", "T", "--save=p"],
    &["run", "S", "T", "--save", "Q", "--restore", "P"],
    &["run", "S", "T", "--save", ""],
    &["run", "S", "T", "--save", "-Q"],
    &["run", "S", "T", "--restore", "P", "--restore", "P"],
    &["run", "--save", "Q", "S", "T"],
    &["run", "S", "T", "U"],
    &["run", "", "T"],
    &["run", "-S", "T"],
    &["run", "--", "S", "T"],
    &["check"],
    &["check", ""],
    &["check", "-"],
    &["check", "S", "T"],
    &["make"],
    &["make", ""],
    &["make", "007"],
    &["make", "+7"],
    &["make", "-7"],
    &["Run", "S", "T"],
    &["lint"],
    &["lint", ""],
    &["lint", "S", "T"],
    &["normal"],
    &["normal", "S"],
    &["normal", "S", "O", "T"],
    &["normal", "S", "-O"],
    &["normal", "S", "--save", "O"],
    &["explain"],
    &["explain", "S", "T"],
    &["explain", "S", "T", "1", "2"],
    &["explain", "S", "T", "01"],
    &["explain", "S", "T", "+1"],
    &["explain", "S", "T", "4294967296"],
    &["explain", "S", "-T", "1"],
    &["explain", "", "T", "1"],
    &["import"],
    &["import", "F"],
    &["import", "F", "S", "T"],
    &["import", "F", "-S"],
    &["import", "--save", "F", "S"],
];

// Whether the words are this job.
fn reads(alloc: Global, texts: &[&str], job: Option<Job<'_>>) -> Result<bool, OutOfMemory> {
    let words = words_of(alloc, texts)?;
    Ok(read_job(alloc, words.as_slice())? == job)
}

// The first words that are not their job, or that are a job and should be none.
fn other_words(alloc: Global) -> Result<Option<&'static [&'static str]>, OutOfMemory> {
    for (texts, job) in &JOBS {
        if !reads(alloc, *texts, Some(*job))? {
            return Ok(Some(*texts));
        }
    }
    for texts in &NO_JOBS {
        if !reads(alloc, *texts, None)? {
            return Ok(Some(*texts));
        }
    }
    Ok(None)
}

#[test]
fn words_are_their_jobs(rt: HostRuntime) -> Result<(), OutOfMemory> {
    assert_eq!(rt; other_words(rt.alloc())?, None);
    Ok(())
}
