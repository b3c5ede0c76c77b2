//! The job that the words name: docs/DEFINITIONS.md, "Jobs".

ghost use Rattle.std.specs.Prelude.{◌≡◌, None, Some, [], ◌∷◌, false, true, map, option_and_then, option_map, string_bytes, is_some, IfOk, IfErr};
ghost use Rattle.clap.specs.Words.{app_of, first_of, found_of, kind_of, rows_of, rule_of, subcommand_of, subcommand_rows_of, takes, with_subcommand};
ghost use Rattle.clap.specs.declared.builder.command.Command.TheViews.{out-Command};
ghost use Rattle.ra_args.specs.JobCommand as command;
ghost use Rattle.ra_args.specs.JobCommand.{explain_app, option_rule, pair_app, player_app, required_rule, run_app, short_app};
ghost use Rattle.ra_args.specs.JobWords as spec;
ghost use Rattle.ra_args.specs.JobWords.{job_contents, job_of};
ghost use Rattle.ra_args.specs.Words as words;

use clap::error::ErrorKind;
use clap::{Arg, ArgAction, ArgMatches, Command, Error};
use ra_text::OutOfMemory;
use std::alloc::{AllocError, Global};

/// What the words after the program's name ask for.
#[derive(Clone, Copy, Debug, PartialEq, Eq)]
pub enum Job<'a> {
    /// To play a trace against a set, from a progress file and into one, where they are named.
    Run {
        set: &'a str,
        trace: &'a str,
        restore: Option<&'a str>,
        save: Option<&'a str>,
    },
    /// To count what a set has.
    Check {
        set: &'a str,
    },
    /// To make the workload of a number, and to play it.
    Make {
        number: u32,
    },
    /// To take a set from a document, and to put it.
    Import {
        file: &'a str,
        set: &'a str,
    },
    /// To warn of what the conditions of a set never or always do.
    Lint {
        set: &'a str,
    },
    /// To put the normal text of a set.
    Normal {
        set: &'a str,
        out: &'a str,
    },
    /// To tell why an achievement unlocks in a trace.
    Explain {
        set: &'a str,
        trace: &'a str,
        id: u32,
    },
}

/// Whether a word names a file.
pub(crate) fn is_name(word: &str) -> bool
    ensures { result ≡ words.is_name word.now }
{
    match word.as_bytes() {
        [] => false,
        [first, ..] => *first != b'-',
    }
}

/// The number of 32 bits of which a word is the decimal text.
pub(crate) fn number_of(word: &str) -> Option<u32>
    ensures { result ≡ spec.number_of word.now }
{
    let [first, more @ ..] = word.as_bytes() else {
        return None;
    };
    if *first == b'+' || (*first == b'0' && !more.is_empty()) {
        return None;
    }
    word.parse::<u32>().ok()
}

// Whether the words after the trace are options.
fn are_options(words: &[String]) -> bool
    ensures { result ≡ is_some (spec.options_of (map string_bytes words.now)) }
{
    match words {
        [] => true,
        [option, file] => {
            (option.as_str() == "--restore" || option.as_str() == "--save")
                && is_name(file.as_str())
        }
        [first, restore, second, save] => {
            first.as_str() == "--restore"
                && is_name(restore.as_str())
                && second.as_str() == "--save"
                && is_name(save.as_str())
        }
        _ => false,
    }
}

// Whether the words after `run` are a set, a trace, and options.
fn is_run(words: &[String]) -> bool
    ensures { result ≡ is_some (spec.run_of (map string_bytes words.now)) }
{
    match words {
        [set, trace, options @ ..] => {
            is_name(set.as_str()) && is_name(trace.as_str()) && are_options(options)
        }
        _ => false,
    }
}

// Whether the words after `check` are a set.
fn is_check(words: &[String]) -> bool
    ensures { result ≡ is_some (spec.check_of (map string_bytes words.now)) }
{
    match words {
        [set] => is_name(set.as_str()),
        _ => false,
    }
}

// Whether the words after `make` are a number.
fn is_make(words: &[String]) -> bool
    ensures { result ≡ is_some (spec.make_of (map string_bytes words.now)) }
{
    match words {
        [number] => number_of(number.as_str()).is_some(),
        _ => false,
    }
}

// Whether the words after `import` are a document and a set.
fn is_import(words: &[String]) -> bool
    ensures { result ≡ is_some (spec.import_of (map string_bytes words.now)) }
{
    match words {
        [file, set] => is_name(file.as_str()) && is_name(set.as_str()),
        _ => false,
    }
}

// Whether the words after `lint` are a set.
fn is_lint(words: &[String]) -> bool
    ensures { result ≡ is_some (spec.lint_of (map string_bytes words.now)) }
{
    match words {
        [set] => is_name(set.as_str()),
        _ => false,
    }
}

// Whether the words after `normal` are a set and a file to put.
fn is_normal(words: &[String]) -> bool
    ensures { result ≡ is_some (spec.normal_of (map string_bytes words.now)) }
{
    match words {
        [set, out] => is_name(set.as_str()) && is_name(out.as_str()),
        _ => false,
    }
}

// Whether the words after `explain` are a set, a trace and an id.
fn is_explain(words: &[String]) -> bool
    ensures { result ≡ is_some (spec.explain_of (map string_bytes words.now)) }
{
    match words {
        [set, trace, id] => {
            is_name(set.as_str()) && is_name(trace.as_str()) && number_of(id.as_str()).is_some()
        }
        _ => false,
    }
}

// Whether the words are a job, by their count and places.
fn is_job(words: &[String]) -> bool
    ensures { result ≡ is_some (job_of (map string_bytes words.now)) }
{
    let [name, behind @ ..] = words else {
        return false;
    };
    match name.as_str() {
        "run" => is_run(behind),
        "check" => is_check(behind),
        "make" => is_make(behind),
        "import" => is_import(behind),
        "lint" => is_lint(behind),
        "normal" => is_normal(behind),
        "explain" => is_explain(behind),
        _ => false,
    }
}

// A word that has to be there.
fn required<'a>(alloc: Global, id: &'a str) -> Arg<'a>
    ensures rule { rule_of result ≡ required_rule id.entry.now }
    ensures local { result.global ≡ false }
{
    Arg::new(alloc, id).required(true).action(ArgAction::Set)
}

// An option with one value.
fn optional<'a>(alloc: Global, id: &'a str) -> Arg<'a>
    ensures rule { rule_of result ≡ option_rule id.entry.now }
    ensures local { result.global ≡ false }
{
    Arg::new(alloc, id).long(id).action(ArgAction::Set)
}

// `run SET TRACE [--restore FILE] [--save FILE]`.
fn run_command<'a>(alloc: Global) -> Result<Command<'a>, AllocError>
    ensures app { IfOk result (λ c. app_of c ≡ run_app) }
    ensures local { IfOk result (λ c. (out-Command c).has_globals ≡ false) }
{
    Command::new(alloc, "run")
        .arg(required(alloc, "SET"))?
        .arg(required(alloc, "TRACE"))?
        .arg(optional(alloc, "restore"))?
        .arg(optional(alloc, "save"))
}

// A command with one word after its name.
fn short_command<'a>(alloc: Global, name: &'a str, id: &'a str) -> Result<Command<'a>, AllocError>
    ensures app { IfOk result (λ c. app_of c ≡ short_app name.entry.now id.entry.now) }
    ensures local { IfOk result (λ c. (out-Command c).has_globals ≡ false) }
{
    Command::new(alloc, name).arg(required(alloc, id))
}

// A command with two words after its name.
fn pair_command<'a>(
    alloc: Global,
    name: &'a str,
    first: &'a str,
    second: &'a str,
) -> Result<Command<'a>, AllocError>
    ensures app { IfOk result (λ c. app_of c ≡ pair_app name.entry.now first.entry.now second.entry.now) }
    ensures local { IfOk result (λ c. (out-Command c).has_globals ≡ false) }
{
    Command::new(alloc, name)
        .arg(required(alloc, first))?
        .arg(required(alloc, second))
}

// `explain SET TRACE ID`.
fn explain_command<'a>(alloc: Global) -> Result<Command<'a>, AllocError>
    ensures app { IfOk result (λ c. app_of c ≡ explain_app) }
    ensures local { IfOk result (λ c. (out-Command c).has_globals ≡ false) }
{
    Command::new(alloc, "explain")
        .arg(required(alloc, "SET"))?
        .arg(required(alloc, "TRACE"))?
        .arg(required(alloc, "ID"))
}

// A command with the job `run` more.
fn with_run<'a>(alloc: Global, command: Command<'a>) -> Result<Command<'a>, AllocError>
    ensures { IfOk result (λ c. app_of c ≡ with_subcommand (app_of command.entry) run_app.top) }
{
    match run_command(alloc) {
        Ok(run) => command.subcommand(run),
        Err(failed) => {
            drop(command);
            Err(failed)
        }
    }
}

// A command with a job of one word more.
fn with_short<'a>(
    alloc: Global,
    command: Command<'a>,
    name: &'a str,
    id: &'a str,
) -> Result<Command<'a>, AllocError>
    ensures { IfOk result (λ c. app_of c ≡ with_subcommand (app_of command.entry) (short_app name.entry.now id.entry.now).top) }
{
    match short_command(alloc, name, id) {
        Ok(short) => command.subcommand(short),
        Err(failed) => {
            drop(command);
            Err(failed)
        }
    }
}

// A command with a job of two words more.
fn with_pair<'a>(
    alloc: Global,
    command: Command<'a>,
    name: &'a str,
    first: &'a str,
    second: &'a str,
) -> Result<Command<'a>, AllocError>
    ensures { IfOk result (λ c. app_of c ≡ with_subcommand (app_of command.entry) (pair_app name.entry.now first.entry.now second.entry.now).top) }
{
    match pair_command(alloc, name, first, second) {
        Ok(pair) => command.subcommand(pair),
        Err(failed) => {
            drop(command);
            Err(failed)
        }
    }
}

// A command with the job `explain` more.
fn with_explain<'a>(alloc: Global, command: Command<'a>) -> Result<Command<'a>, AllocError>
    ensures { IfOk result (λ c. app_of c ≡ with_subcommand (app_of command.entry) explain_app.top) }
{
    match explain_command(alloc) {
        Ok(explain) => command.subcommand(explain),
        Err(failed) => {
            drop(command);
            Err(failed)
        }
    }
}

// The command with its jobs. The words begin with the name of a job.
fn player_command<'a>(alloc: Global) -> Result<Command<'a>, AllocError>
    ensures { IfOk result (λ c. app_of c ≡ player_app) }
{
    let bare = Command::new(alloc, "ra_player").no_binary_name(true);
    let run = with_run(alloc, bare)?;
    let check = with_short(alloc, run, "check", "SET")?;
    let make = with_short(alloc, check, "make", "N")?;
    let import = with_pair(alloc, make, "import", "FILE", "SET")?;
    let lint = with_short(alloc, import, "lint", "SET")?;
    let normal = with_pair(alloc, lint, "normal", "SET", "OUT")?;
    with_explain(alloc, normal)
}

// What clap reads of the words.
fn matches_of<'a>(alloc: Global, words: &'a [String]) -> Result<ArgMatches<'a>, Error>
    ensures found { IfOk result (λ m. subcommand_rows_of m ≡ subcommand_of player_app (map string_bytes words.entry.now)) }
    ensures passes { IfErr result (λ e. takes player_app (map string_bytes words.entry.now) ≡ true → kind_of e ≡ ErrorKind.OutOfMemory) }
{
    let player = player_command(alloc)?;
    player.try_get_matches_from(words)
}

// The value that was given for an id.
#[tactic(auto, using(crate::proofs::CommandLemmas::value_in_rows))]
fn value_of<'a>(given: &ArgMatches<'a>, id: &str) -> Option<&'a str>
    ensures { option_map (λ value. value.now) result ≡ first_of id.now (rows_of (found_of given.now)) }
{
    given.get_str(id)
}

// The run of the values that were given.
fn run_given<'a>(given: &ArgMatches<'a>) -> Option<Job<'a>>
    ensures { option_map job_contents result ≡ command.run_given (rows_of (found_of given.now)) }
{
    let set = value_of(given, "SET")?;
    let trace = value_of(given, "TRACE")?;
    let restore = value_of(given, "restore");
    let save = value_of(given, "save");
    Some(Job::Run {
        set,
        trace,
        restore,
        save,
    })
}

// The check of the value that was given.
fn check_given<'a>(given: &ArgMatches<'a>) -> Option<Job<'a>>
    ensures { option_map job_contents result ≡ command.check_given (rows_of (found_of given.now)) }
{
    let set = value_of(given, "SET")?;
    Some(Job::Check { set })
}

// The workload of the value that was given.
fn make_given<'a>(given: &ArgMatches<'a>) -> Option<Job<'a>>
    ensures { option_map job_contents result ≡ command.make_given (rows_of (found_of given.now)) }
{
    let word = value_of(given, "N")?;
    let number = number_of(word)?;
    Some(Job::Make { number })
}

// The import of the values that were given.
fn import_given<'a>(given: &ArgMatches<'a>) -> Option<Job<'a>>
    ensures { option_map job_contents result ≡ command.import_given (rows_of (found_of given.now)) }
{
    let file = value_of(given, "FILE")?;
    let set = value_of(given, "SET")?;
    Some(Job::Import { file, set })
}

// The warnings on the value that was given.
fn lint_given<'a>(given: &ArgMatches<'a>) -> Option<Job<'a>>
    ensures { option_map job_contents result ≡ command.lint_given (rows_of (found_of given.now)) }
{
    let set = value_of(given, "SET")?;
    Some(Job::Lint { set })
}

// The normal text of the values that were given.
fn normal_given<'a>(given: &ArgMatches<'a>) -> Option<Job<'a>>
    ensures { option_map job_contents result ≡ command.normal_given (rows_of (found_of given.now)) }
{
    let set = value_of(given, "SET")?;
    let out = value_of(given, "OUT")?;
    Some(Job::Normal { set, out })
}

// The explanation of the values that were given.
fn explain_given<'a>(given: &ArgMatches<'a>) -> Option<Job<'a>>
    ensures { option_map job_contents result ≡ command.explain_given (rows_of (found_of given.now)) }
{
    let set = value_of(given, "SET")?;
    let trace = value_of(given, "TRACE")?;
    let word = value_of(given, "ID")?;
    let id = number_of(word)?;
    Some(Job::Explain { set, trace, id })
}

// The job of a name, with the values that were given.
fn job_given<'a>(name: &str, given: &ArgMatches<'a>) -> Option<Job<'a>>
    ensures { option_map job_contents result ≡ command.job_given name.now (rows_of (found_of given.now)) }
{
    match name {
        "run" => run_given(given),
        "check" => check_given(given),
        "make" => make_given(given),
        "import" => import_given(given),
        "lint" => lint_given(given),
        "normal" => normal_given(given),
        "explain" => explain_given(given),
        _ => None,
    }
}

// The job that clap read.
fn job_read<'a>(matches: &ArgMatches<'a>) -> Option<Job<'a>>
    ensures { option_map job_contents result ≡ option_and_then (λ found. command.job_given found.0 found.1) (subcommand_rows_of matches.now) }
{
    let (name, given) = matches.subcommand()?;
    job_given(name, given)
}

/// The job that the words ask for: docs/DEFINITIONS.md, "Jobs".
///
/// None where they are no job, and `OutOfMemory` where there is no memory to read them.
pub fn read_job<'a>(alloc: Global, words: &'a [String]) -> Result<Option<Job<'a>>, OutOfMemory>
    ensures { IfOk result (λ job. option_map job_contents job ≡ job_of (map string_bytes words.now)) }
{
    if !is_job(words) {
        return Ok(None);
    }
    match matches_of(alloc, words) {
        Ok(matches) => Ok(job_read(&matches)),
        Err(error) if error.kind() == ErrorKind::OutOfMemory => Err(OutOfMemory),
        Err(_) => unreachable!(),
    }
}
