//! The job that the words of the program for authors name: docs/DEFINITIONS.md, "Jobs for authors".

ghost use Rattle.std.specs.Prelude.{◌≡◌, map, option_map, string_bytes};
ghost use Rattle.ra_args.specs.AuthorWords as spec;
ghost use Rattle.ra_args.specs.AuthorWords.{author_contents, author_job_of};

use crate::job_words::{is_name, number_of};

/// What the words after the name of the program for authors ask for.
#[derive(Clone, Copy, Debug, PartialEq, Eq)]
pub enum AuthorJob<'a> {
    /// To show what is refused of a set, and what looks like a slip.
    Review {
        set: &'a str,
    },
    /// To tell why an achievement did or did not unlock over a trace.
    Why {
        set: &'a str,
        trace: &'a str,
        id: u32,
    },
    /// To put the set that is left of a document, and to name what is left out.
    Import {
        file: &'a str,
        set: &'a str,
    },
    /// To print the help text.
    Help,
    /// To print the version.
    Version,
}

// Whether a word asks for the help text.
fn is_help(word: &str) -> bool
    ensures { result ≡ spec.is_help word.now }
{
    matches!(word, "help" | "--help" | "-h")
}

// Whether a word asks for the version.
fn is_version(word: &str) -> bool
    ensures { result ≡ spec.is_version word.now }
{
    matches!(word, "version" | "--version")
}

// The job of a word that stands alone.
fn lone_job<'a>(word: &str) -> Option<AuthorJob<'a>>
    ensures { option_map author_contents result ≡ spec.lone_job word.now }
{
    if is_help(word) {
        return Some(AuthorJob::Help);
    }
    if is_version(word) {
        return Some(AuthorJob::Version);
    }
    None
}

// The job of a word and a file.
fn job_of_one<'a>(name: &str, set: &'a str) -> Option<AuthorJob<'a>>
    ensures { option_map author_contents result ≡ spec.job_of_one name.now set.now }
{
    if name == "review" && is_name(set) {
        return Some(AuthorJob::Review { set });
    }
    None
}

// The job of a word and two files.
fn job_of_two<'a>(name: &str, file: &'a str, set: &'a str) -> Option<AuthorJob<'a>>
    ensures { option_map author_contents result ≡ spec.job_of_two name.now file.now set.now }
{
    if name == "import" && is_name(file) && is_name(set) {
        return Some(AuthorJob::Import { file, set });
    }
    None
}

// The job of a word, two files and a number.
fn job_of_three<'a>(name: &str, set: &'a str, trace: &'a str, id: &str) -> Option<AuthorJob<'a>>
    ensures { option_map author_contents result ≡ spec.job_of_three name.now set.now trace.now id.now }
{
    if name == "why" && is_name(set) && is_name(trace) {
        return match number_of(id) {
            Some(id) => Some(AuthorJob::Why { set, trace, id }),
            None => None,
        };
    }
    None
}

/// The job that the words ask for: docs/DEFINITIONS.md, "Jobs for authors".
///
/// None where they are no job.
pub fn read_author_job<'a>(words: &'a [String]) -> Option<AuthorJob<'a>>
    ensures { option_map author_contents result ≡ author_job_of (map string_bytes words.now) }
{
    match words {
        [] => Some(AuthorJob::Help),
        [word] => lone_job(word.as_str()),
        [name, set] => job_of_one(name.as_str(), set.as_str()),
        [name, file, set] => job_of_two(name.as_str(), file.as_str(), set.as_str()),
        [name, set, trace, id] => {
            job_of_three(name.as_str(), set.as_str(), trace.as_str(), id.as_str())
        }
        _ => None,
    }
}
