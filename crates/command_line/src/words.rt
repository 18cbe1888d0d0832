// Reads the words of a command.

ghost use Rattle.std.specs.Prelude.{◌≡◌, ◌≢◌, ◌≤◌, IfOk, IfSome, IsErrOf, option_map};
ghost use Rattle.clap.specs.Words.{first_of, found_of, kind_of, rows_of};
ghost use Rattle.module_ast.specs.Validation.Limits.{longest_file};
ghost use Rattle.command_line.specs.Lines.{AsksForNothing, IsLine, line_by, line_of, number_in, texts};

use crate::command::{MOST_JOBS, wasabi};
use clap::error::ErrorKind;
use clap::{ArgMatches, Error};
use module_ast::module::LONGEST_FILE;
use std::alloc::{AllocError, Global};

/// What the words of a command ask for.
#[derive(Clone, Copy)]
pub struct Line<'w> {
    /// The first word after the program's name that belongs to no option.
    pub mode: &'w str,
    /// The second such word.
    pub subject: &'w str,
    /// `--out`: the name that the output gets.
    pub out: Option<&'w str>,
    /// `--info`: the name of the information.
    pub info: Option<&'w str>,
    /// `--script`: the name of the script.
    pub script: Option<&'w str>,
    /// `--sources`: a list of names of imports, separated by commas.
    pub sources: Option<&'w str>,
    /// `--sinks`: a list of names of imports, separated by commas.
    pub sinks: Option<&'w str>,
    /// `--functions`: a list of the functions that get hooks, separated by commas.
    pub functions: Option<&'w str>,
    /// `--except`: a list of functions that get none, separated by commas.
    pub except: Option<&'w str>,
    /// `--hooks`: a list of groups; `all` if the option is not given.
    pub hooks: &'w str,
    /// `--reports`: a list of kinds of reports; `all` if the option is not given.
    pub reports: &'w str,
    /// `--names`: what becomes of names; `drop` if the option is not given.
    pub names: &'w str,
    /// `--jobs`: how many threads may work, 1 to 64; 1 if the option is not given.
    pub jobs: u32,
    /// `--max-output`: how many bytes the output may have, 1 to 268,435,456; 268,435,456 if the option is not given.
    pub max_output: u64,
}

/// Why no line is read from words.
#[derive(Clone, Copy, Debug, PartialEq, Eq)]
pub enum LineFault {
    /// The words are not accepted. A request for help is refused too.
    Refused,
    /// Memory ran out.
    NoMemory,
}

impl From<AllocError> for LineFault {
    ghost use Rattle.command_line.specs.declared.words.LineFault.{LineFault};

    ghost from_gives = { λ error fault. fault ≡ LineFault.NoMemory };

    fn from(_error: AllocError) -> LineFault {
        LineFault::NoMemory
    }
}

/// Reads the words of a command. The first word is the name of the program.
///
/// `Refused` exactly if the words ask for nothing; `NoMemory` if memory runs out.
pub fn read_line(alloc: Global, words: &[String]) -> Result<Line<'_>, LineFault>
    ensures line { IfOk result (λ line. IsLine (texts words.now) (line_of line)) }
    ensures jobs { IfOk result (λ line. (1 ≤ line.jobs) × (line.jobs ≤ 64)) }
    ensures bound { IfOk result (λ line. (1 ≤ line.max_output) × (line.max_output ≤ longest_file)) }
    ensures refused { IsErrOf result LineFault.Refused → AsksForNothing (texts words.now) }
{
    let found = match wasabi(alloc)?.try_get_matches_from(words) {
        Ok(found) => found,
        Err(error) => return Err(fault_of(&error)),
    };
    line_in(&found).ok_or(LineFault::Refused)
}

// What an error of the parser says: that memory ran out, or that the words are refused.
fn fault_of(error: &Error) -> LineFault
    ensures { result ≡ LineFault.Refused → kind_of error.now ≢ ErrorKind.OutOfMemory }
{
    if error.kind() == ErrorKind::OutOfMemory {
        LineFault::NoMemory
    } else {
        LineFault::Refused
    }
}

// The line of what the parser found; `None` if a text is missing or a number is not in its range.
fn line_in<'w>(found: &ArgMatches<'w>) -> Option<Line<'w>>
    ensures line { option_map line_of result ≡ line_by (λ id. first_of id (rows_of (found_of found.now))) }
    ensures jobs { IfSome result (λ line. (1 ≤ line.jobs) × (line.jobs ≤ 64)) }
    ensures bound { IfSome result (λ line. (1 ≤ line.max_output) × (line.max_output ≤ longest_file)) }
{
    Some(Line {
        mode: text_in(found, "mode")?,
        subject: text_in(found, "subject")?,
        hooks: text_in(found, "hooks")?,
        reports: text_in(found, "reports")?,
        names: text_in(found, "names")?,
        jobs: number_in(found, "jobs", MOST_JOBS)? as u32,
        max_output: number_in(found, "max-output", LONGEST_FILE)?,
        out: text_in(found, "out"),
        info: text_in(found, "info"),
        script: text_in(found, "script"),
        sources: text_in(found, "sources"),
        sinks: text_in(found, "sinks"),
        functions: text_in(found, "functions"),
        except: text_in(found, "except"),
    })
}

// The text that the parser found under an id, if there is one.
fn text_in<'w>(found: &ArgMatches<'w>, id: &str) -> Option<&'w str>
    ensures { option_map (λ text. text.now) result ≡ first_of id.now (rows_of (found_of found.now)) }
{
    found.get_str(id)
}

// The number that the parser found under an id, if it is from 1 to `most`. The parser accepts no other.
fn number_in(found: &ArgMatches<'_>, id: &str, most: u64) -> Option<u64>
    ensures number { result ≡ number_in most (first_of id.now (rows_of (found_of found.now))) }
    ensures range { IfSome result (λ number. (1 ≤ number) × (number ≤ most)) }
{
    match text_in(found, id)?.parse::<u64>() {
        Ok(number) if 1 <= number && number <= most => Some(number),
        _ => None,
    }
}
