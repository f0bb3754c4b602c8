//! What the words of a command line ask for: a task, with its arguments.

ghost use Rattle.std.specs.Prelude.{◌≡◌, map, IfOk, codes};
ghost use Rattle.clap.specs.Words.{FailsBy, fault_of, found_of, rows_of as rows_found, subcommand_of, subcommand_rows_of};
ghost use Rattle.lab_program_app.specs.Apps.{labdesk_app, last_port, most_connections};
ghost use Rattle.lab_program_words.specs.Tasks.{IsGiven, IsGivenIn, ReadsMoment, ReadsNumber, ReadsText, copying, errand_called, errand_named, errand_of, founding, migrating, rehearsing, serving};

use crate::apps::labdesk_command;
use clap::{ArgMatches, Error};
use std::alloc::Global;
use std::convert::AsStr;

/// What the words of a command line ask for.
#[derive(Clone, Copy, Debug, PartialEq, Eq)]
pub enum Task<'a> {
    /// Found a laboratory in a file, from the body on standard input.
    Found {
        /// The path of the file.
        file: &'a str,
        /// The text that is to be the laboratory's code.
        lab: &'a str,
    },
    /// Serve the laboratories of a file.
    Serve {
        /// The path of the file.
        file: &'a str,
        /// The port; 0 stands for any free port.
        port: u16,
        /// How many connections are served.
        count: u32,
    },
    /// Write the inspection copy of a laboratory of a file.
    Copy {
        /// The path of the file.
        file: &'a str,
        /// The text that is to be the laboratory's code.
        lab: &'a str,
        /// The number of the first record.
        from: u32,
        /// The number of the last record.
        to: u32,
    },
    /// Move the laboratories of an old file into a new one.
    Migrate {
        /// The path of the old file.
        old: &'a str,
        /// The path of the new file.
        new: &'a str,
    },
    /// Check the inspection copy on standard input.
    Check,
    /// Run the events on standard input.
    Replay,
    /// Found a laboratory from the body on standard input, and ask for its card over a socket.
    Rehearse {
        /// The text that is to be its code.
        lab: &'a str,
        /// The seconds of the moment at which the card is asked for.
        seconds: i64,
    },
}

// ---- values: clap has already refused words without a required value, or with a number that is
// malformed or out of its range, so the defaults here (an empty text, 0, no moment) are never used

// A text.
fn text_given<'a>(given: &ArgMatches<'a>, name: &str) -> &'a str
    ensures { ReadsText name.now (rows_found (found_of given.now)) result.now }
{
    given.get_str(name).unwrap_or("")
}

// A number.
fn number_given<'a>(given: &ArgMatches<'a>, name: &str) -> u32
    ensures { ReadsNumber most_connections name.now (rows_found (found_of given.now)) result }
{
    given.get_one(name).unwrap_or(0)
}

// The port.
fn port_given<'a>(given: &ArgMatches<'a>) -> u16
    ensures { ReadsNumber last_port (codes "port") (rows_found (found_of given.now)) result }
{
    given.get_one("port").unwrap_or(0)
}

// The seconds of the moment.
fn seconds_given<'a>(given: &ArgMatches<'a>) -> i64
    ensures { ReadsMoment (codes "moment") (rows_found (found_of given.now)) result }
{
    given.get_one("moment").unwrap_or(-1)
}

// ---- which task

// The founding that the words ask for.
fn founding<'a>(given: &ArgMatches<'a>) -> Task<'a>
    ensures errand { errand_of result ≡ founding }
    ensures given { IsGiven (rows_found (found_of given.now)) result }
{
    Task::Found {
        file: text_given(given, "file"),
        lab: text_given(given, "lab"),
    }
}

// The server that the words ask for.
fn serving<'a>(given: &ArgMatches<'a>) -> Task<'a>
    ensures errand { errand_of result ≡ serving }
    ensures given { IsGiven (rows_found (found_of given.now)) result }
{
    Task::Serve {
        file: text_given(given, "file"),
        port: port_given(given),
        count: number_given(given, "count"),
    }
}

// The copy that the words ask for.
fn copying<'a>(given: &ArgMatches<'a>) -> Task<'a>
    ensures errand { errand_of result ≡ copying }
    ensures given { IsGiven (rows_found (found_of given.now)) result }
{
    Task::Copy {
        file: text_given(given, "file"),
        lab: text_given(given, "lab"),
        from: number_given(given, "from"),
        to: number_given(given, "to"),
    }
}

// The move that the words ask for.
fn migrating<'a>(given: &ArgMatches<'a>) -> Task<'a>
    ensures errand { errand_of result ≡ migrating }
    ensures given { IsGiven (rows_found (found_of given.now)) result }
{
    Task::Migrate {
        old: text_given(given, "old"),
        new: text_given(given, "new"),
    }
}

// The rehearsal that the words ask for.
fn rehearsing<'a>(given: &ArgMatches<'a>) -> Task<'a>
    ensures errand { errand_of result ≡ rehearsing }
    ensures given { IsGiven (rows_found (found_of given.now)) result }
{
    Task::Rehearse {
        lab: text_given(given, "lab"),
        seconds: seconds_given(given),
    }
}

// The task of a subcommand and its arguments.
fn task_named<'a>(name: &str, given: &ArgMatches<'a>) -> Task<'a>
    ensures errand { errand_of result ≡ errand_called name.now }
    ensures given { IsGiven (rows_found (found_of given.now)) result }
{
    if name == "found" {
        return founding(given);
    }
    if name == "serve" {
        return serving(given);
    }
    if name == "copy" {
        return copying(given);
    }
    if name == "migrate" {
        return migrating(given);
    }
    if name == "check" {
        return Task::Check;
    }
    if name == "rehearse" {
        return rehearsing(given);
    }
    Task::Replay
}

// The task that the words ask for.
fn task_among<'a>(matches: &ArgMatches<'a>) -> Task<'a>
    ensures errand { errand_of result ≡ errand_named (subcommand_rows_of matches.now) }
    ensures given { IsGivenIn (subcommand_rows_of matches.now) result }
{
    match matches.subcommand() {
        Some((name, given)) => task_named(name, given),
        None => Task::Replay,
    }
}

/// Returns the task that the words name. The first word is the program's own name.
///
/// # Errors
/// The words name no task, or ask for help or the version, or memory ran out.
pub fn task_of<'a, S: AsStr>(alloc: Global, words: &'a [S]) -> Result<Task<'a>, Error>
    ensures fault { FailsBy (fault_of labdesk_app (map S.text words.entry.now)) result }
    ensures errand { IfOk result (λ task.
        errand_of task ≡ errand_named (subcommand_of labdesk_app (map S.text words.entry.now))) }
    ensures given { IfOk result (λ task.
        IsGivenIn (subcommand_of labdesk_app (map S.text words.entry.now)) task) }
{
    let command = labdesk_command(alloc)?;
    let matches = command.try_get_matches_from(words)?;
    Ok(task_among(&matches))
}
