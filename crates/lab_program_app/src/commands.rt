//! Each command of `labdesk` with its arguments, as it is declared to `clap`, and its help.

ghost use Rattle.std.specs.Prelude.{◌≡◌, IfOk, false};
ghost use Rattle.clap.specs.Words.{app_of, new_app, rule_of, with_rule};
ghost use Rattle.lab_program_app.specs.Apps.{check_app, copy_app, count_rule, file_rule, found_app, lab_rule, migrate_app, moment_rule, named_rule, number_rule, port_rule, rehearse_app, replay_app, serve_app, wanted_rule, with_file_and_lab, with_old_and_new, with_port_and_count, with_range};

use clap::{Arg, Command, value_parser};
use lab_forms_texts::{LAST_ORDINAL, LAST_SECOND};
use std::alloc::{AllocError, Global};

/// The help of `found`.
const FOUNDING: &str =
    "It founds a laboratory in the file, at the moment of the clock, and prints `founded` and its
code. It makes the file if there is none; if the founding is refused, the new file stays. The input
is a JSON object: the laboratory's `name`, and three `founders`, each with `code`, `name` and
`password`. docs/FORMATS.md describes it. An example:

    labdesk found --file laboratories --lab aqua < examples/founding.json";

/// The help of `serve`.
const SERVING: &str =
    "It prints `listening` and its address once clients can connect. It serves K connections, one at
a time, and then it ends. docs/HTTP.md describes requests and replies. An example:

    labdesk serve --file laboratories --port 8080";

/// The help of `copy`.
const COPYING: &str =
    "It writes the inspection copy of the laboratory's records from A to B to standard output.
docs/COPIES.md describes a copy. An example:

    labdesk copy --file laboratories --lab aqua --from 1 --to 100 > copy.csv";

/// The help of `migrate`.
const MIGRATING: &str =
    "It moves every laboratory of an old file, which has schema 2, into a new file, and prints
`migrated` and the number of laboratories. Versions keep their texts, digests and signatures. It
reads the old file with its log, and leaves the old file as it is, byte for byte. It makes the new
file; a file that is already there must be empty. If the move fails, delete the new file before
you try again. docs/FORMATS.md describes the move. An example:

    labdesk migrate --old laboratories --new laboratories-3";

/// The help of `check`.
const CHECKING: &str =
    "It prints `good` and the numbers of records, versions, entries and signatures in the copy, or
`bad`, the first flaw and its row. The input is CSV, as `labdesk copy` writes it. docs/COPIES.md
describes it. An example:

    labdesk check < copy.csv";

/// The help of `replay`, about its input.
const REPLAYING: &str =
    "An event is a line, followed by as many bytes as the last number of the line says:

    found <lab> <seconds> <word> <length>
    call <seconds> <word> <length>

docs/FORMATS.md describes the input. An example:

    labdesk replay < examples/two-laboratories.events";

/// The help of `rehearse`.
const REHEARSING: &str =
    "It founds the laboratory in memory, at moment 0. Then it asks for the laboratory's card over a
socket of this machine, at moment S, and prints the reply. The input is a JSON object, like that of
`labdesk found`. docs/FORMATS.md describes it. An example:

    labdesk rehearse --lab aqua --moment 100 < examples/founding.json";

/// The greatest number of connections that are served.
const MOST_CONNECTIONS: u32 = 1_000_000_000;

/// The same number, as `clap` takes it.
const LAST_CONNECTION: i64 = MOST_CONNECTIONS as i64;

/// The last moment, as `clap` takes it.
const LAST_MOMENT: i64 = LAST_SECOND as i64;

/// The greatest number of a record, as `clap` takes it.
const LAST_RECORD: i64 = LAST_ORDINAL as i64;

// ---- arguments

// An argument named after `--`, and the name of its value in the help.
fn named_argument<'a>(alloc: Global, name: &'a str, value: &'a str, help: &'a str) -> Arg<'a>
    ensures rule { rule_of result ≡ named_rule name.entry.now }
    ensures local { result.global ≡ false }
{
    Arg::new(alloc, name)
        .long(name)
        .value_name(value)
        .help(help)
}

// An argument that is required.
fn wanted_argument<'a>(alloc: Global, name: &'a str, value: &'a str, help: &'a str) -> Arg<'a>
    ensures rule { rule_of result ≡ wanted_rule name.entry.now }
    ensures local { result.global ≡ false }
{
    named_argument(alloc, name, value, help).required(true)
}

// A file of laboratories.
fn file_argument<'a>(alloc: Global) -> Arg<'a>
    ensures rule { rule_of result ≡ file_rule }
    ensures local { result.global ≡ false }
{
    wanted_argument(alloc, "file", "F", "Path of the file of laboratories")
}

// A laboratory.
fn lab_argument<'a>(alloc: Global) -> Arg<'a>
    ensures rule { rule_of result ≡ lab_rule }
    ensures local { result.global ≡ false }
{
    wanted_argument(alloc, "lab", "L", "Code of the laboratory")
}

// The moment of a rehearsal.
fn moment_argument<'a>(alloc: Global) -> Arg<'a>
    ensures rule { rule_of result ≡ moment_rule }
    ensures local { result.global ≡ false }
{
    let help = "Seconds since 1970-01-01T00:00:00Z";
    wanted_argument(alloc, "moment", "S", help).value_parser(value_parser!(i64).range(
        0..=LAST_MOMENT,
    ))
}

// The port of a server.
fn port_argument<'a>(alloc: Global) -> Arg<'a>
    ensures rule { rule_of result ≡ port_rule }
    ensures local { result.global ≡ false }
{
    let help = "Port of this machine; 0 means any free port";
    wanted_argument(alloc, "port", "P", help).value_parser(value_parser!(u16))
}

// How many connections a server serves.
fn count_argument<'a>(alloc: Global) -> Arg<'a>
    ensures rule { rule_of result ≡ count_rule }
    ensures local { result.global ≡ false }
{
    named_argument(alloc, "count", "K", "Number of connections to serve")
        .default_value("1000000")
        .value_parser(value_parser!(u32).range(1..=LAST_CONNECTION))
}

// The number of a record.
fn number_argument<'a>(alloc: Global, name: &'a str, value: &'a str, help: &'a str) -> Arg<'a>
    ensures rule { rule_of result ≡ number_rule name.entry.now }
    ensures local { result.global ≡ false }
{
    wanted_argument(alloc, name, value, help).value_parser(value_parser!(u32).range(
        1..=LAST_RECORD,
    ))
}

// ---- commands

// A command that has only its help yet.
fn command<'a>(alloc: Global, name: &'a str, about: &'a str, more: &'a str) -> Command<'a>
    ensures { app_of result ≡ new_app name.entry.now }
{
    Command::new(alloc, name).about(about).after_help(more)
}

// A command whose input is standard input, as the usage line shows.
fn reading_command<'a>(
    alloc: Global,
    name: &'a str,
    about: &'a str,
    more: &'a str,
    usage: &'a str,
) -> Command<'a>
    ensures { app_of result ≡ new_app name.entry.now }
{
    command(alloc, name, about, more).override_usage(usage)
}

// A command with one more argument, which is its own.
fn with<'a>(bare: Command<'a>, argument: Arg<'a>) -> Result<Command<'a>, AllocError>
    requires { argument.global ≡ false }
    ensures { IfOk result
        (λ more. app_of more ≡ with_rule (app_of bare.entry) (rule_of argument.entry)) }
{
    bare.arg(argument)
}

// A command with a file, and a laboratory in it.
fn with_file_and_lab<'a>(alloc: Global, bare: Command<'a>) -> Result<Command<'a>, AllocError>
    ensures { IfOk result (λ more. app_of more ≡ with_file_and_lab (app_of bare.entry)) }
{
    let first = with(bare, file_argument(alloc))?;
    with(first, lab_argument(alloc))
}

// A command with a port, and the number of connections that are served there.
fn with_port_and_count<'a>(alloc: Global, bare: Command<'a>) -> Result<Command<'a>, AllocError>
    ensures { IfOk result (λ more. app_of more ≡ with_port_and_count (app_of bare.entry)) }
{
    let first = with(bare, port_argument(alloc))?;
    with(first, count_argument(alloc))
}

// A command with the first and the last number of records.
fn with_range<'a>(alloc: Global, bare: Command<'a>) -> Result<Command<'a>, AllocError>
    ensures { IfOk result (λ more. app_of more ≡ with_range (app_of bare.entry)) }
{
    let from = number_argument(alloc, "from", "A", "Number of the first record, 1 or more");
    let first = with(bare, from)?;
    let help = "Number of the last record, up to 1000000000";
    with(first, number_argument(alloc, "to", "B", help))
}

// A command with an old file, and a new one.
fn with_old_and_new<'a>(alloc: Global, bare: Command<'a>) -> Result<Command<'a>, AllocError>
    ensures { IfOk result (λ more. app_of more ≡ with_old_and_new (app_of bare.entry)) }
{
    let old = wanted_argument(alloc, "old", "F", "Path of the old file");
    let first = with(bare, old)?;
    with(
        first,
        wanted_argument(alloc, "new", "G", "Path of the new file"),
    )
}

/// Returns the command `found`, which founds a laboratory in a file.
///
/// # Errors
/// Memory ran out.
pub fn found_command<'a>(alloc: Global) -> Result<Command<'a>, AllocError>
    ensures { IfOk result (λ command. app_of command ≡ found_app) }
{
    let about = "Found a laboratory in a file, as standard input describes it";
    let usage = "labdesk found --file <F> --lab <L> < FOUNDING";
    let bare = reading_command(alloc, "found", about, FOUNDING, usage);
    with_file_and_lab(alloc, bare)
}

/// Returns the command `serve`, which serves a file at a port, for a number of connections.
///
/// # Errors
/// Memory ran out.
pub fn serve_command<'a>(alloc: Global) -> Result<Command<'a>, AllocError>
    ensures { IfOk result (λ command. app_of command ≡ serve_app) }
{
    let about = "Serve the laboratories of a file on a port of this machine";
    let bare = command(alloc, "serve", about, SERVING);
    let first = with(bare, file_argument(alloc))?;
    with_port_and_count(alloc, first)
}

/// Returns the command `copy`, which copies the records of a file's laboratory in a range of
/// numbers.
///
/// # Errors
/// Memory ran out.
pub fn copy_command<'a>(alloc: Global) -> Result<Command<'a>, AllocError>
    ensures { IfOk result (λ command. app_of command ≡ copy_app) }
{
    let about = "Write the inspection copy of a laboratory's records to standard output";
    let bare = command(alloc, "copy", about, COPYING);
    let first = with_file_and_lab(alloc, bare)?;
    with_range(alloc, first)
}

/// Returns the command `migrate`, which moves the laboratories of an old file into a new one.
///
/// # Errors
/// Memory ran out.
pub fn migrate_command<'a>(alloc: Global) -> Result<Command<'a>, AllocError>
    ensures { IfOk result (λ command. app_of command ≡ migrate_app) }
{
    let about = "Move the laboratories of a file of schema 2 into a new file";
    let bare = command(alloc, "migrate", about, MIGRATING);
    with_old_and_new(alloc, bare)
}

/// Returns the command `rehearse`, which rehearses a laboratory at a moment.
///
/// # Errors
/// Memory ran out.
pub fn rehearse_command<'a>(alloc: Global) -> Result<Command<'a>, AllocError>
    ensures { IfOk result (λ command. app_of command ≡ rehearse_app) }
{
    let about = "Found a laboratory in memory, as standard input describes it, and print its card";
    let usage = "labdesk rehearse --lab <L> --moment <S> < FOUNDING";
    let bare = reading_command(alloc, "rehearse", about, REHEARSING, usage);
    let first = with(bare, lab_argument(alloc))?;
    with(first, moment_argument(alloc))
}

/// Returns the command `check`.
pub fn check_command<'a>(alloc: Global) -> Command<'a>
    ensures { app_of result ≡ check_app }
{
    let about = "Check the inspection copy on standard input, and print the result";
    let usage = "labdesk check < COPY";
    reading_command(alloc, "check", about, CHECKING, usage)
}

/// Returns the command `replay`.
pub fn replay_command<'a>(alloc: Global) -> Command<'a>
    ensures { app_of result ≡ replay_app }
{
    let about = "Run the events on standard input, and write their answers to standard output";
    let usage = "labdesk replay < EVENTS";
    reading_command(alloc, "replay", about, REPLAYING, usage)
}
