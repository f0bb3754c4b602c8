//! All commands of `labdesk`, as they are declared to `clap`, its version, and its help.

ghost use Rattle.std.specs.Prelude.{◌≡◌, IfOk, true};
ghost use Rattle.clap.specs.Words.{app_of, with_subcommand};
ghost use Rattle.lab_program_app.specs.Apps.{bare_app, copy_app, found_app, labdesk_app, migrate_app, rehearse_app, serve_app, told_app, with_files, with_plain, with_streams};

use clap::Command;
use lab_program_app::{
    check_command, copy_command, found_command, migrate_command, rehearse_command, replay_command,
    serve_command,
};
use std::alloc::{AllocError, Global};

/// The version of the program, and the kit that its source is for, as `rt version` names it.
const VERSION: &str = "0.6.0\nfor rattle-kit-13f logic dac8208d650f15bf";

/// The help of all commands together.
const COMMANDS: &str = "docs/FORMATS.md describes what each command reads and prints. An example:

    labdesk found --file laboratories --lab aqua < examples/founding.json
    labdesk serve --file laboratories --port 8080";

// A command with the texts of help and `--version`, which requires a subcommand.
fn explained_command<'a>(command: Command<'a>) -> Command<'a>
    ensures { app_of result ≡ told_app (app_of command.entry) }
{
    command
        .version(VERSION)
        .about("Signed laboratory records")
        .after_help(COMMANDS)
        .subcommand_required(true)
}

// `labdesk` by itself.
fn bare_command<'a>(alloc: Global) -> Result<Command<'a>, AllocError>
    ensures { IfOk result (λ command. app_of command ≡ bare_app) }
{
    let named = Command::new(alloc, "labdesk").bin_name("labdesk")?;
    Ok(explained_command(named))
}

// A command with one more subcommand, whose arguments are its own.
fn with<'a>(bare: Command<'a>, subcommand: Command<'a>) -> Result<Command<'a>, AllocError>
    requires { (app_of subcommand).top.is_plain ≡ true }
    ensures { IfOk result
        (λ more. app_of more ≡ with_subcommand (app_of bare.entry) (app_of subcommand.entry).top) }
{
    bare.subcommand(subcommand)
}

// A command with `found`.
fn with_found<'a>(alloc: Global, bare: Command<'a>) -> Result<Command<'a>, AllocError>
    ensures { IfOk result (λ more.
        app_of more ≡ with_subcommand (app_of bare.entry) found_app.top) }
{
    let found = found_command(alloc)?;
    with(bare, found)
}

// A command with `serve`.
fn with_serve<'a>(alloc: Global, bare: Command<'a>) -> Result<Command<'a>, AllocError>
    ensures { IfOk result (λ more.
        app_of more ≡ with_subcommand (app_of bare.entry) serve_app.top) }
{
    let serve = serve_command(alloc)?;
    with(bare, serve)
}

// A command with `copy`.
fn with_copy<'a>(alloc: Global, bare: Command<'a>) -> Result<Command<'a>, AllocError>
    ensures { IfOk result (λ more. app_of more ≡ with_subcommand (app_of bare.entry) copy_app.top) }
{
    let copy = copy_command(alloc)?;
    with(bare, copy)
}

// A command with `migrate`.
fn with_migrate<'a>(alloc: Global, bare: Command<'a>) -> Result<Command<'a>, AllocError>
    ensures { IfOk result
        (λ more. app_of more ≡ with_subcommand (app_of bare.entry) migrate_app.top) }
{
    let migrate = migrate_command(alloc)?;
    with(bare, migrate)
}

// A command with `rehearse`.
fn with_rehearse<'a>(alloc: Global, bare: Command<'a>) -> Result<Command<'a>, AllocError>
    ensures { IfOk result
        (λ more. app_of more ≡ with_subcommand (app_of bare.entry) rehearse_app.top) }
{
    let rehearse = rehearse_command(alloc)?;
    with(bare, rehearse)
}

// A command with the subcommands that have a file.
fn with_files<'a>(alloc: Global, bare: Command<'a>) -> Result<Command<'a>, AllocError>
    ensures { IfOk result (λ more. app_of more ≡ with_files (app_of bare.entry)) }
{
    let first = with_found(alloc, bare)?;
    let second = with_serve(alloc, first)?;
    let third = with_copy(alloc, second)?;
    with_migrate(alloc, third)
}

// A command with the two subcommands that have no arguments.
fn with_plain<'a>(alloc: Global, bare: Command<'a>) -> Result<Command<'a>, AllocError>
    ensures { IfOk result (λ more. app_of more ≡ with_plain (app_of bare.entry)) }
{
    let first = with(bare, check_command(alloc))?;
    with(first, replay_command(alloc))
}

// A command with the subcommands that have no file.
fn with_streams<'a>(alloc: Global, bare: Command<'a>) -> Result<Command<'a>, AllocError>
    ensures { IfOk result (λ more. app_of more ≡ with_streams (app_of bare.entry)) }
{
    let first = with_plain(alloc, bare)?;
    with_rehearse(alloc, first)
}

/// Returns `labdesk` with its subcommands.
///
/// # Errors
/// Memory ran out.
pub(crate) fn labdesk_command<'a>(alloc: Global) -> Result<Command<'a>, AllocError>
    ensures { IfOk result (λ command. app_of command ≡ labdesk_app) }
{
    let bare = bare_command(alloc)?;
    let files = with_files(alloc, bare)?;
    with_streams(alloc, files)
}
