//! The command line: words are read, and what they ask for is done.

ghost use Rattle.std.specs.Prelude.{◌≡◌, ℕ, Result, map};
ghost use Rattle.clap.specs.Words.{fault_of};
ghost use Rattle.lab_program_host.specs.Hosts.{drawing_between, end_between};
ghost use Rattle.lab_program_app.specs.Apps.{labdesk_app};
ghost use Rattle.lab_forms_streams.specs.declared.sending.WriteFault.{WriteFault as Untold};
ghost use Rattle.lab_program.specs.CommandLine.{IsDone, exit_status};
ghost use Rattle.lab_program_app.specs.Explaining.{IsExplained};
ghost use Rattle.lab_program_words.specs.Tasks.{Asked, AsksTask};
ghost use Rattle.lab_program_words.specs.Private.Tasks.{IsTask};

use crate::copies::check_for;
use crate::laboratories::{copy_for, found_for, rehearse_for};
use lab_forms_streams::WriteFault;
use lab_program_app::explain;
use lab_program_files::{Closable, Progress, Trouble, Volume, serve};
use lab_program_host::{Host, Outside, Streams, Writers};
use lab_program_moves::migrate;
use lab_program_replay::replay;
use lab_program_words::{Task, task_of};
use sqlite::Connection;
use std::convert::AsStr;
use std::io::Read;

/// The status if a fault could not be printed either: that of a fault.
pub const UNTOLD: u8 = 1;

// Does a task, and answers the status.
fn do_task<M: Outside<Volume: Volume, Progress: Progress>, R: Read + Drop, W: Writers>(
    host: &mut Host<'_, M>,
    task: Task<'_>,
    input: R,
    streams: &mut Streams<W>,
) -> Result<u8, WriteFault>
where
    Connection<<M::Volume as Volume>::Disk>: Closable,
    ensures { (asked : Asked) → IsTask task.entry asked →
        IsDone M.Volume.Disk.Store M.Volume.file
        ⟦<Connection<<M::Volume as Volume>::Disk> as Closable>⟧.closes host.old.volume
        (drawing_between M.Clock.coming M.Chance.coming host.old host.new) asked (R.remaining input)
        (end_between W.Output.contents W.Errors.contents streams.old streams.new result) }
{
    match task {
        Task::Found { file, lab } => found_for(host, file, lab, input, streams),
        Task::Serve { file, port, count } => serve(host, file, port, count, streams),
        Task::Copy {
            file,
            lab,
            from,
            to,
        } => copy_for(host, file, lab, from, to, streams),
        Task::Migrate { old, new } => migrate(host, old, new, streams),
        Task::Check => check_for(host, input, streams),
        Task::Replay => {
            host.volume.advise(Trouble::EventsAwaited);
            replay(host.alloc, input, &mut streams.output, &mut streams.errors)
        }
        Task::Rehearse { lab, seconds } => rehearse_for(host, lab, seconds, input, streams),
    }
}

/// `labdesk`: does what the words ask for, and answers the status. `serve` and `rehearse` alone use
/// the network.
///
/// # Errors
/// A fault of status 1 could not be told whole, as standard error failed.
fn labdesk<M: Outside<Volume: Volume, Progress: Progress>, S: AsStr, R: Read + Drop, W: Writers>(
    host: &mut Host<'_, M>,
    words: &[S],
    input: R,
    streams: &mut Streams<W>,
) -> Result<u8, WriteFault>
where
    Connection<<M::Volume as Volume>::Disk>: Closable,
    ensures done { (asked : Asked) → AsksTask asked (map S.text words.now) →
        IsDone M.Volume.Disk.Store M.Volume.file
        ⟦<Connection<<M::Volume as Volume>::Disk> as Closable>⟧.closes host.old.volume
        (drawing_between M.Clock.coming M.Chance.coming host.old host.new) asked (R.remaining input)
        (end_between W.Output.contents W.Errors.contents streams.old streams.new result) }
    ensures explained { IsExplained (fault_of labdesk_app (map S.text words.now))
        (W.Output.contents streams.old.output) (W.Output.contents streams.new.output)
        (W.Errors.contents streams.old.errors) (W.Errors.contents streams.new.errors) result }
{
    match task_of(host.alloc, words) {
        Ok(task) => do_task(host, task, input, streams),
        Err(error) => explain(&error, &mut streams.output, &mut streams.errors),
    }
}

/// `labdesk`, with the status of the program: 0 if everything that the words ask for was done.
pub fn status_of<
    M: Outside<Volume: Volume, Progress: Progress>,
    S: AsStr,
    R: Read + Drop,
    W: Writers,
>(host: &mut Host<'_, M>, words: &[S], input: R, streams: &mut Streams<W>) -> u8
where
    Connection<<M::Volume as Volume>::Disk>: Closable,
    ensures done { (asked : Asked) → AsksTask asked (map S.text words.now) →
        (status : Result ℕ Untold) × (result ≡ exit_status status)
        × IsDone M.Volume.Disk.Store M.Volume.file
        ⟦<Connection<<M::Volume as Volume>::Disk> as Closable>⟧.closes host.old.volume
        (drawing_between M.Clock.coming M.Chance.coming host.old host.new) asked (R.remaining input)
        (end_between W.Output.contents W.Errors.contents streams.old streams.new status) }
    ensures explained { (status : Result ℕ Untold) × (result ≡ exit_status status)
        × IsExplained (fault_of labdesk_app (map S.text words.now))
        (W.Output.contents streams.old.output) (W.Output.contents streams.new.output)
        (W.Errors.contents streams.old.errors) (W.Errors.contents streams.new.errors) status }
{
    match labdesk(host, words, input, streams) {
        Ok(status) => status,
        Err(_) => UNTOLD,
    }
}
