//! `labdesk migrate`: the laboratories of an old file come into a new one.

ghost use Rattle.std.specs.Prelude.{◌⊎◌, IfErr, IfOk};
ghost use Rattle.sqlite.specs.Held.{state};
ghost use Rattle.lab_store_files.specs.NewFiles.{IsBlank};
ghost use Rattle.lab_store_tables.specs.Ready.{IsAtRest};
ghost use Rattle.lab_program_host.specs.Hosts.{end_between};
ghost use Rattle.lab_program_opening.specs.Ends.{WasClosed};
ghost use Rattle.lab_program_opening.specs.Volumes.{IsOfFile, IsRefusedBy};
ghost use Rattle.lab_program_opening.specs.Faults.{TellsWord};
ghost use Rattle.lab_program_moves.specs.Moves.{IsAsked, IsMigration, Prints, RefusesOld, TellsFault, TellsUnsound, migrated_line};
ghost use Rattle.lab_program_moves.specs.Private.Moves.{MovesTo};

use lab_forms_streams::{WriteFault, write_whole};
use lab_forms_texts::{LabCode, OutOfMemory};
use lab_move::{MoveEnd, MoveFault, MoveProgress, OldFile};
use lab_program_host::{Host, Outside, ServerFault, Streams, Writers, tell};
use lab_program_opening::{
    Closable, Ended, Finished, OpenFault, Trouble, Volume, decline, decline_by, open_new, open_old,
};
use sqlite::Connection;
use std::alloc::Global;
use std::io::Write;

/// Who tells a person at a terminal which laboratory is moved, and how many of its records are.
struct Teller<'a, H> {
    volume: &'a mut H,
}

impl<'a, H: Volume> MoveProgress for Teller<'a, H> {
    fn tell_lab(&mut self, lab: &LabCode, done: usize, all: usize) {
        self.volume
            .tell_move(lab.as_str(), done.saturating_add(1), all);
    }

    fn tell_records(&mut self, done: usize, all: usize) {
        self.volume.tell_records(done, all);
    }
}

// The old file at the path, of an older schema.
fn old_file<H: Volume>(
    alloc: Global,
    volume: &mut H,
    path: &str,
    new: &str,
) -> Result<OldFile<H::Disk>, OpenFault>
    ensures asked { IfOk result (λ file.
        IsAsked H.Disk.Store (H.file volume.old path.now).holds file.conn) }
    ensures refused { IfErr result (λ fault. IsRefusedBy (H.file volume.old path.now) fault
        ⊎ IsOfFile (RefusesOld H.Disk.Store (H.file volume.old path.now).holds) fault) }
{
    let conn = open_old(alloc, volume, path, new)?;
    match lab_move::open_old(conn) {
        Ok(file) => Ok(file),
        Err(unopened) => {
            volume.leave_new();
            Err(OpenFault::File(unopened.fault))
        }
    }
}

// Tells a word, and answers the status of a fault.
fn word_told<E: Write>(errors: &mut E, word: &str) -> Result<u8, WriteFault>
    ensures { TellsWord word.now result (E.contents errors.old) (E.contents errors.new) }
{
    tell(errors, word)?;
    Ok(1)
}

// Prints how many laboratories were moved, and answers the status.
fn print<W: Writers>(alloc: Global, count: u64, streams: &mut Streams<W>) -> Result<u8, WriteFault>
    ensures { Prints
        (end_between W.Output.contents W.Errors.contents streams.old streams.new result)
        (migrated_line count) }
{
    let Ok(line) = format!(in alloc; "migrated {count}\n") else {
        return word_told(&mut streams.errors, OutOfMemory.word());
    };
    match write_whole(&mut streams.output, line.as_bytes()) {
        Ok(()) => Ok(0),
        Err(_) => word_told(&mut streams.errors, ServerFault::Write.word()),
    }
}

// Tells that a laboratory isn't sound, and answers the status of a fault.
fn decline_unsound<H: Volume, E: Write>(
    alloc: Global,
    volume: &mut H,
    errors: &mut E,
    code: &str,
    trouble: Trouble<'_>,
) -> Result<u8, WriteFault>
    ensures { TellsUnsound code.now result (E.contents errors.old) (E.contents errors.new) }
{
    match format!(in alloc; "not_sound {code}") {
        Ok(text) => decline(volume, errors, text.as_str(), trouble),
        Err(_) => decline(volume, errors, OutOfMemory.word(), trouble),
    }
}

/// Where the files of a move lie.
#[derive(Clone, Copy)]
struct Paths<'a> {
    old: &'a str,
    new: &'a str,
}

// Tells why a move stopped, and answers the status of a fault.
fn decline_move<H: Volume, E: Write>(
    alloc: Global,
    volume: &mut H,
    errors: &mut E,
    paths: Paths<'_>,
    fault: &MoveFault,
) -> Result<u8, WriteFault>
    ensures { TellsFault fault.now result (E.contents errors.old) (E.contents errors.new) }
{
    match fault {
        MoveFault::File(fault) => {
            let trouble = Trouble::Moving(paths.old, paths.new, *fault);
            decline_by(alloc, volume, errors, OpenFault::File(*fault), trouble)
        }
        MoveFault::NotSound { lab } => {
            let trouble = Trouble::Unsound(paths.old, lab.as_str(), paths.new);
            decline_unsound(alloc, volume, errors, lab.as_str(), trouble)
        }
    }
}

// Moves the laboratories of an old file that was opened into a new one that was, which is left to
// be closed. The old one is let go of, and not closed, since that would write to it.
fn count_moved<H: Volume>(
    alloc: Global,
    volume: &mut H,
    old: OldFile<H::Disk>,
    new: Connection<H::Disk>,
) -> Ended<Result<u64, MoveFault>, H::Disk>
    requires at_rest { IsAtRest (state H.Disk.Store new) }
    requires blank { IsBlank (state H.Disk.Store new).now }
    ensures { MovesTo H.Disk.Store old.conn new result.ending result.finished }
{
    let mut new = new;
    let mut teller = Teller { volume };
    let MoveEnd { ending, left: _ } = lab_move::migrate(alloc, old, &mut new, &mut teller);
    let Teller { volume: _ } = teller;
    Ended {
        ending,
        finished: Some(Finished::new(new)),
    }
}

/// `labdesk migrate`: opens the old file at a path, of an older schema, and a new file at another,
/// moves all laboratories, prints how many they were, and says on standard error why it stopped.
/// Returns the status: 0 where all were moved and that was printed, and else 1. The old file stays as it is.
///
/// # Errors
/// It stopped, and standard error failed before the whole line was written.
pub fn migrate<M: Outside<Volume: Volume>, W: Writers>(
    host: &mut Host<'_, M>,
    old: &str,
    new: &str,
    streams: &mut Streams<W>,
) -> Result<u8, WriteFault>
where
    Connection<<M::Volume as Volume>::Disk>: Closable,
    ensures { IsMigration M.Volume.Disk.Store M.Volume.file
        (WasClosed ⟦<Connection<<M::Volume as Volume>::Disk> as Closable>⟧.closes)
        (record { volume = host.old.volume; old = old.now; new = new.now })
        (end_between W.Output.contents W.Errors.contents streams.old streams.new result) }
{
    let from = match old_file(host.alloc, &mut host.volume, old, new) {
        Ok(file) => file,
        Err(fault) => {
            let trouble = Trouble::Old(old, new, fault);
            return decline_by(
                host.alloc,
                &mut host.volume,
                &mut streams.errors,
                fault,
                trouble,
            );
        }
    };
    let into = match open_new(host.alloc, &mut host.volume, new) {
        Ok(conn) => conn,
        Err(fault) => {
            let trouble = Trouble::New(new, fault);
            return decline_by(
                host.alloc,
                &mut host.volume,
                &mut streams.errors,
                fault,
                trouble,
            );
        }
    };
    match count_moved(host.alloc, &mut host.volume, from, into).close() {
        Ok(count) => print(host.alloc, count, streams),
        Err(fault) => decline_move(
            host.alloc,
            &mut host.volume,
            &mut streams.errors,
            Paths { old, new },
            &fault,
        ),
    }
}
