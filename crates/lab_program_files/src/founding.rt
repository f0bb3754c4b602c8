//! `labdesk found`: a laboratory is founded in a file.

ghost use Rattle.lab_desk_foundings.specs.Foundings.{founded_line};
ghost use Rattle.lab_program_files.specs.FileWorlds.{file_keeper};
ghost use Rattle.lab_program_opening.specs.Ends.{WasClosed};
ghost use Rattle.lab_program_opening.specs.Files.{IsOpened, IsUnmade};
ghost use Rattle.lab_program_files.specs.Foundings.{Ends, IsFounding, Prints};
ghost use Rattle.lab_program_files.specs.Private.Foundings.{EndsAs};
ghost use Rattle.lab_program_host.specs.Faults.{IsReaderFault};
ghost use Rattle.lab_program_host.specs.Hosts.{drawing_between, end_between};
ghost use Rattle.lab_program_host.specs.Sources.{IsDrawn};
ghost use Rattle.std.specs.Io.KnownBytes.{Keeps};
ghost use Rattle.std.specs.Prelude.{◌≡◌, None, IfErr, IfOk, IfSome};
ghost use Rattle.lab_records_keeper.specs.Worlds.{Passes};
ghost use Rattle.lab_program_host.specs.declared.faults.ServerFault.TheVariants.{Write as NotWritten};
ghost use Rattle.lab_program_host.specs.declared.faults.RehearsalFault.TheVariants.{Server as OfServer};

use crate::files::make_file;
use lab_forms_streams::{WriteFault, write_whole};
use lab_forms_texts::{LabCode, OutOfMemory, Tick};
use lab_program_host::{FoundFault, Host, Outside, ServerFault, Streams, Writers, draw, read_all};
use lab_program_opening::{
    Closable, Ended, Finished, FoundingFault, OpenFault, Trouble, Volume, decline, decline_to_open,
};
use lab_program_serve::{Desk, Keeper};
use sqlite::Connection;
use std::alloc::Global;
use std::io::{Read, Write};

// The line that tells of a founding.
fn founded_line(alloc: Global, lab: &LabCode) -> Result<Vec<u8>, OutOfMemory>
    ensures { IfOk result (λ line. line.items ≡ founded_line lab.now) }
{
    let code = lab.as_str();
    Ok(format!(in alloc; "founded {code}\n")?.into_bytes())
}

// What a founding takes before it is begun.
#[derive(Drop)]
struct Intake {
    // The line that tells of it.
    line: Vec<u8>,
    // Its body.
    bytes: Vec<u8>,
    // Its tick.
    tick: Tick,
}

// Takes what a founding needs. The tick is drawn once the body is read.
fn intake_of<M: Outside, B: Read>(
    host: &mut Host<'_, M>,
    lab: &LabCode,
    body: &mut B,
) -> Result<Intake, ServerFault>
    ensures line { IfOk result (λ taken. taken.line.items ≡ founded_line lab.now) }
    ensures body { IfOk result (λ taken.
        IfSome (B.remaining body.old) (λ all. taken.bytes.items ≡ all)) }
    ensures tick { IfOk result (λ taken. IsDrawn
        (drawing_between M.Clock.coming M.Chance.coming host.old host.new) taken.tick) }
    ensures fault { IfErr result IsReaderFault }
{
    let line = founded_line(host.alloc, lab)?;
    let bytes = read_all(host.alloc, body)?;
    let tick = draw(&mut host.clock, &mut host.chance)?;
    Ok(Intake { line, bytes, tick })
}

// Prints a line.
fn print<W: Write>(output: &mut W, line: &[u8]) -> Result<(), FoundingFault>
    ensures printed { Prints line.now result (W.contents output.old) (W.contents output.new) }
    ensures fault { IfErr result (λ fault. fault ≡ OfServer NotWritten) }
{
    match write_whole(output, line) {
        Ok(()) => Ok(()),
        Err(_) => Err(FoundingFault::Server(ServerFault::Write)),
    }
}

// What became of a founding. Bytes from which none is born are noted, so that a person can be advised.
fn founding_noted<H: Volume>(
    alloc: Global,
    volume: &mut H,
    body: &[u8],
    founded: Result<(), FoundFault>,
) -> Result<(), FoundFault>
    ensures { result ≡ founded }
{
    if let Err(FoundFault::Body(_) | FoundFault::Birth(_)) = founded {
        volume.note(alloc, body);
    }
    founded
}

/// Founds a laboratory from a body, and prints that it is founded. The tick is drawn once the body
/// is read.
///
/// # Errors
/// Those of the founding; the body, the clock or the source of random words failed, or memory ran
/// out before: nothing was done. Where the output failed, the laboratory is founded all the same.
pub fn found_over<M: Outside<Volume: Volume>, S: Keeper + Drop, B: Read, W: Write>(
    host: &mut Host<'_, M>,
    desk: &mut Desk<S>,
    lab: &LabCode,
    body: &mut B,
    output: &mut W,
) -> Result<(), FoundingFault>
    ensures ends { Ends S.Keeper (record {
      drawing = drawing_between M.Clock.coming M.Chance.coming host.old host.new;
      code = lab.now;
      body = B.remaining body.old;
    }) desk.old.keeper desk.new.keeper result }
    ensures prints { Prints (founded_line lab.now) result
        (W.contents output.old) (W.contents output.new) }
    ensures passes { Passes (S.world desk.old.keeper) (S.world desk.new.keeper) }
{
    host.volume.advise(Trouble::FoundingAwaited);
    let intake = intake_of(host, lab, body)?;
    let founded = desk.found(lab, &intake.tick, intake.bytes.as_slice());
    founding_noted(
        host.alloc,
        &mut host.volume,
        intake.bytes.as_slice(),
        founded,
    )?;
    print(output, intake.line.as_slice())
}

// Founds a laboratory in the file at the path. Answers how the founding ended, where one was begun,
// and the connection, which is left to be closed.
fn found_in_file<M: Outside<Volume: Volume>, B: Read, W: Write>(
    host: &mut Host<'_, M>,
    path: &str,
    lab: &LabCode,
    body: &mut B,
    output: &mut W,
) -> Ended<Result<Result<(), FoundingFault>, OpenFault>, <M::Volume as Volume>::Disk>
where
    Connection<<M::Volume as Volume>::Disk>: Closable,
    ensures ends { IfOk result.ending (λ ending. EndsAs (file_keeper M.Volume.Disk.Store) (record {
      drawing = drawing_between M.Clock.coming M.Chance.coming host.old host.new;
      code = lab.now;
      body = B.remaining body.old;
    }) (IsOpened M.Volume.Disk.Store (M.Volume.file host.old.volume path.now).holds) ending result.finished) }
    ensures prints { IfOk result.ending (λ ending. Prints (founded_line lab.now) ending
        (W.contents output.old) (W.contents output.new)) }
    ensures unbegun { IfErr result.ending
        (λ _. Keeps (W.contents output.old) (W.contents output.new)) }
    ensures unopened { IfErr result.ending (λ _. result.finished ≡ None) }
    ensures cause { IfErr result.ending (IsUnmade M.Volume.Disk.Store
        (WasClosed ⟦<Connection<<M::Volume as Volume>::Disk> as Closable>⟧.closes)
        (M.Volume.file host.old.volume path.now)) }
{
    let store = match make_file(host.alloc, &mut host.volume, path) {
        Ok(store) => store,
        Err(fault) => {
            return Ended {
                ending: Err(fault),
                finished: None,
            };
        }
    };
    let mut desk = match Desk::new(host.alloc, store) {
        Ok(desk) => desk,
        Err(unmade) => {
            return Ended {
                ending: Ok(Err(FoundingFault::Server(ServerFault::Memory))),
                finished: Some(Finished::new(unmade.keeper.into_connection())),
            };
        }
    };
    let ending = found_over(host, &mut desk, lab, body, output);
    let left = desk.into_keeper().into_connection();
    Ended {
        ending: Ok(ending),
        finished: Some(Finished::new(left)),
    }
}

/// `labdesk found`: founds a laboratory in the file at the path, which is made if it isn't there,
/// from its body, at the moment and with the words that are drawn, prints that it is founded, and
/// says on standard error why it isn't. Returns the status: 0 where it is founded and that was
/// printed, and else 1. A file that was made stays.
///
/// # Errors
/// It failed, and standard error failed before the whole line was written.
pub fn found<M: Outside<Volume: Volume>, B: Read, W: Writers>(
    host: &mut Host<'_, M>,
    path: &str,
    lab: &LabCode,
    body: &mut B,
    streams: &mut Streams<W>,
) -> Result<u8, WriteFault>
where
    Connection<<M::Volume as Volume>::Disk>: Closable,
    ensures { IsFounding (file_keeper M.Volume.Disk.Store) (record {
      drawing = drawing_between M.Clock.coming M.Chance.coming host.old host.new;
      code = lab.now;
      body = B.remaining body.old;
    }) (IsOpened M.Volume.Disk.Store (M.Volume.file host.old.volume path.now).holds)
        (WasClosed ⟦<Connection<<M::Volume as Volume>::Disk> as Closable>⟧.closes)
        (IsUnmade M.Volume.Disk.Store
        (WasClosed ⟦<Connection<<M::Volume as Volume>::Disk> as Closable>⟧.closes)
        (M.Volume.file host.old.volume path.now))
        (end_between W.Output.contents W.Errors.contents streams.old streams.new result) }
{
    match found_in_file(host, path, lab, body, &mut streams.output).close() {
        Ok(Ok(())) => Ok(0),
        Ok(Err(fault)) => {
            let trouble = Trouble::Founding(path, fault);
            decline(&mut host.volume, &mut streams.errors, fault.word(), trouble)
        }
        Err(fault) => decline_to_open(
            host.alloc,
            &mut host.volume,
            &mut streams.errors,
            path,
            fault,
        ),
    }
}
