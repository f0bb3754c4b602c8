//! `labdesk copy`: the inspection copy of a laboratory of a file.

ghost use Rattle.std.specs.Prelude.{◌≡◌, IfErr, IfOk, IfSome, MatchOption};
ghost use Rattle.std.specs.Io.KnownBytes.{Keeps};
ghost use Rattle.lab_program_files.specs.Private.Copying.{CopiesTo};
ghost use Rattle.lab_program_files.specs.Copying.{IsCopying};
ghost use Rattle.lab_program_files.specs.FileWorlds.{file_keeper, file_refuses};
ghost use Rattle.lab_program_host.specs.Hosts.{end_between};
ghost use Rattle.lab_program_opening.specs.Ends.{WasClosed};
ghost use Rattle.lab_program_opening.specs.Files.{IsOurs, IsUnopened};

use crate::files::open_file;
use lab_forms_streams::WriteFault;
use lab_forms_texts::{LabCode, Ordinal};
use lab_program_host::{Clock, Host, Outside, Streams, Writers};
use lab_program_opening::{
    Closable, Ended, Finished, OpenFault, Trouble, Volume, decline, decline_to_open,
};
use lab_records_copy_out::{CopyOutFault, Progress, copy_out};
use lab_store::OneVersionAtATime;
use sqlite::Connection;
use std::io::Write;

// Copies the records of a laboratory of the file at the path, as of a moment of the clock. Answers
// how the copy ended, where one was begun, and the connection, which is left to be closed.
fn copy_file<M: Outside<Volume: Volume, Progress: Progress>, W: Write>(
    host: &mut Host<'_, M>,
    path: &str,
    lab: &LabCode,
    from: Ordinal,
    to: Ordinal,
    output: &mut W,
) -> Ended<Result<Result<(), CopyOutFault>, OpenFault>, <M::Volume as Volume>::Disk>
where
    Connection<<M::Volume as Volume>::Disk>: Closable,
    ensures copies { IfOk result.ending (λ ending. CopiesTo (file_keeper M.Volume.Disk.Store)
        (file_refuses M.Volume.Disk.Store) (record {
          moments = M.Clock.coming host.old.clock;
          later = M.Clock.coming host.new.clock;
          code = lab.now;
          from = from;
          to = to;
        }) (IsOurs M.Volume.Disk.Store (M.Volume.file host.old.volume path.now).holds)
        (W.contents output.old) (W.contents output.new) ending result.finished) }
    ensures unbegun { IfErr result.ending
        (λ _. Keeps (W.contents output.old) (W.contents output.new)) }
    ensures untouched { IfErr result.ending (λ _. IfSome result.finished
        (IsOurs M.Volume.Disk.Store (M.Volume.file host.old.volume path.now).holds)) }
    ensures cause { IfErr result.ending (λ fault. MatchOption result.finished
        (IsUnopened M.Volume.Disk.Store
        (WasClosed ⟦<Connection<<M::Volume as Volume>::Disk> as Closable>⟧.closes)
        (M.Volume.file host.old.volume path.now) fault)
        (λ _. fault ≡ OpenFault.Drawing)) }
{
    let mut store = match open_file(host.alloc, &mut host.volume, path) {
        Ok(store) => store,
        Err(fault) => {
            return Ended {
                ending: Err(fault),
                finished: None,
            };
        }
    };
    let Ok(moment) = host.clock.moment() else {
        return Ended {
            ending: Err(OpenFault::Drawing),
            finished: Some(Finished::new(store.into_connection())),
        };
    };
    let ending = copy_out(
        host.alloc,
        &mut store,
        &OneVersionAtATime,
        lab,
        from,
        to,
        moment,
        output,
        &mut host.progress,
    );
    let left = store.into_connection();
    Ended {
        ending: Ok(ending),
        finished: Some(Finished::new(left)),
    }
}

/// `labdesk copy`: opens the file at the path, writes the inspection copy of the laboratory's
/// records from a number to a number, one version at a time, reports the progress after each record,
/// and says on standard error why it stopped. Returns the status: 0 where the copy is whole, and
/// else 1. The rows stay as they are.
///
/// # Errors
/// It stopped, and standard error failed before the whole line was written.
pub fn copy<M: Outside<Volume: Volume, Progress: Progress>, W: Writers>(
    host: &mut Host<'_, M>,
    path: &str,
    lab: &LabCode,
    from: Ordinal,
    to: Ordinal,
    streams: &mut Streams<W>,
) -> Result<u8, WriteFault>
where
    Connection<<M::Volume as Volume>::Disk>: Closable,
    ensures { IsCopying (file_keeper M.Volume.Disk.Store) (file_refuses M.Volume.Disk.Store) (record {
      moments = M.Clock.coming host.old.clock;
      later = M.Clock.coming host.new.clock;
      code = lab.now;
      from = from;
      to = to;
    }) (IsOurs M.Volume.Disk.Store (M.Volume.file host.old.volume path.now).holds)
        (WasClosed ⟦<Connection<<M::Volume as Volume>::Disk> as Closable>⟧.closes)
        (IsUnopened M.Volume.Disk.Store
        (WasClosed ⟦<Connection<<M::Volume as Volume>::Disk> as Closable>⟧.closes)
        (M.Volume.file host.old.volume path.now))
        (end_between W.Output.contents W.Errors.contents streams.old streams.new result) }
{
    match copy_file(host, path, lab, from, to, &mut streams.output).close() {
        Ok(Ok(())) => Ok(0),
        Ok(Err(fault)) => {
            let trouble = Trouble::Copying(path, fault);
            decline(&mut host.volume, &mut streams.errors, fault.word(), trouble)
        }
        Err(fault) => decline_to_open(
            host.alloc,
            &mut host.volume,
            &mut streams.errors,
            path,
            fault,
        ),
    }
}
