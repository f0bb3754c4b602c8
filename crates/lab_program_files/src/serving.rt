//! `labdesk serve`: the laboratories of a file are served on a port of this machine.

ghost use Rattle.lab_program_files.specs.FileWorlds.{file_keeper};
ghost use Rattle.lab_program_opening.specs.Ends.{WasClosed};
ghost use Rattle.lab_program_opening.specs.Files.{IsOurs, IsUnopened};
ghost use Rattle.lab_program_opening.specs.Faults.{Declines};
ghost use Rattle.lab_program_files.specs.Serving.{IsNotOpenedAnywhere, IsOursAnywhere, ServesAs, ServesFile, WasGivenUpAnywhere};
ghost use Rattle.lab_program_host.specs.Hosts.{drawing_between, end_between};
ghost use Rattle.std.specs.Prelude.{◌≡◌, option_map, IfErr, IfOk, IfSome, IsSomeAnd};

use crate::files::open_file;
use crate::opening::{FileOpener, close_uncut};
use lab_forms_streams::WriteFault;
use lab_program_host::{Host, Outside, ServerFault, Streams, Writers};
use lab_program_opening::{
    Additions, Closable, Ended, Finished, OpenFault, Trouble, Volume, decline, decline_by,
    decline_to_open,
};
use lab_program_serve::{Desk, LiveDesk, Unmade, listen};
use lab_store::Store;
use lab_store_files::FileFault;
use sqlite::{Alter, Connection};
use std::alloc::Global;
use std::io::Write;

// A live desk with a desk over a store of the file at the path. Without memory the store is handed
// back.
fn live_desk_over<S: Alter + Drop>(
    alloc: Global,
    path: &str,
    store: Store<S>,
) -> Result<LiveDesk<Store<S>, FileOpener<'_>>, Unmade<Store<S>>>
    ensures live { IfOk result (λ live_desk. IsSomeAnd live_desk (λ desk. desk.keeper ≡ store)) }
    ensures unmade { IfErr result (λ unmade. unmade.keeper ≡ store) }
{
    let desk = Desk::new(alloc, store)?;
    LiveDesk::new(alloc, FileOpener::new(path), desk)
}

// A live desk with a desk over the file at the path. If there is no memory for it, the connection
// is left to be closed.
fn live_desk_opened<'p, H: Volume>(
    alloc: Global,
    volume: &mut H,
    path: &'p str,
) -> Result<LiveDesk<Store<H::Disk>, FileOpener<'p>>, Ended<OpenFault, H::Disk>>
where
    Connection<H::Disk>: Closable,
    ensures ours { IfOk result (λ live_desk. IsSomeAnd live_desk (λ desk.
        IsOurs H.Disk.Store (H.file volume.old path.now).holds desk.keeper)) }
    ensures unopened { IfErr result (λ unopened. IsUnopened H.Disk.Store
        (WasClosed ⟦<Connection<H::Disk> as Closable>⟧.closes)
        (H.file volume.old path.now) unopened.ending) }
    ensures left { IfErr result (λ unopened. IfSome unopened.finished
        (IsOurs H.Disk.Store (H.file volume.old path.now).holds)) }
{
    let store = match open_file(alloc, volume, path) {
        Ok(store) => store,
        Err(fault) => {
            return Err(Ended {
                ending: fault,
                finished: None,
            });
        }
    };
    let additions = Additions::of(store.schema());
    if !additions.are_none() {
        volume.remark(path, additions);
    }
    match live_desk_over(alloc, path, store) {
        Ok(live_desk) => Ok(live_desk),
        Err(unmade) => Err(Ended {
            ending: OpenFault::File(FileFault::Memory),
            finished: Some(Finished::new(unmade.keeper.into_connection())),
        }),
    }
}

// Tells why no file was opened to be served, and answers the status of a fault.
fn decline_to_serve<M: Outside<Volume: Volume>, E: Write>(
    host: &mut Host<'_, M>,
    errors: &mut E,
    path: &str,
    port: u16,
    fault: OpenFault,
) -> Result<u8, WriteFault>
    ensures { Declines fault result (E.contents errors.old) (E.contents errors.new) }
{
    match fault {
        OpenFault::Drawing => {
            let trouble = Trouble::AtPort(port);
            decline_by(host.alloc, &mut host.volume, errors, fault, trouble)
        }
        OpenFault::File(_) => decline_to_open(host.alloc, &mut host.volume, errors, path, fault),
    }
}

// What a live desk leaves to be closed.
fn left_of<S: Alter + Drop>(live_desk: LiveDesk<Store<S>, FileOpener<'_>>) -> Option<Finished<S>>
    ensures { result ≡ option_map (λ desk. desk.keeper) live_desk.entry }
{
    let store = live_desk.into_keeper()?;
    Some(Finished::new(store.into_connection()))
}

// Serves the laboratories of the file at the path. Answers the status, and the connection, which is
// left to be closed.
fn serve_file<M: Outside<Volume: Volume>, W: Writers>(
    host: &mut Host<'_, M>,
    path: &str,
    port: u16,
    count: u32,
    streams: &mut Streams<W>,
) -> Ended<Result<u8, WriteFault>, <M::Volume as Volume>::Disk>
where
    Connection<<M::Volume as Volume>::Disk>: Closable,
    ensures { ServesAs (file_keeper M.Volume.Disk.Store)
        (IsOurs M.Volume.Disk.Store (M.Volume.file host.old.volume path.now).holds)
        (IsOursAnywhere M.Volume.Disk.Store M.Volume.file)
        (WasGivenUpAnywhere ⟦<Connection<<M::Volume as Volume>::Disk> as Closable>⟧.closes
        M.Volume.file)
        (IsNotOpenedAnywhere M.Volume.Disk.Store
        ⟦<Connection<<M::Volume as Volume>::Disk> as Closable>⟧.closes M.Volume.file)
        (IsUnopened M.Volume.Disk.Store
        (WasClosed ⟦<Connection<<M::Volume as Volume>::Disk> as Closable>⟧.closes)
        (M.Volume.file host.old.volume path.now))
        (drawing_between M.Clock.coming M.Chance.coming host.old host.new) count
        (end_between W.Output.contents W.Errors.contents streams.old streams.new result.ending)
        result.finished }
{
    let mut live_desk = match live_desk_opened(host.alloc, &mut host.volume, path) {
        Ok(live_desk) => live_desk,
        Err(unopened) => {
            let Ended {
                ending: fault,
                finished,
            } = unopened;
            return Ended {
                ending: decline_to_serve(host, &mut streams.errors, path, port, fault),
                finished,
            };
        }
    };
    let Ok(listener) = listen(host.net, port) else {
        let (word, trouble) = (ServerFault::Read.word(), Trouble::AtPort(port));
        return Ended {
            ending: decline(&mut host.volume, &mut streams.errors, word, trouble),
            finished: left_of(live_desk),
        };
    };
    let ending = lab_program_serve::serve(host, &mut live_desk, listener, count, streams);
    Ended {
        ending,
        finished: left_of(live_desk),
    }
}

/// `labdesk serve`: opens the file at the path, listens at a port of this machine (0 is any that is
/// free), prints which, serves `count` connections one after the other, and says on standard
/// error why it stopped before the last. Once a fault has shut the file, or it no longer lies at the path,
/// it is opened anew before the next request. Returns the status: 0 where all were served, and
/// else 1.
///
/// # Errors
/// It stopped, and standard error failed before the whole line was written.
pub fn serve<M: Outside<Volume: Volume>, W: Writers>(
    host: &mut Host<'_, M>,
    path: &str,
    port: u16,
    count: u32,
    streams: &mut Streams<W>,
) -> Result<u8, WriteFault>
where
    Connection<<M::Volume as Volume>::Disk>: Closable,
    ensures { ServesFile (file_keeper M.Volume.Disk.Store)
        (IsOurs M.Volume.Disk.Store (M.Volume.file host.old.volume path.now).holds)
        (IsOursAnywhere M.Volume.Disk.Store M.Volume.file)
        (WasGivenUpAnywhere ⟦<Connection<<M::Volume as Volume>::Disk> as Closable>⟧.closes
        M.Volume.file)
        (IsNotOpenedAnywhere M.Volume.Disk.Store
        ⟦<Connection<<M::Volume as Volume>::Disk> as Closable>⟧.closes M.Volume.file)
        (IsUnopened M.Volume.Disk.Store
        (WasClosed ⟦<Connection<<M::Volume as Volume>::Disk> as Closable>⟧.closes)
        (M.Volume.file host.old.volume path.now))
        (drawing_between M.Clock.coming M.Chance.coming host.old host.new) count
        (end_between W.Output.contents W.Errors.contents streams.old streams.new result) }
{
    let Ended { ending, finished } = serve_file(host, path, port, count, streams);
    if let Some(finished) = finished {
        close_uncut(&mut host.volume, path, finished);
    }
    ending
}
