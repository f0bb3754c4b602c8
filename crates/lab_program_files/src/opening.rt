//! Who opens the file at a path, and opens it anew.

ghost use Rattle.std.specs.Prelude.{◌≡◌};
ghost use Rattle.lab_program_opening.specs.Ends.{WasGivenUp};
ghost use Rattle.lab_program_files.specs.Serving.{keeper_fault};

use crate::files::open_file;
use lab_program_opening::{Closable, Finished, OpenFault, Volume};
use lab_program_serve::Opener;
use lab_records_keeper::{BadStore, KeeperFault};
use lab_store::Store;
use lab_store_files::FileFault;
use sqlite::Connection;
use std::alloc::Global;

/// Who opens the file of laboratories at a path.
#[derive(Drop)]
pub struct FileOpener<'a> {
    path: &'a str,
}

impl<'a> FileOpener<'a> {
    /// Who opens the file at the path.
    pub fn new(path: &'a str) -> FileOpener<'a> {
        FileOpener { path }
    }
}

/// Closes a file, unless others cut it: into such a file nothing more is written. A fault is passed
/// over, since nothing is lost by it.
pub fn close_uncut<H: Volume>(volume: &mut H, path: &str, finished: Finished<H::Disk>)
where
    Connection<H::Disk>: Closable,
    ensures { WasGivenUp ⟦<Connection<H::Disk> as Closable>⟧.closes H.file path.now finished }
{
    if volume.is_cut(path) {
        finished.let_go();
    } else {
        let _ = finished.close();
        volume.forget();
    }
}

// Why no keeper was opened.
fn opening_fault(fault: OpenFault) -> KeeperFault
    ensures { result ≡ keeper_fault fault }
{
    match fault {
        OpenFault::File(FileFault::Memory) => KeeperFault::Memory,
        _ => KeeperFault::Refused(BadStore),
    }
}

impl<'a, H: Volume> Opener<H, Store<H::Disk>> for FileOpener<'a>
where
    Connection<H::Disk>: Closable,
{
    ghost use Rattle.lab_program_files.specs.Serving.{IsNotOpenedAnywhere, IsOursAnywhere, WasGivenUpAnywhere};

    type Finished = Finished<H::Disk>;

    ghost opened = { IsOursAnywhere H.Disk.Store H.file };

    ghost unopened = { IsNotOpenedAnywhere H.Disk.Store
        ⟦<Connection<H::Disk> as Closable>⟧.closes H.file };

    ghost closed = { WasGivenUpAnywhere ⟦<Connection<H::Disk> as Closable>⟧.closes H.file };

    ghost keeper_of = { λ finished. finished };

    fn is_there(&mut self, host: &mut H) -> bool {
        host.is_there(self.path)
    }

    fn open(&mut self, alloc: Global, host: &mut H) -> Result<Store<H::Disk>, KeeperFault> {
        match open_file(alloc, host, self.path) {
            Ok(store) => Ok(store),
            Err(fault) => Err(opening_fault(fault)),
        }
    }

    fn finish(&self, keeper: Store<H::Disk>) -> Finished<H::Disk> {
        Finished::new(keeper.into_connection())
    }

    fn close(&mut self, host: &mut H, finished: Finished<H::Disk>) {
        close_uncut(host, self.path, finished);
    }
}
