//! Opens a file of laboratories as a store, or makes one if there is none.

ghost use Rattle.std.specs.Prelude.{IfErr, IfOk};
ghost use Rattle.sqlite.specs.Held.{state};
ghost use Rattle.lab_store_tables.specs.Ready.{IsAtRest};
ghost use Rattle.lab_program_opening.specs.Ends.{WasClosed};
ghost use Rattle.lab_program_opening.specs.Files.{FailsToMake, IsNewFrom, IsOpened, IsOurs, IsOursFrom, IsUnmade, IsUnopened, RefusesFrom};
ghost use Rattle.lab_program_opening.specs.Volumes.{IsOfFile};

use lab_program_opening::{Closable, OpenFault, Volume};
use lab_store::{Store, Unopened};
use lab_store_files::FileFault;
use sqlite::{Alter, Connection};
use std::alloc::Global;

/// Returns a store over an existing file of laboratories.
///
/// # Errors
/// There is no file, or it doesn't have this schema, the source of random words failed, the store
/// failed, or memory ran out. The file is unchanged, and nothing is left beside it.
pub fn open_file<H: Volume>(
    alloc: Global,
    volume: &mut H,
    path: &str,
) -> Result<Store<H::Disk>, OpenFault>
where
    Connection<H::Disk>: Closable,
    ensures at_rest { IfOk result (λ store. IsAtRest (state H.Disk.Store store)) }
    ensures ours { IfOk result (IsOurs H.Disk.Store (H.file volume.old path.now).holds) }
    ensures unopened { IfErr result (IsUnopened H.Disk.Store
        (WasClosed ⟦<Connection<H::Disk> as Closable>⟧.closes)
        (H.file volume.old path.now)) }
{
    if !volume.has(path)? {
        return Err(OpenFault::File(FileFault::NotADeskFile));
    }
    let conn = volume.connect(alloc, path)?;
    opened_store(alloc, volume, conn)
}

// A store over a file of laboratories that was opened. If the file is refused, nothing is left
// beside it: what the connection made is removed before the file is released.
fn opened_store<H: Volume>(
    alloc: Global,
    volume: &mut H,
    conn: Connection<H::Disk>,
) -> Result<Store<H::Disk>, OpenFault>
where
    Connection<H::Disk>: Closable,
    requires { IsAtRest (state H.Disk.Store conn) }
    ensures at_rest { IfOk result (λ store. IsAtRest (state H.Disk.Store store)) }
    ensures ours { IfOk result (IsOursFrom H.Disk.Store conn) }
    ensures refused { IfErr result (IsOfFile (RefusesFrom H.Disk.Store
        (WasClosed ⟦<Connection<H::Disk> as Closable>⟧.closes) conn)) }
{
    match Store::open(alloc, conn) {
        Ok(store) => Ok(store),
        Err(unopened) => {
            let Unopened { fault, conn } = unopened;
            volume.tidy();
            let _ = conn.close_whole();
            Err(OpenFault::File(fault))
        }
    }
}

// A store over a file in which the tables of laboratories were made.
fn made_store<S: Alter>(alloc: Global, conn: Connection<S>) -> Result<Store<S>, OpenFault>
where
    Connection<S>: Closable,
    requires { IsAtRest (state S.Store conn) }
    ensures at_rest { IfOk result (λ store. IsAtRest (state S.Store store)) }
    ensures made { IfOk result (IsNewFrom S.Store conn) }
    ensures unmade { IfErr result (IsOfFile (FailsToMake S.Store
        (WasClosed ⟦<Connection<S> as Closable>⟧.closes) conn)) }
{
    match Store::create(alloc, conn) {
        Ok(store) => Ok(store),
        Err(unopened) => {
            let Unopened { fault, conn } = unopened;
            let _ = conn.close_whole();
            Err(OpenFault::File(fault))
        }
    }
}

/// Returns a store over a file of laboratories. Makes the tables if there is no file, or if the
/// file has no table, as after a making that was stopped.
///
/// # Errors
/// The file doesn't have this schema, the source of random words failed, the store failed, or
/// memory ran out.
pub fn make_file<H: Volume>(
    alloc: Global,
    volume: &mut H,
    path: &str,
) -> Result<Store<H::Disk>, OpenFault>
where
    Connection<H::Disk>: Closable,
    ensures at_rest { IfOk result (λ store. IsAtRest (state H.Disk.Store store)) }
    ensures opened { IfOk result (IsOpened H.Disk.Store (H.file volume.old path.now).holds) }
    ensures unmade { IfErr result (IsUnmade H.Disk.Store
        (WasClosed ⟦<Connection<H::Disk> as Closable>⟧.closes)
        (H.file volume.old path.now)) }
{
    let conn = volume.connect(alloc, path)?;
    if conn.schema().tables.is_empty() {
        made_store(alloc, conn)
    } else {
        opened_store(alloc, volume, conn)
    }
}
