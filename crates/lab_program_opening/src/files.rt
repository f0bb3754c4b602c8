//! Opens an old file to be read, or an empty one to be filled.

ghost use Rattle.std.specs.Prelude.{◌≡◌, ◌↔◌, IfErr, IfOk, IsTrue};
ghost use Rattle.sqlite.specs.Held.{state};
ghost use Rattle.lab_store_tables.specs.Ready.{IsAtRest};
ghost use Rattle.lab_store_files.specs.NewFiles.{IsBlank, no_schema};
ghost use Rattle.lab_program_opening.specs.Files.{Finds, IsBlankFile, IsFilled};
ghost use Rattle.lab_program_opening.specs.Volumes.{IsRefusedBy};

use crate::faults::OpenFault;
use crate::volumes::Volume;
use lab_store_files::FileFault;
use sqlite::Connection;
use sqlite_schema::schema::Schema;
use std::alloc::Global;

/// Returns a connection for reading to the old file at the path, whose laboratories are moved into
/// a new file at another path.
///
/// # Errors
/// There is no file, or it isn't a database, another process holds it, the source of random words
/// failed, the store failed, or memory ran out. The file is unchanged in any case, and nothing is
/// left beside it.
pub fn open_old<H: Volume>(
    alloc: Global,
    volume: &mut H,
    path: &str,
    new: &str,
) -> Result<Connection<H::Disk>, OpenFault>
    ensures at_rest { IfOk result (λ conn. IsAtRest (state H.Disk.Store conn)) }
    ensures found { IfOk result (Finds H.Disk.Store (H.file volume.old path.now).holds) }
    ensures fault { IfErr result (IsRefusedBy (H.file volume.old path.now)) }
{
    if volume.has(path)? {
        volume.connect_old(alloc, path, new)
    } else {
        Err(OpenFault::File(FileFault::NotADeskFile))
    }
}

// Whether a file with this schema is empty.
fn is_blank(schema: &Schema) -> bool
    ensures { IsTrue result ↔ (schema.now ≡ no_schema) }
{
    schema.tables.is_empty() && schema.indexes.is_empty() && schema.views.is_empty()
}

// A connection over which the file is empty. If the file isn't empty, the connection is released
// without being closed, so that the file is unchanged.
fn blank<H: Volume>(
    volume: &mut H,
    conn: Connection<H::Disk>,
) -> Result<Connection<H::Disk>, OpenFault>
    ensures blank { IfOk result (λ blank.
        (blank ≡ conn) × IsBlank (state H.Disk.Store conn).now) }
    ensures filled { IfErr result (λ fault.
        (¬ IsBlank (state H.Disk.Store conn).now) × (fault ≡ OpenFault.File FileFault.NotEmpty)) }
{
    if is_blank(conn.schema()) {
        Ok(conn)
    } else {
        volume.tidy();
        Err(OpenFault::File(FileFault::NotEmpty))
    }
}

/// Returns a connection to an empty file that is to be filled. Makes the file if there is none.
///
/// # Errors
/// The file isn't empty, the source of random words failed, the store failed, or memory ran out. An
/// existing file is unchanged, and nothing is left beside it.
pub fn open_new<H: Volume>(
    alloc: Global,
    volume: &mut H,
    path: &str,
) -> Result<Connection<H::Disk>, OpenFault>
    ensures at_rest { IfOk result (λ conn. IsAtRest (state H.Disk.Store conn)) }
    ensures blank { IfOk result (IsBlankFile H.Disk.Store (H.file volume.old path.now).holds) }
    ensures filled { IfErr result (IsFilled H.Disk.Store (H.file volume.old path.now)) }
{
    let conn = volume.connect(alloc, path)?;
    blank(volume, conn)
}
