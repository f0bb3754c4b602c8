//! The places of a file, its log and its journal, whatever links lead there.

ghost use Rattle.std.specs.Prelude.{IfErr};
ghost use Rattle.lab_program_machine.specs.Private.HostFaults.{IsOfHost};

use lab_store_files::FileFault;
use std::alloc::{AllocError, Global};
use std::fs;
use std::io::ErrorKind;

/// The paths of a file, of its log, and of the journal that another program may have left.
#[derive(Drop)]
pub(crate) struct Places {
    pub(crate) file: String,
    pub(crate) log: String,
    pub(crate) journal: String,
}

impl Places {
    // The paths for the file at a path. Fails only if memory runs out.
    fn at(alloc: Global, path: &str) -> Result<Places, AllocError> {
        let file = String::from_str(alloc, path)?;
        let log = path_behind(alloc, path, "-wal")?;
        let journal = path_behind(alloc, path, "-journal")?;
        Ok(Places { file, log, journal })
    }

    /// Returns the paths for the file at a path on which no link lies.
    pub(crate) fn of(alloc: Global, path: &str) -> Result<Places, FileFault>
        ensures { IfErr result IsOfHost }
    {
        match Places::at(alloc, path) {
            Ok(places) => Ok(places),
            Err(_) => Err(FileFault::Memory),
        }
    }
}

// A path followed by this ending.
fn path_behind(alloc: Global, path: &str, ending: &str) -> Result<String, AllocError> {
    let mut longer = String::from_str(alloc, path)?;
    longer.push_str(ending)?;
    Ok(longer)
}

/// Returns where the file at a path lies, whatever links lead there; if there is no file, where it
/// would be made.
///
/// # Errors
/// A link on the path leads nowhere, its folder doesn't exist or can't be read, or memory ran out.
pub(crate) fn places_of(rt: &HostRuntime, alloc: Global, path: &str) -> Result<Places, FileFault>
    ensures { IfErr result IsOfHost }
{
    match fs::canonicalize(rt, path) {
        Ok(real) => Places::of(alloc, real.as_str()),
        Err(error) => match error.kind() {
            ErrorKind::OutOfMemory => Err(FileFault::Memory),
            ErrorKind::NotFound => places_of_none(rt, alloc, path),
            _ => Err(FileFault::Storage),
        },
    }
}

// Where a file would be made at a path without one.
fn places_of_none(rt: &HostRuntime, alloc: Global, path: &str) -> Result<Places, FileFault>
    ensures { IfErr result IsOfHost }
{
    if fs::symlink_metadata(rt, path).is_ok() {
        return Err(FileFault::Storage);
    }
    let (folder, name) = path.rsplit_once('/').unwrap_or((".", path));
    let folder = if folder.is_empty() { "/" } else { folder };
    let real = match fs::canonicalize(rt, folder) {
        Ok(real) => real,
        Err(error) if error.kind() == ErrorKind::OutOfMemory => return Err(FileFault::Memory),
        Err(_) => return Err(FileFault::Storage),
    };
    let folder = real.as_str();
    match format!(in alloc; "{folder}/{name}") {
        Ok(path) => Places::of(alloc, path.as_str()),
        Err(_) => Err(FileFault::Memory),
    }
}
