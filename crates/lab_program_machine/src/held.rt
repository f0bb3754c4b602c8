//! A file and its log, held: nobody else has them open, and the disk has what they show.

ghost use Rattle.std.specs.Prelude.{IfErr, IfOk, true, false};
ghost use Rattle.sqlite_std_file.specs.File.{IsFresh};
ghost use Rattle.sqlite.specs.Held.{state};
ghost use Rattle.sqlite.specs.Files.{over_files};
ghost use Rattle.sqlite_wal.specs.Files.{image_at};
ghost use Rattle.lab_store_tables.specs.Ready.{IsAtRest};
ghost use Rattle.lab_program_opening.specs.Files.{AreHeldIn, Finds};
ghost use Rattle.lab_program_machine.specs.Private.HostFaults.{IsOfHost};

use crate::hosts::{HostVolume, Supposed};
use crate::places::Places;
use lab_program_host::{Renewable, renew};
use lab_store_files::FileFault;
use sqlite::{Connection, FileFrom, FileStore, Files, Options, Start};
use sqlite_std_file::{OpenError, open};
use std::alloc::Global;
use std::fs::{File, OpenOptions};
use std::hash::{BuildHasher, RandomState};
use std::io::{self, ErrorKind};
use std::os::unix::fs::FileExt;

/// The length of a file that was just made, which has one page. Its first byte is written last.
const ONE_PAGE: u64 = 4096;

/// A file and its log, as the store opened them just now. Nobody else has them open.
#[derive(Drop)]
pub(crate) struct Held<S: Start> {
    pub(crate) files: Files<FileFrom<S>>,
    ghost log_is_fresh: { IsFresh true files.log },
    ghost file_is_fresh: { IsFresh false files.db },
}

/// The bytes of a file of this machine, up to a greatest number.
#[derive(Drop)]
struct HostBytes {
    file: File,
    most: usize,
}

// A contract can't say what a file of this machine holds, so nothing is known of it. Each method
// makes the calls that its name says (pread(2), pwrite(2), fdatasync(2)).
impl Renewable for HostBytes {
    ghost use Rattle.std.specs.Prelude.{[]};

    ghost seen = { λ _. [] };

    ghost written = { λ _ _. Unit {0} };

    ghost may_leave = { λ _ _. ⊥ };

    ghost is_honest = { λ _. ⊥ };

    fn length(&mut self) -> io::Result<usize> {
        let length = self.file.metadata()?.len() as usize;
        Ok(length.min(self.most))
    }

    fn read(&mut self, at: usize, bytes: &mut [u8]) -> io::Result<()> {
        self.file.read_exact_at(bytes, at as u64)
    }

    fn write(&mut self, at: usize, bytes: &[u8]) -> io::Result<()> {
        self.file.write_all_at(bytes, at as u64)
    }

    fn sync(&mut self) -> io::Result<()> {
        self.file.sync_data()
    }
}

/// Returns the fault for files that can't be held.
pub(crate) fn fault_of_holding(error: &OpenError) -> FileFault
    ensures { IsOfHost result }
{
    match error {
        OpenError::OutOfMemory => FileFault::Memory,
        OpenError::Io(error) if error.kind() == ErrorKind::OutOfMemory => FileFault::Memory,
        OpenError::Io(_) | OpenError::Busy | OpenError::HotJournal => FileFault::Storage,
    }
}

impl<'a, S: Supposed> HostVolume<'a, S> {
    /// Holds a file and its log. Makes those that are missing.
    pub(crate) fn held(&self, places: &Places) -> Result<Held<S>, OpenError> {
        let files = open(self.rt, places.file.as_str(), self.start.again())?;
        Ok(Held { files })
    }

    // Writes the bytes of the file at a path again in place, up to a greatest number, and
    // synchronizes the file.
    fn renew_bytes(&self, path: &str, most: usize) -> Result<(), FileFault>
        ensures { IfErr result IsOfHost }
    {
        let mut options = OpenOptions::new();
        options.read(true).write(true);
        let Ok(file) = options.open(self.rt, path) else {
            return Err(FileFault::Storage);
        };
        let mut bytes = HostBytes { file, most };
        match renew(&mut bytes) {
            Ok(()) => Ok(()),
            Err(_) => Err(FileFault::Storage),
        }
    }

    /// Puts on the disk what a file and its log show, while they are held: a failed sync may have
    /// left bytes that are read but that no disk has. For a file that was just made, only its first
    /// byte is written, since a commit is in the log until all of it is in the file.
    pub(crate) fn renew_both(&self, places: &Places) -> Result<(), FileFault>
        ensures { IfErr result IsOfHost }
    {
        let file = places.file.as_str();
        if self
            .stat(file)
            .is_some_and(|found| found.length() <= ONE_PAGE)
        {
            self.renew_bytes(file, 1)?;
        }
        if self.has_commits(places.log.as_str()) {
            self.renew_bytes(places.log.as_str(), usize::MAX)?;
        }
        Ok(())
    }
}

// The options with a number for the salts of a log, which nobody can predict.
fn options(rt: &HostRuntime) -> Result<Options, FileFault>
    ensures { IfErr result IsOfHost }
{
    match RandomState::new(rt) {
        Ok(state) => Ok(Options::new(state.hash_one(&0u8))),
        Err(_) => Err(FileFault::Storage),
    }
}

/// Returns a connection over files that are held. If the store refuses them, they are handed back,
/// still held, unless nothing was read from them.
pub(crate) fn connection_over<S: Supposed>(
    rt: &HostRuntime,
    alloc: Global,
    held: Held<S>,
) -> Result<Connection<FileStore<FileFrom<S>>>, (FileFault, Files<FileFrom<S>>)>
    ensures at_rest { IfOk result (λ conn. IsAtRest (state over_files conn)) }
    ensures found { IfOk result (Finds over_files (AreHeldIn (image_at S.Start))) }
    ensures fault { IfErr result (λ fault. IsOfHost fault.0) }
{
    let Held { files } = held;
    let options = match options(rt) {
        Ok(options) => options,
        Err(fault) => return Err((fault, files)),
    };
    match Connection::open_files_with(alloc, files, options, false) {
        Ok(mut conn) => {
            conn.set_clock(rt);
            Ok(conn)
        }
        Err((error, left)) => Err((FileFault::from(error), left.into_files())),
    }
}
