//! Copies an old file and its log, so that neither is written when they are read.

ghost use Rattle.std.specs.Prelude.{IfErr, IfOk};
ghost use Rattle.sqlite.specs.Held.{state};
ghost use Rattle.sqlite.specs.Files.{over_files};
ghost use Rattle.sqlite_wal.specs.Files.{image_at};
ghost use Rattle.lab_store_tables.specs.Ready.{IsAtRest};
ghost use Rattle.lab_program_opening.specs.Files.{AreHeldIn, Finds};
ghost use Rattle.lab_program_machine.specs.Private.HostFaults.{IsOfHost};

use crate::held::{connection_over, fault_of_holding};
use crate::hosts::{HostVolume, Supposed};
use crate::places::{Places, places_of};
use crate::stats::Stat;
use lab_program_opening::Volume;
use lab_store_files::FileFault;
use os::{RangeLock, try_lock_range};
use sqlite::{Connection, FileFrom, FileStore};
use sqlite_std_file::OpenError;
use std::alloc::Global;
use std::fs::{self, File, OpenOptions};
use std::io::{self, ErrorKind};
use std::os::fd::AsRawFd;
use std::os::unix::fs::OpenOptionsExt;

/// The text in the path of an old file's copy after the path of the new file, before a random
/// number.
const ASIDE: &str = "-migrating-";

/// The first byte at which SQLite locks a file, and how many bytes it locks there (SQLite, 'File
/// Locking And Concurrency', 3.0; 'Database File Format', 1.3, 'The Lock-Byte Page').
const PENDING_BYTE: u64 = 1 << 30;

const LOCK_BYTES: u64 = 512;

/// The copy of an old file: where it lies, and which file was written there.
#[derive(Drop)]
pub(crate) struct Aside {
    pub(crate) places: Places,
    written: Stat,
}

// Whether the system forbade the call to this user, or to everybody.
fn is_forbidden(kind: ErrorKind) -> bool {
    matches!(
        kind,
        ErrorKind::PermissionDenied | ErrorKind::ReadOnlyFilesystem
    )
}

impl<'a, S: Supposed> HostVolume<'a, S> {
    // Checks an old file before it is copied. Makes nothing if there is none.
    fn look_at_old(&self, path: &str) -> Result<(), FileFault>
        ensures { IfErr result IsOfHost }
    {
        match fs::metadata(self.rt, path) {
            Ok(found) if found.is_file() && found.len() > 0 => self.look_inside(path),
            Ok(_) | Err(_) => Err(FileFault::NotADeskFile),
        }
    }

    // Holds an old file and its log to the end of the move, so that nobody else writes them
    // meanwhile. A file that this user may not write is held so that others may only read it. A
    // file is refused if it can't be held at all, or if there is a journal that must be played
    // back.
    fn hold_old(&mut self, places: &Places) -> Result<(), FileFault>
        ensures { IfErr result IsOfHost }
    {
        let had_log = self.stat(places.log.as_str()).is_some();
        match self.held(places) {
            Ok(held) => {
                if !had_log {
                    self.remove(places.log.as_str());
                }
                self.old_held = Some(held);
                Ok(())
            }
            Err(OpenError::Io(error)) if is_forbidden(error.kind()) => self.hold_to_read(places),
            Err(error) => Err(fault_of_holding(&error)),
        }
    }

    // Holds a file that this user may only read: nobody may write it meanwhile.
    fn hold_to_read(&mut self, places: &Places) -> Result<(), FileFault>
        ensures { IfErr result IsOfHost }
    {
        if self.stat(places.journal.as_str()).is_some() {
            return Err(FileFault::Storage);
        }
        let Ok(file) = File::open(self.rt, places.file.as_str()) else {
            return Err(FileFault::Storage);
        };
        if try_lock_range(
            file.as_raw_fd(),
            RangeLock::Shared,
            PENDING_BYTE,
            LOCK_BYTES,
        ) != 0
        {
            return Err(FileFault::Storage);
        }
        self.old_read = Some(file);
        Ok(())
    }

    // Copies a file to a path where nothing is, and returns which file was written. Only its owner
    // may read the copy.
    fn copy_file(&self, from: &str, to: &str) -> Result<Stat, FileFault>
        ensures { IfErr result IsOfHost }
    {
        let mut options = OpenOptions::new();
        options.write(true).create_new(true).mode(0o600);
        let Ok(mut source) = File::open(self.rt, from) else {
            return Err(FileFault::Storage);
        };
        let Ok(mut target) = options.open(self.rt, to) else {
            return Err(FileFault::Storage);
        };
        let copied = io::copy(&mut source, &mut target);
        match (copied, target.metadata()) {
            (Ok(_), Ok(written)) => Ok(Stat::of(&written)),
            _ => {
                self.remove(to);
                Err(FileFault::Storage)
            }
        }
    }

    // Copies a log, if there is one that may hold a commit, and its file.
    fn copy_both(&self, from: &Places, to: &Places) -> Result<Stat, FileFault>
        ensures { IfErr result IsOfHost }
    {
        if self.has_commits(from.log.as_str()) {
            self.copy_file(from.log.as_str(), to.log.as_str())?;
        }
        match self.copy_file(from.file.as_str(), to.file.as_str()) {
            Ok(written) => Ok(written),
            Err(fault) => {
                self.remove(to.log.as_str());
                Err(fault)
            }
        }
    }

    // The place of the copy of an old file: beside the new file, under a name that no other move
    // has.
    fn aside(&self, alloc: Global, new: &str, word: u64) -> Result<Places, FileFault>
        ensures { IfErr result IsOfHost }
    {
        match format!(in alloc; "{new}{ASIDE}{word}") {
            Ok(path) => places_of(self.rt, alloc, path.as_str()),
            Err(_) => Err(FileFault::Memory),
        }
    }

    // Copies the old file, which is held, beside the new one.
    fn copied_aside(
        &mut self,
        alloc: Global,
        from: &Places,
        new: &str,
        word: u64,
    ) -> Result<Aside, FileFault>
        ensures { IfErr result IsOfHost }
    {
        self.hold_old(from)?;
        self.hold_new(alloc, new);
        let places = self.aside(alloc, new, word)?;
        let written = self.copy_both(from, &places)?;
        Ok(Aside { places, written })
    }

    /// Copies the old file at a path, and its log, beside the path of a new one. Both files are
    /// held from then on.
    pub(crate) fn copy_aside(
        &mut self,
        alloc: Global,
        path: &str,
        new: &str,
        word: u64,
    ) -> Result<Aside, FileFault>
        ensures { IfErr result IsOfHost }
    {
        self.look_at_old(path)?;
        let from = places_of(self.rt, alloc, path)?;
        self.old = self.stat(from.file.as_str());
        let to = places_of(self.rt, alloc, new)?;
        if to.file == from.log || to.file == from.journal {
            return Err(FileFault::Storage);
        }
        let copied = self.copied_aside(alloc, &from, new, word);
        if copied.is_err() {
            self.leave_new();
        }
        copied
    }

    /// Returns a connection to the copy of an old file. The connection is to the file that was
    /// written.
    pub(crate) fn copy_connected(
        &self,
        alloc: Global,
        copy: &Aside,
    ) -> Result<Connection<FileStore<FileFrom<S>>>, FileFault>
        ensures at_rest { IfOk result (λ conn. IsAtRest (state over_files conn)) }
        ensures found { IfOk result (Finds over_files (AreHeldIn (image_at S.Start))) }
        ensures fault { IfErr result IsOfHost }
    {
        let held = match self.held(&copy.places) {
            Ok(held) => held,
            Err(error) => return Err(fault_of_holding(&error)),
        };
        let found = self.stat(copy.places.file.as_str());
        if !found.is_some_and(|found| found.is_same(&copy.written)) {
            return Err(FileFault::Storage);
        }
        match connection_over(self.rt, alloc, held) {
            Ok(conn) => Ok(conn),
            Err((fault, _)) => Err(fault),
        }
    }

    pub(crate) fn remove(&self, path: &str) {
        let _ = fs::remove_file(self.rt, path);
    }

    /// Removes the paths of a copy. A program that has the copy open can still use it.
    pub(crate) fn take_away(&self, places: &Places) {
        self.remove(places.file.as_str());
        self.remove(places.log.as_str());
    }
}
