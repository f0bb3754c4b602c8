//! The place of the files of laboratories, and the advice for a person when a task over a file
//! stops.

ghost use Rattle.std.specs.Prelude.{◌≡◌, false, IfErr, IfOk, IsTrue, Ok, ℕ, List};
ghost use Rattle.sqlite.specs.Held.{state};
ghost use Rattle.lab_store_tables.specs.Ready.{IsAtRest};
ghost use Rattle.lab_program_opening.specs.Files.{Finds};
ghost use Rattle.lab_program_opening.specs.Volumes.{FileAt, IsRefusedBy};

use crate::additions::Additions;
use crate::faults::OpenFault;
use crate::trouble::Trouble;
use lab_store_files::FileFault;
use sqlite::{Alter, Connection};
use std::alloc::Global;

/// A place where files lie, each at a path, and the advice for a person when a task over a file
/// stops.
pub trait Volume {
    /// What keeps a file.
    type Disk: Alter + Drop;

    /// What is known of the file at a path.
    ghost file: { Self → List ℕ → FileAt };

    /// Returns whether a file exists at the path that isn't empty, and whose making wasn't cut off.
    ///
    /// # Errors
    /// The file couldn't be read.
    fn has(&self, path: &str) -> Result<bool, FileFault>
        ensures none { result ≡ Ok false →
            IsRefusedBy (file self.now path.now) (OpenFault.File FileFault.NotADeskFile) }
        ensures fault { IfErr result (λ fault.
            IsRefusedBy (file self.now path.now) (OpenFault.File fault)) };

    /// Returns a connection to the file at the path, which shows what the file held. Makes the
    /// file, without a table, if there is none or an empty one. A refused file is unchanged.
    ///
    /// # Errors
    /// The file isn't a database, or is the old file of a move, or the source of random words
    /// failed, or the store failed, or a log exists without its file, or memory ran out.
    fn connect(&mut self, alloc: Global, path: &str) -> Result<Connection<Self::Disk>, OpenFault>
        ensures at_rest { IfOk result (λ conn. IsAtRest (state Self.Disk.Store conn)) }
        ensures found { IfOk result (Finds Self.Disk.Store (file self.old path.now).holds) }
        ensures fault { IfErr result (IsRefusedBy (file self.old path.now)) };

    /// Returns a connection to the old file at the path, which shows what the file and its log
    /// held. A copy of both is opened. This copy lies beside the path of a new file until it is
    /// open, and at no path from then on. So nothing is written to the old file, and nothing is
    /// left beside it. The old and the new file are held from then on, so that no other program
    /// writes the old file or moves into the new one.
    ///
    /// # Errors
    /// The file isn't a database, another process holds it, it couldn't be copied, the source of
    /// random words failed, the store failed, or memory ran out.
    fn connect_old(
        &mut self,
        alloc: Global,
        path: &str,
        new: &str,
    ) -> Result<Connection<Self::Disk>, OpenFault>
        ensures at_rest { IfOk result (λ conn. IsAtRest (state Self.Disk.Store conn)) }
        ensures found { IfOk result (Finds Self.Disk.Store (file self.old path.now).holds) }
        ensures fault { IfErr result (IsRefusedBy (file self.old path.now)) };

    /// Releases the new file that is held for a move which isn't made. Removes the file if it was
    /// made for the move.
    fn leave_new(&mut self);

    /// Returns whether the file of the last connection still lies at the path, with its log beside
    /// it, and neither is shorter than at the last such check.
    fn is_there(&mut self, path: &str) -> bool;

    /// Returns whether the file of the last connection, or its log, still lies at its path and is
    /// shorter.
    fn is_cut(&self, path: &str) -> bool
        ensures { IsTrue result → (file self.now path.now).is_cut };

    /// Notes that the connection was closed, which may make the log shorter.
    fn forget(&mut self);

    /// Removes the log that the last connection made beside its file, if there was none before. The
    /// file was refused, and the connection isn't closed yet.
    fn tidy(&mut self);

    /// Notes bytes that aren't a founding, for the advice.
    fn note(&mut self, alloc: Global, body: &[u8]);

    /// Prints, in a line on standard error, what another program added to the file at the path.
    fn remark(&mut self, path: &str, additions: Additions);

    /// Prints a line for a person at a terminal: which laboratory is being moved, and its number
    /// among all.
    fn tell_move(&mut self, lab: &str, number: usize, all: usize);

    /// Prints a line for a person at a terminal, which the next such line overwrites: how many of
    /// the laboratory's records are moved, and how many records it has.
    fn tell_records(&mut self, done: usize, all: usize);

    /// Prints a line for a person at a terminal: what to do about the trouble.
    fn advise(&mut self, trouble: Trouble<'_>);
}
