//! What stopped a task, for the advice to a person.

use crate::faults::{FoundingFault, OpenFault};
use lab_records_copy_out::CopyOutFault;
use lab_store_files::FileFault;

/// What stopped a task, with the paths and codes that its words named.
#[derive(Clone, Copy, Debug, PartialEq, Eq)]
pub enum Trouble<'a> {
    /// No task was begun over the file at the path.
    Opening(&'a str, OpenFault),
    /// No laboratory was founded in the file at the path, or the founding could not be printed.
    Founding(&'a str, FoundingFault),
    /// No whole copy of the file at the path was written.
    Copying(&'a str, CopyOutFault),
    /// The old file at the first path wasn't opened to be moved to the second path.
    Old(&'a str, &'a str, OpenFault),
    /// The new file at the path wasn't opened.
    New(&'a str, OpenFault),
    /// Not everything in the old file at the first path was moved to the new file at the second
    /// path.
    Moving(&'a str, &'a str, FileFault),
    /// In the old file at the first path, the laboratory with this code isn't sound, so the new
    /// file at the last path holds only a part.
    Unsound(&'a str, &'a str, &'a str),
    /// The port can't be listened at.
    AtPort(u16),
    /// The text isn't a code of a laboratory.
    OfCode(&'a str),
    /// Nothing stopped: a founding is read from standard input, which may be the terminal.
    FoundingAwaited,
    /// Nothing stopped: a copy is read from standard input, which may be the terminal.
    CopyAwaited,
    /// Nothing stopped: events are read from standard input, which may be the terminal.
    EventsAwaited,
    /// The copy on standard input has this flaw, and at this row if the flaw has one.
    Flawed(&'a str, Option<u64>),
}
