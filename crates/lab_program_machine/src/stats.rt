//! Which file lies at a path, and how long it is (stat(2)).

use std::fs::Metadata;
use std::os::unix::fs::MetadataExt;

/// A file: its device, its number there, and its length.
#[derive(Clone, Copy, Debug, PartialEq, Eq)]
pub(crate) struct Stat {
    device: u64,
    number: u64,
    length: u64,
}

impl Stat {
    /// Returns the `Stat` of a file that was found.
    pub(crate) fn of(found: &Metadata) -> Stat {
        Stat {
            device: found.dev(),
            number: found.ino(),
            length: found.len(),
        }
    }

    /// Returns the number of its bytes.
    pub(crate) fn length(&self) -> u64 {
        self.length
    }

    /// Returns the same file, with nothing known about its length.
    pub(crate) fn of_no_length(self) -> Stat {
        Stat { length: 0, ..self }
    }

    /// Returns whether it is the same file, of any length.
    pub(crate) fn is_same(&self, other: &Stat) -> bool {
        self.device == other.device && self.number == other.number
    }

    /// Whether it is the same file, and no shorter than it was.
    fn goes_on(&self, before: &Stat) -> bool {
        self.is_same(before) && self.length >= before.length
    }
}

/// The file of the connection and its log, as they were when they were last checked. Neither
/// becomes shorter while the connection lasts.
#[derive(Drop)]
pub(crate) struct Connected {
    pub(crate) file: Stat,
    pub(crate) log: Stat,
    pub(crate) log_path: String,
}

impl Connected {
    /// Returns whether both lie at their paths, and neither was cut. Notes their lengths.
    pub(crate) fn are_there(&mut self, file: Option<Stat>, log: Option<Stat>) -> bool {
        let (Some(file), Some(log)) = (file, log) else {
            return false;
        };
        let are = file.goes_on(&self.file) && log.goes_on(&self.log);
        if are {
            self.file = file;
            self.log = log;
        }
        are
    }

    /// Returns whether one of them lies at its path, and was cut.
    pub(crate) fn are_cut(&self, file: Option<Stat>, log: Option<Stat>) -> bool {
        file.is_some_and(|now| now.is_same(&self.file) && !now.goes_on(&self.file))
            || log.is_some_and(|now| now.is_same(&self.log) && !now.goes_on(&self.log))
    }
}
