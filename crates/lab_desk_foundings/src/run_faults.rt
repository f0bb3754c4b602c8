//! Why a run ended before its last event, and why a request was not served whole.

ghost use Rattle.std.specs.Prelude.{◌≡◌, None};
ghost use Rattle.lab_desk_foundings.specs.RunFaults.{run_fault_number, run_fault_word, serve_fault_word};

use lab_forms_texts::OutOfMemory;
use std::fmt;
use thiserror::Error;

/// Why a run ended before its last event. A fault is printed as its word.
#[derive(Debug, Drop, Error)]
pub enum RunFault {
    /// Memory ran out for the list that a run returns. Nothing was handled or written.
    Memory,
    /// A write failed, or took no byte. The event whose answer was being written was handled, and
    /// those after it were not.
    Write {
        /// For each event up to and including the one whose answer was cut, whether it was taken.
        taken: Vec<bool>,
        /// How many bytes of that answer were written.
        sent: usize,
    },
}

impl RunFault {
    /// Returns the number of the fault: 90 if memory ran out, `None` for a write fault.
    pub fn number(&self) -> Option<u32>
        ensures { result ≡ run_fault_number self.now }
    {
        match self {
            RunFault::Memory => OutOfMemory.number(),
            RunFault::Write { .. } => None,
        }
    }

    /// Returns the word of the fault.
    pub fn word(&self) -> &'static str
        ensures { result.now ≡ run_fault_word self.now }
    {
        match self {
            RunFault::Memory => OutOfMemory.word(),
            RunFault::Write { .. } => "write_fault",
        }
    }
}

impl fmt::Display for RunFault {
    ghost use Rattle.std.specs.Prelude.{Some};
    ghost use Rattle.lab_desk_foundings.specs.RunFaults.{run_fault_word};

    ghost output = { λ fault. Some (run_fault_word fault) };

    fn fmt<W: fmt::Write>(&self, f: &mut fmt::Formatter<W>) -> fmt::Result {
        f.write_str(self.word())
    }
}

/// Why a request was not served whole. A fault is printed as its word.
#[derive(Clone, Copy, Debug, PartialEq, Eq, Error)]
pub enum ServeFault {
    /// The reader failed before the whole request came. It was not answered, and nothing was
    /// changed.
    Read,
    /// A write of the interim answer failed, or took no byte. Nothing was changed.
    Interim {
        /// How many of its bytes were sent before.
        sent: usize,
    },
    /// A write of the reply failed, or took no byte. The request was handled all the same.
    Reply {
        /// How many of the reply's bytes were sent before.
        sent: usize,
    },
}

impl ServeFault {
    /// Returns `None`: the fault has no number, because no reply can report it.
    pub fn number(&self) -> Option<u32>
        ensures { result ≡ None }
    {
        None
    }

    /// Returns the word of the fault.
    pub fn word(&self) -> &'static str
        ensures { result.now ≡ serve_fault_word self.now }
    {
        match self {
            ServeFault::Read => "read_fault",
            ServeFault::Interim { .. } | ServeFault::Reply { .. } => "write_fault",
        }
    }
}

impl fmt::Display for ServeFault {
    ghost use Rattle.std.specs.Prelude.{Some};
    ghost use Rattle.lab_desk_foundings.specs.RunFaults.{serve_fault_word};

    ghost output = { λ fault. Some (serve_fault_word fault) };

    fn fmt<W: fmt::Write>(&self, f: &mut fmt::Formatter<W>) -> fmt::Result {
        f.write_str(self.word())
    }
}
