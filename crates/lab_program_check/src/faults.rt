//! Why a check stopped before it could print what it found.
ghost use Rattle.std.specs.Prelude.{◌≡◌};
ghost use Rattle.lab_program_check.specs.Verdicts.{stop_number, stop_word, stop_line};

use lab_copy::OutOfMemory;
use std::fmt;
use thiserror::Error;

/// Why a check stopped before it could print what it found. A fault is printed as its word.
#[derive(Clone, Copy, Debug, PartialEq, Eq, Error)]
pub enum StopFault {
    /// The input could not be read.
    Read,
    /// The whole line could not be written.
    Write,
    /// Memory ran out.
    Memory,
}

impl From<OutOfMemory> for StopFault {
    ghost use Rattle.std.specs.Prelude.{◌≡◌};
    ghost use Rattle.lab_program_check.specs.declared.faults.StopFault.TheVariants.{Memory};

    ghost from_gives = { λ missing fault. fault ≡ Memory };

    fn from(_: OutOfMemory) -> StopFault {
        StopFault::Memory
    }
}

impl StopFault {
    /// Returns the number of the fault: 90 if memory ran out, `None` for the others.
    pub fn number(&self) -> Option<u32>
        ensures { result ≡ stop_number self.now }
    {
        match self {
            StopFault::Read | StopFault::Write => None,
            StopFault::Memory => OutOfMemory.number(),
        }
    }

    /// Returns the word of the fault.
    pub fn word(&self) -> &'static str
        ensures { result.now ≡ stop_word self.now }
    {
        match self {
            StopFault::Read => "read_fault",
            StopFault::Write => "write_fault",
            StopFault::Memory => "memory",
        }
    }

    /// Returns the line that is printed for the fault on standard error, with its line feed. Needs
    /// no memory.
    pub fn line(&self) -> &'static str
        ensures { result.now ≡ stop_line self.now }
    {
        match self {
            StopFault::Read => "labdesk: read_fault\n",
            StopFault::Write => "labdesk: write_fault\n",
            StopFault::Memory => "labdesk: memory\n",
        }
    }
}

impl fmt::Display for StopFault {
    ghost use Rattle.std.specs.Prelude.{Some};
    ghost use Rattle.lab_program_check.specs.Verdicts.{stop_word};

    ghost output = { λ fault. Some (stop_word fault) };

    fn fmt<W: fmt::Write>(&self, f: &mut fmt::Formatter<W>) -> fmt::Result {
        f.write_str(self.word())
    }
}
