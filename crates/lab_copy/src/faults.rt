//! Why a copy wasn't found sound.
ghost use Rattle.std.specs.Prelude.{◌≡◌};
ghost use Rattle.lab_copy.specs.Faults.{fault_number, fault_word};

use lab_copy_rows::{Flaw, OutOfMemory};
use std::fmt;
use thiserror::Error;

/// Why a copy wasn't found sound.
#[derive(Clone, Copy, Debug, PartialEq, Eq, Error)]
pub enum CopyFault {
    /// The copy has a flaw; this is the first one.
    Flawed(Flaw),
    /// The reader failed, was asked 1,000,000,000,000,000 times, or its rows didn't end
    /// within 1,000,000,000,000.
    Read,
    /// There was no memory for a version and its rows.
    Memory(OutOfMemory),
}

impl CopyFault {
    /// The number of the fault; `None` if the reader failed, since no reply can state that.
    pub fn number(&self) -> Option<u32>
        ensures { result ≡ fault_number self.now }
    {
        match self {
            CopyFault::Flawed(flaw) => flaw.number(),
            CopyFault::Read => None,
            CopyFault::Memory(fault) => fault.number(),
        }
    }

    /// The word of the fault.
    pub fn word(&self) -> &'static str
        ensures { result.now ≡ fault_word self.now }
    {
        match self {
            CopyFault::Flawed(flaw) => flaw.word(),
            CopyFault::Read => "read_fault",
            CopyFault::Memory(fault) => fault.word(),
        }
    }
}

impl fmt::Display for CopyFault {
    ghost use Rattle.std.specs.Prelude.{Some};
    ghost use Rattle.lab_copy.specs.Faults.{fault_word};

    ghost output = { λ fault. Some (fault_word fault) };

    fn fmt<W: fmt::Write>(&self, f: &mut fmt::Formatter<W>) -> fmt::Result {
        f.write_str(self.word())
    }
}

impl From<OutOfMemory> for CopyFault {
    ghost use Rattle.std.specs.Prelude.{◌≡◌};
    ghost use Rattle.lab_copy.specs.declared.faults.CopyFault.TheVariants.{Memory};

    ghost from_gives = { λ fault e. e ≡ Memory fault };

    fn from(fault: OutOfMemory) -> CopyFault {
        CopyFault::Memory(fault)
    }
}
