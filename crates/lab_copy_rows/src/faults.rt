//! Why a copy wasn't written whole.
ghost use Rattle.std.specs.Prelude.{◌≡◌};
ghost use Rattle.lab_copy_rows.specs.Faults.{out_fault_number, out_fault_word};

use crate::OutOfMemory;
use std::fmt;
use thiserror::Error;

/// Why a copy wasn't written whole. The beginning of its text was written. A fault is printed as
/// its word.
#[derive(Clone, Copy, Debug, PartialEq, Eq, Error)]
pub enum CopyOutFault {
    /// The writer failed, or took no byte.
    Write,
    /// There was no memory for the bytes of a row.
    Memory,
}

impl CopyOutFault {
    /// Returns the number of the fault: 90 if memory ran out, `None` for a write fault.
    pub fn number(&self) -> Option<u32>
        ensures { result ≡ out_fault_number self.now }
    {
        match self {
            CopyOutFault::Write => None,
            CopyOutFault::Memory => OutOfMemory.number(),
        }
    }

    /// Returns the word of the fault.
    pub fn word(&self) -> &'static str
        ensures { result.now ≡ out_fault_word self.now }
    {
        match self {
            CopyOutFault::Write => "write_fault",
            CopyOutFault::Memory => OutOfMemory.word(),
        }
    }
}

impl fmt::Display for CopyOutFault {
    ghost use Rattle.std.specs.Prelude.{Some};
    ghost use Rattle.lab_copy_rows.specs.Faults.{out_fault_word};

    ghost output = { λ fault. Some (out_fault_word fault) };

    fn fmt<W: fmt::Write>(&self, f: &mut fmt::Formatter<W>) -> fmt::Result {
        f.write_str(self.word())
    }
}

impl From<OutOfMemory> for CopyOutFault {
    ghost use Rattle.std.specs.Prelude.{◌≡◌};
    ghost use Rattle.lab_copy_rows.specs.declared.faults.CopyOutFault.TheVariants.{Memory};

    ghost from_gives = { λ _ fault. fault ≡ Memory };

    fn from(_error: OutOfMemory) -> CopyOutFault {
        CopyOutFault::Memory
    }
}
