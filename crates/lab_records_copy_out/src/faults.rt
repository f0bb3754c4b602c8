//! Why a copy wasn't written whole.

ghost use Rattle.std.specs.Prelude.{◌≡◌};
ghost use Rattle.lab_records_copy_out.specs.Faults.{copy_fault_number, copy_fault_word};

use lab_copy_rows::CopyOutFault as RowFault;
use lab_forms_texts::OutOfMemory;
use lab_records_keeper::KeeperFault;
use std::fmt;
use thiserror::Error;

/// Why a copy wasn't written whole. The beginning of its text was written, or nothing. The text of
/// the fault is its word.
#[derive(Clone, Copy, Debug, PartialEq, Eq, Error)]
pub enum CopyOutFault {
    /// No laboratory has the code. Nothing was written.
    NoSuchLab,
    /// The store of the keeper failed.
    Storage,
    /// Memory ran out.
    Memory,
    /// The writer failed, or took no byte.
    Write,
}

impl CopyOutFault {
    fn entry(&self) -> (Option<u32>, &'static str)
        ensures number { result.0 ≡ copy_fault_number self.now }
        ensures word { result.1.now ≡ copy_fault_word self.now }
    {
        match self {
            CopyOutFault::NoSuchLab => (Some(40), "no_such_lab"),
            CopyOutFault::Storage => (Some(63), "storage"),
            CopyOutFault::Memory => (Some(90), "memory"),
            CopyOutFault::Write => (None, "write_fault"),
        }
    }

    /// The number of the fault; `None` if the writer failed, since no reply can state that.
    pub fn number(&self) -> Option<u32>
        ensures { result ≡ copy_fault_number self.now }
    {
        self.entry().0
    }

    /// The word of the fault.
    pub fn word(&self) -> &'static str
        ensures { result.now ≡ copy_fault_word self.now }
    {
        self.entry().1
    }
}

impl fmt::Display for CopyOutFault {
    ghost use Rattle.std.specs.Prelude.{Some};
    ghost use Rattle.lab_records_copy_out.specs.Faults.{copy_fault_word};

    ghost output = { λ fault. Some (copy_fault_word fault) };

    fn fmt<W: fmt::Write>(&self, f: &mut fmt::Formatter<W>) -> fmt::Result {
        f.write_str(self.word())
    }
}

impl From<KeeperFault> for CopyOutFault {
    ghost use Rattle.std.specs.Prelude.{◌≡◌};
    ghost use Rattle.lab_records_copy_out.specs.Faults.{keeper_told};

    ghost from_gives = { λ fault told. told ≡ keeper_told fault };

    fn from(fault: KeeperFault) -> CopyOutFault {
        match fault {
            KeeperFault::Refused(_) => CopyOutFault::Storage,
            KeeperFault::Memory => CopyOutFault::Memory,
        }
    }
}

impl From<RowFault> for CopyOutFault {
    ghost use Rattle.std.specs.Prelude.{◌≡◌};
    ghost use Rattle.lab_records_copy_out.specs.Faults.{row_told};

    ghost from_gives = { λ fault told. told ≡ row_told fault };

    fn from(fault: RowFault) -> CopyOutFault {
        match fault {
            RowFault::Write => CopyOutFault::Write,
            RowFault::Memory => CopyOutFault::Memory,
        }
    }
}

impl From<OutOfMemory> for CopyOutFault {
    ghost use Rattle.std.specs.Prelude.{◌≡◌};
    ghost use Rattle.lab_records_copy_out.specs.declared.faults.CopyOutFault.TheVariants.{Memory};

    ghost from_gives = { λ _ told. told ≡ Memory };

    fn from(_error: OutOfMemory) -> CopyOutFault {
        CopyOutFault::Memory
    }
}
