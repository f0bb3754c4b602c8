//! Why a file was not moved.

ghost use Rattle.std.specs.Prelude.{◌≡◌, Some};
ghost use Rattle.lab_move.specs.Faults.{move_fault_entry, read_told};
ghost use Rattle.lab_move.specs.declared.faults.MoveFault.TheVariants.{File};

use lab_forms_texts::LabCode;
use lab_store_files::FileFault;
use lab_store_read::ReadFault;
use std::fmt;
use thiserror::Error;

/// Why a file was not moved. The old file is as it was. Its text is its word.
#[derive(Debug, Drop, Error)]
pub enum MoveFault {
    /// The new file isn't empty, one of the two files refused, or memory ran out.
    File(FileFault),
    /// The rows of a laboratory of the old file aren't well kept, or it isn't bound or not under
    /// dual control.
    NotSound {
        /// The laboratory, the first such one in the order of the codes' bytes.
        lab: LabCode,
    },
}

impl MoveFault {
    fn entry(&self) -> (Option<u32>, &'static str)
        ensures number { result.0 ≡ Some (move_fault_entry self.now).number }
        ensures word { result.1.now ≡ (move_fault_entry self.now).word }
    {
        match self {
            MoveFault::File(fault) => (fault.number(), fault.word()),
            MoveFault::NotSound { .. } => (Some(66), "not_sound"),
        }
    }

    /// The number of the fault.
    pub fn number(&self) -> Option<u32>
        ensures { result ≡ Some (move_fault_entry self.now).number }
    {
        self.entry().0
    }

    /// The word that names the fault.
    pub fn word(&self) -> &'static str
        ensures { result.now ≡ (move_fault_entry self.now).word }
    {
        self.entry().1
    }
}

impl fmt::Display for MoveFault {
    ghost use Rattle.std.specs.Prelude.{Some};
    ghost use Rattle.lab_move.specs.Faults.{move_fault_entry};

    ghost output = { λ fault. Some (move_fault_entry fault).word };

    fn fmt<W: fmt::Write>(&self, f: &mut fmt::Formatter<W>) -> fmt::Result {
        f.write_str(self.word())
    }
}

/// For a fault of the old or the new file.
impl From<FileFault> for MoveFault {
    ghost from_gives = { λ fault gives. gives ≡ File fault };

    fn from(fault: FileFault) -> MoveFault {
        MoveFault::File(fault)
    }
}

/// For a fault of reading or writing rows.
impl From<ReadFault> for MoveFault {
    ghost from_gives = { λ fault gives. gives ≡ File (read_told fault) };

    fn from(fault: ReadFault) -> MoveFault {
        MoveFault::File(store_fault(fault))
    }
}

/// A fault of reading or writing rows, as a fault of a file.
pub(crate) fn store_fault(fault: ReadFault) -> FileFault
    ensures { result ≡ read_told fault }
{
    match fault {
        ReadFault::Refused(_) => FileFault::Storage,
        ReadFault::Memory => FileFault::Memory,
    }
}
