//! Why rows were not read.

ghost use Rattle.std.specs.Prelude.{◌≡◌, Some};
ghost use Rattle.lab_move_read_people.specs.Faults.{kept_fault, kept_fault_entry};
ghost use Rattle.lab_move_read_people.specs.declared.faults.KeptFault.TheVariants.{Memory as NoMemory};

use lab_forms_texts::{OutOfMemory, RefusalKind};
use lab_store_read::{BadStore, ReadFault};
use std::alloc::AllocError;
use std::fmt;
use thiserror::Error;

/// Why rows were not read. They are as they were. A fault is printed as its word.
#[derive(Clone, Copy, Debug, PartialEq, Eq, Error)]
pub enum KeptFault {
    /// They aren't well kept.
    NotKept,
    /// The store failed, or a row isn't one that a program could have written.
    Storage,
    /// Memory ran out.
    Memory,
}

impl KeptFault {
    /// Returns the number of the fault.
    pub fn number(&self) -> Option<u32>
        ensures { result ≡ Some (kept_fault_entry self.now).number }
    {
        match self {
            KeptFault::NotKept => Some(66),
            KeptFault::Storage => BadStore.number(),
            KeptFault::Memory => OutOfMemory.number(),
        }
    }

    /// Returns the word of the fault.
    pub fn word(&self) -> &'static str
        ensures { result.now ≡ (kept_fault_entry self.now).word }
    {
        match self {
            KeptFault::NotKept => "not_sound",
            KeptFault::Storage => BadStore.word(),
            KeptFault::Memory => OutOfMemory.word(),
        }
    }
}

impl fmt::Display for KeptFault {
    ghost use Rattle.std.specs.Prelude.{Some};
    ghost use Rattle.lab_move_read_people.specs.Faults.{kept_fault_entry};

    ghost output = { λ fault. Some (kept_fault_entry fault).word };

    fn fmt<W: fmt::Write>(&self, f: &mut fmt::Formatter<W>) -> fmt::Result {
        f.write_str(self.word())
    }
}

impl From<ReadFault> for KeptFault {
    ghost from_gives = { λ error fault. fault ≡ kept_fault error };

    fn from(error: ReadFault) -> KeptFault {
        match error {
            ReadFault::Refused(_) => KeptFault::Storage,
            ReadFault::Memory => KeptFault::Memory,
        }
    }
}

impl From<AllocError> for KeptFault {
    ghost from_gives = { λ _ fault. fault ≡ NoMemory };

    fn from(_error: AllocError) -> KeptFault {
        KeptFault::Memory
    }
}
