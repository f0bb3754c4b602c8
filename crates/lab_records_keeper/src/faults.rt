//! Why a call on a keeper failed: its store failed, memory ran out, or the laboratory to be founded
//! already exists.

ghost use Rattle.std.specs.Prelude.{◌≡◌, Some};
ghost use Rattle.lab_records_keeper.specs.declared.faults.PlacingFault.TheVariants.{Memory as NoMemory};
ghost use Rattle.lab_records_keeper.specs.Faults.{placing_fault_entry};

use lab_forms_texts::{Fault, OutOfMemory, RefusalKind};
use std::alloc::{AllocError, AllocFailed};
use std::fmt;
use thiserror::Error;

/// The store failed. The refusal is printed as its word.
#[derive(Clone, Copy, Debug, PartialEq, Eq, Error)]
pub struct BadStore;

impl RefusalKind for BadStore {
    ghost use Rattle.lab_records_keeper.specs.Faults.{storage_entry};

    ghost listed = { λ _. storage_entry };

    fn entry(&self) -> (u32, &'static str) {
        (63, "storage")
    }
}

impl fmt::Display for BadStore {
    ghost use Rattle.std.specs.Prelude.{Some};
    ghost use Rattle.lab_records_keeper.specs.Faults.{storage_entry};

    ghost output = { λ _. Some storage_entry.word };

    fn fmt<W: fmt::Write>(&self, f: &mut fmt::Formatter<W>) -> fmt::Result {
        f.write_str(self.word())
    }
}

/// Why a read or a change of a keeper failed. Nothing was changed, unless a fault has shut the
/// keeper. Its text is its word.
pub type KeeperFault = Fault<BadStore>;

/// Why a founding by a keeper failed. Nothing was changed, unless a fault has shut the keeper. Its
/// text is its word.
#[derive(Clone, Copy, Debug, PartialEq, Eq, Error)]
pub enum PlacingFault {
    /// The laboratory already exists.
    LabExists,
    /// The store failed.
    Storage,
    /// Memory ran out.
    Memory,
}

impl PlacingFault {
    fn entry(&self) -> (u32, &'static str)
        ensures number { result.0 ≡ (placing_fault_entry self.now).number }
        ensures word { result.1.now ≡ (placing_fault_entry self.now).word }
    {
        match self {
            PlacingFault::LabExists => (64, "lab_exists"),
            PlacingFault::Storage => BadStore.entry(),
            PlacingFault::Memory => (90, "memory"),
        }
    }

    /// The number of the fault.
    pub fn number(&self) -> Option<u32>
        ensures { result ≡ Some (placing_fault_entry self.now).number }
    {
        Some(self.entry().0)
    }

    /// The word of the fault.
    pub fn word(&self) -> &'static str
        ensures { result.now ≡ (placing_fault_entry self.now).word }
    {
        self.entry().1
    }
}

impl fmt::Display for PlacingFault {
    ghost use Rattle.std.specs.Prelude.{Some};
    ghost use Rattle.lab_records_keeper.specs.Faults.{placing_fault_entry};

    ghost output = { λ fault. Some (placing_fault_entry fault).word };

    fn fmt<W: fmt::Write>(&self, f: &mut fmt::Formatter<W>) -> fmt::Result {
        f.write_str(self.word())
    }
}

impl From<OutOfMemory> for PlacingFault {
    ghost from_gives = { λ _ fault. fault ≡ NoMemory };

    fn from(_error: OutOfMemory) -> PlacingFault {
        PlacingFault::Memory
    }
}

impl From<AllocError> for PlacingFault {
    ghost from_gives = { λ _ fault. fault ≡ NoMemory };

    fn from(_error: AllocError) -> PlacingFault {
        PlacingFault::Memory
    }
}

impl<T: Drop> From<AllocFailed<T>> for PlacingFault {
    ghost from_gives = { λ _ fault. fault ≡ NoMemory };

    fn from(_error: AllocFailed<T>) -> PlacingFault {
        PlacingFault::Memory
    }
}
