//! Why no laboratory was founded.

ghost use Rattle.std.specs.Prelude.{◌≡◌, Some};
ghost use Rattle.lab_desk_foundings.specs.Faults.{found_fault_entry, is_taken};

use lab_forms_texts::{OutOfMemory, RefusalKind};
use lab_records_keeper::PlacingFault;
use lab_records_machine::BirthRefusal;
use lab_wire_members::{BodyFault, BodyRefusal};
use std::fmt;
use thiserror::Error;

/// Why no laboratory was founded. Nothing was changed. A fault is printed as its word.
#[derive(Clone, Copy, Debug, PartialEq, Eq, Error)]
pub enum FoundFault {
    /// The body isn't the body of a founding.
    Body(BodyRefusal),
    /// No laboratory can be made from the body.
    Birth(BirthRefusal),
    /// The keeper founded no laboratory, or memory ran out before it was asked.
    Placing(PlacingFault),
}

impl FoundFault {
    /// Returns whether the founding was taken although it failed: it was, unless memory ran out or
    /// the store failed.
    pub fn is_taken(&self) -> bool
        ensures { result ≡ is_taken self.now }
    {
        match self {
            FoundFault::Body(_)
            | FoundFault::Birth(_)
            | FoundFault::Placing(PlacingFault::LabExists) => true,
            FoundFault::Placing(PlacingFault::Storage | PlacingFault::Memory) => false,
        }
    }

    fn entry(&self) -> (Option<u32>, &'static str)
        ensures number { result.0 ≡ Some (found_fault_entry self.now).number }
        ensures word { result.1.now ≡ (found_fault_entry self.now).word }
    {
        match self {
            FoundFault::Body(refusal) => (refusal.number(), refusal.word()),
            FoundFault::Birth(refusal) => (refusal.number(), refusal.word()),
            FoundFault::Placing(fault) => (fault.number(), fault.word()),
        }
    }

    /// Returns the number of the fault.
    pub fn number(&self) -> Option<u32>
        ensures { result ≡ Some (found_fault_entry self.now).number }
    {
        self.entry().0
    }

    /// Returns the word of the fault.
    pub fn word(&self) -> &'static str
        ensures { result.now ≡ (found_fault_entry self.now).word }
    {
        self.entry().1
    }
}

/// For a body that was not read.
impl From<BodyFault> for FoundFault {
    ghost use Rattle.lab_desk_foundings.specs.Faults.{fault_of_body};

    ghost from_gives = { λ fault gives. gives ≡ fault_of_body fault };

    fn from(fault: BodyFault) -> FoundFault {
        match fault {
            BodyFault::Refused(refusal) => FoundFault::Body(refusal),
            BodyFault::Memory => FoundFault::Placing(PlacingFault::Memory),
        }
    }
}

/// For a body from which no laboratory can be made.
impl From<BirthRefusal> for FoundFault {
    ghost use Rattle.lab_desk_foundings.specs.declared.faults.FoundFault.TheVariants.{Birth};

    ghost from_gives = { λ refusal gives. gives ≡ Birth refusal };

    fn from(refusal: BirthRefusal) -> FoundFault {
        FoundFault::Birth(refusal)
    }
}

/// Memory ran out.
impl From<OutOfMemory> for FoundFault {
    ghost use Rattle.lab_records_keeper.specs.declared.faults.PlacingFault.TheVariants.{Memory};
    ghost use Rattle.lab_desk_foundings.specs.declared.faults.FoundFault.TheVariants.{Placing};

    ghost from_gives = { λ _ gives. gives ≡ Placing Memory };

    fn from(_error: OutOfMemory) -> FoundFault {
        FoundFault::Placing(PlacingFault::Memory)
    }
}

/// For a keeper that founded no laboratory.
impl From<PlacingFault> for FoundFault {
    ghost use Rattle.lab_desk_foundings.specs.declared.faults.FoundFault.TheVariants.{Placing};

    ghost from_gives = { λ fault gives. gives ≡ Placing fault };

    fn from(fault: PlacingFault) -> FoundFault {
        FoundFault::Placing(fault)
    }
}

impl fmt::Display for FoundFault {
    ghost use Rattle.std.specs.Prelude.{Some};
    ghost use Rattle.lab_desk_foundings.specs.Faults.{found_fault_entry};

    ghost output = { λ fault. Some (found_fault_entry fault).word };

    fn fmt<W: fmt::Write>(&self, f: &mut fmt::Formatter<W>) -> fmt::Result {
        f.write_str(self.word())
    }
}
