//! Why no task was begun over a file, and why a founding that was begun failed.

ghost use Rattle.std.specs.Prelude.{◌≡◌};
ghost use Rattle.lab_program_opening.specs.Faults.{open_fault_number, open_fault_value, open_fault_word};

use lab_forms_texts::OutOfMemory;
use lab_program_host::{RehearsalFault, ServerFault};
use lab_store_files::FileFault;
use std::fmt;
use thiserror::Error;

/// Why a founding that was begun failed: for the same reasons as a rehearsal, which founds too.
pub type FoundingFault = RehearsalFault;

/// Why no task was begun over a file. A fault is printed as its word.
#[derive(Clone, Copy, Debug, PartialEq, Eq, Error)]
pub enum OpenFault {
    /// The file wasn't made, or wasn't opened; or memory ran out.
    File(FileFault),
    /// The clock or the source of random words failed.
    Drawing,
}

impl OpenFault {
    /// Returns the number of the fault: that of the file's fault, `None` if the clock or the source
    /// of random words failed.
    pub fn number(&self) -> Option<u32>
        ensures { result ≡ open_fault_number self.now }
    {
        match self {
            OpenFault::File(fault) => fault.number(),
            OpenFault::Drawing => ServerFault::Read.number(),
        }
    }

    /// Returns the word of the fault.
    pub fn word(&self) -> &'static str
        ensures { result.now ≡ open_fault_word self.now }
    {
        match self {
            OpenFault::File(fault) => fault.word(),
            OpenFault::Drawing => ServerFault::Read.word(),
        }
    }

    /// Returns the number of the file's schema, if the fault is that the schema is another one.
    pub fn value(&self) -> Option<u64>
        ensures { result ≡ open_fault_value self.now }
    {
        match self {
            OpenFault::File(fault) => fault.value(),
            OpenFault::Drawing => None,
        }
    }
}

impl fmt::Display for OpenFault {
    ghost use Rattle.std.specs.Prelude.{Some};
    ghost use Rattle.lab_program_opening.specs.Faults.{open_fault_word};

    ghost output = { λ fault. Some (open_fault_word fault) };

    fn fmt<W: fmt::Write>(&self, f: &mut fmt::Formatter<W>) -> fmt::Result {
        f.write_str(self.word())
    }
}

/// For a file that wasn't made, or wasn't opened.
impl From<FileFault> for OpenFault {
    ghost use Rattle.lab_program_opening.specs.declared.faults.OpenFault.TheVariants.{File};

    ghost from_gives = { λ fault gives. gives ≡ File fault };

    fn from(fault: FileFault) -> OpenFault {
        OpenFault::File(fault)
    }
}

/// Memory ran out.
impl From<OutOfMemory> for OpenFault {
    ghost use Rattle.lab_program_opening.specs.Faults.{unopened_fault};

    ghost from_gives = { λ _ gives. gives ≡ unopened_fault };

    fn from(_error: OutOfMemory) -> OpenFault {
        OpenFault::File(FileFault::Memory)
    }
}
