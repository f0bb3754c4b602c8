//! Why a replay stops.
ghost use Rattle.std.specs.Prelude.{◌≡◌};

use lab_desk::RunFault;
use lab_forms_texts::{NameFault, OutOfMemory, RefusalKind};
use lab_records_keeper::BadStore;
use std::alloc::AllocError;
use std::{fmt, io};
use thiserror::Error;

/// Why a replay stopped before the end of its input. A fault is printed as its word.
#[derive(Clone, Copy, Debug, PartialEq, Eq, Error)]
pub enum ReplayFault {
    /// What comes next in the input isn't an event.
    BadEvent,
    /// The input could not be read.
    ReadFault,
    /// An answer could not be written.
    WriteFault,
    /// The laboratories could not be kept.
    Storage,
    /// Memory ran out.
    Memory,
}

impl ReplayFault {
    ghost use Rattle.lab_program_replay.specs.Fault.{fault_number, fault_word, fault_line};

    /// Returns the number of the fault: 63 if the laboratories could not be kept, 90 if memory ran
    /// out, `None` for the others.
    pub fn number(&self) -> Option<u32>
        ensures { result ≡ fault_number self.now }
    {
        match self {
            ReplayFault::BadEvent | ReplayFault::ReadFault | ReplayFault::WriteFault => None,
            ReplayFault::Storage => BadStore.number(),
            ReplayFault::Memory => OutOfMemory.number(),
        }
    }

    /// Returns the word of the fault.
    pub fn word(&self) -> &'static str
        ensures { result.now ≡ fault_word self.now }
    {
        match self {
            ReplayFault::BadEvent => "bad_event",
            ReplayFault::ReadFault => "read_fault",
            ReplayFault::WriteFault => "write_fault",
            ReplayFault::Storage => "storage",
            ReplayFault::Memory => "memory",
        }
    }

    /// Returns the line that is printed for the fault on standard error, with its line feed. Needs
    /// no memory.
    pub fn line(&self) -> &'static str
        ensures { result.now ≡ fault_line self.now }
    {
        match self {
            ReplayFault::BadEvent => "labdesk: bad_event\n",
            ReplayFault::ReadFault => "labdesk: read_fault\n",
            ReplayFault::WriteFault => "labdesk: write_fault\n",
            ReplayFault::Storage => "labdesk: storage\n",
            ReplayFault::Memory => "labdesk: memory\n",
        }
    }
}

impl fmt::Display for ReplayFault {
    ghost use Rattle.std.specs.Prelude.{Some};
    ghost use Rattle.lab_program_replay.specs.Fault.{fault_word};

    ghost output = { λ fault. Some (fault_word fault) };

    fn fmt<W: fmt::Write>(&self, f: &mut fmt::Formatter<W>) -> fmt::Result {
        f.write_str(self.word())
    }
}

/// For a text that isn't a laboratory's code.
impl From<NameFault> for ReplayFault {
    ghost use Rattle.lab_program_replay.specs.Fault.{fault_of_name};

    ghost from_gives = { λ fault gives. gives ≡ fault_of_name fault };

    fn from(fault: NameFault) -> ReplayFault {
        match fault {
            NameFault::Refused(_) => ReplayFault::BadEvent,
            NameFault::Memory => ReplayFault::Memory,
        }
    }
}

/// For a desk for which memory ran out.
impl From<OutOfMemory> for ReplayFault {
    ghost use Rattle.lab_program_replay.specs.declared.fault.ReplayFault.TheVariants.{Memory};

    ghost from_gives = { λ _ fault. fault ≡ Memory };

    fn from(_want: OutOfMemory) -> ReplayFault {
        ReplayFault::Memory
    }
}

/// For a run of events that stopped.
impl From<RunFault> for ReplayFault {
    ghost use Rattle.lab_program_replay.specs.Fault.{fault_of_run};

    ghost from_gives = { λ fault gives. gives ≡ fault_of_run fault };

    fn from(fault: RunFault) -> ReplayFault {
        match fault {
            RunFault::Memory => ReplayFault::Memory,
            RunFault::Write { .. } => ReplayFault::WriteFault,
        }
    }
}

impl From<AllocError> for ReplayFault {
    ghost use Rattle.lab_program_replay.specs.declared.fault.ReplayFault.TheVariants.{Memory};

    ghost from_gives = { λ _ fault. fault ≡ Memory };

    fn from(_error: AllocError) -> ReplayFault {
        ReplayFault::Memory
    }
}

/// For a reader that failed.
impl From<io::Error> for ReplayFault {
    ghost use Rattle.lab_program_replay.specs.Fault.{IsReaderFault};

    ghost from_gives = { λ _ fault. IsReaderFault fault };

    fn from(error: io::Error) -> ReplayFault {
        if error.kind() == io::ErrorKind::OutOfMemory {
            ReplayFault::Memory
        } else {
            ReplayFault::ReadFault
        }
    }
}
