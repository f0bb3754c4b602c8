//! Why serving stopped, why a connection ended, and why a rehearsal failed.

ghost use Rattle.std.specs.Prelude.{◌≡◌, None};
ghost use Rattle.lab_forms_streams.specs.Sending.{read_fault_word};
ghost use Rattle.lab_program_host.specs.Faults.{server_fault_number, server_fault_word, connection_fault_number, connection_fault_word, rehearsal_fault_number, rehearsal_fault_word};

use crate::drawing::DrawFault;
use lab_desk_foundings::{FoundFault, ServeFault};
use lab_forms_streams::WriteFault;
use lab_forms_texts::OutOfMemory;
use std::alloc::AllocError;
use std::{fmt, io};
use thiserror::Error;

/// A listener failed. The fault is printed as its word.
#[derive(Clone, Copy, Debug, PartialEq, Eq, Error)]
pub struct ListenFault;

impl ListenFault {
    /// Returns `None`: the fault has no number, because no reply can report it.
    pub fn number(&self) -> Option<u32>
        ensures { result ≡ None }
    {
        None
    }

    /// Returns the word of the fault.
    pub fn word(&self) -> &'static str
        ensures { result.now ≡ read_fault_word }
    {
        "read_fault"
    }
}

impl fmt::Display for ListenFault {
    ghost use Rattle.std.specs.Prelude.{Some};
    ghost use Rattle.lab_forms_streams.specs.Sending.{read_fault_word};

    ghost output = { λ _. Some read_fault_word };

    fn fmt<W: fmt::Write>(&self, f: &mut fmt::Formatter<W>) -> fmt::Result {
        f.write_str(self.word())
    }
}

/// Why serving stopped. A fault is printed as its word.
#[derive(Clone, Copy, Debug, PartialEq, Eq, Error)]
pub enum ServerFault {
    /// The clock, the source of random words, the listener or a reader failed.
    Read,
    /// A writer failed, or took no byte.
    Write,
    /// Memory ran out.
    Memory,
}

impl ServerFault {
    /// Returns the number of the fault: 90 if memory ran out, `None` for the others.
    pub fn number(&self) -> Option<u32>
        ensures { result ≡ server_fault_number self.now }
    {
        match self {
            ServerFault::Read | ServerFault::Write => None,
            ServerFault::Memory => OutOfMemory.number(),
        }
    }

    /// Returns the word of the fault.
    pub fn word(&self) -> &'static str
        ensures { result.now ≡ server_fault_word self.now }
    {
        match self {
            ServerFault::Read => "read_fault",
            ServerFault::Write => "write_fault",
            ServerFault::Memory => OutOfMemory.word(),
        }
    }
}

impl fmt::Display for ServerFault {
    ghost use Rattle.std.specs.Prelude.{Some};
    ghost use Rattle.lab_program_host.specs.Faults.{server_fault_word};

    ghost output = { λ fault. Some (server_fault_word fault) };

    fn fmt<W: fmt::Write>(&self, f: &mut fmt::Formatter<W>) -> fmt::Result {
        f.write_str(self.word())
    }
}

impl From<ListenFault> for ServerFault {
    ghost use Rattle.lab_program_host.specs.declared.faults.ServerFault.TheVariants.{Read};

    ghost from_gives = { λ _ fault. fault ≡ Read };

    fn from(_fault: ListenFault) -> ServerFault {
        ServerFault::Read
    }
}

impl From<DrawFault> for ServerFault {
    ghost use Rattle.lab_program_host.specs.declared.faults.ServerFault.TheVariants.{Read};

    ghost from_gives = { λ _ fault. fault ≡ Read };

    fn from(_fault: DrawFault) -> ServerFault {
        ServerFault::Read
    }
}

impl From<WriteFault> for ServerFault {
    ghost use Rattle.lab_program_host.specs.declared.faults.ServerFault.TheVariants.{Write};

    ghost from_gives = { λ _ fault. fault ≡ Write };

    fn from(_fault: WriteFault) -> ServerFault {
        ServerFault::Write
    }
}

impl From<OutOfMemory> for ServerFault {
    ghost use Rattle.lab_program_host.specs.declared.faults.ServerFault.TheVariants.{Memory};

    ghost from_gives = { λ _ fault. fault ≡ Memory };

    fn from(_fault: OutOfMemory) -> ServerFault {
        ServerFault::Memory
    }
}

impl From<AllocError> for ServerFault {
    ghost use Rattle.lab_program_host.specs.declared.faults.ServerFault.TheVariants.{Memory};

    ghost from_gives = { λ _ fault. fault ≡ Memory };

    fn from(_fault: AllocError) -> ServerFault {
        ServerFault::Memory
    }
}

/// For the one request of a rehearsal, which was not served.
impl From<ConnectionFault> for ServerFault {
    ghost use Rattle.lab_program_host.specs.Faults.{fault_of_connection};

    ghost from_gives = { λ fault gives. gives ≡ fault_of_connection fault };

    fn from(fault: ConnectionFault) -> ServerFault {
        match fault {
            ConnectionFault::Serving(ServeFault::Read) => ServerFault::Read,
            ConnectionFault::Serving(ServeFault::Interim { .. } | ServeFault::Reply { .. }) => {
                ServerFault::Write
            }
            ConnectionFault::Memory => ServerFault::Memory,
        }
    }
}

impl From<io::Error> for ServerFault {
    ghost use Rattle.lab_program_host.specs.Faults.{IsReaderFault};

    ghost from_gives = { λ _ fault. IsReaderFault fault };

    fn from(error: io::Error) -> ServerFault {
        if error.kind() == io::ErrorKind::OutOfMemory {
            ServerFault::Memory
        } else {
            ServerFault::Read
        }
    }
}

/// Why a connection ended before its request was served whole. A fault is printed as its word.
#[derive(Clone, Copy, Debug, PartialEq, Eq, Error)]
pub enum ConnectionFault {
    /// The request or the reply was not whole.
    Serving(ServeFault),
    /// Memory ran out for a buffer. Nothing was read or answered.
    Memory,
}

impl ConnectionFault {
    /// Returns the number of the fault: 90 if memory ran out, `None` for the others.
    pub fn number(&self) -> Option<u32>
        ensures { result ≡ connection_fault_number self.now }
    {
        match self {
            ConnectionFault::Serving(fault) => fault.number(),
            ConnectionFault::Memory => OutOfMemory.number(),
        }
    }

    /// Returns the word of the fault.
    pub fn word(&self) -> &'static str
        ensures { result.now ≡ connection_fault_word self.now }
    {
        match self {
            ConnectionFault::Serving(fault) => fault.word(),
            ConnectionFault::Memory => OutOfMemory.word(),
        }
    }
}

impl fmt::Display for ConnectionFault {
    ghost use Rattle.std.specs.Prelude.{Some};
    ghost use Rattle.lab_program_host.specs.Faults.{connection_fault_word};

    ghost output = { λ fault. Some (connection_fault_word fault) };

    fn fmt<W: fmt::Write>(&self, f: &mut fmt::Formatter<W>) -> fmt::Result {
        f.write_str(self.word())
    }
}

/// For a request that was not served whole.
impl From<ServeFault> for ConnectionFault {
    ghost use Rattle.lab_program_host.specs.declared.faults.ConnectionFault.TheVariants.{Serving};

    ghost from_gives = { λ fault gives. gives ≡ Serving fault };

    fn from(fault: ServeFault) -> ConnectionFault {
        ConnectionFault::Serving(fault)
    }
}

/// Why a rehearsal failed. A fault is printed as its word.
#[derive(Clone, Copy, Debug, PartialEq, Eq, Error)]
pub enum RehearsalFault {
    /// The founding was refused.
    Founding(FoundFault),
    /// A read or a write failed, or memory ran out.
    Server(ServerFault),
}

impl RehearsalFault {
    /// Returns the number of the fault: that of the founding's refusal, or of the server's fault.
    pub fn number(&self) -> Option<u32>
        ensures { result ≡ rehearsal_fault_number self.now }
    {
        match self {
            RehearsalFault::Founding(fault) => fault.number(),
            RehearsalFault::Server(fault) => fault.number(),
        }
    }

    /// Returns the word of the fault.
    pub fn word(&self) -> &'static str
        ensures { result.now ≡ rehearsal_fault_word self.now }
    {
        match self {
            RehearsalFault::Founding(fault) => fault.word(),
            RehearsalFault::Server(fault) => fault.word(),
        }
    }
}

impl fmt::Display for RehearsalFault {
    ghost use Rattle.std.specs.Prelude.{Some};
    ghost use Rattle.lab_program_host.specs.Faults.{rehearsal_fault_word};

    ghost output = { λ fault. Some (rehearsal_fault_word fault) };

    fn fmt<W: fmt::Write>(&self, f: &mut fmt::Formatter<W>) -> fmt::Result {
        f.write_str(self.word())
    }
}

/// For a founding that founded nothing.
impl From<FoundFault> for RehearsalFault {
    ghost use Rattle.lab_program_host.specs.declared.faults.RehearsalFault.TheVariants.{Founding};

    ghost from_gives = { λ fault gives. gives ≡ Founding fault };

    fn from(fault: FoundFault) -> RehearsalFault {
        RehearsalFault::Founding(fault)
    }
}

/// For a read or a write that failed.
impl From<ServerFault> for RehearsalFault {
    ghost use Rattle.lab_program_host.specs.declared.faults.RehearsalFault.TheVariants.{Server};

    ghost from_gives = { λ fault gives. gives ≡ Server fault };

    fn from(fault: ServerFault) -> RehearsalFault {
        RehearsalFault::Server(fault)
    }
}
