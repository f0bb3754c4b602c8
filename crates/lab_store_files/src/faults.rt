//! Why a file wasn't made, or wasn't opened.

ghost use Rattle.std.specs.Prelude.{◌≡◌, Some};
ghost use Rattle.lab_store_files.specs.Faults.{file_fault_entry, file_fault_value, is_out_of_memory, store_fault};

use sqlite::{Error as StoreError, ErrorCode};
use sqlite_resolve::CompileError;
use std::fmt;
use thiserror::Error;

/// Why a file wasn't made, or wasn't opened. Its rows are unchanged. A fault is printed as its
/// word.
#[derive(Clone, Copy, Debug, PartialEq, Eq, Error)]
pub enum FileFault {
    /// The file isn't one in which laboratories are kept, or isn't a whole one.
    NotADeskFile,
    /// The file has an older schema, with this number.
    SchemaOld(u64),
    /// The file has a newer schema, with this number.
    SchemaNew(u64),
    /// The store failed.
    Storage,
    /// A table with a name that this schema needs exists already.
    NotEmpty,
    /// Memory ran out.
    Memory,
}

impl FileFault {
    fn entry(&self) -> (u32, &'static str)
        ensures number { result.0 ≡ (file_fault_entry self.now).number }
        ensures word { result.1.now ≡ (file_fault_entry self.now).word }
    {
        match self {
            FileFault::NotADeskFile => (60, "not_a_desk_file"),
            FileFault::SchemaOld(_) => (61, "schema_old"),
            FileFault::SchemaNew(_) => (62, "schema_new"),
            FileFault::Storage => (63, "storage"),
            FileFault::NotEmpty => (65, "not_empty"),
            FileFault::Memory => (90, "memory"),
        }
    }

    /// Returns the number of the fault.
    pub fn number(&self) -> Option<u32>
        ensures { result ≡ Some (file_fault_entry self.now).number }
    {
        Some(self.entry().0)
    }

    /// Returns the word of the fault.
    pub fn word(&self) -> &'static str
        ensures { result.now ≡ (file_fault_entry self.now).word }
    {
        self.entry().1
    }

    /// Returns the number of the file's schema, if the fault is that the schema is another one.
    pub fn value(&self) -> Option<u64>
        ensures { result ≡ file_fault_value self.now }
    {
        match self {
            FileFault::SchemaOld(number) | FileFault::SchemaNew(number) => Some(*number),
            FileFault::NotADeskFile
            | FileFault::Storage
            | FileFault::NotEmpty
            | FileFault::Memory => None,
        }
    }
}

impl fmt::Display for FileFault {
    ghost use Rattle.std.specs.Prelude.{Some};
    ghost use Rattle.lab_store_files.specs.Faults.{file_fault_entry};

    ghost output = { λ fault. Some (file_fault_entry fault).word };

    fn fmt<W: fmt::Write>(&self, f: &mut fmt::Formatter<W>) -> fmt::Result {
        f.write_str(self.word())
    }
}

impl From<StoreError> for FileFault {
    ghost from_gives = { λ error fault. fault ≡ store_fault error };

    fn from(error: StoreError) -> FileFault {
        if is_out_of_memory(&error) {
            FileFault::Memory
        } else {
            FileFault::Storage
        }
    }
}

fn is_out_of_memory(error: &StoreError) -> bool
    ensures { result ≡ is_out_of_memory error.now }
{
    matches!(
        error,
        StoreError::SqliteFailure(ErrorCode::OutOfMemory)
            | StoreError::SqlInputError(CompileError::OutOfMemory)
    )
}
