//! Why nothing was read.

ghost use Rattle.std.specs.Prelude.{◌≡◌};
ghost use Rattle.lab_store_read.specs.Faults.{is_out_of_memory, store_fault};
ghost use Rattle.lab_store_read.specs.Private.Faults.{name_fault};

use lab_forms_texts::NameFault;
use lab_records_keeper::{BadStore, KeeperFault};
use sqlite::{Error, ErrorCode};
use sqlite_resolve::CompileError;

/// Why nothing was read: the store failed, a row isn't one that this program could have written, or
/// memory ran out. The rows are unchanged. A keeper returns this fault as its own.
pub type ReadFault = KeeperFault;

/// Returns the read fault for an error of the store.
pub fn read_fault(error: Error) -> ReadFault
    ensures { result ≡ store_fault error }
{
    if is_out_of_memory(&error) {
        ReadFault::Memory
    } else {
        ReadFault::Refused(BadStore)
    }
}

fn is_out_of_memory(error: &Error) -> bool
    ensures { result ≡ is_out_of_memory error.now }
{
    matches!(
        error,
        Error::SqliteFailure(ErrorCode::OutOfMemory)
            | Error::SqlInputError(CompileError::OutOfMemory)
    )
}

/// Returns the read fault for a stored text that breaks its rule, or for which memory ran out.
pub(crate) fn name_fault(error: NameFault) -> ReadFault
    ensures { result ≡ name_fault error }
{
    match error {
        NameFault::Refused(_) => ReadFault::Refused(BadStore),
        NameFault::Memory => ReadFault::Memory,
    }
}
