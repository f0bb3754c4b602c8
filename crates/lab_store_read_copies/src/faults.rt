//! Why rows for a copy weren't read.

ghost use Rattle.std.specs.Prelude.{◌≡◌};
ghost use Rattle.lab_records_copy_out.specs.Faults.{CopyFaultFits, keeper_told};

use lab_records_copy_out::CopyOutFault;
use lab_store_read::ReadFault;

/// Returns the fault of a copy whose rows weren't read: the one that stands for the keeper's fault.
pub fn copy_fault(fault: ReadFault) -> CopyOutFault
    ensures told { result ≡ keeper_told fault }
    ensures fits { CopyFaultFits ⊥ (Unit {0}) ⊥ result }
{
    CopyOutFault::from(fault)
}
