//! Whether a laboratory is bound and under dual control.

ghost use Rattle.std.specs.Prelude.{◌≡◌, ◌↔◌, All, IfOk, IsTrue};
ghost use Rattle.std.specs.List.{list_all};
ghost use Rattle.lab_records_kept.specs.Bound.{IsBound};
ghost use Rattle.lab_records_kept.specs.Dual.{IsDual};
ghost use Rattle.lab_move_tables.specs.Chained.{IsChained};
ghost use Rattle.lab_move_tables.specs.Private.Tests.{is_sound_record};

use crate::bound::is_bound_record;
use crate::chained::ChainedLab;
use crate::dual::is_dual_record;
use lab_forms_texts::{LabCode, OutOfMemory};
use lab_records_kept::Record;
use std::alloc::Global;

// Whether a record is bound and under dual control.
fn is_sound_record(alloc: Global, lab: &LabCode, kept: &Record) -> Result<bool, OutOfMemory>
    requires chained { IsChained lab.now kept.now }
    ensures { IfOk result (λ yes. yes ≡ is_sound_record lab.now kept.now) }
{
    if !is_dual_record(kept) {
        return Ok(false);
    }
    is_bound_record(alloc, lab, kept)
}

// Whether all records are.
fn are_sound(alloc: Global, lab: &LabCode, records: &[Record]) -> Result<bool, OutOfMemory>
    requires chained { All (IsChained lab.now) records.now }
    ensures { IfOk result (λ yes. yes ≡ list_all (is_sound_record lab.now) records.now) }
{
    for kept in records {
        if !is_sound_record(alloc, lab, kept)? {
            return Ok(false);
        }
    }
    Ok(true)
}

/// Whether every signature of the laboratory names the digest of its version as it is now and bears the seal that its parts
/// come to, each version amends the one before it, and the signatures of each version are given by whom they may be.
///
/// # Errors
/// Memory ran out.
pub fn is_sound(alloc: Global, lab: &ChainedLab) -> Result<bool, OutOfMemory>
    ensures { IfOk result (λ yes. IsTrue yes ↔ (IsBound lab.now × IsDual lab.now)) }
{
    let lab = lab.lab();
    are_sound(alloc, &lab.code, lab.records.as_slice())
}
