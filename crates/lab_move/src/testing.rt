//! Whether a laboratory that was read may be placed in a new file.

ghost use Rattle.std.specs.Prelude.{◌≡◌, ◌⊎◌, OnOk, IfErr};
ghost use Rattle.lab_records_kept.specs.Bound.{IsBound};
ghost use Rattle.lab_records_kept.specs.Dual.{IsDual};
ghost use Rattle.lab_store_files.specs.declared.faults.FileFault.TheVariants.{Memory, Storage};
ghost use Rattle.lab_records_kept.specs.Limits.{IsWithin};
ghost use Rattle.lab_move.specs.declared.faults.MoveFault.TheVariants.{File, NotSound};
ghost use Rattle.lab_move.specs.Private.Moving.{Blames};
ghost use Rattle.lab_move.specs.Moving.{IsSoundLab};

use crate::faults::MoveFault;
use lab_forms_texts::LabCode;
use lab_move_tables::{ChainedLab, is_sound, is_within};
use lab_records_copy_out::lab_is_legible;
use lab_store_files::FileFault;
use std::alloc::Global;

/// The fault that names a laboratory, or want of memory for its name.
pub(crate) fn not_sound(code: &LabCode) -> MoveFault
    ensures { (result ≡ NotSound code.now) ⊎ (result ≡ File Memory) }
{
    match code.copy() {
        Ok(lab) => MoveFault::NotSound { lab },
        Err(_) => MoveFault::File(FileFault::Memory),
    }
}

/// Tries a laboratory that was read: whether it is within its limits, bound and under dual control.
///
/// # Errors
/// It isn't within its limits, which is a fault of the store; it isn't bound or not under dual
/// control; or memory ran out.
pub(crate) fn test_lab(alloc: Global, code: &LabCode, lab: &ChainedLab) -> Result<(), MoveFault>
    ensures sound { OnOk result (IsSoundLab lab.now) }
    ensures fault { IfErr result
        (Blames (λ one. (one ≡ code.now) × ¬ (IsBound lab.now × IsDual lab.now))) }
    ensures within { IfErr result (λ fault. fault ≡ File Storage → ¬ IsWithin lab.now) }
{
    if !is_within(lab.lab()) {
        return Err(MoveFault::File(FileFault::Storage));
    }
    match is_sound(alloc, lab) {
        Ok(true) => {
            lab_is_legible(lab.lab());
            Ok(())
        }
        Ok(false) => Err(not_sound(code)),
        Err(_) => Err(MoveFault::File(FileFault::Memory)),
    }
}
