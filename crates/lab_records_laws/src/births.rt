//! The laws of foundings.
ghost use Rattle.std.specs.Prelude.{◌≡◌, ◌≢◌, ℕ, List, true, false, Some, None, Ok};
ghost use Rattle.lab_forms_texts.specs.declared.tick.Tick.{Tick};
ghost use Rattle.lab_records_kept.specs.declared.labs.Lab.{Lab};
ghost use Rattle.lab_records_kept.specs.Limits.{IsWithin};
ghost use Rattle.lab_records_kept.specs.Bound.{IsBound};
ghost use Rattle.lab_records_kept.specs.Dual.{IsDual};
ghost use Rattle.lab_records_machine.specs.declared.births.Founding.{Founding};
ghost use Rattle.lab_records_machine.specs.declared.commands.Instruction.{Instruction};
ghost use Rattle.lab_records_machine.specs.Births.{is_code_shared, are_passwords, newborn, born};
ghost use Rattle.lab_records_machine.specs.Machine.{step};
ghost use Rattle.lab_records_laws.specs.Births.{IsFounded};

/// Law: if three founders have three different codes, and passwords that may be chosen, a
/// laboratory is founded. It has them as administrators, one row in its trail, and nothing else; so
/// it is within its limits, bound and under dual control.
pub fn a_birth_is_right()
    ensures taken { (code : List ℕ) (tick : Tick) (founding : Founding)
        → is_code_shared founding ≡ false → are_passwords founding ≡ true
        → born None code tick founding ≡ Ok (newborn code tick founding) }
    ensures founded { (code : List ℕ) (tick : Tick) (founding : Founding) (lab : Lab)
        → born None code tick founding ≡ Ok lab → IsFounded lab }
    ensures right { (code : List ℕ) (tick : Tick) (founding : Founding) (lab : Lab)
        → born None code tick founding ≡ Ok lab → IsWithin lab × IsBound lab × IsDual lab }
{}

/// Law: a laboratory begins only with a founding: no step makes one, and none is founded if one has
/// the code already.
pub fn a_laboratory_is_born_once()
    ensures step { (tick : Tick) (instruction : Instruction)
        → (step None tick instruction).after ≡ None }
    ensures birth { (lab other : Lab) (code : List ℕ) (tick : Tick) (founding : Founding)
        → born (Some lab) code tick founding ≢ Ok other }
{}
