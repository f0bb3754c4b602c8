//! Law: a step leaves signatures and versions bound (21 CFR 11.70; ISO/IEC 17025:2017, 7.5.2).
ghost use Rattle.lab_forms_texts.specs.declared.tick.Tick.{Tick};
ghost use Rattle.lab_records_kept.specs.declared.labs.Lab.{Lab};
ghost use Rattle.lab_records_kept.specs.Bound.{IsBound};
ghost use Rattle.lab_records_machine.specs.declared.commands.Instruction.{Instruction};
ghost use Rattle.lab_records_machine.specs.Machine.{step};
ghost use Rattle.lab_records_laws.specs.Stepping.{HoldsOf};

/// Law: if each signature of a laboratory names the digest of its version and has its own seal, and
/// each version names the digest of the version that it amends, this holds after a step too,
/// whatever the instruction is.
pub fn a_step_keeps_bound()
    ensures { (lab : Lab) → (tick : Tick) → (instruction : Instruction) → IsBound lab
        → HoldsOf IsBound (step (Some lab) tick instruction).after }
{}
