//! Law: a step leaves records under dual control (ISO/IEC 17025:2017, 7.5.1).
ghost use Rattle.lab_forms_texts.specs.declared.tick.Tick.{Tick};
ghost use Rattle.lab_records_kept.specs.declared.labs.Lab.{Lab};
ghost use Rattle.lab_records_kept.specs.Dual.{IsDual};
ghost use Rattle.lab_records_machine.specs.declared.commands.Instruction.{Instruction};
ghost use Rattle.lab_records_machine.specs.Machine.{step};
ghost use Rattle.lab_records_laws.specs.Stepping.{HoldsOf};

/// Law: if the signatures of each version of a laboratory make a state and were given by persons
/// who may give them, and every version of a record except the last is released or rejected, this
/// holds after a step too, whatever the instruction is.
pub fn a_step_keeps_dual()
    ensures { (lab : Lab) → (tick : Tick) → (instruction : Instruction) → IsDual lab
        → HoldsOf IsDual (step (Some lab) tick instruction).after }
{}
