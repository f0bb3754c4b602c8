//! Law: a step leaves a laboratory within its limits.
ghost use Rattle.std.specs.Prelude.{Some};
ghost use Rattle.lab_forms_texts.specs.declared.tick.Tick.{Tick};
ghost use Rattle.lab_records_kept.specs.declared.labs.Lab.{Lab};
ghost use Rattle.lab_records_kept.specs.Limits.{IsWithin};
ghost use Rattle.lab_records_machine.specs.declared.commands.Instruction.{Instruction};
ghost use Rattle.lab_records_machine.specs.Machine.{step};
ghost use Rattle.lab_records_laws.specs.Asking.{IsAskedRightly, IsCommandFormed};
ghost use Rattle.lab_records_laws.specs.Stepping.{HoldsOf};

/// Law: a step leaves a laboratory within its limits, and its numbers without gaps, if both held
/// before the step, and if a form that the command makes has no more fields than it may have.
pub fn a_step_keeps_limits()
    ensures { (lab : Lab) (tick : Tick) (instruction : Instruction) → IsWithin lab
        → IsAskedRightly instruction
        → HoldsOf IsWithin (step (Some lab) tick instruction).after }
{}

/// Law: an instruction asks rightly if its form is well formed, since such a form has no more
/// fields than it may have.
pub fn a_form_is_asked_rightly()
    ensures { (instruction : Instruction) → IsCommandFormed instruction.command
        → IsAskedRightly instruction }
{}
