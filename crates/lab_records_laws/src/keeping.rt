//! The law that a step keeps what was.
ghost use Rattle.std.specs.Prelude.{Some, []};
ghost use Rattle.lab_forms_texts.specs.declared.tick.Tick.{Tick};
ghost use Rattle.lab_records_kept.specs.declared.labs.Lab.{Lab};
ghost use Rattle.lab_records_kept.specs.Limits.{AreFormsNumbered};
ghost use Rattle.lab_records_kept.specs.Keeping.{Keeps};
ghost use Rattle.lab_records_machine.specs.declared.commands.Instruction.{Instruction};
ghost use Rattle.lab_records_machine.specs.Machine.{step};
ghost use Rattle.lab_records_laws.specs.Stepping.{HoldsOf};

/// Law: every step keeps what was, and if records change, the trail logs that once: the deed, who
/// did it and when. The premise: the versions of the laboratory's forms are numbered from 1, as
/// they are from its founding.
pub fn a_step_keeps_what_was()
    ensures { (lab : Lab) (tick : Tick) (instruction : Instruction) → AreFormsNumbered [] lab.forms
        → HoldsOf (Keeps lab) (step (Some lab) tick instruction).after }
{}
