//! Law: what is decided on a part of a laboratory is the step of the whole laboratory.
ghost use Rattle.lab_forms_texts.specs.declared.tick.Tick.{Tick};
ghost use Rattle.lab_records_kept.specs.declared.labs.Lab.{Lab};
ghost use Rattle.lab_records_kept.specs.Parts.{part};
ghost use Rattle.lab_records_machine.specs.declared.commands.Instruction.{Instruction};
ghost use Rattle.lab_records_machine.specs.Needs.{need_of};
ghost use Rattle.lab_records_laws.specs.Deciding.{decided};
ghost use Rattle.lab_records_laws.specs.TakenSteps.{TakesStep};

/// Law: what is decided on the part that an instruction needs, of any laboratory, has the reply of
/// the step, and its changes make of the laboratory what the step makes; the first change notes the
/// moment. Each change fits after those before it, if the count of strays isn't above its limit and
/// a form that is to be made is well formed, as every `Form` is.
pub fn what_is_decided()
    ensures { (lab : Lab) (tick : Tick) (instruction : Instruction)
        → TakesStep lab tick instruction
        (decided (part (need_of tick instruction) lab) tick instruction.command) }
{}
