//! The law of what the trail logs.
ghost use Rattle.std.specs.Prelude.{◌≡◌, IsTrue, Some};
ghost use Rattle.lab_forms_texts.specs.declared.tick.Tick.{Tick};
ghost use Rattle.lab_records_kept.specs.declared.labs.Lab.{Lab};
ghost use Rattle.lab_records_rules.specs.declared.refusals.Refusal.{Refusal};
ghost use Rattle.lab_records_machine.specs.declared.commands.Instruction.{Instruction};
ghost use Rattle.lab_records_machine.specs.declared.replies.Reply.TheVariants.{Refused};
ghost use Rattle.lab_records_machine.specs.Machine.{step};
ghost use Rattle.lab_records_laws.specs.Stepping.{HoldsOf};
ghost use Rattle.lab_records_laws.specs.Telling.{is_accepted, AcceptedTells, RefusedTells};

/// Law: for each accepted command, except the card and commands that only read, the trail has one
/// more row, which states who gave the command, when, what was done and to what. A refused command
/// adds no row, except for a failed password of an account: as long as the trail has room, that
/// adds a row, and a second one if it locks the account.
pub fn a_step_is_told()
    ensures accepted { (lab : Lab) (tick : Tick) (instruction : Instruction)
        → IsTrue (is_accepted (step (Some lab) tick instruction).reply)
        → HoldsOf
        (AcceptedTells lab tick.moment instruction (step (Some lab) tick instruction).reply)
        (step (Some lab) tick instruction).after }
    ensures refused { (lab : Lab) (tick : Tick) (instruction : Instruction) (refusal : Refusal)
        → (step (Some lab) tick instruction).reply ≡ Refused refusal
        → HoldsOf (RefusedTells lab tick.moment instruction refusal)
        (step (Some lab) tick instruction).after }
{}
