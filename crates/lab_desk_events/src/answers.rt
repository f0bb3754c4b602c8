//! The answer to a request. If no laboratory has the code, the answer is the refusal. Otherwise,
//! the machine decides on the part that was loaded, the answer is built whole, and then the keeper
//! makes the changes, which is the last step.

ghost use Rattle.std.specs.Prelude.{◌≡◌, All, IfOk, IfErr};
ghost use Rattle.lab_forms_texts.specs.declared.refusals.Fault.TheVariants.{Memory};
ghost use Rattle.lab_records_keeper.specs.Calls.{Applies};
ghost use Rattle.lab_records_keeper.specs.Worlds.{KeeperFaultFits};
ghost use Rattle.lab_records_laws.specs.Deciding.{decided};
ghost use Rattle.lab_records_copy_out.specs.Legible.{IsLegibleChange};
ghost use Rattle.lab_wire.specs.declared.replies.Answer.TheVariants.{Replied};
ghost use Rattle.lab_wire.specs.Replies.{reply_text};

use lab_forms_texts::{OutOfMemory, Series, Tick};
use lab_records::decide;
use lab_records_copy_out::changes_are_legible;
use lab_records_keeper::{Keeper, KeeperFault};
use lab_records_kept::{Change, Slice};
use lab_records_laws::Outcome;
use lab_records_machine::{Instruction, Reply};
use lab_records_rules::Refusal;
use lab_wire::{Answer, Asked, reply_bytes};
use std::alloc::Global;

/// Returns the reply that no laboratory has the code.
///
/// # Errors
/// The store failed, or memory ran out.
pub fn no_such_lab(alloc: Global, tick: &Tick) -> Result<Vec<u8>, KeeperFault>
    ensures reply { IfOk result (λ reply. reply.items ≡ reply_text tick.now
        (Replied (Reply.Refused Refusal.NoSuchLab))) }
    ensures fault { IfErr result (λ fault. fault ≡ Memory) }
{
    let refused = Answer::Replied(Reply::Refused(Refusal::NoSuchLab));
    let reply = reply_bytes(alloc, tick, &refused);
    drop(refused);
    Ok(reply?)
}

/// Returns the reply to what is decided on the part of the laboratory, and makes its changes. After
/// an error the meaning of every laboratory is unchanged.
///
/// # Errors
/// The store failed, or memory ran out.
pub fn answer_on<S: Keeper>(
    alloc: Global,
    keeper: &mut S,
    slice: Slice,
    tick: &Tick,
    asked: Asked,
) -> Result<Vec<u8>, KeeperFault>
    ensures reply { IfOk result (λ reply. reply.items ≡ reply_text tick.now
        (Replied (decided slice tick.now asked.instruction.command).reply)) }
    ensures applies { Applies asked.lab (decided slice tick.now asked.instruction.command).changes
        (S.world keeper.old) (S.world keeper.new) (S.rests keeper.old keeper.new)
        (S.moves keeper.old keeper.new) result }
    ensures cause { IfErr result (KeeperFaultFits (S.refuses_changes keeper.old keeper.new asked.lab
        (decided slice tick.now asked.instruction.command).changes)) }
    ensures legible { IfOk result (λ _. All IsLegibleChange
        (decided slice tick.now asked.instruction.command).changes) }
{
    let Asked { lab, instruction } = asked;
    let built = build(alloc, slice, tick, instruction)?;
    let Built { reply, changes } = built;
    changes_are_legible(&changes);
    keeper.apply(&lab, changes)?;
    Ok(reply)
}

/// What is decided of an instruction, its reply whole in bytes.
#[derive(Drop)]
struct Built {
    reply: Vec<u8>,
    changes: Series<Change>,
}

// Decides an instruction on the part of a laboratory that it needs, and builds the reply.
fn build(
    alloc: Global,
    slice: Slice,
    tick: &Tick,
    instruction: Instruction,
) -> Result<Built, OutOfMemory>
    ensures reply { IfOk result (λ built. built.reply.items ≡ reply_text tick.now
        (Replied (decided slice tick.now instruction.command).reply)) }
    ensures changes { IfOk result (λ built.
        built.changes ≡ (decided slice tick.now instruction.command).changes) }
{
    let Instruction { token, command } = instruction;
    drop(token);
    let outcome = decide(alloc, slice, tick, command)?;
    built_outcome(alloc, tick, outcome)
}

// The reply of an outcome, whole in bytes, and its changes.
fn built_outcome(alloc: Global, tick: &Tick, outcome: Outcome) -> Result<Built, OutOfMemory>
    ensures reply { IfOk result (λ built.
        built.reply.items ≡ reply_text tick.now (Replied outcome.reply)) }
    ensures changes { IfOk result (λ built. built.changes ≡ outcome.changes) }
{
    let Outcome { reply, changes } = outcome;
    let answer = Answer::Replied(reply);
    let bytes = reply_bytes(alloc, tick, &answer);
    drop(answer);
    match bytes {
        Ok(reply) => Ok(Built { reply, changes }),
        Err(fault) => {
            drop(changes);
            Err(fault)
        }
    }
}
