//! Answers a request over any keeper: loads the part that the request needs, or replies that no
//! laboratory has the code.

ghost use Rattle.std.specs.Prelude.{◌≡◌, All, Ok, IsTrue, IfErr, IfOk, OnOk};
ghost use Rattle.lab_records_keeper.specs.Worlds.{Given, KeeperFaultFits, Quiet};
ghost use Rattle.lab_records_kept.specs.Parts.{part_of};
ghost use Rattle.lab_records_laws.specs.Asking.{IsCommandFormed};
ghost use Rattle.lab_records_machine.specs.Needs.{need_of};
ghost use Rattle.lab_wire.specs.Replies.{reply_text};
ghost use Rattle.lab_records_keeper.specs.Calls.{EndsCall, Loads};
ghost use Rattle.lab_desk_events.specs.Causes.{RefusesAsked};
ghost use Rattle.lab_desk_events.specs.Copies.{IsAskedLegibly};
ghost use Rattle.lab_desk_events.specs.Keeping.{AreWithin};
ghost use Rattle.lab_desk_events.specs.Requests.{answer_to, changes_for, is_idle, DoesStep};
ghost use Rattle.lab_records_copy_out.specs.Legible.{IsLegibleChange};

use crate::answers::{answer_on, no_such_lab};
use lab_forms_texts::Tick;
use lab_records::command_is_formed;
use lab_records_copy_out::order_is_legible;
use lab_records_keeper::{Keeper, KeeperFault};
use lab_records_kept::Slice;
use lab_records_machine::{Command, ReadingCommand, SessionCommand, needs};
use lab_wire::Asked;
use std::alloc::Global;

// Loads the part of the laboratory that its instruction needs, or `None` if no laboratory has the
// code.
fn load_needed<S: Keeper>(
    keeper: &mut S,
    tick: &Tick,
    asked: &Asked,
) -> Result<Option<Slice>, KeeperFault>
    ensures part { Given (S.world keeper.old) (S.world keeper.new) (IfOk result (λ found. found
        ≡ part_of (need_of tick.now asked.now.instruction)
        ((S.world keeper.old).meaning asked.now.lab))) }
    ensures loads { Loads (S.world keeper.old) (S.world keeper.new)
        (S.rests keeper.old keeper.new) result }
    ensures cause { IfErr result (KeeperFaultFits (S.refuses_load keeper.old keeper.new
        asked.now.lab (need_of tick.now asked.now.instruction))) }
{
    let need = needs(tick, &asked.instruction)?;
    let loaded = keeper.load(&asked.lab, &need);
    drop(need);
    loaded
}

// The records and the moment of a request for a copy are what their types admit. A law: the command
// is unchanged.
fn asked_legibly(tick: &Tick, command: &Command)
    ensures { IsAskedLegibly tick.now.moment command.now }
{
    if let Command::In(SessionCommand::Reading(ReadingCommand::TakeCopy { from, to })) = command {
        order_is_legible(*from, *to, tick.moment);
    }
}

/// Answers what a laboratory was asked. After an error the meaning of every laboratory is
/// unchanged.
///
/// # Errors
/// The store failed, or memory ran out.
pub fn answer_asked<S: Keeper>(
    alloc: Global,
    keeper: &mut S,
    tick: &Tick,
    asked: Asked,
) -> Result<Vec<u8>, KeeperFault>
    ensures formed { IsCommandFormed asked.instruction.command }
    ensures asked { IsAskedLegibly tick.now.moment asked.instruction.command }
    ensures reply { Given (S.world keeper.old) (S.world keeper.new) (IfOk result (λ reply.
        reply.items ≡ reply_text tick.now
        (answer_to (S.world keeper.old).meaning tick.now (Ok asked)))) }
    ensures ends { EndsCall (S.world keeper.old) (S.world keeper.new)
        (S.rests keeper.old keeper.new) result }
    ensures cause { IfErr result (KeeperFaultFits
        (RefusesAsked S.Keeper keeper.old keeper.new tick.now asked)) }
    ensures quiet { IsTrue (is_idle ((S.world keeper.old).meaning asked.lab) tick.now
        asked.instruction) →
        Given (S.world keeper.old) (S.world keeper.new)
        (Quiet (S.world keeper.old) (S.world keeper.new)) }
    // If every laboratory is within its limits:
    ensures does { AreWithin (S.world keeper.old) →
        Given (S.world keeper.old) (S.world keeper.new)
        (DoesStep (S.world keeper.old) (S.world keeper.new) tick.now asked
        (S.moves keeper.old keeper.new) result) }
    ensures legible { Given (S.world keeper.old) (S.world keeper.new)
        (OnOk result (All IsLegibleChange
        (changes_for ((S.world keeper.old).meaning asked.lab) tick.now asked.instruction))) }
{
    command_is_formed(&asked.instruction.command);
    asked_legibly(tick, &asked.instruction.command);
    match load_needed(keeper, tick, &asked) {
        Ok(Some(slice)) => answer_on(alloc, keeper, slice, tick, asked),
        Ok(None) => {
            drop(asked);
            no_such_lab(alloc, tick)
        }
        Err(fault) => {
            drop(asked);
            Err(fault)
        }
    }
}
