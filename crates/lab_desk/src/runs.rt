//! A whole run of an installation. Each laboratory's answers and rows are those of its own small
//! machine, run over its own events alone.

ghost use Rattle.std.specs.Prelude.{◌≡◌, ℕ, List, [], ◌∷◌, true, IfOk, IfErr, length, map, take};
ghost use Rattle.std.specs.Io.KnownBytes.{Keeps};
ghost use Rattle.lab_records_keeper.specs.Worlds.{Passes};
ghost use Rattle.lab_desk_events.specs.Alone.{happening};
ghost use Rattle.lab_desk_events.specs.Keeping.{GivenWithin, Stays, StaysOn};
ghost use Rattle.lab_desk_events.specs.Leaving.{IsLiveToLast, LeavesRun};
ghost use Rattle.lab_desk_events.specs.Private.Leaving.{LeavesByOne};
ghost use Rattle.lab_desk_events.specs.Runs.{IsRun, Runs, RunsCut};
ghost use Rattle.lab_desk_events.specs.Private.Runs.{SendsAnswer};
ghost use Rattle.lab_desk_foundings.specs.RunFaults.{IfWrite, IfMemory};

use crate::desk::Desk;
use lab_desk_events::Event;
use lab_desk_foundings::RunFault;
use lab_forms_streams::{WriteFault, write_whole};
use lab_records_keeper::Keeper;
use std::io::Write;

// How one event was answered.
#[derive(Clone, Copy)]
struct Answered {
    taken: bool,
    sent: Result<(), WriteFault>,
}

impl<S: Keeper + Drop> Desk<S> {
    /// Handles events in order, writes the answer to each, and returns for each event whether it
    /// was taken. An event is taken unless memory ran out or the store refused; then nothing is
    /// changed. But if a fault shut the store during a commit, that event may have been done once
    /// the store is opened again, as `crash` of [`Desk::handle`] says. Each laboratory's answers,
    /// byte for byte, and the laboratory that the keeper holds at the end are those of its own
    /// small machine, run over its own taken events alone. Every event has one answer, in order,
    /// and nothing else is written. This is true of the answers even if a fault shut the store.
    /// Each laboratory keeps at each event what it has recorded, and at the end it has all that was
    /// recorded at the start: `stays` has `within`, `releasing`, `legible`, `retains`, `released`,
    /// `reached`, `safe`, `left_within`, `left_releasing` and `again`. If the keeper is live at the
    /// end, or if each event but the last was taken and the last one shut the keeper, then a crash
    /// leaves the results of all events that were taken, and of at most one event that the store
    /// refused: `leaves`, and after a write fault `leaves_cut`.
    ///
    /// # Errors
    /// - `Memory`: memory ran out for the list that is returned, which is made first. Nothing was
    ///   handled or written;
    /// - `Write`: a write failed. The events up to it were handled, and their answers were written,
    ///   the last one only in part.
    pub fn run<W: Write>(&mut self, events: &[Event], writer: &mut W) -> Result<Vec<bool>, RunFault>
        ensures alone { GivenWithin (S.world self.old.keeper) (S.world self.new.keeper)
            (IfOk result (λ taken.
            Runs (S.world self.old.keeper) (S.world self.new.keeper) (map happening events.now) taken.items
            (W.contents writer.old) (W.contents writer.new))) }
        ensures cut { GivenWithin (S.world self.old.keeper) (S.world self.new.keeper)
            (IfErr result (IfWrite (λ taken sent.
            RunsCut (S.world self.old.keeper) (S.world self.new.keeper) (map happening events.now) taken sent
            (W.contents writer.old) (W.contents writer.new)))) }
        ensures leaves { GivenWithin (S.world self.old.keeper) (S.world self.new.keeper)
            (IfOk result (λ taken.
            LeavesRun (IsLiveToLast (S.world self.old.keeper) (S.world self.new.keeper) taken.items)
            (S.world self.old.keeper) (S.world self.new.keeper) (map happening events.now)
            taken.items)) }
        ensures leaves_cut { GivenWithin (S.world self.old.keeper) (S.world self.new.keeper)
            (IfErr result (IfWrite (λ taken sent.
            LeavesRun (IsLiveToLast (S.world self.old.keeper) (S.world self.new.keeper) taken)
            (S.world self.old.keeper) (S.world self.new.keeper)
            (take (length taken) (map happening events.now)) taken))) }
        ensures memory { IfErr result (IfMemory
            ((self.new ≡ self.old) × Keeps (W.contents writer.old) (W.contents writer.new))) }
        ensures stays { GivenWithin (S.world self.old.keeper) (S.world self.new.keeper)
            (StaysOn (S.world self.old.keeper) (S.world self.new.keeper)) }
        ensures passes { Passes (S.world self.old.keeper) (S.world self.new.keeper) }
    {
        let Ok(mut taken) = self.room_for(events) else {
            return Err(RunFault::Memory);
        };
        for event in events {
            let answered = self.answer(event, writer);
            taken.push(answered.taken).unwrap();
            if let Err(fault) = answered.sent {
                return Err(RunFault::Write {
                    taken,
                    sent: fault.sent,
                });
            }
        }
        Ok(taken)
    }

    // Handles one event, and writes its answer.
    fn answer<W: Write>(&mut self, event: &Event, writer: &mut W) -> Answered
        ensures answered { GivenWithin (S.world self.old.keeper) (S.world self.new.keeper)
            ((answer : List ℕ)
            × IsRun (S.world self.old.keeper) (S.world self.new.keeper)
            (record { event = happening event.now; taken = result.taken; answer = answer } ∷ [])
            × SendsAnswer answer result.sent (W.contents writer.old) (W.contents writer.new)) }
        ensures leaves { GivenWithin (S.world self.old.keeper) (S.world self.new.keeper)
            ((S.world self.old.keeper).is_live →
            LeavesByOne (S.world self.old.keeper) (S.world self.new.keeper) (happening event.now)
            result.taken) }
        ensures lives { GivenWithin (S.world self.old.keeper) (S.world self.new.keeper)
            (result.taken ≡ true → (S.world self.old.keeper).is_live →
            (S.world self.new.keeper).is_live) }
        ensures stays { GivenWithin (S.world self.old.keeper) (S.world self.new.keeper)
            (Stays (S.world self.old.keeper) (S.world self.new.keeper)) }
        ensures passes { Passes (S.world self.old.keeper) (S.world self.new.keeper) }
    {
        match event {
            Event::Found { lab, tick, body } => {
                let line = self.answer_founding(lab, tick, body.as_slice());
                Answered {
                    taken: line.taken,
                    sent: write_whole(writer, line.bytes()),
                }
            }
            Event::Call { tick, bytes } => Answered {
                taken: self.handle(tick, bytes.as_slice()),
                sent: write_whole(writer, self.reply()),
            },
        }
    }
}
