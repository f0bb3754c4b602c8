//! The events of an input, run one after the other on a desk.
ghost use Rattle.lab_desk_events.specs.Keeping.{GivenWithin};
ghost use Rattle.lab_program_replay.specs.Replay.{IsFaultPrinted, Replays};

use crate::event::next_event;
use crate::fault::ReplayFault;
use lab_desk::Desk;
use lab_forms_streams::{WriteFault, write_whole};
use lab_records_keeper::Keeper;
use std::alloc::Global;
use std::io::{BufRead, Write};

/// Runs the events of the input on a desk until the input ends. After an error the events before it
/// stand, and their answers were written.
///
/// # Errors
/// What comes next isn't an event, the input or the output failed, or memory ran out.
pub fn run_events<S: Keeper + Drop, B: BufRead, W: Write>(
    alloc: Global,
    desk: &mut Desk<S>,
    reader: &mut B,
    output: &mut W,
) -> Result<(), ReplayFault>
    ensures replayed { GivenWithin (S.world desk.old.keeper) (S.world desk.new.keeper)
        (Replays (S.world desk.old.keeper) (S.world desk.new.keeper)
        (B.remaining reader.old) (W.contents output.old) (W.contents output.new) result) }
{
    for _ in 0..u64::MAX {
        let Some(event) = next_event(alloc, reader)? else {
            return Ok(());
        };
        desk.run(&[event], output)?;
    }
    Err(ReplayFault::ReadFault)
}

/// Prints the whole line of a fault on standard error.
///
/// # Errors
/// Standard error failed after the first bytes of the line.
pub fn tell<E: Write>(errors: &mut E, fault: ReplayFault) -> Result<(), WriteFault>
    ensures { IsFaultPrinted fault result (E.contents errors.old) (E.contents errors.new) }
{
    write_whole(errors, fault.line().as_bytes())
}
