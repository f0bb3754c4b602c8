//! `labdesk replay`: the events of an input, run one after the other over a store in memory.

ghost use Rattle.std.specs.Prelude.{◌≡◌, ℕ, List, None, IfOk, IfErr};
ghost use Rattle.sqlite.specs.Steps.{over_memory};
ghost use Rattle.lab_store.specs.StoreWorlds.{store_world};
ghost use Rattle.lab_program_replay.specs.Private.Replays.{IsBeginFault};
ghost use Rattle.lab_program_replay.specs.Replays.{IsReplay, ReplaysFromNothing};

use crate::memory::store_in_memory;
use crate::{Desk, LimitedReader, MOST_ASKS, ReplayFault, run_events, tell};
use lab_forms_streams::WriteFault;
use lab_store::Store;
use lab_store_files::FileFault;
use sqlite::MemStore;
use std::alloc::Global;
use std::io::{BufReader, Read, Write};

// A store in memory, without laboratories, or the fault of a replay if it can't be made.
fn new_store(alloc: Global) -> Result<Store<MemStore>, ReplayFault>
    ensures nobody { IfOk result (λ store. (code : List ℕ) →
        (store_world over_memory store).meaning code ≡ None) }
    ensures honest { IfOk result (λ store. (store_world over_memory store).is_honest) }
    ensures reached { IfOk result (λ store. (store_world over_memory store).is_reached) }
    ensures fault { IfErr result IsBeginFault }
{
    match store_in_memory(alloc) {
        Ok(store) => Ok(store),
        Err(FileFault::Memory) => Err(ReplayFault::Memory),
        Err(_) => Err(ReplayFault::Storage),
    }
}

// Runs the events of the input, which begins without laboratories.
//
// Errors: what comes next isn't an event, the input or the output failed, the store could not be
// made, or memory ran out.
fn run_input<R: Read + Drop, W: Write>(
    alloc: Global,
    input: R,
    output: &mut W,
) -> Result<(), ReplayFault>
    ensures { ReplaysFromNothing (R.remaining input)
        (W.contents output.old) (W.contents output.new) result }
{
    let store = new_store(alloc)?;
    let Ok(mut desk) = Desk::new(alloc, store) else {
        return Err(ReplayFault::Memory);
    };
    let mut reader = BufReader::new(alloc, LimitedReader::new(input, MOST_ASKS))?;
    run_events(alloc, &mut desk, &mut reader, output)
}

/// `labdesk replay`: runs the events of the input in a store in memory that begins without
/// laboratories, writes their answers to the output, and prints on standard error why it stopped if
/// it stopped before the input's end. Returns the status: 0 for a whole replay, otherwise 1.
///
/// # Errors
/// The replay stopped, and standard error failed before the whole line was printed.
pub fn replay<R: Read + Drop, W: Write, E: Write>(
    alloc: Global,
    input: R,
    output: &mut W,
    errors: &mut E,
) -> Result<u8, WriteFault>
    ensures { IsReplay (R.remaining input) (W.contents output.old) (W.contents output.new)
        (E.contents errors.old) (E.contents errors.new) result }
{
    match run_input(alloc, input, output) {
        Ok(()) => Ok(0),
        Err(fault) => {
            tell(errors, fault)?;
            Ok(1)
        }
    }
}
