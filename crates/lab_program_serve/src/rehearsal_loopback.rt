//! A rehearsal over a socket of this machine.

ghost use Rattle.std.specs.Prelude.{ℕ, List};
ghost use Rattle.std.specs.Io.KnownBytes.{Appends};
ghost use Rattle.lab_program_host.specs.Hosts.{end_between};
ghost use Rattle.lab_program_serve.specs.Rehearsals.{OfBody};
ghost use Rattle.lab_program_serve.specs.RehearseTask.{FoundsBy, IsRehearsal, Prints};

use crate::rehearsals::{found_in_memory, rehearse_over};
use crate::{Connections, Desk, Keeper, Listening, Rest, connect, listen};
use lab_forms_streams::WriteFault;
use lab_forms_texts::{LabCode, Moment};
use lab_program_host::{Host, Outside, RehearsalFault, ServerFault, Streams, Writers, tell};
use std::alloc::Global;
use std::io::{Read, Write};
use std::net::Net;

// Asks a desk for the card of a laboratory over a socket of this machine, and prints what it gets.
fn rehearse_on<N: Net, S: Keeper + Drop, W: Write>(
    net: &N,
    alloc: Global,
    desk: &mut Desk<S>,
    lab: &LabCode,
    moment: Moment,
    output: &mut W,
) -> Result<(), ServerFault>
    ensures { (printed : List ℕ)
        × Appends (W.contents output.old) (W.contents output.new) printed }
{
    let listener = listen(net, 0)?;
    let mut listening = Listening::new(listener, Rest::new(net))?;
    let mut client = connect(net, listening.port())?;
    rehearse_over(
        alloc,
        desk,
        lab,
        moment,
        &mut client,
        &mut listening,
        output,
    )
}

// Founds a laboratory in memory, and asks for its card.
fn found_and_ask<N: Net, B: Read, W: Write>(
    net: &N,
    alloc: Global,
    lab: &LabCode,
    moment: Moment,
    body: &mut B,
    output: &mut W,
) -> Result<(), RehearsalFault>
    ensures founded { OfBody (B.remaining body.old) (λ bytes. FoundsBy lab.now bytes result) }
    ensures printed { (printed : List ℕ) × Prints result printed
        × Appends (W.contents output.old) (W.contents output.new) printed }
{
    let mut desk = found_in_memory(alloc, lab, body)?;
    Ok(rehearse_on(net, alloc, &mut desk, lab, moment, output)?)
}

/// `labdesk rehearse`: founds a laboratory in memory from its body, at the first of all moments,
/// asks for its card over a socket of this machine at the moment that is given, and prints what it
/// gets. Says on standard error why the founding was refused, or what failed. Returns the status:
/// 0 where a reply was printed, and else 1.
///
/// # Errors
/// It failed, and standard error failed before the whole line was written.
pub fn rehearse<M: Outside, B: Read, W: Writers>(
    host: &mut Host<'_, M>,
    lab: &LabCode,
    moment: Moment,
    body: &mut B,
    streams: &mut Streams<W>,
) -> Result<u8, WriteFault>
    ensures { IsRehearsal (B.remaining body.old) lab.now
        (end_between W.Output.contents W.Errors.contents streams.old streams.new result) }
{
    match found_and_ask(host.net, host.alloc, lab, moment, body, &mut streams.output) {
        Ok(()) => Ok(0),
        Err(fault) => {
            tell(&mut streams.errors, fault.word())?;
            Ok(1)
        }
    }
}
