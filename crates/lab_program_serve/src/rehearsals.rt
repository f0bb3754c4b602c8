//! A rehearsal: a laboratory is founded in memory, and asked for its card over a connection.

ghost use Rattle.std.specs.Prelude.{◌≡◌, List, [], IfOk, IfErr};
ghost use Rattle.lab_records_keeper.specs.Worlds.{Passes};
ghost use Rattle.lab_desk_events.specs.Keeping.{GivenWithin};
ghost use Rattle.lab_program_serve.specs.Rehearsals.{Forwards, IsServedAt, IsUnfounded, OfBody, card_request, rehearsal_tick};
ghost use Rattle.lab_program_serve.specs.Private.Rehearsals.{IsFounded};
ghost use Rattle.lab_program_serve.specs.Texts.{IsPrinted};
ghost use Rattle.lab_program_serve.specs.Visits.{AreVisits, IsStill, Visit};

use crate::{Client, Connections, Desk, Keeper, serve_connection};
use lab_forms_streams::write_whole;
use lab_forms_texts::{LabCode, Moment, OutOfMemory, Tick};
use lab_program_host::{RehearsalFault, ServerFault, read_all};
use lab_records_memory::Lists;
use std::alloc::Global;
use std::io::{Read, Write};

// The tick of a rehearsal at a moment.
fn tick_at(moment: Moment) -> Tick
    ensures { result ≡ rehearsal_tick moment }
{
    Tick {
        moment,
        words: [1, 2, 3, 4, 5, 6, 7, 8],
    }
}

/// The request of a rehearsal: it asks for the card of the laboratory of this code.
///
/// # Errors
/// Memory ran out.
pub fn request_bytes(alloc: Global, lab: &LabCode) -> Result<Vec<u8>, OutOfMemory>
    ensures { IfOk result (λ request. request.items ≡ card_request lab.now) }
{
    let code = lab.as_str();
    let text = format!(in alloc; "GET /labs/{code} HTTP/1.1\r\nHost: localhost\r\n\r\n")?;
    Ok(text.into_bytes())
}

// The tick at which a rehearsal founds its laboratory: that of the first of all moments.
fn founding_tick() -> Tick
    ensures { result ≡ rehearsal_tick 0 }
{
    tick_at(Moment::from_seconds(0).unwrap())
}

/// A desk over memory alone, with the one laboratory that is founded at the first of all moments.
///
/// # Errors
/// The body couldn't be read, the founding was refused, or memory ran out.
pub(crate) fn found_in_memory<B: Read>(
    alloc: Global,
    lab: &LabCode,
    body: &mut B,
) -> Result<Desk<Lists>, RehearsalFault>
    ensures { OfBody (B.remaining body.old) (λ bytes.
        IfOk result (λ desk. IsFounded lab.now bytes desk.keeper)
        × IfErr result (IsUnfounded lab.now bytes)) }
{
    let bytes = read_all(alloc, body)?;
    let mut desk = desk_in_memory(alloc)?;
    desk.found(lab, &founding_tick(), bytes.as_slice())?;
    Ok(desk)
}

// A desk over memory alone, with no laboratory.
fn desk_in_memory(alloc: Global) -> Result<Desk<Lists>, ServerFault>
    ensures { IfOk result (λ desk. desk.keeper ≡ []) }
{
    match Desk::new(alloc, Lists::new(alloc)) {
        Ok(desk) => Ok(desk),
        Err(_) => Err(ServerFault::Memory),
    }
}

// Writes all that a reader gives.
fn forward<R: Read, W: Write>(
    alloc: Global,
    reader: &mut R,
    output: &mut W,
) -> Result<(), ServerFault>
    ensures { Forwards (R.remaining reader.old) result
        (W.contents output.old) (W.contents output.new) }
{
    let bytes = read_all(alloc, reader)?;
    write_whole(output, bytes.as_slice())?;
    Ok(())
}

/// Asks a desk for the card of a laboratory over the next connection, the other end of which is the
/// client's, and prints what the client gets.
///
/// # Errors
/// The connection failed at either end, the output failed, or memory ran out.
pub fn rehearse_over<S: Keeper + Drop, A: Read, B: Write, L: Connections, W: Write>(
    alloc: Global,
    desk: &mut Desk<S>,
    lab: &LabCode,
    moment: Moment,
    client: &mut Client<A, B>,
    connections: &mut L,
    output: &mut W,
) -> Result<(), ServerFault>
    ensures asked { IsPrinted (card_request lab.now) result
        (B.contents client.old.writer) (B.contents client.new.writer) }
    ensures printed { Forwards (A.remaining client.old.reader) result
        (W.contents output.old) (W.contents output.new) }
    ensures served { GivenWithin (S.world desk.old.keeper) (S.world desk.new.keeper)
        ((visits : List Visit)
        × AreVisits S.Keeper (IsStill S.Keeper) desk.old.reply desk.old.keeper visits
        desk.new.keeper
        × IsServedAt (rehearsal_tick moment) result visits) }
    ensures passes { Passes (S.world desk.old.keeper) (S.world desk.new.keeper) }
{
    let request = request_bytes(alloc, lab)?;
    write_whole(&mut client.writer, request.as_slice())?;
    let connection = connections.accept()?;
    let Client { reader, mut writer } = connection;
    serve_connection(alloc, desk, reader, &mut writer, &tick_at(moment))?;
    drop(writer);
    forward(alloc, &mut client.reader, output)
}
