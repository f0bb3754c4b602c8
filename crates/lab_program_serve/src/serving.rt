//! Serving connections, one after the other, whatever they come from.

ghost use Rattle.std.specs.Prelude.{◌≡◌, IfSome};
ghost use Rattle.lab_wire_heads.specs.Interims.{interim_text};
ghost use Rattle.lab_records_keeper.specs.Worlds.{Passes};
ghost use Rattle.lab_desk_events.specs.Keeping.{GivenWithin, Stays};
ghost use Rattle.lab_desk.specs.Serving.{HandlesRequest};
ghost use Rattle.lab_program_serve.specs.Texts.{IsPrinted, listening_line};
ghost use Rattle.lab_program_host.specs.Hosts.{drawing_between};
ghost use Rattle.lab_program_serve.specs.Times.{ServesTimes};
ghost use Rattle.lab_program_serve.specs.Visits.{OnServed, OnUnserved, SendsReply};

use crate::connections::{Client, Connections};
use crate::live_desks::LiveDesk;
use crate::openings::Opener;
use lab_desk::{Desk, Keeper};
use lab_forms_streams::write_whole;
use lab_forms_texts::Tick;
use lab_program_host::{ConnectionFault, Host, Outside, ServerFault, draw};
use std::alloc::Global;
use std::io::{BufReader, Read, Write};

// How many bytes are read ahead; most requests have fewer. The buffer is made for each connection, and zeroed.
const BUFFER_SIZE: usize = 2048;

// Tells that clients can connect, and to which port.
fn announce<W: Write>(alloc: Global, output: &mut W, port: u16) -> Result<(), ServerFault>
    ensures { IsPrinted (listening_line port) result
        (W.contents output.old) (W.contents output.new) }
{
    let line = format!(in alloc; "listening 127.0.0.1:{port}\n")?;
    write_whole(output, line.as_bytes())?;
    match output.flush() {
        Ok(()) => Ok(()),
        Err(_) => Err(ServerFault::Write),
    }
}

/// Serves one connection, which is read through a buffer.
///
/// # Errors
/// Those of serving a request, and that there was no memory for the buffer: nothing is changed.
pub fn serve_connection<S: Keeper + Drop, R: Read + Drop, W: Write>(
    alloc: Global,
    desk: &mut Desk<S>,
    reader: R,
    writer: &mut W,
    tick: &Tick,
) -> Result<(), ConnectionFault>
    ensures handled { OnServed result (HandlesRequest S.Keeper desk.old.keeper desk.new.keeper
        (record { known = R.remaining reader; tick = tick.now; reply = desk.new.reply })) }
    ensures written { IfSome (R.remaining reader) (λ bytes.
        SendsReply (interim_text bytes) desk.new.reply result
        (W.contents writer.old) (W.contents writer.new)) }
    ensures untouched { OnUnserved result (desk.new ≡ desk.old) }
    ensures stays { GivenWithin (S.world desk.old.keeper) (S.world desk.new.keeper)
        (Stays (S.world desk.old.keeper) (S.world desk.new.keeper)) }
    ensures passes { Passes (S.world desk.old.keeper) (S.world desk.new.keeper) }
{
    let Ok(mut buffered) = BufReader::with_capacity(alloc, BUFFER_SIZE, reader) else {
        return Err(ConnectionFault::Memory);
    };
    desk.serve_one(&mut buffered, writer, tick)?;
    Ok(())
}

/// Serves `count` connections, one after the other, and prints first the port at which clients can
/// connect. The tick of a connection is drawn when it is accepted. A connection whose request could
/// not be read or answered whole counts as served, and the next one is served. A keeper that a
/// fault has shut is opened anew before the next request.
///
/// # Errors
/// The line couldn't be printed, or there was no memory for it; or the listener, the clock or the
/// source of random words failed: what was served before stands.
pub fn serve_over<M: Outside, S: Keeper + Drop, O, L: Connections, W: Write>(
    host: &mut Host<'_, M>,
    live_desk: &mut LiveDesk<S, O>,
    connections: &mut L,
    count: u32,
    output: &mut W,
) -> Result<(), ServerFault>
where
    O: Opener<M::Volume, S> + Drop,
    ensures printed { IsPrinted (listening_line (L.listens_at connections.old)) result
        (W.contents output.old) (W.contents output.new) }
    ensures served { IfSome live_desk.old (λ desk. O.opened desk.keeper →
        ServesTimes S.Keeper O.opened O.closed O.unopened desk.keeper live_desk.new result count
        (record {
          coming = L.coming connections.old;
          left = L.coming connections.new;
          drawing = drawing_between M.Clock.coming M.Chance.coming host.old host.new;
        })) }
{
    announce(host.alloc, output, connections.port())?;
    for _ in 0..count {
        let connection = connections.accept()?;
        let tick = draw(&mut host.clock, &mut host.chance)?;
        let Client { reader, mut writer } = connection;
        let _ = live_desk.visit(host.alloc, &mut host.volume, reader, &mut writer, &tick);
    }
    Ok(())
}
