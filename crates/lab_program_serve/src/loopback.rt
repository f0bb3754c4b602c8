//! Sockets: a listener of this machine, and what is served over it.

ghost use Rattle.std.specs.Prelude.{◌≡◌, IfErr, IfSome};
ghost use Rattle.lab_program_serve.specs.ServeTask.{IsServing};
ghost use Rattle.lab_program_serve.specs.Texts.{IsAnnounced};
ghost use Rattle.lab_program_host.specs.declared.faults.ServerFault.TheVariants.{Read as NoneListened};
ghost use Rattle.lab_program_host.specs.Hosts.{drawing_between, end_between};
ghost use Rattle.lab_program_serve.specs.Times.{ServesTimes};
ghost use Rattle.lab_program_serve.specs.Visits.{listened};

use crate::connections::{Client, Connections};
use crate::live_desks::LiveDesk;
use crate::openings::Opener;
use crate::serving::serve_over;
use lab_desk::Keeper;
use lab_forms_streams::WriteFault;
use lab_program_host::{Host, ListenFault, Outside, ServerFault, Streams, Writers, tell};
use std::io::{Error, ErrorKind, Read, Write};
use std::net::{
    Ipv4Addr, Net, OpenListener, OpenStream, SocketAddr, SocketAddrV4, TcpListener, TcpStream,
    UdpSocket,
};
use std::time::Duration;

/// How often in a row a connection that was lost as it was accepted is passed over. With a rest each
/// time these are a hundred thousand seconds.
const MOST_LOST: u32 = 1_000_000;

/// How long a rest is, in milliseconds.
const REST: u64 = 100;

/// Where a rest is taken: a socket of this machine to which nobody sends. A read of it waits so long.
#[derive(Drop)]
pub struct Rest {
    socket: Option<UdpSocket>,
}

impl Rest {
    /// A place to rest. If the network gives no such socket, no rest is taken.
    pub fn new<N: Net>(net: &N) -> Rest {
        Rest {
            socket: rest_socket(net).ok(),
        }
    }

    fn take(&self) {
        if let Some(socket) = &self.socket {
            let _ = socket.recv(&mut [0u8]);
        }
    }
}

// A socket of which a read waits for the time of a rest.
fn rest_socket<N: Net>(net: &N) -> Result<UdpSocket, Error> {
    let socket = UdpSocket::bind(net, loopback(0))?;
    socket.set_read_timeout(Some(Duration::from_millis(REST)))?;
    Ok(socket)
}

/// A listener of which connections are accepted, and its port.
#[derive(Drop)]
pub struct Listening<L> {
    listener: L,
    rest: Rest,
    port: u16,
}

impl<L: OpenListener + Drop> Listening<L> {
    /// The connections of a listener.
    ///
    /// # Errors
    /// The port can't be listened at.
    pub fn new(listener: L, rest: Rest) -> Result<Listening<L>, ListenFault> {
        match listener.local_addr() {
            Ok(address) => Ok(Listening {
                listener,
                rest,
                port: address.port(),
            }),
            Err(_) => Err(ListenFault),
        }
    }

    // The next stream; none where its connection was lost, or where there was no room for it: then only
    // after a rest, since the next try has none either until something else ends.
    fn next_stream(&self) -> Result<Option<L::Stream>, ListenFault> {
        match self.listener.accept() {
            Ok((stream, _)) => Ok(Some(stream)),
            Err(error) if is_end(&error) => Err(ListenFault),
            Err(error) => {
                if has_no_room(&error) {
                    self.rest.take();
                }
                Ok(None)
            }
        }
    }
}

impl<L: OpenListener + Drop> Listening<L>
where
    L::Stream: Read + Write + OpenStream,
{
    // Both ends of the next stream; none where its connection was lost, or where the system has no
    // second handle of it, with which that connection ends.
    fn next_ends(&self) -> Result<Option<Client<L::Stream, L::Stream>>, ListenFault> {
        match self.next_stream()? {
            Some(stream) => Ok(ends_of(stream).ok()),
            None => Ok(None),
        }
    }
}

// Whether an error is the listener's own end: it is no socket, or none that listens. Of all else a
// connection was lost, or there was no descriptor or no memory for it, and another try may have the
// next one (accept(2), 'Error handling'). The numbers are Linux's EBADF, EFAULT, EINVAL and ENOTSOCK.
fn is_end(error: &Error) -> bool {
    match error.raw_os_error() {
        Some(number) => matches!(number, 9 | 14 | 22 | 88),
        None => error.kind() != ErrorKind::Interrupted,
    }
}

// Whether there was no descriptor, no buffer or no memory for a connection (accept(2), 'Errors'). The
// numbers are Linux's ENOMEM, ENFILE, EMFILE and ENOBUFS.
fn has_no_room(error: &Error) -> bool {
    matches!(error.raw_os_error(), Some(12 | 23 | 24 | 105))
}

impl<L: OpenListener + Drop> Connections for Listening<L>
where
    L::Stream: Read + Write + OpenStream,
{
    type Reader = L::Stream;

    type Writer = L::Stream;

    ghost listens_at = { λ listening. listening.port };

    fn port(&self) -> u16 {
        self.port
    }

    fn accept(&mut self) -> Result<Client<L::Stream, L::Stream>, ListenFault> {
        for _ in 0..MOST_LOST {
            if let Some(ends) = self.next_ends()? {
                return Ok(ends);
            }
        }
        Err(ListenFault)
    }
}

// Both ends of a stream.
fn ends_of<T: Read + Write + OpenStream + Drop>(reader: T) -> Result<Client<T, T>, ListenFault> {
    match reader.try_clone() {
        Ok(writer) => Ok(Client { reader, writer }),
        Err(_) => Err(ListenFault),
    }
}

// The address of a port of this machine.
fn loopback(port: u16) -> SocketAddr {
    SocketAddr::V4(SocketAddrV4::new(Ipv4Addr::LOCALHOST, port))
}

/// A listener at a port of this machine; port 0 is any that is free.
///
/// # Errors
/// `Read` where the network gives none, and no other fault.
pub fn listen<N: Net>(net: &N, port: u16) -> Result<N::Listener, ServerFault>
    ensures fault { IfErr result (λ fault. fault ≡ NoneListened) }
{
    match TcpListener::bind(net, loopback(port)) {
        Ok(listener) => Ok(listener),
        Err(_) => Err(ServerFault::Read),
    }
}

/// A client's connection to a port of this machine.
///
/// # Errors
/// The network gives none.
pub fn connect<N: Net>(net: &N, port: u16) -> Result<Client<N::Stream, N::Stream>, ServerFault> {
    match TcpStream::connect(net, loopback(port)) {
        Ok(stream) => Ok(ends_of(stream)?),
        Err(_) => Err(ServerFault::Read),
    }
}

// Serves so many connections of a listener.
fn serve_listener<M: Outside, S: Keeper + Drop, O: Opener<M::Volume, S> + Drop, W: Write>(
    host: &mut Host<'_, M>,
    live_desk: &mut LiveDesk<S, O>,
    listener: <M::Net as Net>::Listener,
    count: u32,
    output: &mut W,
) -> Result<(), ServerFault>
    ensures printed { IsAnnounced result (W.contents output.old) (W.contents output.new) }
    ensures served { IfSome live_desk.old (λ desk. O.opened desk.keeper →
        ServesTimes S.Keeper O.opened O.closed O.unopened desk.keeper live_desk.new result count
        (listened (drawing_between M.Clock.coming M.Chance.coming host.old host.new))) }
{
    let mut listening = Listening::new(listener, Rest::new(host.net))?;
    serve_over(host, live_desk, &mut listening, count, output)
}

/// `labdesk serve`: serves `count` connections of a listener, as [`serve_over`] does, and says
/// on standard error why it stopped before the last. Returns the status: 0 where all were served, and
/// else 1.
///
/// # Errors
/// It stopped, and standard error failed before the whole line was written.
pub fn serve<M: Outside, S: Keeper + Drop, O: Opener<M::Volume, S> + Drop, W: Writers>(
    host: &mut Host<'_, M>,
    live_desk: &mut LiveDesk<S, O>,
    listener: <M::Net as Net>::Listener,
    count: u32,
    streams: &mut Streams<W>,
) -> Result<u8, WriteFault>
    ensures { IsServing S.Keeper O.opened O.closed O.unopened live_desk.old live_desk.new
        (drawing_between M.Clock.coming M.Chance.coming host.old host.new) count
        (end_between W.Output.contents W.Errors.contents streams.old streams.new result) }
{
    match serve_listener(host, live_desk, listener, count, &mut streams.output) {
        Ok(()) => Ok(0),
        Err(fault) => {
            tell(&mut streams.errors, fault.word())?;
            Ok(1)
        }
    }
}
