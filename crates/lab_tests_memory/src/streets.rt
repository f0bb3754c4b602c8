//! A network in memory: at a port that is listened at come two clients, one after the other.
use std::cell::{Cell, RefCell};
use std::io::{self, ErrorKind, Read, Write};
use std::net::{Net, OpenListener, OpenStream, SocketAddr};
use std::os::fd::{AsRawFd, RawFd};

/// A client: what it sends, and what it gets.
#[derive(Drop)]
pub(crate) struct Client {
    pub(crate) sends: &'static [u8],
    pub(crate) gets: RefCell<Vec<u8>>,
}

/// Who comes, and how many of them have come.
#[derive(Drop)]
pub(crate) struct Street {
    pub(crate) clients: [Client; 2],
    pub(crate) came: Cell<usize>,
}

/// The network on which they come.
#[derive(Drop)]
pub(crate) struct Ground<'a> {
    pub(crate) street: &'a Street,
}

/// A listener, to which they come.
#[derive(Drop)]
pub(crate) struct Door<'a> {
    street: &'a Street,
    address: SocketAddr,
}

/// A connection: what its client has sent that is not read, and the client.
#[derive(Drop)]
pub(crate) struct Line<'a> {
    unread: &'static [u8],
    client: &'a Client,
}

impl<'a> Net for Ground<'a> {
    type Stream = Line<'a>;

    type Listener = Door<'a>;

    fn bind(&self, address: SocketAddr) -> io::Result<Door<'a>> {
        Ok(Door {
            street: self.street,
            address,
        })
    }

    fn connect(&self, _address: SocketAddr) -> io::Result<Line<'a>> {
        Err(io::Error::from(ErrorKind::Unsupported))
    }
}

impl<'a> OpenListener for Door<'a> {
    type Stream = Line<'a>;

    fn accept(&self) -> io::Result<(Line<'a>, SocketAddr)> {
        let at = self.street.came.get();
        self.street.came.set(at.saturating_add(1));
        match self.street.clients.get(at) {
            Some(client) => Ok((line_of(client), self.address)),
            None => Err(io::Error::from(ErrorKind::NotConnected)),
        }
    }

    fn local_addr(&self) -> io::Result<SocketAddr> {
        Ok(self.address)
    }
}

fn line_of(client: &Client) -> Line<'_> {
    Line {
        unread: client.sends,
        client,
    }
}

impl<'a> OpenStream for Line<'a> {
    fn try_clone(&self) -> io::Result<Line<'a>> {
        Ok(Line {
            unread: self.unread,
            client: self.client,
        })
    }
}

impl<'a> AsRawFd for Door<'a> {
    fn as_raw_fd(&self) -> RawFd {
        -1
    }
}

impl<'a> AsRawFd for Line<'a> {
    fn as_raw_fd(&self) -> RawFd {
        -1
    }
}

impl<'a> Read for Line<'a> {
    fn read(&mut self, room: &mut [u8]) -> io::Result<usize> {
        let length = self.unread.len().min(room.len());
        room[..length].copy_from_slice(&self.unread[..length]);
        self.unread = &self.unread[length..];
        Ok(length)
    }
}

fn push(client: &Client, bytes: &[u8]) -> Option<()> {
    let mut gets = client.gets.try_borrow_mut().ok()?;
    gets.extend_from_slice(bytes).ok()
}

impl<'a> Write for Line<'a> {
    fn write(&mut self, bytes: &[u8]) -> io::Result<usize> {
        match push(self.client, bytes) {
            Some(()) => Ok(bytes.len()),
            None => Err(io::Error::from(ErrorKind::BrokenPipe)),
        }
    }

    fn flush(&mut self) -> io::Result<()> {
        Ok(())
    }
}
