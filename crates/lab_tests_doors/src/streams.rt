//! A connection's two ends, for tests: a reader that gives a byte at a time, and a writer that
//! keeps what it took and may fail.
use std::io;
use std::io::{ErrorKind, Read, Write};

/// Gives its bytes one by one.
#[derive(Drop)]
pub(crate) struct Dripping<'a> {
    pub(crate) bytes: &'a [u8],
}

impl<'a> Read for Dripping<'a> {
    fn read(&mut self, room: &mut [u8]) -> io::Result<usize> {
        let (Some((first, others)), Some(place)) = (self.bytes.split_first(), room.first_mut())
        else {
            return Ok(0);
        };
        *place = *first;
        self.bytes = others;
        Ok(1)
    }
}

/// Keeps what it takes: this number of bytes, at most three at a time. Then it fails.
#[derive(Drop)]
pub(crate) struct Filling {
    pub(crate) room: usize,
    pub(crate) taken: Vec<u8>,
}

impl Write for Filling {
    fn write(&mut self, bytes: &[u8]) -> io::Result<usize> {
        let taken = bytes.len().min(self.room).min(3);
        if taken == 0 || self.taken.extend_from_slice(&bytes[..taken]).is_err() {
            return Err(io::Error::from(ErrorKind::BrokenPipe));
        }
        self.room -= taken;
        Ok(taken)
    }

    fn flush(&mut self) -> io::Result<()> {
        Ok(())
    }
}
