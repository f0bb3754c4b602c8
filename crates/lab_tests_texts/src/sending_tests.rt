//! How a reply is sent to a writer that takes a few bytes at a time, or stops.
use crate::bytes::assert_bytes;
use lab_forms_streams::{WriteFault, write_whole};
use std::alloc::Global;
use std::io::{self, Write};
use std::process::Abort;

const REPLY: &[u8] = b"seven b";

// A writer that takes so many bytes at a write, and no byte or a fault at one of its writes.
#[derive(Drop)]
struct Pipe {
    taken: Vec<u8>,
    at_once: usize,
    writes: usize,
    stops_at: usize,
    fails: bool,
}

impl Pipe {
    fn new(alloc: Global, at_once: usize, stops_at: usize, fails: bool) -> Pipe {
        Pipe {
            taken: Vec::new(alloc),
            at_once,
            writes: 0,
            stops_at,
            fails,
        }
    }
}

impl Write for Pipe {
    fn write(&mut self, buf: &[u8]) -> io::Result<usize> {
        self.writes = self.writes.saturating_add(1);
        if self.writes == self.stops_at {
            if self.fails {
                return Err(io::Error::from(io::ErrorKind::BrokenPipe));
            }
            return Ok(0);
        }
        let count = buf.len().min(self.at_once);
        self.taken.extend_from_slice(&buf[..count])?;
        Ok(count)
    }

    fn flush(&mut self) -> io::Result<()> {
        Ok(())
    }
}

// Of the reply these bytes go out, with this answer.
fn assert_sent(rt: &impl Abort, mut pipe: Pipe, wanted: Result<(), WriteFault>, bytes: &[u8]) {
    assert_eq!(rt; write_whole(&mut pipe, REPLY), wanted);
    assert_bytes(rt, &pipe.taken, bytes);
}

#[test]
fn the_whole_reply_goes_out_however_little_is_taken_at_once(rt: HostRuntime) {
    for at_once in 1..9 {
        assert_sent(&rt, Pipe::new(rt.alloc(), at_once, 0, false), Ok(()), REPLY);
    }
}

#[test]
fn a_fault_says_how_many_bytes_went_out(rt: HostRuntime) {
    for (stops_at, sent) in [(1, 0), (2, 2), (3, 4), (4, 6)] {
        for fails in [false, true] {
            let pipe = Pipe::new(rt.alloc(), 2, stops_at, fails);
            assert_sent(&rt, pipe, Err(WriteFault { sent }), &REPLY[..sent.min(7)]);
        }
    }
}

#[test]
fn no_byte_needs_no_write(rt: HostRuntime) {
    let mut pipe = Pipe::new(rt.alloc(), 1, 1, true);
    write_whole(&mut pipe, b"").expect(&rt, "no byte to write");
    assert_eq!(rt; pipe.writes, 0);
    assert_bytes(&rt, &pipe.taken, b"");
}
