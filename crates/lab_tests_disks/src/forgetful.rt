//! A file that is written in place anew, over a disk in memory which forgets what a sync that failed
//! had, as Linux does (fsync(2)).
use lab_program_host::{Renewable, renew};
use std::alloc::{AllocError, Global};
use std::io::{self, ErrorKind};
use std::process::Abort;

/// What is read of a file, what its disk has, and which bytes a sync would write.
#[derive(Drop)]
struct Forgetful {
    read: Vec<u8>,
    disk: Vec<u8>,
    waiting: Vec<bool>,
    fails: bool,
}

impl Forgetful {
    // One that was written, and of which a sync failed: the disk has other bytes, and none waits.
    fn behind_a_failed_sync(alloc: Global, length: usize) -> Result<Forgetful, AllocError> {
        let read = vec![in alloc; 7; length]?;
        let disk = vec![in alloc; 0; length]?;
        let waiting = vec![in alloc; false; length]?;
        Ok(Forgetful {
            read,
            disk,
            waiting,
            fails: false,
        })
    }
}

impl Renewable for Forgetful {
    ghost use Rattle.std.specs.Prelude.{[]};

    ghost seen = { λ _. [] };

    ghost written = { λ _ _. Unit {0} };

    ghost may_leave = { λ _ _. ⊥ };

    ghost is_honest = { λ _. ⊥ };

    fn length(&mut self) -> io::Result<usize> {
        Ok(self.read.len())
    }

    fn read(&mut self, at: usize, bytes: &mut [u8]) -> io::Result<()> {
        for (byte, found) in bytes.iter_mut().zip(self.read.iter().skip(at)) {
            *byte = *found;
        }
        Ok(())
    }

    fn write(&mut self, at: usize, bytes: &[u8]) -> io::Result<()> {
        for (place, byte) in self.read.iter_mut().skip(at).zip(bytes) {
            *place = *byte;
        }
        for (place, _) in self.waiting.iter_mut().skip(at).zip(bytes) {
            *place = true;
        }
        Ok(())
    }

    fn sync(&mut self) -> io::Result<()> {
        let bytes = self.disk.iter_mut().zip(self.read.iter());
        for ((kept, read), waits) in bytes.zip(self.waiting.iter_mut()) {
            if *waits && !self.fails {
                *kept = *read;
            }
            *waits = false;
        }
        if self.fails {
            Err(ErrorKind::Other.into())
        } else {
            Ok(())
        }
    }
}

/// How long the files are: none, one byte, and around the bytes that are read at once.
const LENGTHS: [usize; 6] = [0, 1, 16_383, 16_384, 16_385, 40_000];

fn file_behind_a_failed_sync<R: Abort + AllocGlobal>(rt: &R, length: usize) -> Forgetful {
    Forgetful::behind_a_failed_sync(rt.alloc(), length).expect(rt, "a file")
}

fn all_are(bytes: &[u8], byte: u8) -> bool {
    bytes.iter().all(|found| *found == byte)
}

#[test]
fn a_sync_alone_leaves_what_a_failed_one_lost(rt: HostRuntime) {
    for length in LENGTHS {
        let mut file = file_behind_a_failed_sync(&rt, length);
        assert_eq!(rt; file.sync().is_ok(), true);
        assert_eq!(rt; all_are(&file.disk, 0), true);
        drop(file);
    }
}

#[test]
fn what_is_renewed_is_on_the_disk(rt: HostRuntime) {
    for length in LENGTHS {
        let mut file = file_behind_a_failed_sync(&rt, length);
        assert_eq!(rt; renew(&mut file).is_ok(), true);
        assert_eq!(rt; (file.disk.len(), all_are(&file.disk, 7)), (length, true));
        assert_eq!(rt; (file.read.len(), all_are(&file.read, 7)), (length, true));
        drop(file);
    }
}

#[test]
fn where_the_sync_fails_it_is_renewed_the_next_time(rt: HostRuntime) {
    let mut file = file_behind_a_failed_sync(&rt, 40_000);
    file.fails = true;
    assert_eq!(rt; renew(&mut file).is_err(), true);
    assert_eq!(rt; all_are(&file.disk, 0), true);
    file.fails = false;
    assert_eq!(rt; renew(&mut file).is_ok(), true);
    assert_eq!(rt; all_are(&file.disk, 7), true);
    drop(file);
}
