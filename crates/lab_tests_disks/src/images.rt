//! What a log and its file hold, and disks in memory with it, each of which may be stopped.
use sqlite::Files;
use sqlite_disk::{Crash, Disk, Fuse, Memory};
use std::alloc::{AllocError, Global};
use std::io;

/// Two disks, of which each may be stopped: that of a log and that of its file.
pub(crate) type Pair = Files<Fuse<Memory>>;

/// What a log and its file hold.
#[derive(Drop)]
pub(crate) struct Image {
    /// The bytes of the log.
    pub(crate) log: Vec<u8>,
    /// The bytes of the file.
    pub(crate) file: Vec<u8>,
}

/// How many calls of each disk are passed on. Each later one fails.
#[derive(Clone, Copy)]
pub(crate) struct Passed {
    pub(crate) log: u64,
    pub(crate) file: u64,
}

/// All of them.
pub(crate) const EACH: Passed = Passed {
    log: u64::MAX,
    file: u64::MAX,
};

/// Which of both is stopped.
#[derive(Clone, Copy)]
pub(crate) enum Stopped {
    /// That of the log.
    Log,
    /// That of the file.
    File,
}

impl Stopped {
    /// This number of calls of that disk is passed on, and each of the other one.
    pub(crate) fn after(self, calls: u64) -> Passed {
        match self {
            Stopped::Log => Passed {
                log: calls,
                file: u64::MAX,
            },
            Stopped::File => Passed {
                log: u64::MAX,
                file: calls,
            },
        }
    }
}

impl Image {
    /// Nothing.
    pub(crate) fn empty(alloc: Global) -> Image {
        Image {
            log: Vec::new(alloc),
            file: Vec::new(alloc),
        }
    }

    /// Whether both hold the same.
    pub(crate) fn is(&self, other: &Image) -> bool {
        self.log == other.log && self.file == other.file
    }
}

// A disk on which these bytes lie, as they were synced.
fn lying(alloc: Global, bytes: &[u8]) -> io::Result<Memory> {
    let mut memory = Memory::new(alloc);
    memory.write_at(0, bytes)?;
    memory.sync()?;
    Ok(memory)
}

// The same, of which so many calls are passed on.
fn stopping(alloc: Global, bytes: &[u8], passed: u64) -> Option<Fuse<Memory>> {
    match lying(alloc, bytes) {
        Ok(memory) => Some(Fuse::new(memory, passed)),
        Err(_) => None,
    }
}

/// Both disks with what they hold, which pass on this number of calls; `None` if memory ran out.
pub(crate) fn laid(alloc: Global, image: &Image, passed: Passed) -> Option<Pair> {
    let log = stopping(alloc, &image.log, passed.log)?;
    let db = stopping(alloc, &image.file, passed.file)?;
    Some(Files { log, db })
}

fn bytes(alloc: Global, disk: &Fuse<Memory>) -> Result<Vec<u8>, AllocError> {
    disk.inner().bytes().to_vec(alloc)
}

/// What they hold; none where memory ran out.
pub(crate) fn written(alloc: Global, pair: &Pair) -> Option<Image> {
    let log = bytes(alloc, &pair.log).ok()?;
    let file = bytes(alloc, &pair.db).ok()?;
    Some(Image { log, file })
}

/// The machine stops, which loses what wasn't synced.
pub(crate) fn crash(pair: &mut Pair) {
    pair.log.crash();
    pair.db.crash();
}

// Whether a disk passes on one more call.
fn passes(disk: &mut Fuse<Memory>) -> bool {
    disk.may_be_used() && disk.len().is_ok()
}

/// Whether each of both passes on one more call.
pub(crate) fn are_passing(pair: &mut Pair) -> bool {
    passes(&mut pair.log) & passes(&mut pair.db)
}
