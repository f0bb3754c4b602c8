//! The files of this machine.

ghost use Rattle.std.specs.Prelude.{◌≡◌, IfErr, IsSome, IsTrue};
ghost use Rattle.lab_program_machine.specs.HostFaults.{HostRefuses};
ghost use Rattle.lab_program_machine.specs.Private.HostFaults.{IsOfHost};

use crate::held::{Held, connection_over, fault_of_holding};
use crate::machine::print_records;
use crate::places::{Places, places_of};
use crate::stats::{Connected, Stat};
use lab_program_advice::{Spot, write_advice};
use lab_program_opening::{Additions, OpenFault, Trouble, Volume};
use lab_store_files::FileFault;
use rand::TryRng;
use rand::rngs::SysRng;
use sqlite::{Connection, FileFrom, FileStore, Start, Wary};
use std::alloc::Global;
use std::fs::{self, File, OpenOptions};
use std::io::{ErrorKind, IsTerminal, Read, Write};
use std::os::unix::fs::OpenOptionsExt;

/// The first bytes of a SQLite database (SQLite, 'Database File Format', 1.3.1, 'Magic Header
/// String').
const HEADER: &[u8; 16] = b"SQLite format 3\0";

/// The least number of bytes of a log that holds a commit: its header and the header of one frame
/// (SQLite, 'Database File Format', 4.1).
const SHORTEST_LOG: u64 = 56;

/// How many bytes of the stack are taken at the start, so that none are missing when memory is
/// short. A request takes fewer.
const STACK: usize = 262_144;

/// What is supposed of files when they are opened: about the bytes that they hold, which no code
/// reads, and about what a crash may leave of a torn write.
pub trait Supposed: Start {
    /// Returns the same supposition for one more opening.
    fn again(&self) -> Self;
}

// A torn write may leave any bytes, so each commit is synchronized twice.
impl Supposed for Wary {
    fn again(&self) -> Wary {
        Wary
    }
}

/// A new file that is held for a move, and whether it was made for the move.
#[derive(Drop)]
struct Waiting<S: Start> {
    places: Places,
    held: Held<S>,
    is_made: bool,
}

/// The files of this machine, of which `S` is supposed. What is proved for each `S` holds for all
/// bytes that the files may hold.
#[derive(Drop)]
pub struct HostVolume<'a, S: Start> {
    pub(crate) rt: &'a HostRuntime,
    pub(crate) start: S,
    spot: Option<Spot>,
    // The log that the last connection made, if there was none.
    own_log: Option<String>,
    connected: Option<Connected>,
    // The old file of a move, and what keeps others from writing it until the move has ended.
    pub(crate) old: Option<Stat>,
    pub(crate) old_held: Option<Held<S>>,
    pub(crate) old_read: Option<File>,
    waiting: Option<Waiting<S>>,
}

// Takes as much of the stack as a request takes at most, by a call that may read and write all of
// it. In the caller's own frame that much would be taken for good.
#[inline(never)]
fn take_stack(rt: &HostRuntime) {
    let mut room = [0u8; STACK];
    let _ = SysRng::new(rt).try_fill_bytes(&mut room[..1]);
}

impl<'a, S: Supposed> HostVolume<'a, S> {
    /// Returns the files of the machine of this runtime.
    pub fn new(rt: &'a HostRuntime, start: S) -> HostVolume<'a, S> {
        take_stack(rt);
        HostVolume {
            rt,
            start,
            spot: None,
            own_log: None,
            connected: None,
            old: None,
            old_held: None,
            old_read: None,
            waiting: None,
        }
    }

    /// Returns what lies at a path, or `None` if nothing does.
    pub(crate) fn stat(&self, path: &str) -> Option<Stat> {
        Some(Stat::of(&fs::metadata(self.rt, path).ok()?))
    }

    // Checks a path before a file is opened there, so that what is refused is unchanged. Opening
    // something that isn't a regular file could wait for ever; a file that isn't a SQLite database
    // would be written over; and a log without its file holds what was committed last, which a new
    // file would cut off.
    fn look(&self, places: &Places) -> Result<(), FileFault>
        ensures { IfErr result IsOfHost }
    {
        let path = places.file.as_str();
        let length = match fs::metadata(self.rt, path) {
            Ok(found) if !found.is_file() => {
                return Err(FileFault::NotADeskFile);
            }
            Ok(found) => found.len(),
            Err(_) => 0,
        };
        if length > 0 {
            self.look_inside(path)
        } else {
            self.prepare(path, places.log.as_str())
        }
    }

    // Checks the first bytes of a file. The store checks the rest, and doesn't change what isn't
    // its own.
    pub(crate) fn look_inside(&self, path: &str) -> Result<(), FileFault>
        ensures { IfErr result IsOfHost }
    {
        if self.is_unfinished(path)? {
            return Ok(());
        }
        let mut first = [0u8; 16];
        let Ok(mut file) = File::open(self.rt, path) else {
            return Err(FileFault::Storage);
        };
        match file.read_exact(&mut first) {
            Ok(()) if first == *HEADER => Ok(()),
            Ok(()) => Err(FileFault::NotADeskFile),
            Err(error) if error.kind() == ErrorKind::UnexpectedEof => {
                Err(FileFault::NotADeskFile)
            }
            Err(_) => Err(FileFault::Storage),
        }
    }

    // Whether a file begins with a byte of 0, as a file does whose making was cut off: the first
    // byte of a database is written last, and is 0 until then.
    fn is_unfinished(&self, path: &str) -> Result<bool, FileFault>
        ensures { IfErr result IsOfHost }
    {
        let mut first = [1u8];
        let Ok(mut file) = File::open(self.rt, path) else {
            return Ok(false);
        };
        match file.read_exact(&mut first) {
            Ok(()) => Ok(first == [0]),
            Err(error) if error.kind() == ErrorKind::UnexpectedEof => Ok(false),
            Err(_) => Err(FileFault::Storage),
        }
    }

    // Prepares a path for a new file. The file and its log are made if they are missing, and only
    // their owner may read them. What the system refuses here, it refuses again when the file is
    // opened.
    fn prepare(&self, path: &str, log: &str) -> Result<(), FileFault>
        ensures { IfErr result IsOfHost }
    {
        if self.has_commits(log) {
            return Err(FileFault::Storage);
        }
        self.make(path);
        self.make(log);
        Ok(())
    }

    fn make(&self, path: &str) {
        let mut options = OpenOptions::new();
        options.write(true).create_new(true).mode(0o600);
        let _ = options.open(self.rt, path);
    }

    // Returns whether a log exists that may hold a commit.
    pub(crate) fn has_commits(&self, log: &str) -> bool {
        fs::metadata(self.rt, log).is_ok_and(|found| found.len() >= SHORTEST_LOG)
    }

    // Returns random words, which the log of a file needs.
    pub(crate) fn draw(&self) -> Result<u64, OpenFault>
        ensures { IfErr result (λ fault. fault ≡ OpenFault.Drawing) }
    {
        match SysRng::new(self.rt).try_next_u64() {
            Ok(word) => Ok(word),
            Err(_) => Err(OpenFault::Drawing),
        }
    }

    // Notes the log that was made when this file was held: there was none before, and the log is
    // empty.
    fn note_log(&mut self, alloc: Global, log: &str, had_log: bool) -> Result<(), FileFault>
        ensures { IfErr result IsOfHost }
    {
        self.own_log = None;
        let is_new = !had_log && fs::metadata(self.rt, log).is_ok_and(|found| found.len() == 0);
        if is_new {
            match String::from_str(alloc, log) {
                Ok(path) => self.own_log = Some(path),
                Err(_) => return Err(FileFault::Memory),
            }
        }
        Ok(())
    }

    // Removes the log that the last connection made, while its file is held.
    fn remove_own_log(&mut self) {
        if let Some(log) = self.own_log.take() {
            let _ = fs::remove_file(self.rt, log.as_str());
        }
    }

    // Holds a file, of which something has been checked, and puts on the disk what the file and its
    // log show.
    fn held_anew(
        &mut self,
        alloc: Global,
        places: &Places,
        had_log: bool,
    ) -> Result<Held<S>, FileFault>
        ensures { IfErr result IsOfHost }
    {
        let held = match self.held(places) {
            Ok(held) => held,
            Err(error) => return Err(fault_of_holding(&error)),
        };
        let mut ready = self.note_log(alloc, places.log.as_str(), had_log);
        if ready.is_ok() {
            ready = self.renew_both(places);
        }
        match ready {
            Ok(()) => Ok(held),
            Err(fault) => {
                self.remove_own_log();
                drop(held);
                Err(fault)
            }
        }
    }

    // Checks a file, and holds it. What is refused is unchanged.
    fn looked_at(&mut self, alloc: Global, places: &Places) -> Result<Held<S>, FileFault>
        ensures { IfErr result IsOfHost }
    {
        let had_log = self.stat(places.log.as_str()).is_some();
        self.look(places)?;
        self.held_anew(alloc, places, had_log)
    }

    // The new file that is held for a move, if it lies there.
    fn held_before(&mut self, places: &Places) -> Option<Held<S>> {
        let waiting = self.waiting.take()?;
        if waiting.places.file == places.file {
            Some(waiting.held)
        } else {
            None
        }
    }

    // The file to be connected to, held. The volume notes which file it is.
    fn file_to_connect(&mut self, alloc: Global, path: &str) -> Result<Held<S>, FileFault>
        ensures { IfErr result (λ fault.
            HostRefuses (IsSome self.entry.now.old) (OpenFault.File fault)) }
    {
        let places = places_of(self.rt, alloc, path)?;
        if self.is_old(&places) {
            return Err(FileFault::NotEmpty);
        }
        if self.is_cut(places.file.as_str()) {
            return Err(FileFault::Storage);
        }
        let held = match self.held_before(&places) {
            Some(held) => held,
            None => self.looked_at(alloc, &places)?,
        };
        self.connected = self.connected_at(places);
        Ok(held)
    }

    // The file and the log that lie there, while they are held. Their lengths are taken at the
    // first check, since the opening may make the log shorter.
    fn connected_at(&self, places: Places) -> Option<Connected> {
        let file = self.stat(places.file.as_str())?.of_no_length();
        let log = self.stat(places.log.as_str())?.of_no_length();
        let Places { log: log_path, .. } = places;
        Some(Connected {
            file,
            log,
            log_path,
        })
    }

    /// Holds the new file of a move, so that no other move uses it. A file that can't be held is
    /// refused when it is connected to.
    pub(crate) fn hold_new(&mut self, alloc: Global, path: &str) {
        let Ok(places) = places_of(self.rt, alloc, path) else {
            return;
        };
        if self.is_old(&places) {
            return;
        }
        let is_made = self.stat(places.file.as_str()).is_none();
        if let Ok(held) = self.looked_at(alloc, &places) {
            self.waiting = Some(Waiting {
                places,
                held,
                is_made,
            });
        }
    }

    // Whether the old file of a move lies there.
    fn is_old(&self, places: &Places) -> bool
        ensures { IsTrue result → IsSome self.now.old }
    {
        match (self.old, self.stat(places.file.as_str())) {
            (Some(old), Some(found)) => old.is_same(&found),
            _ => false,
        }
    }
}

impl<'a, S: Supposed> Volume for HostVolume<'a, S> {
    ghost use Rattle.std.specs.Prelude.{IsSome};
    ghost use Rattle.sqlite_wal.specs.Files.{image_at};
    ghost use Rattle.lab_program_machine.specs.HostFaults.{HostRefuses};
    ghost use Rattle.lab_program_opening.specs.Files.{AreHeldIn};

    type Disk = FileStore<FileFrom<S>>;

    ghost file = { λ volume path. record {
      holds = AreHeldIn (image_at S.Start);
      is_cut = IsSome volume.connected;
      refuses = HostRefuses (IsSome volume.old);
    } };

    fn has(&self, path: &str) -> Result<bool, FileFault> {
        match fs::metadata(self.rt, path) {
            Ok(found) if found.is_file() && found.len() > 0 => Ok(!self.is_unfinished(path)?),
            Ok(found) => Ok(!found.is_file()),
            Err(_) => Ok(false),
        }
    }

    fn connect(
        &mut self,
        alloc: Global,
        path: &str,
    ) -> Result<Connection<FileStore<FileFrom<S>>>, OpenFault> {
        self.draw()?;
        let held = self.file_to_connect(alloc, path)?;
        match connection_over(self.rt, alloc, held) {
            Ok(conn) => Ok(conn),
            Err((fault, files)) => {
                self.remove_own_log();
                drop(files);
                Err(OpenFault::File(fault))
            }
        }
    }

    fn connect_old(
        &mut self,
        alloc: Global,
        path: &str,
        new: &str,
    ) -> Result<Connection<FileStore<FileFrom<S>>>, OpenFault> {
        let word = self.draw()?;
        let copy = self.copy_aside(alloc, path, new, word)?;
        let opened = self.copy_connected(alloc, &copy);
        self.take_away(&copy.places);
        if opened.is_err() {
            self.leave_new();
        }
        Ok(opened?)
    }

    fn leave_new(&mut self) {
        if let Some(waiting) = self.waiting.take() {
            self.remove_own_log();
            if waiting.is_made {
                self.remove(waiting.places.file.as_str());
            }
        }
    }

    fn is_there(&mut self, path: &str) -> bool {
        let file = self.stat(path);
        match self.connected.take() {
            Some(mut connected) => {
                let log = self.stat(connected.log_path.as_str());
                let are = connected.are_there(file, log);
                self.connected = Some(connected);
                are
            }
            None => false,
        }
    }

    fn is_cut(&self, path: &str) -> bool {
        match &self.connected {
            Some(connected) => {
                connected.are_cut(self.stat(path), self.stat(connected.log_path.as_str()))
            }
            None => false,
        }
    }

    fn forget(&mut self) {
        self.connected = None;
    }

    fn tidy(&mut self) {
        self.remove_own_log();
    }

    fn note(&mut self, alloc: Global, body: &[u8]) {
        self.spot = Some(Spot::of(alloc, body));
    }

    fn remark(&mut self, path: &str, additions: Additions) {
        let _ = additions.write(&mut self.rt.stderr(), path);
    }

    fn tell_move(&mut self, lab: &str, number: usize, all: usize) {
        let mut errors = self.rt.stderr();
        if errors.is_terminal() {
            let _ = writeln!(errors, "labdesk: laboratory {number} of {all}: {lab}");
        }
    }

    fn tell_records(&mut self, done: usize, all: usize) {
        print_records(self.rt, done, all);
    }

    fn advise(&mut self, trouble: Trouble<'_>) {
        let mut errors = self.rt.stderr();
        if errors.is_terminal() {
            let _ = write_advice(self.rt, self.spot, &mut errors, trouble);
        }
    }
}
