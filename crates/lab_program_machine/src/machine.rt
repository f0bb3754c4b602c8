//! The clock and the source of random words of this machine, and its terminal.

use lab_forms_texts::Moment;
use lab_program_host::{Chance, Clock, DrawFault};
use lab_records_copy_out::Progress;
use rand::TryRng;
use rand::rngs::SysRng;
use std::io::{IsTerminal, Write};
use std::time::{SystemTime, UNIX_EPOCH};

/// The clock of this machine.
#[derive(Drop)]
pub struct SystemClock<'a> {
    rt: &'a HostRuntime,
}

impl<'a> SystemClock<'a> {
    /// Returns the clock of the machine of this runtime.
    pub fn new(rt: &'a HostRuntime) -> SystemClock<'a> {
        SystemClock { rt }
    }

    // The whole seconds since 1970, without leap seconds (POSIX.1, 'seconds since the epoch').
    fn seconds(&self) -> Option<i64> {
        let now = SystemTime::now(self.rt).ok()?;
        let since = now.duration_since(UNIX_EPOCH).ok()?;
        i64::try_from(since.as_secs()).ok()
    }
}

impl<'a> Clock for SystemClock<'a> {
    fn moment(&mut self) -> Result<Moment, DrawFault> {
        let seconds = self.seconds().ok_or(DrawFault)?;
        Moment::from_seconds(seconds).map_err(|_| DrawFault)
    }
}

/// The source of random words of this machine.
#[derive(Drop)]
pub struct SystemChance<'a> {
    rt: &'a HostRuntime,
}

impl<'a> SystemChance<'a> {
    /// Returns the source of random words of the machine of this runtime.
    pub fn new(rt: &'a HostRuntime) -> SystemChance<'a> {
        SystemChance { rt }
    }
}

impl<'a> Chance for SystemChance<'a> {
    fn words(&mut self) -> Result<[u64; 8], DrawFault> {
        let mut bytes = [0u8; 64];
        let mut source = SysRng::new(self.rt);
        source.try_fill_bytes(&mut bytes).map_err(|_| DrawFault)?;
        let (parts, _) = bytes.as_chunks::<8>();
        let mut words = [0u64; 8];
        for (word, part) in words.iter_mut().zip(parts) {
            *word = u64::from_le_bytes(*part);
        }
        Ok(words)
    }
}

/// After how many records the progress of a copy, or of a move, is printed again.
const RECORDS_BETWEEN: usize = 100;

// Prints on standard error, if it is a terminal, how many of all records are done. The next such
// line overwrites this line.
pub(crate) fn print_records(rt: &HostRuntime, done: usize, all: usize) {
    if done % RECORDS_BETWEEN != 0 && done != all {
        return;
    }
    let mut errors = rt.stderr();
    if errors.is_terminal() {
        let end = if done == all { "\n" } else { "" };
        let _ = write!(errors, "\rlabdesk: {done} of {all} records{end}");
    }
}

/// Prints on standard error, if it is a terminal, the progress of a copy.
#[derive(Drop)]
pub struct TerminalProgress<'a> {
    rt: &'a HostRuntime,
}

impl<'a> TerminalProgress<'a> {
    /// Returns the progress printer for the terminal of this runtime.
    pub fn new(rt: &'a HostRuntime) -> TerminalProgress<'a> {
        TerminalProgress { rt }
    }
}

impl<'a> Progress for TerminalProgress<'a> {
    fn tell_records(&mut self, done: u32, all: u32) {
        print_records(self.rt, done as usize, all as usize);
    }
}
