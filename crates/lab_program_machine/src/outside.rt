//! This machine, as what lies outside a program.

use crate::hosts::{HostVolume, Supposed};
use crate::machine::{SystemChance, SystemClock, TerminalProgress};
use lab_program_host::{Outside, Writers};
use sqlite::Start;
use std::io::{Stderr, Stdout};
use std::marker::PhantomData;

/// This machine, of whose files `S` is supposed. The type alone is used.
pub struct Machine<'a, S: Start> {
    of: PhantomData<&'a S>,
}

impl<'a, S: Supposed> Outside for Machine<'a, S> {
    type Net = HostRuntime;

    type Volume = HostVolume<'a, S>;

    type Clock = SystemClock<'a>;

    type Chance = SystemChance<'a>;

    type Progress = TerminalProgress<'a>;
}

/// The standard streams of this machine. The type alone is used.
pub struct Console;

impl Writers for Console {
    type Output = Stdout;

    type Errors = Stderr;
}
