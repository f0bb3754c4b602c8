//! What a program gets from outside besides its words and its streams.

use crate::drawing::{Chance, Clock};
use std::alloc::Global;
use std::net::Net;

/// What lies outside a program: the type of each thing that a program uses there.
pub trait Outside {
    /// The network.
    type Net: Net;

    /// The place of the files of laboratories.
    type Volume: Drop;

    /// The clock.
    type Clock: Clock + Drop;

    /// The source of random words.
    type Chance: Chance + Drop;

    /// The receiver of a copy's progress.
    type Progress: Drop;
}

/// The memory that a program uses, and one value of each type of an `Outside`.
#[derive(Drop)]
pub struct Host<'a, M: Outside> {
    /// The source of memory.
    pub alloc: Global,
    /// The network.
    pub net: &'a M::Net,
    /// The place of the files of laboratories.
    pub volume: M::Volume,
    /// The clock.
    pub clock: M::Clock,
    /// The source of random words.
    pub chance: M::Chance,
    /// The receiver of a copy's progress.
    pub progress: M::Progress,
}
