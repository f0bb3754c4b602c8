//! The progress of a copy, for those who wait for it.

/// Something that is informed about the progress of a copy.
pub trait Progress {
    /// Is called when `done` of `all` records are done.
    fn tell_records(&mut self, done: u32, all: u32);
}

/// Ignores the progress.
#[derive(Clone, Copy, Debug, PartialEq, Eq)]
pub struct Unheard;

impl Progress for Unheard {
    fn tell_records(&mut self, _done: u32, _all: u32) {}
}
