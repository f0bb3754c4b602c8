//! How far a move is, for whoever waits for it.

use lab_forms_texts::LabCode;

/// Who hears how far a move is.
pub trait MoveProgress {
    /// The laboratory is moved next: `done` of `all` were moved before it.
    fn tell_lab(&mut self, lab: &LabCode, done: usize, all: usize);

    /// `done` of the laboratory's `all` records are written.
    fn tell_records(&mut self, done: usize, all: usize);
}

/// Nobody hears of it.
#[derive(Clone, Copy, Debug, PartialEq, Eq)]
pub struct Unwatched;

impl MoveProgress for Unwatched {
    fn tell_lab(&mut self, _lab: &LabCode, _done: usize, _all: usize) {}

    fn tell_records(&mut self, _done: usize, _all: usize) {}
}
