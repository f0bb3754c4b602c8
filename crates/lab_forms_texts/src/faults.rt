//! Why a name or a moment was not made. Each fault has a number and a word, which the interface
//! shows.
ghost use Rattle.std.specs.Prelude.{◌≡◌, Some};

use crate::{Fault, RefusalKind};
use std::alloc::{AllocError, AllocFailed};
use std::fmt;
use thiserror::Error;

/// The allocator had no memory for a value.
#[derive(Clone, Copy, Debug, PartialEq, Eq, Error)]
pub struct OutOfMemory;

impl OutOfMemory {
    ghost use Rattle.lab_forms_texts.specs.Faults.{memory_entry};

    fn entry(&self) -> (u32, &'static str)
        ensures number { result.0 ≡ memory_entry.number }
        ensures word { result.1.now ≡ memory_entry.word }
    {
        (90, "memory")
    }

    /// The number of the fault.
    pub fn number(&self) -> Option<u32>
        ensures { result ≡ Some memory_entry.number }
    {
        Some(self.entry().0)
    }

    /// The word of the fault.
    pub fn word(&self) -> &'static str
        ensures { result.now ≡ memory_entry.word }
    {
        self.entry().1
    }
}

impl fmt::Display for OutOfMemory {
    ghost use Rattle.std.specs.Prelude.{Some};
    ghost use Rattle.lab_forms_texts.specs.Faults.{memory_entry};

    ghost output = { λ _. Some memory_entry.word };

    fn fmt<W: fmt::Write>(&self, f: &mut fmt::Formatter<W>) -> fmt::Result {
        f.write_str(self.word())
    }
}

impl From<AllocError> for OutOfMemory {
    ghost from_gives = { λ _ e. e ≡ record {} };

    fn from(_error: AllocError) -> OutOfMemory {
        OutOfMemory
    }
}

impl<T: Drop> From<AllocFailed<T>> for OutOfMemory {
    ghost from_gives = { λ _ e. e ≡ record {} };

    fn from(_error: AllocFailed<T>) -> OutOfMemory {
        OutOfMemory
    }
}

/// The rule of the name doesn't admit the text. The refusal is printed as its word.
#[derive(Clone, Copy, Debug, PartialEq, Eq, Error)]
pub struct BadName;

impl RefusalKind for BadName {
    ghost use Rattle.lab_forms_texts.specs.Faults.{name_entry};

    ghost listed = { λ _. name_entry };

    fn entry(&self) -> (u32, &'static str) {
        (1, "bad_name")
    }
}

impl fmt::Display for BadName {
    ghost use Rattle.std.specs.Prelude.{Some};
    ghost use Rattle.lab_forms_texts.specs.Faults.{name_entry};

    ghost output = { λ _. Some name_entry.word };

    fn fmt<W: fmt::Write>(&self, f: &mut fmt::Formatter<W>) -> fmt::Result {
        f.write_str(self.word())
    }
}

/// Why a text was not made a name. Memory is the fault only if the rule of the name admits the
/// text.
pub type NameFault = Fault<BadName>;

/// Why a number or a text was not made a moment.
#[derive(Clone, Copy, Debug, PartialEq, Eq, Error)]
pub enum MomentFault {
    /// No moment has the number or the text.
    BadMoment,
}

impl MomentFault {
    ghost use Rattle.lab_forms_texts.specs.Faults.{moment_fault_entry};

    fn entry(&self) -> (u32, &'static str)
        ensures number { result.0 ≡ (moment_fault_entry self.now).number }
        ensures word { result.1.now ≡ (moment_fault_entry self.now).word }
    {
        match self {
            MomentFault::BadMoment => (2, "bad_moment"),
        }
    }

    /// The number of the fault.
    pub fn number(&self) -> Option<u32>
        ensures { result ≡ Some (moment_fault_entry self.now).number }
    {
        Some(self.entry().0)
    }

    /// The word of the fault.
    pub fn word(&self) -> &'static str
        ensures { result.now ≡ (moment_fault_entry self.now).word }
    {
        self.entry().1
    }
}

impl fmt::Display for MomentFault {
    ghost use Rattle.std.specs.Prelude.{Some};
    ghost use Rattle.lab_forms_texts.specs.Faults.{moment_fault_entry};

    ghost output = { λ fault. Some (moment_fault_entry fault).word };

    fn fmt<W: fmt::Write>(&self, f: &mut fmt::Formatter<W>) -> fmt::Result {
        f.write_str(self.word())
    }
}
