//! A fault is a refusal, or memory ran out. One type serves every kind of refusal.
ghost use Rattle.std.specs.Prelude.{◌≡◌, Some};
ghost use Rattle.lab_forms_texts.specs.Faults.{Entry, fault_entry};

use crate::OutOfMemory;
use std::alloc::{AllocError, AllocFailed};
use std::fmt;
use thiserror::Error;

/// A kind of refusal. Each refusal has a number and a word, which the interface shows.
pub trait RefusalKind {
    /// The row of the refusal in the table of refusals.
    ghost listed: { Self → Entry };

    /// The number and the word of the refusal.
    fn entry(&self) -> (u32, &'static str)
        ensures number { result.0 ≡ (listed self.now).number }
        ensures word { result.1.now ≡ (listed self.now).word };

    /// The number of the refusal.
    fn number(&self) -> Option<u32>
        ensures { result ≡ Some (listed self.now).number }
    {
        Some(self.entry().0)
    }

    /// The word of the refusal.
    fn word(&self) -> &'static str
        ensures { result.now ≡ (listed self.now).word }
    {
        self.entry().1
    }
}

/// Why nothing was made. Its text is its word.
#[derive(Clone, Copy, Debug, PartialEq, Eq, Drop, Error)]
pub enum Fault<R> {
    /// The input was refused.
    Refused(R),
    /// Memory ran out.
    Memory,
}

impl<R: RefusalKind> Fault<R> {
    /// The number of the refusal. If memory ran out, the number of that fault.
    pub fn number(&self) -> Option<u32>
        ensures { result ≡ Some (fault_entry R.listed self.now).number }
    {
        match self {
            Fault::Refused(refusal) => refusal.number(),
            Fault::Memory => OutOfMemory.number(),
        }
    }

    /// The word of the refusal. If memory ran out, the word of that fault.
    pub fn word(&self) -> &'static str
        ensures { result.now ≡ (fault_entry R.listed self.now).word }
    {
        match self {
            Fault::Refused(refusal) => refusal.word(),
            Fault::Memory => OutOfMemory.word(),
        }
    }
}

impl<R: RefusalKind> fmt::Display for Fault<R> {
    ghost use Rattle.std.specs.Prelude.{Some};
    ghost use Rattle.lab_forms_texts.specs.Faults.{fault_entry};

    ghost output = { λ fault. Some (fault_entry R.listed fault).word };

    fn fmt<W: fmt::Write>(&self, f: &mut fmt::Formatter<W>) -> fmt::Result {
        f.write_str(self.word())
    }
}

impl<R> From<OutOfMemory> for Fault<R> {
    ghost use Rattle.lab_forms_texts.specs.declared.refusals.Fault.TheVariants.{Memory};

    ghost from_gives = { λ _ fault. fault ≡ Memory };

    fn from(_error: OutOfMemory) -> Fault<R> {
        Fault::Memory
    }
}

impl<R> From<AllocError> for Fault<R> {
    ghost use Rattle.lab_forms_texts.specs.declared.refusals.Fault.TheVariants.{Memory};

    ghost from_gives = { λ _ fault. fault ≡ Memory };

    fn from(_error: AllocError) -> Fault<R> {
        Fault::Memory
    }
}

impl<R, T: Drop> From<AllocFailed<T>> for Fault<R> {
    ghost use Rattle.lab_forms_texts.specs.declared.refusals.Fault.TheVariants.{Memory};

    ghost from_gives = { λ _ fault. fault ≡ Memory };

    fn from(_error: AllocFailed<T>) -> Fault<R> {
        Fault::Memory
    }
}
