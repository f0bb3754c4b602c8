//! Why bytes that aren't a request are refused, and how reading ends if no request is read.

ghost use Rattle.std.specs.Prelude.{◌≡◌, Some};
ghost use Rattle.lab_wire_heads.specs.Refusals.{head_entry, head_fault_number, head_fault_word};

use lab_forms_streams::WriteFault;
use lab_forms_texts::{OutOfMemory, RefusalKind};
use std::alloc::AllocError;
use std::fmt;
use thiserror::Error;

/// Why bytes aren't a request. A refusal is printed as its word.
#[derive(Clone, Copy, Debug, PartialEq, Eq, Error)]
pub enum HeadRefusal {
    /// The bytes don't begin with a whole request head, or the head doesn't have exactly one Host,
    /// or a field has a value that no field may have.
    BadHead,
    /// The head is longer than the limit, or has too many lines.
    HeadTooLong,
    /// The body is in a transfer coding.
    TransferCoding,
    /// The head of a POST states no length for its body.
    LengthWanted,
    /// The body is longer than the limit.
    BodyTooLong,
    /// The body has not come whole.
    ShortBody,
}

impl RefusalKind for HeadRefusal {
    ghost listed = { head_entry };

    fn entry(&self) -> (u32, &'static str) {
        match self {
            HeadRefusal::BadHead => (80, "bad_head"),
            HeadRefusal::HeadTooLong => (81, "head_too_long"),
            HeadRefusal::TransferCoding => (82, "transfer_coding"),
            HeadRefusal::LengthWanted => (83, "length_wanted"),
            HeadRefusal::BodyTooLong => (84, "body_too_long"),
            HeadRefusal::ShortBody => (85, "short_body"),
        }
    }
}

impl fmt::Display for HeadRefusal {
    ghost use Rattle.std.specs.Prelude.{Some};
    ghost use Rattle.lab_wire_heads.specs.Refusals.{head_entry};

    ghost output = { λ refusal. Some (head_entry refusal).word };

    fn fmt<W: fmt::Write>(&self, f: &mut fmt::Formatter<W>) -> fmt::Result {
        f.write_str(self.word())
    }
}

/// Why no request was read. A fault is printed as its word.
#[derive(Clone, Copy, Debug, PartialEq, Eq, Error)]
pub enum HeadFault {
    /// The bytes are refused.
    Refused(HeadRefusal),
    /// The reader failed.
    Read,
    /// The writer of the interim answer failed, or took no byte.
    Write {
        /// How many of its bytes were sent before.
        sent: usize,
    },
    /// Memory ran out.
    Memory,
}

impl HeadFault {
    /// Returns the number of the fault, or `None` if no reply can report the fault.
    pub fn number(&self) -> Option<u32>
        ensures { result ≡ head_fault_number self.now }
    {
        match self {
            HeadFault::Refused(refusal) => refusal.number(),
            HeadFault::Read | HeadFault::Write { .. } => None,
            HeadFault::Memory => OutOfMemory.number(),
        }
    }

    /// Returns the word of the fault.
    pub fn word(&self) -> &'static str
        ensures { result.now ≡ head_fault_word self.now }
    {
        match self {
            HeadFault::Refused(refusal) => refusal.word(),
            HeadFault::Read => "read_fault",
            HeadFault::Write { .. } => "write_fault",
            HeadFault::Memory => OutOfMemory.word(),
        }
    }
}

impl From<HeadRefusal> for HeadFault {
    ghost use Rattle.lab_wire_heads.specs.declared.refusals.HeadFault.TheVariants.{Refused};

    ghost from_gives = { λ refusal fault. fault ≡ Refused refusal };

    fn from(refusal: HeadRefusal) -> HeadFault {
        HeadFault::Refused(refusal)
    }
}

impl From<WriteFault> for HeadFault {
    ghost use Rattle.lab_wire_heads.specs.declared.refusals.HeadFault.TheVariants.{Write};

    ghost from_gives = { λ write fault. fault ≡ Write write.sent };

    fn from(fault: WriteFault) -> HeadFault {
        HeadFault::Write { sent: fault.sent }
    }
}

impl From<AllocError> for HeadFault {
    ghost use Rattle.lab_wire_heads.specs.declared.refusals.HeadFault.TheVariants.{Memory};

    ghost from_gives = { λ _ fault. fault ≡ Memory };

    fn from(_error: AllocError) -> HeadFault {
        HeadFault::Memory
    }
}

impl fmt::Display for HeadFault {
    ghost use Rattle.std.specs.Prelude.{Some};
    ghost use Rattle.lab_wire_heads.specs.Refusals.{head_fault_word};

    ghost output = { λ told. Some (head_fault_word told) };

    fn fmt<W: fmt::Write>(&self, f: &mut fmt::Formatter<W>) -> fmt::Result {
        f.write_str(self.word())
    }
}
