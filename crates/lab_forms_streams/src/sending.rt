//! Sends a reply: every byte is sent, or the fault says how many were.

ghost use Rattle.std.specs.Prelude.{◌≡◌, None, ◌<◌, length, take, OnOk, IfErr};
ghost use Rattle.std.specs.Io.KnownBytes.{Appends};
ghost use Rattle.lab_forms_streams.specs.Sending.{write_fault_word};

use std::fmt;
use std::io::Write;
use thiserror::Error;

/// A write failed, or took no byte, while a reply was being sent. A fault is printed as its word.
#[derive(Clone, Copy, Debug, Error, PartialEq, Eq)]
pub struct WriteFault {
    /// How many of the reply's bytes were sent before.
    pub sent: usize,
}

impl WriteFault {
    /// Returns `None`: the fault has no number, because no reply can report it.
    pub fn number(&self) -> Option<u32>
        ensures { result ≡ None }
    {
        None
    }

    /// Returns the word of the fault.
    pub fn word(&self) -> &'static str
        ensures { result.now ≡ write_fault_word }
    {
        "write_fault"
    }
}

impl fmt::Display for WriteFault {
    ghost use Rattle.std.specs.Prelude.{Some};
    ghost use Rattle.lab_forms_streams.specs.Sending.{write_fault_word};

    ghost output = { λ _. Some write_fault_word };

    fn fmt<W: fmt::Write>(&self, f: &mut fmt::Formatter<W>) -> fmt::Result {
        f.write_str(self.word())
    }
}

/// Writes all the bytes of a reply. Stops with a fault at the first write that fails or takes no
/// byte.
///
/// # Errors
/// A write failed, or took no byte.
pub fn write_whole<W: Write>(writer: &mut W, bytes: &[u8]) -> Result<(), WriteFault>
    ensures whole { OnOk result
        (Appends (W.contents writer.old) (W.contents writer.new) bytes.now) }
    ensures cut { IfErr result
        (λ e. Appends (W.contents writer.old) (W.contents writer.new) (take e.sent bytes.now)) }
    ensures short { IfErr result (λ e. e.sent < length bytes.now) }
{
    let mut sent = 0;
    while sent < bytes.len() {
        match writer.write(&bytes[sent..]) {
            Ok(0) | Err(_) => return Err(WriteFault { sent }),
            Ok(taken) => sent += taken,
        }
    }
    Ok(())
}
