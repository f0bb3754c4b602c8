//! How a fault is printed on standard error.

ghost use Rattle.std.specs.Prelude.{◌≡◌, ℕ, ◌+◌, ◌^◌, ◌<◌, length, take, OnOk, IfErr};
ghost use Rattle.std.specs.Io.KnownBytes.{Appends};
ghost use Rattle.lab_program_host.specs.Faults.{IsLinePrinted, told_line};

use lab_forms_streams::{WriteFault, write_whole};
use std::io::Write;

/// The text before the word.
const BEFORE: &str = "labdesk: ";

// Writes a text after the given number of bytes. After a fault, returns how many bytes of both were
// written.
fn tell_after<E: Write>(errors: &mut E, sent: usize, text: &str) -> Result<(), WriteFault>
    requires { sent + length text.now < 2 ^ 64 }
    ensures whole { OnOk result (Appends (E.contents errors.old) (E.contents errors.new) text.now) }
    ensures cut { IfErr result (λ untold. (part : ℕ) × (untold.sent ≡ sent + part)
        × (part < length text.now)
        × Appends (E.contents errors.old) (E.contents errors.new) (take part text.now)) }
{
    match write_whole(errors, text.as_bytes()) {
        Ok(()) => Ok(()),
        Err(fault) => Err(WriteFault {
            sent: sent + fault.sent,
        }),
    }
}

/// Prints the word of a fault, in a line. Needs no memory.
///
/// # Errors
/// Standard error failed before the whole line was printed.
pub fn tell<E: Write>(errors: &mut E, word: &str) -> Result<(), WriteFault>
    ensures { IsLinePrinted (told_line word.now) result
        (E.contents errors.old) (E.contents errors.new) }
{
    tell_after(errors, 0, BEFORE)?;
    tell_after(errors, BEFORE.len(), word)?;
    tell_after(errors, BEFORE.len() + word.len(), "\n")
}
