//! How it is printed on standard error why a task stopped.

ghost use Rattle.std.specs.Prelude.{Some};
ghost use Rattle.lab_program_opening.specs.Faults.{Declines, TellsValued, TellsWord};

use crate::faults::OpenFault;
use crate::trouble::Trouble;
use crate::volumes::Volume;
use lab_forms_streams::WriteFault;
use lab_forms_texts::OutOfMemory;
use lab_program_host::tell;
use std::alloc::Global;
use std::io::Write;

/// Prints the word of a fault on standard error, advises a person what to do, and returns the
/// status 1.
///
/// # Errors
/// Standard error failed before the whole line was printed.
pub fn decline<H: Volume, E: Write>(
    volume: &mut H,
    errors: &mut E,
    word: &str,
    trouble: Trouble<'_>,
) -> Result<u8, WriteFault>
    ensures { TellsWord word.now result (E.contents errors.old) (E.contents errors.new) }
{
    let told = tell(errors, word);
    volume.advise(trouble);
    told?;
    Ok(1)
}

// Prints a word and a value, or that memory ran out if there is no memory for the line.
fn decline_valued<H: Volume, E: Write>(
    alloc: Global,
    volume: &mut H,
    errors: &mut E,
    word: &str,
    value: u64,
    trouble: Trouble<'_>,
) -> Result<u8, WriteFault>
    ensures { TellsValued word.now (Some value) result
        (E.contents errors.old) (E.contents errors.new) }
{
    match format!(in alloc; "{word} {value}") {
        Ok(text) => decline(volume, errors, text.as_str(), trouble),
        Err(_) => decline(volume, errors, OutOfMemory.word(), trouble),
    }
}

/// Prints on standard error why no task was begun over a file, advises a person what to do about
/// the trouble, and returns the status 1.
///
/// # Errors
/// Standard error failed before the whole line was printed.
pub fn decline_by<H: Volume, E: Write>(
    alloc: Global,
    volume: &mut H,
    errors: &mut E,
    fault: OpenFault,
    trouble: Trouble<'_>,
) -> Result<u8, WriteFault>
    ensures { Declines fault result (E.contents errors.old) (E.contents errors.new) }
{
    match fault.value() {
        Some(value) => decline_valued(alloc, volume, errors, fault.word(), value, trouble),
        None => decline(volume, errors, fault.word(), trouble),
    }
}

/// Prints on standard error why no task was begun over the file at the path, advises a person what
/// to do, and returns the status 1.
///
/// # Errors
/// Standard error failed before the whole line was printed.
pub fn decline_to_open<H: Volume, E: Write>(
    alloc: Global,
    volume: &mut H,
    errors: &mut E,
    path: &str,
    fault: OpenFault,
) -> Result<u8, WriteFault>
    ensures { Declines fault result (E.contents errors.old) (E.contents errors.new) }
{
    decline_by(alloc, volume, errors, fault, Trouble::Opening(path, fault))
}
