//! What is printed for words that name no task.

ghost use Rattle.std.specs.Prelude.{[], ◌∷◌, ◌≡◌, IfOk};
ghost use Rattle.clap.specs.Words.{HasKind, kind_of};
ghost use Rattle.clap.specs.declared.error.kind.ErrorKind.TheVariants.{ValueValidation};
ghost use Rattle.lab_program_app.specs.Explaining.{Explains, IsExplained};

use crate::copy_command;
use clap::error::ErrorKind;
use clap::{Command, Error};
use lab_forms_streams::WriteFault;
use lab_program_host::{ServerFault, tell};
use std::alloc::{AllocError, Global};
use std::io::Write;

/// The fault of a range of records that ends before it begins.
const MISORDERED: &str = "the number after '--from' is greater than the number after '--to'";

/// Prints why the words name no task, and returns the status: 0 for help or the version, which go
/// to the output; 2 for a fault in the words; and 1 if memory ran out or the text could not be
/// written.
///
/// # Errors
/// Standard error failed, so the cause of the status 1 could not be printed.
pub fn explain<W: Write, E: Write>(
    error: &Error,
    output: &mut W,
    errors: &mut E,
) -> Result<u8, WriteFault>
    ensures { Explains (kind_of error.now) (W.contents output.old) (W.contents output.new)
        (E.contents errors.old) (E.contents errors.new) result }
{
    if error.kind() == ErrorKind::OutOfMemory {
        tell(errors, ServerFault::Memory.word())?;
        return Ok(1);
    }
    if error.use_stderr() {
        let _ = write!(errors, "{error}");
        return Ok(2);
    }
    if write!(output, "{error}").is_err() {
        tell(errors, ServerFault::Write.word())?;
        return Ok(1);
    }
    Ok(0)
}

// `copy` under the name that is printed in a fault of its words.
fn named_copy<'a>(alloc: Global) -> Result<Command<'a>, AllocError> {
    copy_command(alloc)?.bin_name("labdesk copy")
}

// The fault of a range of records that ends before it begins, in the form of clap's faults of a
// command.
fn misordered_fault(mut command: Command<'_>) -> Result<Error, AllocError>
    ensures { IfOk result (λ error. kind_of error ≡ ValueValidation) }
{
    command.error(ErrorKind::ValueValidation, MISORDERED)
}

// The same fault, for `copy`.
fn order_fault(alloc: Global) -> Result<Error, AllocError>
    ensures { IfOk result (λ error. kind_of error ≡ ValueValidation) }
{
    let copy = named_copy(alloc)?;
    misordered_fault(copy)
}

// The refusal of a range whose numbers are out of order, or the fault that memory ran out.
fn order_error(alloc: Global) -> Error
    ensures { HasKind (ValueValidation ∷ []) result }
{
    match order_fault(alloc) {
        Ok(error) => error,
        Err(error) => Error::from(error),
    }
}

/// Prints that the range of records of a copy ends before it begins, as a fault in the words.
///
/// # Errors
/// Memory ran out, and standard error failed, so this could not be printed.
pub fn explain_order<W: Write, E: Write>(
    alloc: Global,
    output: &mut W,
    errors: &mut E,
) -> Result<u8, WriteFault>
    ensures { IsExplained (ValueValidation ∷ []) (W.contents output.old) (W.contents output.new)
        (E.contents errors.old) (E.contents errors.new) result }
{
    let error = order_error(alloc);
    explain(&error, output, errors)
}
