//! The check of a copy, and what is printed besides for a person at a terminal.

ghost use Rattle.lab_copy.specs.Checks.{OfVerdict};
ghost use Rattle.lab_program_check.specs.Verdicts.{IsCheck};

use lab_forms_streams::WriteFault;
use lab_program_check::{Flaw, check};
use lab_program_files::{Trouble, Volume};
use lab_program_host::{Host, Outside, Streams, Writers};
use std::io::Read;

// Advises a person what a flaw is.
fn advise_of<H: Volume>(volume: &mut H, flaw: Option<Flaw>) {
    if let Some(flaw) = flaw {
        volume.advise(Trouble::Flawed(flaw.word(), flaw.row()));
    }
}

/// `labdesk check`, of the copy that the input has. Answers the status.
///
/// # Errors
/// The check stopped, and standard error failed before the whole line was written.
pub fn check_for<M: Outside<Volume: Volume>, R: Read + Drop, W: Writers>(
    host: &mut Host<'_, M>,
    input: R,
    streams: &mut Streams<W>,
) -> Result<u8, WriteFault>
    ensures { OfVerdict (R.remaining input) (λ verdict. IsCheck verdict result
        (W.Output.contents streams.old.output) (W.Output.contents streams.new.output)
        (W.Errors.contents streams.old.errors) (W.Errors.contents streams.new.errors)) }
{
    host.volume.advise(Trouble::CopyAwaited);
    let checked = check(host.alloc, input, &mut streams.output, &mut streams.errors)?;
    advise_of(&mut host.volume, checked.flaw);
    Ok(checked.status)
}
