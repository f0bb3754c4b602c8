//! The check of a copy from a reader, and the line that says what was found.
ghost use Rattle.std.specs.Prelude.{◌≡◌, ◌≢◌, IfOk, IfErr, IsSome};
ghost use Rattle.lab_copy.specs.Checks.{OfVerdict};
ghost use Rattle.lab_program_check.specs.declared.faults.StopFault.TheVariants.{Write as NotWritten};
ghost use Rattle.lab_program_check.specs.Verdicts.{good_line, bad_line, status_of, IsFlaw, IsVerdictTold, IsCheck};
ghost use Rattle.lab_program_check.specs.Private.Verdicts.{IsFound};

use crate::faults::StopFault;
use lab_copy::{CopyFault, Counts, Flaw, OutOfMemory, check_copy};
use lab_forms_streams::{WriteFault, write_whole};
use std::alloc::Global;
use std::io::{Read, Write};

/// What was found in a copy: the line that is printed, the status, and the flaw if there is one.
#[derive(Drop)]
struct Found {
    line: String,
    status: u8,
    flaw: Option<Flaw>,
}

/// How a check ended: its status, and the flaw that was printed.
#[derive(Clone, Copy, Debug, PartialEq, Eq)]
pub struct Checked {
    /// The status: 0 for a sound copy, otherwise 1.
    pub status: u8,
    /// The copy's first flaw, if the line named one.
    pub flaw: Option<Flaw>,
}

// The line for a sound copy: how many rows of each kind it has.
fn good_line(alloc: Global, counts: Counts) -> Result<String, OutOfMemory>
    ensures { IfOk result (λ line. line.bytes.items ≡ good_line counts) }
{
    let (records, versions) = (counts.records, counts.versions);
    let (entries, signatures) = (counts.entries, counts.signatures);
    let line = format!(in alloc; "good {records} {versions} {entries} {signatures}\n")?;
    Ok(line)
}

// The line for a flaw: its word, and the row at which it was found.
fn bad_line(alloc: Global, flaw: Flaw) -> Result<String, OutOfMemory>
    ensures { IfOk result (λ line. line.bytes.items ≡ bad_line flaw) }
{
    let word = flaw.word();
    let line = match flaw.row() {
        Some(row) => format!(in alloc; "bad {word} {row}\n")?,
        None => format!(in alloc; "bad {word}\n")?,
    };
    Ok(line)
}

// What is found in the copy from a reader.
fn look_over<R: Read + Drop>(alloc: Global, input: R) -> Result<Found, StopFault>
    ensures found { OfVerdict (R.remaining input) (λ verdict. IfOk result (λ found.
        IsFound verdict found.line.bytes.items found.status × IsFlaw verdict found.flaw)) }
    ensures fault { IfErr result (λ fault. fault ≢ NotWritten) }
{
    let mut input = input;
    match check_copy(alloc, &mut input) {
        Ok(counts) => Ok(Found {
            line: good_line(alloc, counts)?,
            status: 0,
            flaw: None,
        }),
        Err(CopyFault::Flawed(flaw)) => Ok(Found {
            line: bad_line(alloc, flaw)?,
            status: 1,
            flaw: Some(flaw),
        }),
        Err(CopyFault::Read) => Err(StopFault::Read),
        Err(CopyFault::Memory(_)) => Err(StopFault::Memory),
    }
}

// Checks the copy on the input, and prints on the output what is found.
fn tell_found<R: Read + Drop, W: Write>(
    alloc: Global,
    input: R,
    output: &mut W,
) -> Result<Checked, StopFault>
    ensures { OfVerdict (R.remaining input) (λ verdict.
        IsVerdictTold verdict (status_of result) (W.contents output.old) (W.contents output.new)
        × IfOk result (λ checked. IsFlaw verdict checked.flaw)) }
{
    let found = look_over(alloc, input)?;
    match write_whole(output, found.line.as_bytes()) {
        Ok(()) => Ok(Checked {
            status: found.status,
            flaw: found.flaw,
        }),
        Err(_) => Err(StopFault::Write),
    }
}

/// `labdesk check`: checks the inspection copy on the input, by its rows alone, and prints on the
/// output in a line what is found: `good` and how many records, versions, entries and signatures it
/// has, or `bad`, the word of its first flaw and the row. What stops the check is printed on
/// standard error. Returns the status, 0 for a sound copy, otherwise 1, and the flaw that was
/// printed.
///
/// # Errors
/// The check stopped, and standard error failed before the whole line was printed.
pub fn check<R: Read + Drop, W: Write, E: Write>(
    alloc: Global,
    input: R,
    output: &mut W,
    errors: &mut E,
) -> Result<Checked, WriteFault>
    ensures { OfVerdict (R.remaining input) (λ verdict.
        IsCheck verdict (status_of result) (W.contents output.old) (W.contents output.new)
        (E.contents errors.old) (E.contents errors.new)
        × IfOk result (λ checked. IsSome checked.flaw → IsFlaw verdict checked.flaw)) }
{
    match tell_found(alloc, input, output) {
        Ok(checked) => Ok(checked),
        Err(fault) => {
            write_whole(errors, fault.line().as_bytes())?;
            Ok(Checked {
                status: 1,
                flaw: None,
            })
        }
    }
}
