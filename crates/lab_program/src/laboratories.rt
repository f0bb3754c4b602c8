//! Tasks of one laboratory, which the words name by a text.

ghost use Rattle.std.specs.Io.Take.{take_remaining};
ghost use Rattle.std.specs.Prelude.{◌≡◌, ℕ, pos, List, IsTrue, Err, nat_le};
ghost use Rattle.lab_forms_texts.specs.Moment.{is_moment};
ghost use Rattle.lab_forms_texts.specs.Ordinals.{is_ordinal};
ghost use Rattle.lab_program_host.specs.Faults.{PrintsFault};
ghost use Rattle.lab_program_host.specs.Hosts.{drawing_between, end_between};
ghost use Rattle.lab_program_opening.specs.Ends.{WasClosed};
ghost use Rattle.lab_program.specs.Laboratories.{IsCopied, IsCopiedIf, IsFounded, IsRehearsed};
ghost use Rattle.lab_program.specs.Private.Laboratories.{front_of};

use lab_desk_foundings::BODY_LIMIT;
use lab_forms_streams::WriteFault;
use lab_forms_texts::{LabCode, Moment, Ordinal};
use lab_program_app::explain_order;
use lab_program_files::{Closable, Progress, Trouble, Volume, copy, found};
use lab_program_host::{Host, Outside, Streams, Writers, tell};
use lab_program_replay::{LimitedReader, MOST_ASKS};
use lab_program_serve::rehearse;
use sqlite::Connection;
use std::io::{Read, Take, Write};

/// The most bytes of an input that are read for a founding: one more than its body may have, so that a longer one is seen.
const FRONT: u64 = BODY_LIMIT as u64 + 1;

// The first bytes of an input, which tell what a founding's body says. The input is not asked forever.
fn front_of<R: Read + Drop>(input: R) -> Take<LimitedReader<R>>
    ensures { take_remaining (λ limited. R.remaining limited.reader) result
        ≡ front_of (R.remaining input) }
{
    LimitedReader::new(input, MOST_ASKS).take(FRONT)
}

// Tells a word, and answers the status of a fault.
fn decline<E: Write>(errors: &mut E, word: &str) -> Result<u8, WriteFault>
    ensures { PrintsFault (λ (fault : List ℕ). fault) (Err word.now) result
        (E.contents errors.old) (E.contents errors.new) }
{
    tell(errors, word)?;
    Ok(1)
}

/// `labdesk found`, of the laboratory of this text in the file at the path, its body being all of the input. Answers the
/// status.
///
/// # Errors
/// A fault could not be told whole, as standard error failed.
pub fn found_for<M: Outside<Volume: Volume>, R: Read + Drop, W: Writers>(
    host: &mut Host<'_, M>,
    file: &str,
    lab: &str,
    input: R,
    streams: &mut Streams<W>,
) -> Result<u8, WriteFault>
where
    Connection<<M::Volume as Volume>::Disk>: Closable,
    ensures { IsFounded M.Volume.Disk.Store (M.Volume.file host.old.volume file.now)
        (WasClosed ⟦<Connection<<M::Volume as Volume>::Disk> as Closable>⟧.closes) (record {
          drawing = drawing_between M.Clock.coming M.Chance.coming host.old host.new;
          code = lab.now;
          body = R.remaining input;
        })
        (end_between W.Output.contents W.Errors.contents streams.old streams.new result) }
{
    let code = match LabCode::parse(host.alloc, lab) {
        Ok(code) => code,
        Err(fault) => {
            let status = decline(&mut streams.errors, fault.word());
            host.volume.advise(Trouble::OfCode(lab));
            return status;
        }
    };
    let mut body = front_of(input);
    found(host, file, &code, &mut body, streams)
}

// The number of a record. clap lets no other number through.
fn ordinal(number: u32) -> Ordinal
    ensures { IsTrue (is_ordinal number) → result ≡ number }
{
    Ordinal::new(number).unwrap_or(Ordinal::FIRST)
}

// A copy of the records of a range, of the laboratory of this text.
fn copy_range<M: Outside<Volume: Volume, Progress: Progress>, W: Writers>(
    host: &mut Host<'_, M>,
    file: &str,
    lab: &str,
    from: Ordinal,
    to: Ordinal,
    streams: &mut Streams<W>,
) -> Result<u8, WriteFault>
where
    Connection<<M::Volume as Volume>::Disk>: Closable,
    ensures { IsCopied M.Volume.Disk.Store (M.Volume.file host.old.volume file.now)
        (WasClosed ⟦<Connection<<M::Volume as Volume>::Disk> as Closable>⟧.closes) (record {
          moments = M.Clock.coming host.old.clock;
          later = M.Clock.coming host.new.clock;
          code = lab.now;
          from = from;
          to = to;
        })
        (end_between W.Output.contents W.Errors.contents streams.old streams.new result) }
{
    let code = match LabCode::parse(host.alloc, lab) {
        Ok(code) => code,
        Err(fault) => {
            let status = decline(&mut streams.errors, fault.word());
            host.volume.advise(Trouble::OfCode(lab));
            return status;
        }
    };
    copy(host, file, &code, from, to, streams)
}

/// `labdesk copy`, of the records from a number to a number, of the laboratory of this text in the
/// file at the path. Answers the status.
///
/// # Errors
/// A fault could not be told whole, as standard error failed.
pub fn copy_for<M: Outside<Volume: Volume, Progress: Progress>, W: Writers>(
    host: &mut Host<'_, M>,
    file: &str,
    lab: &str,
    from: u32,
    to: u32,
    streams: &mut Streams<W>,
) -> Result<u8, WriteFault>
where
    Connection<<M::Volume as Volume>::Disk>: Closable,
    ensures { IsTrue (is_ordinal from) → IsTrue (is_ordinal to) →
        IsCopiedIf M.Volume.Disk.Store (M.Volume.file host.old.volume file.now)
        (WasClosed ⟦<Connection<<M::Volume as Volume>::Disk> as Closable>⟧.closes) (record {
          moments = M.Clock.coming host.old.clock;
          later = M.Clock.coming host.new.clock;
          code = lab.now;
          from = from;
          to = to;
        }) (nat_le from to)
        (end_between W.Output.contents W.Errors.contents streams.old streams.new result) }
{
    if from > to {
        return explain_order(host.alloc, &mut streams.output, &mut streams.errors);
    }
    copy_range(host, file, lab, ordinal(from), ordinal(to), streams)
}

/// `labdesk rehearse`, of the laboratory of this text after this number of seconds, its body being all of the input. Answers the
/// status.
///
/// # Errors
/// A fault could not be told whole, as standard error failed.
pub fn rehearse_for<M: Outside<Volume: Volume>, R: Read + Drop, W: Writers>(
    host: &mut Host<'_, M>,
    lab: &str,
    seconds: i64,
    input: R,
    streams: &mut Streams<W>,
) -> Result<u8, WriteFault>
    ensures { (moment : ℕ) → IsTrue (is_moment moment) → seconds ≡ pos moment →
        IsRehearsed lab.now (R.remaining input)
        (end_between W.Output.contents W.Errors.contents streams.old streams.new result) }
{
    let moment = match Moment::from_seconds(seconds) {
        Ok(moment) => moment,
        Err(fault) => return decline(&mut streams.errors, fault.word()),
    };
    let code = match LabCode::parse(host.alloc, lab) {
        Ok(code) => code,
        Err(fault) => {
            let status = decline(&mut streams.errors, fault.word());
            host.volume.advise(Trouble::OfCode(lab));
            return status;
        }
    };
    host.volume.advise(Trouble::FoundingAwaited);
    let mut body = front_of(input);
    rehearse(host, &code, moment, &mut body, streams)
}
