//! The results of commands that read.
ghost use Rattle.std.specs.Prelude.{◌≡◌, is_ok, IfOk, IsTrue, OnErr, map};
ghost use Rattle.lab_records_rules.specs.Reading.{reading_form, reading_record, reading_version, record_line, person_line};
ghost use Rattle.lab_records_copies.specs.CopyLines.{copy_rows};
ghost use Rattle.lab_records_machine.specs.Own.{copy_order};
ghost use Rattle.lab_records_machine.specs.Done.{then_read_done};
ghost use Rattle.lab_records_machine.specs.Makings.{has_lines};

use lab_forms_texts::{LabCode, Moment, Ordinal, OutOfMemory, PersonCode, Series};
use lab_people_access::Person;
use lab_records_copies::{CopyOrder, CopyRow, copy_rows};
use lab_records_kept::{FormVersion, FoundRecord, Record, Slice};
use lab_records_machine::{Done, Reply};
use lab_records_rules::{
    CommandFault, PersonLine, RecordState, person_line, read_form, read_record, read_version,
    record_line,
};
use std::alloc::Global;

/// Returns the result of reading a version of a form.
pub fn form_read_done(form: Option<FormVersion>) -> Done
    ensures { result ≡ then_read_done (reading_form form) Reply.FormRead }
{
    match read_form(form) {
        Ok(form) => Done::Read(Reply::FormRead(form)),
        Err(refusal) => Done::Refused(refusal),
    }
}

/// Returns the result of reading a record. Fails only if memory runs out, and only if the result
/// isn't a refusal.
///
/// # Errors
/// Memory ran out.
pub fn record_read_done(
    alloc: Global,
    lab: &LabCode,
    filed: Option<FoundRecord>,
) -> Result<Done, OutOfMemory>
    ensures done { IfOk result (λ done. done
        ≡ then_read_done (reading_record lab.now filed) Reply.RecordRead) }
    ensures memory { OnErr result (IsTrue (is_ok (reading_record lab.now filed))) }
{
    match read_record(alloc, lab, filed) {
        Ok(read) => Ok(Done::Read(Reply::RecordRead(read))),
        Err(fault) => match fault {
            CommandFault::Refused(refusal) => Ok(Done::Refused(refusal)),
            CommandFault::Memory => Err(OutOfMemory),
        },
    }
}

/// Returns the result of reading a version of a record. Fails only if memory runs out, and only if
/// the result isn't a refusal.
///
/// # Errors
/// Memory ran out.
pub fn version_read_done(
    alloc: Global,
    lab: &LabCode,
    filed: Option<FoundRecord>,
    version: Ordinal,
) -> Result<Done, OutOfMemory>
    ensures done { IfOk result (λ done. done
        ≡ then_read_done (reading_version lab.now filed version) Reply.VersionRead) }
    ensures memory { OnErr result (IsTrue (is_ok (reading_version lab.now filed version))) }
{
    match read_version(alloc, lab, filed, version) {
        Ok(read) => Ok(Done::Read(Reply::VersionRead(read))),
        Err(fault) => match fault {
            CommandFault::Refused(refusal) => Ok(Done::Refused(refusal)),
            CommandFault::Memory => Err(OutOfMemory),
        },
    }
}

/// Returns a line for each person, at the moment. Fails only if memory runs out, and only if there
/// is a person.
///
/// # Errors
/// Memory ran out.
pub fn person_lines(
    alloc: Global,
    persons: &[Person],
    moment: Moment,
) -> Result<Series<PersonLine>, OutOfMemory>
    ensures lines { IfOk result (λ lines. lines ≡ map (person_line moment) persons.now) }
    ensures memory { OnErr result (IsTrue (has_lines persons.now)) }
{
    let mut lines = Series::new(alloc);
    for person in persons {
        lines.push(person_line(person, moment)?)?;
    }
    Ok(lines)
}

/// Returns a line for each record. Fails only if memory runs out, and only if there is a record.
///
/// # Errors
/// Memory ran out.
pub fn record_lines(alloc: Global, records: &[Record]) -> Result<Series<RecordState>, OutOfMemory>
    ensures lines { IfOk result (λ lines. lines ≡ map record_line records.now) }
    ensures memory { OnErr result (IsTrue (has_lines records.now)) }
{
    let mut lines = Series::new(alloc);
    for kept in records {
        lines.push(record_line(kept)?)?;
    }
    Ok(lines)
}

/// Returns the rows of a copy of the part's records, which are those from a number to a number,
/// made for a person at a moment. The header is always made. Fails only if memory runs out.
///
/// # Errors
/// Memory ran out.
pub fn copied_rows(
    alloc: Global,
    slice: &Slice,
    range: (Ordinal, Ordinal),
    person: &PersonCode,
    moment: Moment,
) -> Result<Series<CopyRow>, OutOfMemory>
    ensures { IfOk result (λ rows. rows ≡ copy_rows slice.now.code slice.now.name
        (copy_order range.0 range.1 person.now moment) slice.now.records) }
{
    let (from, to) = range;
    let order = CopyOrder {
        from,
        to,
        person: Some(person.copy()?),
        moment,
    };
    let records = slice.records.as_slice();
    let rows = copy_rows(alloc, &slice.code, &slice.name, order, records)?;
    Ok(Series::from_vec(rows))
}
