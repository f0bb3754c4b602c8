//! What commands read: a version of a form, a record, a version of a record, and a line for each
//! record and each person.
ghost use Rattle.std.specs.Prelude.{◌≡◌, Some, IfOk, map, slice_get};
ghost use Rattle.lab_records_kept.specs.Digests.{digest_of};
ghost use Rattle.lab_records_kept.specs.Lookups.{version_of};
ghost use Rattle.lab_records_kept.specs.Values.{altered_at, values_at, version_state};
ghost use Rattle.lab_records_rules.specs.Following.{Follows};
ghost use Rattle.lab_records_rules.specs.Reading.{reading_form, version_line, reading_record, reading_found, reading_version, record_line, person_line};

use crate::faults::{CommandFault, fail};
use crate::readings::{PersonLine, RecordRead, RecordState, VersionRead, VersionState};
use crate::refusals::Refusal;
use crate::values::values_told;
use lab_forms_texts::{Key, LabCode, Moment, Ordinal, OutOfMemory, Series};
use lab_people_access::Person;
use lab_records_kept::{FormVersion, FoundRecord, Record, Version};
use lab_seal_versions::{Digest, EntryRow, State};
use std::alloc::Global;

/// Returns the version of a form that was looked up.
///
/// # Errors
/// The refusal of the command.
pub fn read_form(form: Option<FormVersion>) -> Result<FormVersion, Refusal>
    ensures { result ≡ reading_form form }
{
    match form {
        Some(form) => Ok(form),
        None => Err(Refusal::NoSuchForm),
    }
}

/// Returns the record that was looked up, with the states and digests of its versions. Memory is
/// the fault only if these rules accept the command.
///
/// # Errors
/// The refusal of the command, or memory ran out.
pub fn read_record(
    alloc: Global,
    lab: &LabCode,
    found: Option<FoundRecord>,
) -> Result<RecordRead, CommandFault>
    ensures { Follows (reading_record lab.now found) result }
{
    let Some(found) = found else {
        return Err(CommandFault::Refused(Refusal::NoSuchRecord));
    };
    let versions = version_lines(alloc, lab, &found)?;
    let kept = found.into_kept();
    let number = kept.number;
    let (form, sample) = kept.into_heading();
    Ok(RecordRead {
        number,
        form,
        sample,
        versions,
    })
}

// The states and the digests of a record's versions, in order.
fn version_lines(
    alloc: Global,
    lab: &LabCode,
    found: &FoundRecord,
) -> Result<Series<VersionState>, OutOfMemory>
    ensures { IfOk result
        (λ lines. lines ≡ map (version_line lab.now found.now) found.now.versions) }
{
    let mut lines = Series::new(alloc);
    for (place, version) in found.kept().versions.as_slice().iter().enumerate() {
        lines.push(version_line(alloc, lab, found, place, version)?)?;
    }
    Ok(lines)
}

// The state and the digest of the version at the place.
fn version_line(
    alloc: Global,
    lab: &LabCode,
    found: &FoundRecord,
    place: usize,
    version: &Version,
) -> Result<VersionState, OutOfMemory>
    requires { slice_get found.now.versions place ≡ Some version.now }
    ensures { IfOk result (λ line. line ≡ version_line lab.now found.now version.now) }
{
    let digest = found.digest_at(alloc, lab, place, version)?;
    Ok(VersionState {
        version: version.origin.number(),
        state: found.kept().state_of(version),
        digest,
    })
}

/// Returns the version of the record with the number, and the values of the record at it. Memory is
/// the fault only if these rules accept the command.
///
/// # Errors
/// The refusal of the command, or memory ran out.
pub fn read_version(
    alloc: Global,
    lab: &LabCode,
    found: Option<FoundRecord>,
    number: Ordinal,
) -> Result<VersionRead, CommandFault>
    ensures { Follows (reading_version lab.now found number) result }
{
    match found {
        Some(found) => read_found(alloc, lab, found, number),
        None => fail(CommandFault::Refused(Refusal::NoSuchRecord), found),
    }
}

// The version of a record with the number.
fn read_found(
    alloc: Global,
    lab: &LabCode,
    found: FoundRecord,
    number: Ordinal,
) -> Result<VersionRead, CommandFault>
    ensures { Follows (reading_found lab.now found (version_of found.versions number)) result }
{
    let read = match found.place_of(number) {
        Some(place) => {
            let version = &found.kept().versions.as_slice()[place];
            version_parts(alloc, lab, &found, place, version)
        }
        None => return fail(CommandFault::Refused(Refusal::NoSuchVersion), found),
    };
    match read {
        Ok(parts) => Ok(version_read(found.into_kept(), parts)),
        Err(_) => fail(CommandFault::Memory, found),
    }
}

/// What is read of a version, without the number, form and sample of its record.
#[derive(Drop)]
struct VersionReadParts {
    version: Version,
    state: Option<State>,
    digest: Digest,
    altered: Series<Key>,
    values: Series<EntryRow>,
}

// What is read of the version at the place, with a copy of it.
fn version_parts(
    alloc: Global,
    lab: &LabCode,
    found: &FoundRecord,
    place: usize,
    version: &Version,
) -> Result<VersionReadParts, OutOfMemory>
    requires { slice_get found.now.versions place ≡ Some version.now }
    ensures version { IfOk result (λ parts. parts.version ≡ version.now) }
    ensures state { IfOk result (λ parts. parts.state ≡ version_state found.now version.now) }
    ensures digest { IfOk result (λ parts. parts.digest ≡ digest_of lab.now found.now version.now) }
    ensures altered { IfOk result
        (λ parts. parts.altered ≡ altered_at found.now version.now.origin.number) }
    ensures values { IfOk result
        (λ parts. parts.values ≡ values_at found.now version.now.origin.number) }
{
    let number = version.origin.number();
    let digest = found.digest_at(alloc, lab, place, version)?;
    let told = values_told(alloc, found.kept(), number)?;
    let version_copy = version.copy()?;
    Ok(VersionReadParts {
        version: version_copy,
        state: found.kept().state_of(version),
        digest,
        altered: told.altered,
        values: told.values,
    })
}

// What is read of a version, with the form and the sample of its record.
fn version_read(kept: Record, parts: VersionReadParts) -> VersionRead
    ensures { result ≡ record {
      number = kept.number;
      form = kept.form;
      sample = kept.sample;
      version = parts.version;
      state = parts.state;
      digest = parts.digest;
      altered = parts.altered;
      values = parts.values;
    } }
{
    let number = kept.number;
    let (form, sample) = kept.into_heading();
    VersionRead {
        number,
        form,
        sample,
        version: parts.version,
        state: parts.state,
        digest: parts.digest,
        altered: parts.altered,
        values: parts.values,
    }
}

/// Returns the line of a record, which shows its last version. Fails only if memory runs out.
///
/// # Errors
/// Memory ran out.
pub fn record_line(kept: &Record) -> Result<RecordState, OutOfMemory>
    ensures { IfOk result (λ line. line ≡ record_line kept.now) }
{
    let form = kept.form.code.copy()?;
    let sample = kept.sample.copy()?;
    let (current, state) = match kept.current() {
        Some(version) => (Some(version.origin.number()), kept.state_of(version)),
        None => (None, None),
    };
    Ok(RecordState {
        number: kept.number,
        form,
        sample,
        current,
        state,
    })
}

/// Returns the line of a person at the moment. Fails only if memory runs out.
///
/// # Errors
/// Memory ran out.
pub fn person_line(person: &Person, moment: Moment) -> Result<PersonLine, OutOfMemory>
    ensures { IfOk result (λ line. line ≡ person_line moment person.now) }
{
    let code = person.code.copy()?;
    let name = person.name.copy()?;
    Ok(PersonLine {
        code,
        name,
        roles: person.roles,
        retired: person.retired,
        locked: person.is_locked(moment),
    })
}
