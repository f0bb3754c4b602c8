//! How forms are made, and how records are opened.
ghost use Rattle.std.specs.Prelude.{◌≡◌, ◌∷◌, [], None, IfOk};
ghost use Rattle.lab_records_rules.specs.Following.{Follows};
ghost use Rattle.lab_records_rules.specs.Making.{making, first_version, opening_new, opening_record};

use crate::faults::{CommandFault, fail};
use crate::refusals::Refusal;
use lab_forms::Form;
use lab_forms_texts::{Key, Moment, Name, Ordinal, OutOfMemory, PersonCode, Series};
use lab_people_access::PeopleRefusal;
use lab_records_kept::{
    FORM_VERSIONS_LIMIT, FormVersion, FoundRecord, RECORDS_LIMIT, Record, Version,
};
use lab_seal_versions::{EntryRows, Format, Origin};
use std::alloc::Global;

/// Makes the first version of a form, or its next one, which must differ from the present one.
///
/// # Errors
/// The refusal of the command.
pub fn make_form(code: Key, form: Form, last: Option<FormVersion>) -> Result<FormVersion, Refusal>
    ensures { result ≡ making code form last }
{
    let Some(last) = last else {
        drop(last);
        return Ok(FormVersion {
            code,
            version: Ordinal::FIRST,
            form,
        });
    };
    if last.form == form {
        return fail(Refusal::NothingAltered, (code, form, last));
    }
    if last.version.get() >= FORM_VERSIONS_LIMIT {
        return fail(Refusal::People(PeopleRefusal::LabFull), (code, form, last));
    }
    match last.version.next() {
        Some(version) => {
            drop(last);
            Ok(FormVersion {
                code,
                version,
                form,
            })
        }
        None => fail(Refusal::People(PeopleRefusal::LabFull), (code, form, last)),
    }
}

/// Opens a record with the last version of its form, once for a form and a sample; `records` is how
/// many records the laboratory has. Memory is the fault only if these rules accept the command.
///
/// # Errors
/// The refusal of the command, or memory ran out.
pub fn open_record(
    alloc: Global,
    form: Option<FormVersion>,
    found: Option<FoundRecord>,
    sample: Name,
    caller: PersonCode,
    moment: Moment,
    records: u64,
) -> Result<Record, CommandFault>
    ensures { Follows (opening_record form found sample caller moment records) result }
{
    let Some(form) = form else {
        return fail(
            CommandFault::Refused(Refusal::NoSuchForm),
            (form, found, sample, caller),
        );
    };
    match found {
        Some(found) => fail(
            CommandFault::Refused(Refusal::RecordExists(found.kept().number)),
            (found, form, sample, caller),
        ),
        None => {
            drop(found);
            open_new(alloc, form, sample, caller, moment, records)
        }
    }
}

// A record of a form and a sample that have no record yet.
fn open_new(
    alloc: Global,
    form: FormVersion,
    sample: Name,
    caller: PersonCode,
    moment: Moment,
    records: u64,
) -> Result<Record, CommandFault>
    ensures { Follows (opening_new form None sample caller moment records) result }
{
    if records >= RECORDS_LIMIT {
        return fail(
            CommandFault::Refused(Refusal::People(PeopleRefusal::LabFull)),
            (form, sample, caller),
        );
    }
    let Some(number) = Ordinal::after(records as u32) else {
        return fail(
            CommandFault::Refused(Refusal::People(PeopleRefusal::LabFull)),
            (form, sample, caller),
        );
    };
    let first = first_version(alloc, form.form.approval(), caller, moment);
    match one_version(alloc, first) {
        Ok(versions) => Ok(Record {
            number,
            form,
            sample,
            versions,
        }),
        Err(_) => fail(CommandFault::Memory, (form, sample)),
    }
}

// The versions of a record that has only its first version.
fn one_version(alloc: Global, first: Version) -> Result<Series<Version>, OutOfMemory>
    ensures { IfOk result (λ versions. versions ≡ first ∷ []) }
{
    let mut versions = Series::new(alloc);
    versions.push(first)?;
    Ok(versions)
}

// The first version of a record when it is opened. It takes no memory.
fn first_version(alloc: Global, approval: bool, caller: PersonCode, moment: Moment) -> Version
    ensures { result ≡ first_version approval caller moment }
{
    Version {
        format: Format::Two { approval },
        origin: Origin::first(),
        opener: caller,
        opened: moment,
        rows: EntryRows::new(Vec::new(alloc)),
        signatures: Series::new(alloc),
    }
}
