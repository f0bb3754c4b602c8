//! The changes of a laboratory in memory. If memory runs out, the laboratory is as before.
ghost use Rattle.std.specs.Prelude.{◌≡◌, ◌++◌, ◌∷◌, [], option_and_then, IsSome, IsTrue, OnOk, OnErr};
ghost use Rattle.lab_people_access.specs.Persons.{has_code};
ghost use Rattle.lab_people_access.specs.Sessions.{has_token, session_after, sessions_after};
ghost use Rattle.lab_records_kept.specs.Changes.{change, added_person, added_form, with_person, with_session, in_record, entered_in, opened_in, signed_in};
ghost use Rattle.lab_records_kept.specs.Lookups.{last_of, record_of, version_of};
ghost use Rattle.lab_records_changes.specs.Makes.{makes};

use crate::{
    enter, open, place_for_form, place_for_person, place_of_person, place_of_record,
    place_of_session, sign,
};
use lab_records_kept::{
    Change, Closing, EntryRow, FormVersion, Lab, Ordinal, OutOfMemory, Person, PersonCode, Record,
    Series, Session, Signature, TrailRow, Version,
};
use std::alloc::Global;
use std::mem;

/// Makes the change of the laboratory, with copies of what the change holds. Fails only if memory
/// runs out, and only if something has to be made; the laboratory is then as before.
///
/// # Errors
/// Memory ran out.
pub fn change(alloc: Global, lab: &mut Lab, one: &Change) -> Result<(), OutOfMemory>
    ensures ok { OnOk result (lab.new ≡ change lab.old one.now) }
    ensures err { OnErr result (lab.new ≡ lab.old) }
    ensures memory { OnErr result (IsTrue (makes lab.old one.now)) }
{
    match one {
        Change::Last(last) => {
            lab.last = *last;
            Ok(())
        }
        Change::Strays(strays) => {
            lab.strays = *strays;
            Ok(())
        }
        Change::PersonAdded(person) => add_person(alloc, &mut lab.persons, person),
        Change::PersonSet(person) => set_person(alloc, &mut lab.persons, person),
        Change::SessionAdded(session) => add_session(&mut lab.sessions, session),
        Change::SessionSet(session) => set_session(alloc, &mut lab.sessions, session),
        Change::SessionsClosed { person, closing } => {
            close_sessions(alloc, &mut lab.sessions, person, *closing);
            Ok(())
        }
        Change::FormAdded(form) => add_form(alloc, &mut lab.forms, form),
        Change::RecordAdded(kept) => add_record(&mut lab.records, kept),
        Change::RowAdded { record, row } => add_row(alloc, &mut lab.records, *record, row),
        Change::VersionOpened { record, version } => {
            open_version(alloc, &mut lab.records, *record, version)
        }
        Change::SignatureAdded {
            record,
            version,
            signature,
        } => add_signature(alloc, &mut lab.records, *record, *version, signature),
        Change::TrailAdded(row) => add_told(&mut lab.trail, row),
    }
}

fn add_person(
    alloc: Global,
    persons: &mut Series<Person>,
    person: &Person,
) -> Result<(), OutOfMemory>
    ensures ok { OnOk result (persons.new ≡ added_person person.now persons.old) }
    ensures err { OnErr result (persons.new ≡ persons.old) }
{
    insert_person(alloc, persons, person.copy()?)
}

/// Adds the person, in the order of codes. Fails only if memory runs out; the persons are then as
/// before.
///
/// # Errors
/// Memory ran out.
pub fn insert_person(
    alloc: Global,
    persons: &mut Series<Person>,
    person: Person,
) -> Result<(), OutOfMemory>
    ensures ok { OnOk result (persons.new ≡ added_person person persons.old) }
    ensures err { OnErr result (persons.new ≡ persons.old) }
{
    let mut list = mem::replace(persons, Series::new(alloc)).into_vec();
    let place = place_for_person(&list, &person.code);
    let done = list.insert(place, person);
    *persons = Series::from_vec(list);
    done?;
    Ok(())
}

fn set_person(
    alloc: Global,
    persons: &mut Series<Person>,
    person: &Person,
) -> Result<(), OutOfMemory>
    ensures ok { OnOk result (persons.new ≡ with_person person.now persons.old) }
    ensures err { OnErr result (persons.new ≡ persons.old) }
    ensures memory { OnErr result (IsTrue (has_code persons.old person.now.code)) }
{
    let mut list = mem::replace(persons, Series::new(alloc)).into_vec();
    let done = set_person_in(&mut list, person);
    *persons = Series::from_vec(list);
    done?;
    Ok(())
}

fn add_session(sessions: &mut Series<Session>, session: &Session) -> Result<(), OutOfMemory>
    ensures ok { OnOk result (sessions.new ≡ sessions.old ++ session.now ∷ []) }
    ensures err { OnErr result (sessions.new ≡ sessions.old) }
{
    sessions.push(session.copy()?)?;
    Ok(())
}

fn add_record(records: &mut Series<Record>, kept: &Record) -> Result<(), OutOfMemory>
    ensures ok { OnOk result (records.new ≡ records.old ++ kept.now ∷ []) }
    ensures err { OnErr result (records.new ≡ records.old) }
{
    records.push(kept.copy()?)?;
    Ok(())
}

fn add_told(trail: &mut Series<TrailRow>, row: &TrailRow) -> Result<(), OutOfMemory>
    ensures ok { OnOk result (trail.new ≡ trail.old ++ row.now ∷ []) }
    ensures err { OnErr result (trail.new ≡ trail.old) }
{
    trail.push(row.copy()?)?;
    Ok(())
}

fn set_session(
    alloc: Global,
    sessions: &mut Series<Session>,
    session: &Session,
) -> Result<(), OutOfMemory>
    ensures ok { OnOk result (sessions.new ≡ with_session session.now sessions.old) }
    ensures err { OnErr result (sessions.new ≡ sessions.old) }
    ensures memory { OnErr result (IsTrue (has_token sessions.old session.now.token)) }
{
    let mut list = mem::replace(sessions, Series::new(alloc)).into_vec();
    let done = set_session_in(&mut list, session);
    *sessions = Series::from_vec(list);
    done?;
    Ok(())
}

fn close_sessions(
    alloc: Global,
    sessions: &mut Series<Session>,
    person: &PersonCode,
    closing: Closing,
)
    ensures { sessions.new ≡ sessions_after closing person.now sessions.old }
{
    let before = mem::replace(sessions, Series::new(alloc));
    *sessions = sessions_after(before, person, closing);
}

fn add_form(
    alloc: Global,
    forms: &mut Series<FormVersion>,
    form: &FormVersion,
) -> Result<(), OutOfMemory>
    ensures ok { OnOk result (forms.new ≡ added_form form.now forms.old) }
    ensures err { OnErr result (forms.new ≡ forms.old) }
{
    let form = form.copy()?;
    let mut list = mem::replace(forms, Series::new(alloc)).into_vec();
    let place = place_for_form(&list, &form.code);
    let done = list.insert(place, form);
    *forms = Series::from_vec(list);
    done?;
    Ok(())
}

fn add_row(
    alloc: Global,
    records: &mut Series<Record>,
    number: Ordinal,
    row: &EntryRow,
) -> Result<(), OutOfMemory>
    ensures ok { OnOk result (records.new ≡ in_record number (entered_in row.now) records.old) }
    ensures err { OnErr result (records.new ≡ records.old) }
    ensures memory { OnErr result (IsSome
        (option_and_then (λ kept. last_of kept.versions) (record_of records.old number))) }
{
    let mut list = mem::replace(records, Series::new(alloc)).into_vec();
    let done = enter_in(&mut list, alloc, number, row);
    *records = Series::from_vec(list);
    done?;
    Ok(())
}

fn open_version(
    alloc: Global,
    records: &mut Series<Record>,
    number: Ordinal,
    version: &Version,
) -> Result<(), OutOfMemory>
    ensures ok { OnOk result (records.new ≡ in_record number (opened_in version.now) records.old) }
    ensures err { OnErr result (records.new ≡ records.old) }
    ensures memory { OnErr result (IsSome (record_of records.old number)) }
{
    let mut list = mem::replace(records, Series::new(alloc)).into_vec();
    let done = open_in(&mut list, number, version);
    *records = Series::from_vec(list);
    done?;
    Ok(())
}

fn add_signature(
    alloc: Global,
    records: &mut Series<Record>,
    number: Ordinal,
    version: Ordinal,
    signature: &Signature,
) -> Result<(), OutOfMemory>
    ensures ok { OnOk result
        (records.new ≡ in_record number (signed_in version signature.now) records.old) }
    ensures err { OnErr result (records.new ≡ records.old) }
    ensures memory { OnErr result (IsSome
        (option_and_then (λ kept. version_of kept.versions version) (record_of records.old number))) }
{
    let mut list = mem::replace(records, Series::new(alloc)).into_vec();
    let done = sign_in(&mut list, alloc, number, version, signature);
    *records = Series::from_vec(list);
    done?;
    Ok(())
}

// Puts a copy of the person in place of the person with the same code.
fn set_person_in(persons: &mut [Person], person: &Person) -> Result<(), OutOfMemory>
    ensures ok { OnOk result (persons.new ≡ with_person person.now persons.old) }
    ensures err { OnErr result (persons.new ≡ persons.old) }
    ensures memory { OnErr result (IsTrue (has_code persons.old person.now.code)) }
{
    let Some(place) = place_of_person(persons, &person.code) else {
        return Ok(());
    };
    let person = person.copy()?;
    persons[place] = person;
    Ok(())
}

// Puts a copy of the session in place of the session with the same token.
fn set_session_in(sessions: &mut [Session], session: &Session) -> Result<(), OutOfMemory>
    ensures ok { OnOk result (sessions.new ≡ with_session session.now sessions.old) }
    ensures err { OnErr result (sessions.new ≡ sessions.old) }
    ensures memory { OnErr result (IsTrue (has_token sessions.old session.now.token)) }
{
    let Some(place) = place_of_session(sessions, &session.token) else {
        return Ok(());
    };
    let session = session.copy()?;
    sessions[place] = session;
    Ok(())
}

// The sessions after some sessions of the person are closed.
fn sessions_after(
    sessions: Series<Session>,
    person: &PersonCode,
    closing: Closing,
) -> Series<Session>
    ensures { result ≡ sessions_after closing person.now sessions }
{
    let mut list = sessions.into_vec();
    close_each(&mut list, person, &closing);
    Series::from_vec(list)
}

fn close_each(sessions: &mut [Session], person: &PersonCode, closing: &Closing)
    ensures { sessions.new ≡ sessions_after closing.now person.now sessions.old }
{
    for session in sessions.iter_mut() {
        close_one(session, person, closing);
    }
}

fn close_one(session: &mut Session, person: &PersonCode, closing: &Closing)
    ensures { session.new ≡ session_after closing.now person.now session.old }
{
    if closing.closes(person, session) {
        session.close();
    }
}

// Adds a copy of the row to the last version of the record with the number.
fn enter_in(
    records: &mut [Record],
    alloc: Global,
    number: Ordinal,
    row: &EntryRow,
) -> Result<(), OutOfMemory>
    ensures ok { OnOk result (records.new ≡ in_record number (entered_in row.now) records.old) }
    ensures err { OnErr result (records.new ≡ records.old) }
    ensures memory { OnErr result (IsSome
        (option_and_then (λ kept. last_of kept.versions) (record_of records.old number))) }
{
    let Some(place) = place_of_record(records, number) else {
        return Ok(());
    };
    enter(&mut records[place], alloc, row)
}

// Adds a copy of the version to the record with the number.
fn open_in(records: &mut [Record], number: Ordinal, version: &Version) -> Result<(), OutOfMemory>
    ensures ok { OnOk result (records.new ≡ in_record number (opened_in version.now) records.old) }
    ensures err { OnErr result (records.new ≡ records.old) }
    ensures memory { OnErr result (IsSome (record_of records.old number)) }
{
    let Some(place) = place_of_record(records, number) else {
        return Ok(());
    };
    open(&mut records[place], version)
}

// Adds a copy of the signature to a version of the record with the number.
fn sign_in(
    records: &mut [Record],
    alloc: Global,
    number: Ordinal,
    version: Ordinal,
    signature: &Signature,
) -> Result<(), OutOfMemory>
    ensures ok { OnOk result
        (records.new ≡ in_record number (signed_in version signature.now) records.old) }
    ensures err { OnErr result (records.new ≡ records.old) }
    ensures memory { OnErr result (IsSome
        (option_and_then (λ kept. version_of kept.versions version) (record_of records.old number))) }
{
    let Some(place) = place_of_record(records, number) else {
        return Ok(());
    };
    sign(&mut records[place], alloc, version, signature)
}
