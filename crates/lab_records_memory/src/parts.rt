//! The part of a laboratory that is needed, in copies.
ghost use Rattle.std.specs.Prelude.{◌≡◌, ◌⊎◌, ◌<◌, ◌++◌, ◌∷◌, [], Ok, IfOk, IsErr, IsSome, OnErr, OnOk, length, option_and_then, option_copied};
ghost use Rattle.lab_records_kept.specs.Lookups.{session_at, person_at, caller_of, is_within, records_within, rows_within};
ghost use Rattle.lab_records_kept.specs.Parts.{part, counts_of, form_meant, record_meant, persons_meant, records_meant, rows_meant};

use crate::lookups::{exact_form, last_form, person_of, record_about, record_of, session_of};
use lab_records_kept::{
    Digest, FormVersion, FormWanted, FoundRecord, Lab, LabCounts, ListWanted, Need, Ordinal,
    OutOfMemory, Person, PersonCode, Record, RecordWanted, Series, Session, Slice, TrailRow,
};
use std::alloc::Global;

/// The session that is needed, and the person of that session.
#[derive(Drop)]
struct Callers {
    session: Option<Session>,
    caller: Option<Person>,
}

/// The person, the version of a form and the record that are needed.
#[derive(Drop)]
struct Named {
    person: Option<Person>,
    form: Option<FormVersion>,
    filed: Option<FoundRecord>,
}

/// The list that is needed; the others are empty.
#[derive(Drop)]
struct Listed {
    persons: Series<Person>,
    records: Series<Record>,
    trail: Series<TrailRow>,
}

/// Returns the part of the laboratory that is needed, in copies. Fails only if memory runs out. The
/// code and the name of the laboratory are always copied, everything else only if it is found.
///
/// # Errors
/// Memory ran out.
pub fn part(alloc: Global, lab: &Lab, need: &Need) -> Result<Slice, OutOfMemory>
    ensures { IfOk result (λ slice. slice ≡ part need.now lab.now) }
{
    let names = both(lab.code.copy(), lab.name.copy());
    let callers = callers_of(lab, &need.token);
    let named = named_in(lab, need);
    let listed = listed_in(lab, alloc, &need.list);
    let ((names, callers), (named, listed)) = both(both(names, callers), both(named, listed))?;
    Ok(Slice {
        code: names.0,
        name: names.1,
        last: lab.last,
        strays: lab.strays,
        counts: counts(lab),
        session: callers.session,
        caller: callers.caller,
        person: named.person,
        form: named.form,
        filed: named.filed,
        persons: listed.persons,
        records: listed.records,
        trail: listed.trail,
    })
}

// Both values, if both were made. Fails only if memory ran out for one of them.
fn both<A: Drop, B: Drop>(
    one: Result<A, OutOfMemory>,
    other: Result<B, OutOfMemory>,
) -> Result<(A, B), OutOfMemory>
    ensures one { IfOk result (λ pair. one ≡ Ok pair.0) }
    ensures other { IfOk result (λ pair. other ≡ Ok pair.1) }
    ensures memory { OnErr result (IsErr one ⊎ IsErr other) }
{
    let one = one?;
    let other = other?;
    Ok((one, other))
}

// The number of persons, sessions, records and rows of the trail of the laboratory.
fn counts(lab: &Lab) -> LabCounts
    ensures { result ≡ counts_of lab.now }
{
    LabCounts {
        persons: lab.persons.as_slice().len() as u64,
        sessions: lab.sessions.as_slice().len() as u64,
        records: lab.records.as_slice().len() as u64,
        trail: lab.trail.as_slice().len() as u64,
    }
}

fn callers_of(lab: &Lab, token: &Option<Digest>) -> Result<Callers, OutOfMemory>
    ensures session { IfOk result (λ both.
        both.session ≡ option_and_then (session_at lab.now) token.now) }
    ensures caller { IfOk result (λ both.
        both.caller ≡ caller_of lab.now (option_and_then (session_at lab.now) token.now)) }
    ensures memory { OnErr result (IsSome (option_and_then (session_at lab.now) token.now)) }
{
    let found = session(lab, token);
    let (session, caller) = both(session_copied(found), caller(lab, found))?;
    Ok(Callers { session, caller })
}

fn session_copied(found: Option<&Session>) -> Result<Option<Session>, OutOfMemory>
    ensures copy { IfOk result (λ copy. copy ≡ option_copied found.entry) }
    ensures memory { OnErr result (IsSome (option_copied found.entry)) }
{
    match found {
        Some(session) => Ok(Some(session.copy()?)),
        None => Ok(None),
    }
}

fn session<'a>(lab: &'a Lab, token: &Option<Digest>) -> Option<&'a Session>
    ensures { option_copied result ≡ option_and_then (session_at lab.now) token.now }
{
    match token {
        Some(digest) => session_of(lab.sessions.as_slice(), digest),
        None => None,
    }
}

fn caller(lab: &Lab, session: Option<&Session>) -> Result<Option<Person>, OutOfMemory>
    ensures caller { IfOk result
        (λ caller. caller ≡ caller_of lab.now (option_copied session.entry)) }
    ensures memory { OnErr result (IsSome (caller_of lab.now (option_copied session.entry))) }
{
    match session {
        Some(session) => person(lab, &session.person),
        None => Ok(None),
    }
}

fn person(lab: &Lab, code: &PersonCode) -> Result<Option<Person>, OutOfMemory>
    ensures person { IfOk result (λ person. person ≡ person_at lab.now code.now) }
    ensures memory { OnErr result (IsSome (person_at lab.now code.now)) }
{
    match person_of(lab.persons.as_slice(), code) {
        Some(person) => Ok(Some(person.copy()?)),
        None => Ok(None),
    }
}

fn named_in(lab: &Lab, need: &Need) -> Result<Named, OutOfMemory>
    ensures person { IfOk result (λ named.
        named.person ≡ option_and_then (person_at lab.now) need.now.person) }
    ensures form { IfOk result (λ named.
        named.form ≡ option_and_then (form_meant lab.now) need.now.form) }
    ensures filed { IfOk result (λ named.
        named.filed ≡ option_and_then (record_meant lab.now) need.now.filed) }
    ensures memory { OnErr result (IsSome (option_and_then (person_at lab.now) need.now.person)
        ⊎ IsSome (option_and_then (form_meant lab.now) need.now.form)
        ⊎ IsSome (option_and_then (record_meant lab.now) need.now.filed)) }
{
    let person = person_named(lab, &need.person);
    let form = form_named(lab, &need.form);
    let filed = record_named(lab, &need.filed);
    let (person, (form, filed)) = both(person, both(form, filed))?;
    Ok(Named {
        person,
        form,
        filed,
    })
}

fn person_named(lab: &Lab, code: &Option<PersonCode>) -> Result<Option<Person>, OutOfMemory>
    ensures person { IfOk result
        (λ person. person ≡ option_and_then (person_at lab.now) code.now) }
    ensures memory { OnErr result (IsSome (option_and_then (person_at lab.now) code.now)) }
{
    match code {
        Some(code) => person(lab, code),
        None => Ok(None),
    }
}

fn form_named(lab: &Lab, wanted: &Option<FormWanted>) -> Result<Option<FormVersion>, OutOfMemory>
    ensures form { IfOk result (λ form. form ≡ option_and_then (form_meant lab.now) wanted.now) }
    ensures memory { OnErr result (IsSome (option_and_then (form_meant lab.now) wanted.now)) }
{
    match wanted {
        Some(wanted) => form(lab, wanted),
        None => Ok(None),
    }
}

fn record_named(
    lab: &Lab,
    wanted: &Option<RecordWanted>,
) -> Result<Option<FoundRecord>, OutOfMemory>
    ensures kept { IfOk result
        (λ kept. kept ≡ option_and_then (record_meant lab.now) wanted.now) }
    ensures memory { OnErr result (IsSome (option_and_then (record_meant lab.now) wanted.now)) }
{
    match wanted {
        Some(wanted) => wanted_record(lab, wanted),
        None => Ok(None),
    }
}

fn form(lab: &Lab, wanted: &FormWanted) -> Result<Option<FormVersion>, OutOfMemory>
    ensures form { IfOk result (λ form. form ≡ form_meant lab.now wanted.now) }
    ensures memory { OnErr result (IsSome (form_meant lab.now wanted.now)) }
{
    let forms = lab.forms.as_slice();
    match wanted {
        FormWanted::Last { code } => form_copied(last_form(forms, code)),
        FormWanted::Exact { code, version } => form_copied(exact_form(forms, code, *version)),
    }
}

fn form_copied(found: Option<&FormVersion>) -> Result<Option<FormVersion>, OutOfMemory>
    ensures copy { IfOk result (λ copy. copy ≡ option_copied found.entry) }
    ensures memory { OnErr result (IsSome (option_copied found.entry)) }
{
    match found {
        Some(form) => Ok(Some(form.copy()?)),
        None => Ok(None),
    }
}

fn wanted_record(lab: &Lab, wanted: &RecordWanted) -> Result<Option<FoundRecord>, OutOfMemory>
    ensures kept { IfOk result (λ kept. kept ≡ record_meant lab.now wanted.now) }
    ensures memory { OnErr result (IsSome (record_meant lab.now wanted.now)) }
{
    let records = lab.records.as_slice();
    match wanted {
        RecordWanted::Numbered { number } => record_copied(record_of(records, *number)),
        RecordWanted::About { form, sample } => record_copied(record_about(records, form, sample)),
    }
}

fn record_copied(found: Option<&Record>) -> Result<Option<FoundRecord>, OutOfMemory>
    ensures copy { IfOk result (λ copy. copy ≡ option_copied found.entry) }
    ensures memory { OnErr result (IsSome (option_copied found.entry)) }
{
    match found {
        Some(kept) => Ok(Some(FoundRecord::new(kept.copy()?))),
        None => Ok(None),
    }
}

fn listed_in(lab: &Lab, alloc: Global, list: &Option<ListWanted>) -> Result<Listed, OutOfMemory>
    ensures persons { IfOk result (λ listed. listed.persons ≡ persons_meant lab.now list.now) }
    ensures records { IfOk result (λ listed. listed.records ≡ records_meant lab.now list.now) }
    ensures trail { IfOk result (λ listed. listed.trail ≡ rows_meant lab.now list.now) }
    ensures memory { OnErr result ((0 < length (persons_meant lab.now list.now))
        ⊎ (0 < length (records_meant lab.now list.now))
        ⊎ (0 < length (rows_meant lab.now list.now))) }
{
    let persons = persons_listed(lab, alloc, list);
    let records = records_listed(lab, alloc, list);
    let trail = rows_listed(lab, alloc, list);
    let (persons, (records, trail)) = both(persons, both(records, trail))?;
    Ok(Listed {
        persons,
        records,
        trail,
    })
}

fn persons_listed(
    lab: &Lab,
    alloc: Global,
    list: &Option<ListWanted>,
) -> Result<Series<Person>, OutOfMemory>
    ensures persons { IfOk result (λ persons. persons ≡ persons_meant lab.now list.now) }
    ensures memory { OnErr result (0 < length (persons_meant lab.now list.now)) }
{
    match list {
        Some(ListWanted::Persons) => persons_copied(alloc, &lab.persons),
        _ => Ok(Series::new(alloc)),
    }
}

fn persons_copied(alloc: Global, persons: &Series<Person>) -> Result<Series<Person>, OutOfMemory>
    ensures copy { IfOk result (λ copy. copy ≡ persons.now) }
    ensures memory { OnErr result (0 < length persons.now) }
{
    if persons.as_slice().is_empty() {
        return Ok(Series::new(alloc));
    }
    Ok(persons.clone()?)
}

fn records_listed(
    lab: &Lab,
    alloc: Global,
    list: &Option<ListWanted>,
) -> Result<Series<Record>, OutOfMemory>
    ensures records { IfOk result (λ records. records ≡ records_meant lab.now list.now) }
    ensures memory { OnErr result (0 < length (records_meant lab.now list.now)) }
{
    match list {
        Some(ListWanted::Records { from, to }) => {
            records_within(alloc, lab.records.as_slice(), *from, *to)
        }
        _ => Ok(Series::new(alloc)),
    }
}

fn rows_listed(
    lab: &Lab,
    alloc: Global,
    list: &Option<ListWanted>,
) -> Result<Series<TrailRow>, OutOfMemory>
    ensures trail { IfOk result (λ trail. trail ≡ rows_meant lab.now list.now) }
    ensures memory { OnErr result (0 < length (rows_meant lab.now list.now)) }
{
    match list {
        Some(ListWanted::Trail { from, to }) => {
            rows_within(alloc, lab.trail.as_slice(), *from, *to)
        }
        _ => Ok(Series::new(alloc)),
    }
}

// The records with numbers in the range.
fn records_within(
    alloc: Global,
    records: &[Record],
    from: Ordinal,
    to: Ordinal,
) -> Result<Series<Record>, OutOfMemory>
    ensures list { IfOk result (λ list. list ≡ records_within from to records.now) }
    ensures memory { OnErr result (0 < length (records_within from to records.now)) }
{
    let mut list = Series::new(alloc);
    match add_records_within(&mut list, records, from, to) {
        Ok(()) => Ok(list),
        Err(error) => {
            drop(list);
            Err(error)
        }
    }
}

// Adds the records with numbers in the range, after the others.
fn add_records_within(
    list: &mut Series<Record>,
    records: &[Record],
    from: Ordinal,
    to: Ordinal,
) -> Result<(), OutOfMemory>
    ensures list { OnOk result (list.new ≡ list.old ++ records_within from to records.now) }
    ensures memory { OnErr result (0 < length (records_within from to records.now)) }
{
    for kept in records {
        if is_within(kept.number, from, to) {
            add_record(list, kept)?;
        }
    }
    Ok(())
}

fn add_record(list: &mut Series<Record>, kept: &Record) -> Result<(), OutOfMemory>
    ensures { OnOk result (list.new ≡ list.old ++ kept.now ∷ []) }
{
    let copy = kept.copy()?;
    list.push(copy)?;
    Ok(())
}

// The rows of a trail with numbers in the range.
fn rows_within(
    alloc: Global,
    trail: &[TrailRow],
    from: Ordinal,
    to: Ordinal,
) -> Result<Series<TrailRow>, OutOfMemory>
    ensures list { IfOk result (λ list. list ≡ rows_within from to trail.now) }
    ensures memory { OnErr result (0 < length (rows_within from to trail.now)) }
{
    let mut list = Series::new(alloc);
    match add_rows_within(&mut list, trail, from, to) {
        Ok(()) => Ok(list),
        Err(error) => {
            drop(list);
            Err(error)
        }
    }
}

// Adds the rows of a trail with numbers in the range, after the others.
fn add_rows_within(
    list: &mut Series<TrailRow>,
    trail: &[TrailRow],
    from: Ordinal,
    to: Ordinal,
) -> Result<(), OutOfMemory>
    ensures list { OnOk result (list.new ≡ list.old ++ rows_within from to trail.now) }
    ensures memory { OnErr result (0 < length (rows_within from to trail.now)) }
{
    for row in trail {
        if is_within(row.number, from, to) {
            add_row(list, row)?;
        }
    }
    Ok(())
}

fn add_row(list: &mut Series<TrailRow>, row: &TrailRow) -> Result<(), OutOfMemory>
    ensures { OnOk result (list.new ≡ list.old ++ row.now ∷ []) }
{
    let copy = row.copy()?;
    list.push(copy)?;
    Ok(())
}

fn is_within(number: Ordinal, from: Ordinal, to: Ordinal) -> bool
    ensures { result ≡ is_within from to number }
{
    from.get() <= number.get() && number.get() <= to.get()
}
