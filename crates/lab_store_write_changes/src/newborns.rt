//! A laboratory at its founding: its persons in the order of their codes, and the first row of its
//! trail.

ghost use Rattle.std.specs.Prelude.{◌≡◌, ◌≤◌, [], ◌∷◌, length, None, position, IfOk, OnOk};
ghost use Rattle.std.specs.List.{position_or_len};
ghost use Rattle.lab_records_kept.specs.declared.trails.Deed.TheVariants.{Found};
ghost use Rattle.lab_records_kept.specs.Births.{newborn_lab};
ghost use Rattle.lab_records_kept.specs.Changes.{added_person};
ghost use Rattle.lab_records_kept.specs.Lookups.{comes_before};
ghost use Rattle.lab_records_kept.specs.Trails.{trail_row_of};
ghost use Rattle.lab_store_write_changes.specs.Newborns.{is_asked};

use lab_forms_texts::{Text, TextRule};
use lab_records_kept::{
    Action, Lab, Newborn, Ordinal, OutOfMemory, Person, PersonCode, Series, Subject, TrailRow,
};
use std::alloc::Global;
use std::cmp::Ordering;

/// Returns whether something was asked for a founder.
pub fn is_asked(newborn: &Newborn) -> bool
    ensures { result ≡ is_asked newborn.now }
{
    newborn.first.ask.is_some() || newborn.second.ask.is_some() || newborn.third.ask.is_some()
}

// Whether a text comes before another in the order of their bytes.
fn comes_before<R: TextRule>(one: &Text<R>, other: &Text<R>) -> bool
    ensures { result ≡ comes_before one.now other.now }
{
    match one.cmp(other) {
        Ordering::Less => true,
        Ordering::Equal | Ordering::Greater => false,
    }
}

// The place of the first person with a later code.
fn later_person(persons: &[Person], code: &PersonCode) -> Option<usize>
    ensures { result ≡ position (λ one. comes_before code.now one.code) persons.now }
{
    persons.iter().position(|one| comes_before(code, &one.code))
}

// The place where a person with the code is added: before the first person with a later code, or at
// the end.
#[tactic(auto, using(crate::proofs::Positions::place_found, crate::proofs::Positions::place_at_end, crate::proofs::Positions::place_within))]
fn place_for_person(persons: &[Person], code: &PersonCode) -> usize
    ensures value { result ≡ position_or_len (λ one. comes_before code.now one.code) persons.now }
    ensures within { result ≤ length persons.now }
{
    match later_person(persons, code) {
        Some(place) => place,
        None => persons.len(),
    }
}

// Adds the person, in the order of codes. Fails only if memory runs out.
fn insert_person(persons: &mut Vec<Person>, person: Person) -> Result<(), OutOfMemory>
    ensures { OnOk result (persons.new.items ≡ added_person person persons.old.items) }
{
    let place = place_for_person(persons, &person.code);
    persons.insert(place, person)?;
    Ok(())
}

// The founders, in the order of their codes. Fails only if memory runs out.
fn founders(
    alloc: Global,
    first: Person,
    second: Person,
    third: Person,
) -> Result<Series<Person>, OutOfMemory>
    ensures { IfOk result (λ persons.
        persons ≡ added_person third (added_person second (added_person first []))) }
{
    let mut persons = Vec::new(alloc);
    insert_person(&mut persons, first)?;
    insert_person(&mut persons, second)?;
    insert_person(&mut persons, third)?;
    Ok(Series::from_vec(persons))
}

// The first row of the trail, which logs the founding of the laboratory. Fails only if memory runs
// out.
fn first_trail(alloc: Global, newborn: &Newborn) -> Result<Series<TrailRow>, OutOfMemory>
    ensures { IfOk result (λ trail.
        trail ≡ trail_row_of 1 newborn.now.moment None (Found newborn.now.code) ∷ []) }
{
    let subject = Subject::new(String::from_str(alloc, newborn.code.as_str())?);
    let mut trail = Series::new(alloc);
    trail.push(TrailRow {
        number: Ordinal::FIRST,
        moment: newborn.moment,
        person: None,
        action: Action::Found,
        subject,
    })?;
    Ok(trail)
}

/// Returns the laboratory that is founded. Fails only if memory runs out.
///
/// # Errors
/// Memory ran out.
pub fn laboratory(alloc: Global, newborn: Newborn) -> Result<Lab, OutOfMemory>
    ensures { IfOk result (λ lab. lab ≡ newborn_lab newborn) }
{
    let trail = first_trail(alloc, &newborn)?;
    let Newborn {
        code,
        name,
        moment,
        first,
        second,
        third,
    } = newborn;
    let persons = founders(alloc, first, second, third)?;
    Ok(Lab {
        last: moment,
        strays: 0,
        sessions: Series::new(alloc),
        forms: Series::new(alloc),
        records: Series::new(alloc),
        code,
        name,
        persons,
        trail,
    })
}
