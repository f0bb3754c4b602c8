//! What a laboratory has, kind by kind, each kind in its order, inside a transaction.

ghost use Rattle.std.specs.Prelude.{◌≡◌, [], ◌∷◌, ◌++◌, map, filter, IfOk};
ghost use Rattle.lab_records_kept.specs.declared.changes.Change.TheVariants.{PersonAdded, PersonSet, SessionAdded, FormAdded, RecordAdded, TrailAdded};
ghost use Rattle.lab_store_tables.specs.Placing.{unasked as bare, is_asked_for};
ghost use Rattle.lab_store_tables.specs.Changes.{AddsPerson};
ghost use Rattle.lab_store_write.specs.Private.Calls.{Writes};
ghost use Rattle.lab_move_write.specs.Placings.{whole_changes};
ghost use Rattle.lab_move_write.specs.Private.Turns.{MakesInTurn};

use crate::progress::MoveProgress;
use lab_forms_texts::OutOfMemory;
use lab_people_access::{Person, Session};
use lab_records_kept::{FormVersion, Lab, Record, TrailRow};
use lab_store_write::{RowId, Writable, add_person, add_session, add_told, set_person};
use lab_store_write_changes::{add_form, add_record};
use sqlite::{Error, ErrorCode};

// The person before anything was asked for. The only error is out of memory.
fn unasked_person(person: &Person) -> Result<Person, OutOfMemory>
    ensures { IfOk result (λ one. one ≡ bare person.now) }
{
    let mut one = person.copy()?;
    one.ask = None;
    Ok(one)
}

// Adds the person, without what was asked for.
fn add_bare<W: Writable>(tx: &mut W, lab: RowId, person: &Person) -> Result<(), Error>
    ensures { Writes W.lender W.state (AddsPerson lab.id (bare person.now)) tx.old tx.new result }
{
    match unasked_person(person) {
        Ok(one) => add_person(tx, lab, None, &one),
        Err(_) => Err(Error::SqliteFailure(ErrorCode::OutOfMemory)),
    }
}

// Adds the persons, one after the other, without what was asked for.
fn add_persons<W: Writable>(tx: &mut W, lab: RowId, persons: &[Person]) -> Result<(), Error>
    ensures { MakesInTurn W.lender W.state lab.id (map PersonAdded (map bare persons.now))
        tx.old tx.new result }
{
    for person in persons {
        add_bare(tx, lab, person)?;
    }
    Ok(())
}

// Sets what was asked for the person, where something was.
fn set_ask<W: Writable>(tx: &mut W, lab: RowId, person: &Person) -> Result<(), Error>
    ensures { MakesInTurn W.lender W.state lab.id
        (map PersonSet (filter is_asked_for (person.now ∷ []))) tx.old tx.new result }
{
    match person.ask {
        Some(_) => set_person(tx, lab, None, person),
        None => Ok(()),
    }
}

// Sets what was asked for each person, one after the other.
fn set_asks<W: Writable>(tx: &mut W, lab: RowId, persons: &[Person]) -> Result<(), Error>
    ensures { MakesInTurn W.lender W.state lab.id
        (map PersonSet (filter is_asked_for persons.now)) tx.old tx.new result }
{
    for person in persons {
        set_ask(tx, lab, person)?;
    }
    Ok(())
}

// Adds the sessions, one after the other.
fn add_sessions<W: Writable>(tx: &mut W, lab: RowId, sessions: &[Session]) -> Result<(), Error>
    ensures { MakesInTurn W.lender W.state lab.id (map SessionAdded sessions.now)
        tx.old tx.new result }
{
    for session in sessions {
        add_session(tx, lab, None, session)?;
    }
    Ok(())
}

// Adds the versions of forms, one after the other, each with its fields.
fn add_forms<W: Writable>(tx: &mut W, lab: RowId, forms: &[FormVersion]) -> Result<(), Error>
    ensures { MakesInTurn W.lender W.state lab.id (map FormAdded forms.now) tx.old tx.new result }
{
    for form in forms {
        add_form(tx, lab, form)?;
    }
    Ok(())
}

// Adds the records, one after the other, each with its versions, their rows and their signatures. The progress is told
// after each.
fn add_records<W: Writable, P: MoveProgress>(
    tx: &mut W,
    lab: RowId,
    records: &[Record],
    progress: &mut P,
) -> Result<(), Error>
    ensures { MakesInTurn W.lender W.state lab.id (map RecordAdded records.now)
        tx.old tx.new result }
{
    for place in 0..records.len() {
        add_record(tx, lab, None, &records[place])?;
        progress.tell_records(place + 1, records.len());
    }
    Ok(())
}

// Adds the rows of the trail, one after the other.
fn add_trail<W: Writable>(tx: &mut W, lab: RowId, trail: &[TrailRow]) -> Result<(), Error>
    ensures { MakesInTurn W.lender W.state lab.id (map TrailAdded trail.now) tx.old tx.new result }
{
    for told in trail {
        add_told(tx, lab, None, None, told)?;
    }
    Ok(())
}

// Adds the persons, and then what was asked for them.
fn add_people<W: Writable>(tx: &mut W, lab: RowId, persons: &[Person]) -> Result<(), Error>
    ensures { MakesInTurn W.lender W.state lab.id (map PersonAdded (map bare persons.now)
        ++ map PersonSet (filter is_asked_for persons.now)) tx.old tx.new result }
{
    add_persons(tx, lab, persons)?;
    set_asks(tx, lab, persons)
}

// Adds the records, and then the trail.
fn add_work<W: Writable, P: MoveProgress>(
    tx: &mut W,
    lab: RowId,
    records: &[Record],
    trail: &[TrailRow],
    progress: &mut P,
) -> Result<(), Error>
    ensures { MakesInTurn W.lender W.state lab.id
        (map RecordAdded records.now ++ map TrailAdded trail.now) tx.old tx.new result }
{
    add_records(tx, lab, records, progress)?;
    add_trail(tx, lab, trail)
}

/// Adds all that the laboratory has, where its row is there.
///
/// # Errors
/// The store refused, also where somebody or a form is named that the laboratory doesn't have; or memory ran out.
pub(crate) fn add_kinds<W: Writable, P: MoveProgress>(
    tx: &mut W,
    row: RowId,
    lab: &Lab,
    progress: &mut P,
) -> Result<(), Error>
    ensures { MakesInTurn W.lender W.state row.id (whole_changes lab.now) tx.old tx.new result }
{
    add_people(tx, row, lab.persons.as_slice())?;
    add_sessions(tx, row, lab.sessions.as_slice())?;
    add_forms(tx, row, lab.forms.as_slice())?;
    add_work(
        tx,
        row,
        lab.records.as_slice(),
        lab.trail.as_slice(),
        progress,
    )
}
