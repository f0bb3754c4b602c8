//! Sessions.

ghost use Rattle.std.specs.Prelude.{IfOk, IsTrue};
ghost use Rattle.sqlite.specs.State.{HasCleanDisk};
ghost use Rattle.lab_store_tables.specs.Rows.{LabRow};
ghost use Rattle.lab_store_tables.specs.Changes.{in_lab, AddsSession, SetsSession};
ghost use Rattle.lab_store_write.specs.Calls.{AnswersTrying, WritesTrying, MadeFrom};
ghost use Rattle.lab_store_write.specs.Private.Calls.{Becomes};
ghost use Rattle.lab_store_write.specs.Causes.{IsRun};
ghost use Rattle.lab_store_write.specs.Givers.{Knows};
ghost use Rattle.lab_store_write.specs.Added.{with_session};
ghost use Rattle.lab_store_write.specs.Private.Added.{SetsIfAny};
ghost use Rattle.lab_store_write.specs.Statements.{adding_session, counting_sessions, setting_session};
ghost use Rattle.lab_store_write.specs.Tried.{Only, TriedFrom, TriesToAddSession, TriesToSetSession};

use crate::statements::run;
use crate::values::{blob_value, flag_value, id_value, moment_value, ordinal_value};
use crate::{Giver, RowId, Writable, person_id_by};
use lab_forms_texts::Ordinal;
use lab_people_access::Session;
use sqlite::Error;

// Adds the row.
fn insert_session<W: Writable>(
    tx: &mut W,
    lab: RowId,
    person: RowId,
    session: &Session,
) -> Result<usize, Error>
    ensures { WritesTrying (Only (adding_session lab.id person.id session.now)) W.lender W.state
        (Becomes (with_session lab.id person.id session.now)) tx.old tx.new result }
{
    let token = session.token.bytes();
    run(
        tx,
        "INSERT INTO sessions (lab, person, number, token, opened, last, closed, signed) VALUES (?1, ?2, ?3, ?4, ?5, ?6, ?7, ?8)",
        &[
            id_value(lab),
            id_value(person),
            ordinal_value(session.number),
            blob_value(&token),
            moment_value(session.opened),
            moment_value(session.last),
            flag_value(session.closed),
            flag_value(session.signed),
        ],
    )
}

// Sets how many sessions the laboratory has.
fn set_sessions<W: Writable>(tx: &mut W, lab: RowId, count: Ordinal) -> Result<usize, Error>
    ensures { WritesTrying (Only (counting_sessions lab.id count)) W.lender W.state
        (Becomes (in_lab lab.id (λ (one : LabRow). record one { sessions = count })))
        tx.old tx.new result }
{
    run(
        tx,
        "UPDATE labs SET sessions = ?2 WHERE id = ?1",
        &[id_value(lab), ordinal_value(count)],
    )
}

/// Adds a session.
///
/// # Errors
/// The errors of `Writable`, or nobody has the code of its person.
pub fn add_session<W: Writable>(
    tx: &mut W,
    lab: RowId,
    giver: Option<Giver<'_>>,
    session: &Session,
) -> Result<(), Error>
    ensures { WritesTrying
        (TriedFrom (Knows lab.id giver.entry) (TriesToAddSession lab.id session.now))
        W.lender W.state
        (MadeFrom (Knows lab.id giver.entry) (AddsSession lab.id session.now))
        tx.old tx.new result }
{
    let person = person_id_by(tx, lab, giver, &session.person)?;
    insert_session(tx, lab, person, session)?;
    set_sessions(tx, lab, session.number)?;
    Ok(())
}

// Sets the row of the laboratory that has the token, and returns how many rows were set.
fn update_session<W: Writable>(
    tx: &mut W,
    lab: RowId,
    person: RowId,
    session: &Session,
) -> Result<usize, Error>
    ensures writes { AnswersTrying (Only (setting_session lab.id person.id session.now))
        W.lender W.state (SetsIfAny lab.id person.id session.now) tx.old tx.new result }
    ensures ran { IsTrue (W.state tx.old).in_transaction → HasCleanDisk (W.state tx.new) →
        IfOk result (IsRun (setting_session lab.id person.id session.now)
        (W.state tx.old) (W.state tx.new)) }
{
    let token = session.token.bytes();
    run(
        tx,
        "UPDATE sessions SET person = ?3, number = ?4, opened = ?5, last = ?6, closed = ?7, signed = ?8 WHERE lab = ?1 AND token = ?2",
        &[
            id_value(lab),
            blob_value(&token),
            id_value(person),
            ordinal_value(session.number),
            moment_value(session.opened),
            moment_value(session.last),
            flag_value(session.closed),
            flag_value(session.signed),
        ],
    )
}

/// Sets the row of a session, which its token names.
///
/// # Errors
/// The errors of `Writable`, or no session has the token, or nobody has the code of its person.
pub fn set_session<W: Writable>(
    tx: &mut W,
    lab: RowId,
    giver: Option<Giver<'_>>,
    session: &Session,
) -> Result<(), Error>
    ensures { WritesTrying
        (TriedFrom (Knows lab.id giver.entry) (TriesToSetSession lab.id session.now))
        W.lender W.state
        (MadeFrom (Knows lab.id giver.entry) (SetsSession lab.id session.now))
        tx.old tx.new result }
{
    let person = person_id_by(tx, lab, giver, &session.person)?;
    let count = update_session(tx, lab, person, session)?;
    if count == 0 {
        return Err(Error::QueryReturnedNoRows);
    }
    Ok(())
}
