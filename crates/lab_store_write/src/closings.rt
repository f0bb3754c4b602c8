//! Sessions that are closed when the account of their person changes: at a lock and at a retirement
//! (21 CFR 11.300(b) and (d)).

ghost use Rattle.std.specs.Prelude.{◌≡◌, IsFalse};
ghost use Rattle.std.specs.List.{list_all};
ghost use Rattle.lab_people_access.specs.declared.sessions.Closing.TheVariants.{All, Others};
ghost use Rattle.lab_store_tables.specs.Changes.{InTurn};
ghost use Rattle.lab_store_write.specs.Calls.{AnswersTrying, WritesTrying, WritesUnlessTrying, Finds, MadeFrom};
ghost use Rattle.lab_store_write.specs.Private.Calls.{Becomes};
ghost use Rattle.lab_store_write.specs.Causes.{shows_id};
ghost use Rattle.lab_store_write.specs.Givers.{Knows};
ghost use Rattle.lab_store_write.specs.Closings.{close_one, close_of, ClosesRow, ClosesOf, opened_shown};
ghost use Rattle.lab_store_write.specs.Statements.{asking_sessions, asking_others, closing_session};
ghost use Rattle.lab_store_write.specs.Tried.{Only, TriedFrom, TriesToCloseRows, TriesToClose, TriesToCloseOf};

use crate::statements::run;
use crate::values::{id_value, ordinal_value};
use crate::{Giver, RowId, Writable, id_of, person_id_by};
use lab_forms_texts::{Ordinal, PersonCode};
use lab_people_access::Closing;
use sqlite::{Error, Row};

// Closes the session.
fn close_session<W: Writable>(tx: &mut W, session: RowId) -> Result<usize, Error>
    ensures { WritesTrying (Only (closing_session session.id)) W.lender W.state
        (Becomes (close_one session.id)) tx.old tx.new result }
{
    run(
        tx,
        "UPDATE sessions SET closed = 1 WHERE id = ?1",
        &[id_value(session)],
    )
}

// Closes the sessions whose ids the rows show, one after the other.
fn close_rows<W: Writable>(tx: &mut W, rows: &[Row]) -> Result<(), Error>
    ensures { WritesUnlessTrying (λ _. IsFalse (list_all shows_id rows.now))
        (TriesToCloseRows rows.now) W.lender W.state (InTurn ClosesRow rows.now)
        tx.old tx.new result }
{
    for row in rows {
        let session = id_of(row)?;
        close_session(tx, session)?;
    }
    Ok(())
}

// The open sessions of the person.
fn all_rows<W: Writable>(tx: &mut W, person: RowId) -> Result<Vec<Row>, Error>
    ensures { AnswersTrying (Only (asking_sessions person.id)) W.lender W.state
        (λ rows. Finds (λ t. rows.items ≡ opened_shown person.id All t)) tx.old tx.new result }
{
    tx.query_all(
        "SELECT id FROM sessions WHERE person = ?1 AND closed = 0 ORDER BY id",
        &[id_value(person)],
    )
}

// The open sessions of the person, except the one with the number.
fn other_rows<W: Writable>(tx: &mut W, person: RowId, kept: Ordinal) -> Result<Vec<Row>, Error>
    ensures { AnswersTrying (Only (asking_others person.id kept)) W.lender W.state
        (λ rows. Finds (λ t. rows.items ≡ opened_shown person.id (Others kept) t))
        tx.old tx.new result }
{
    tx.query_all(
        "SELECT id FROM sessions WHERE person = ?1 AND closed = 0 AND number <> ?2 ORDER BY id",
        &[id_value(person), ordinal_value(kept)],
    )
}

// Closes all sessions of the person.
fn close_all<W: Writable>(tx: &mut W, person: RowId) -> Result<(), Error>
    ensures { WritesTrying (TriesToClose person.id All) W.lender W.state
        (Becomes (close_of person.id All)) tx.old tx.new result }
{
    let rows = all_rows(tx, person)?;
    close_rows(tx, &rows)?;
    Ok(())
}

// Closes all sessions of the person, except the one with the number.
fn close_others<W: Writable>(tx: &mut W, person: RowId, kept: Ordinal) -> Result<(), Error>
    ensures { WritesTrying (TriesToClose person.id (Others kept)) W.lender W.state
        (Becomes (close_of person.id (Others kept))) tx.old tx.new result }
{
    let rows = other_rows(tx, person, kept)?;
    close_rows(tx, &rows)?;
    Ok(())
}

// Closes the sessions of the person that the change names.
fn close_meant<W: Writable>(tx: &mut W, person: RowId, closing: Closing) -> Result<(), Error>
    ensures { WritesTrying (TriesToClose person.id closing) W.lender W.state
        (Becomes (close_of person.id closing)) tx.old tx.new result }
{
    match closing {
        Closing::Nothing => Ok(()),
        Closing::All => close_all(tx, person),
        Closing::Others(kept) => close_others(tx, person, kept),
    }
}

/// Closes the sessions, of the person with the code, that the change names.
///
/// # Errors
/// The errors of `Writable`, or nobody has the code.
pub fn close_sessions<W: Writable>(
    tx: &mut W,
    lab: RowId,
    giver: Option<Giver<'_>>,
    code: &PersonCode,
    closing: Closing,
) -> Result<(), Error>
    ensures { WritesTrying
        (TriedFrom (Knows lab.id giver.entry) (TriesToCloseOf lab.id code.now closing))
        W.lender W.state
        (MadeFrom (Knows lab.id giver.entry) (ClosesOf lab.id code.now closing))
        tx.old tx.new result }
{
    let person = person_id_by(tx, lab, giver, code)?;
    close_meant(tx, person, closing)?;
    Ok(())
}
