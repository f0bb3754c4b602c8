//! Rows of the trail.

ghost use Rattle.std.specs.Prelude.{option_map};
ghost use Rattle.lab_store_write.specs.Calls.{WritesTrying, MadeFrom};
ghost use Rattle.lab_store_write.specs.Private.Calls.{Becomes};
ghost use Rattle.lab_store_write.specs.Givers.{Knows};
ghost use Rattle.lab_store_write.specs.Ids.{row_id};
ghost use Rattle.lab_store_write.specs.TrailAdded.{with_told, AddsLastTold};
ghost use Rattle.lab_store_write.specs.Private.TrailAdded.{with_count};
ghost use Rattle.lab_store_write.specs.Statements.{adding_told, counting_trail};
ghost use Rattle.lab_store_write.specs.Tried.{Only, TriedFrom, TriesToAddTold};

use crate::named::{Giver, person_if_any};
use crate::statements::{RowId, run};
use crate::values::{id_or_null, id_value, moment_value, ordinal_value, text_value};
use crate::writable::Writable;
use lab_forms_texts::{Moment, Ordinal};
use lab_records_kept::TrailRow;
use sqlite::Error;

// Adds the row.
fn insert_told<W: Writable>(
    tx: &mut W,
    lab: RowId,
    person: Option<RowId>,
    told: &TrailRow,
) -> Result<usize, Error>
    ensures { WritesTrying (Only (adding_told lab.id (option_map row_id person) told.now))
        W.lender W.state
        (Becomes (with_told lab.id (option_map row_id person) told.now)) tx.old tx.new result }
{
    let action = told.action.word();
    let subject = told.subject.as_str();
    run(
        tx,
        "INSERT INTO trail (lab, number, moment, person, action, subject) VALUES (?1, ?2, ?3, ?4, ?5, ?6)",
        &[
            id_value(lab),
            ordinal_value(told.number),
            moment_value(told.moment),
            id_or_null(person),
            text_value(action),
            text_value(subject),
        ],
    )
}

// Sets how many rows the trail of the laboratory has, and its last moment, if one is given.
fn set_trail<W: Writable>(
    tx: &mut W,
    lab: RowId,
    last: Option<Moment>,
    count: Ordinal,
) -> Result<usize, Error>
    ensures { WritesTrying (Only (counting_trail lab.id last count)) W.lender W.state
        (Becomes (with_count lab.id last count)) tx.old tx.new result }
{
    match last {
        Some(moment) => run(
            tx,
            "UPDATE labs SET last = ?2, trail = ?3 WHERE id = ?1",
            &[id_value(lab), moment_value(moment), ordinal_value(count)],
        ),
        None => run(
            tx,
            "UPDATE labs SET trail = ?2 WHERE id = ?1",
            &[id_value(lab), ordinal_value(count)],
        ),
    }
}

/// Adds a row of the trail, and sets the last moment of the laboratory together with the number of
/// its rows, if one is given.
///
/// # Errors
/// The errors of `Writable`, or nobody has the code of the person in the row.
pub fn add_told<W: Writable>(
    tx: &mut W,
    lab: RowId,
    giver: Option<Giver<'_>>,
    last: Option<Moment>,
    told: &TrailRow,
) -> Result<(), Error>
    ensures { WritesTrying
        (TriedFrom (Knows lab.id giver.entry) (TriesToAddTold lab.id last told.now))
        W.lender W.state
        (MadeFrom (Knows lab.id giver.entry) (AddsLastTold lab.id last told.now))
        tx.old tx.new result }
{
    let person = person_if_any(tx, lab, giver, &told.person)?;
    insert_told(tx, lab, person, told)?;
    set_trail(tx, lab, last, told.number)?;
    Ok(())
}
