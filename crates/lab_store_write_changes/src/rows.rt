//! The rows of a laboratory that is added, each inside a transaction.

ghost use Rattle.std.specs.Prelude.{OnOk, IsTrue};
ghost use Rattle.sqlite.specs.Effect.{IsDatabase};
ghost use Rattle.sqlite.specs.State.{HasCleanDisk};
ghost use Rattle.lab_store_tables.specs.Changes.{InTurn, AddsPerson, AddsTold};
ghost use Rattle.lab_store_tables.specs.Held.{IsTyped};
ghost use Rattle.lab_store_write.specs.Calls.{AnswersUnless, WritesUnless};
ghost use Rattle.lab_store_write.specs.Private.Calls.{Writes};
ghost use Rattle.lab_store_write.specs.Causes.{IsTooGreat};
ghost use Rattle.lab_store_write_changes.specs.NewbornRows.{AddsLab, AddsRows};

use lab_people_access::Person;
use lab_records_kept::{Lab, TrailRow};
use lab_store_write::statements::run;
use lab_store_write::values::{count_value, moment_value, text_value};
use lab_store_write::{RowId, Writable, add_person, add_told};
use sqlite::Error;

/// Adds the laboratory's row, and returns its id. No number is given yet: its counters follow what
/// is added.
///
/// # Errors
/// Those of `Writable`, and a number of strays that is too great for the store.
pub fn add_lab<W: Writable>(tx: &mut W, lab: &Lab) -> Result<RowId, Error>
    ensures writes { AnswersUnless (λ _. IsTooGreat lab.now.strays) W.lender W.state
        (λ one. AddsLab one.id lab.now) tx.old tx.new result }
    // The database then keeps its own rules, whatever it did before:
    ensures rules { IsTrue (W.state tx.old).in_transaction → HasCleanDisk (W.state tx.new) →
        OnOk result (IsTyped (W.state tx.old).now → IsDatabase (W.state tx.new).now) }
{
    let code = lab.code.as_str();
    let name = lab.name.as_str();
    let strays = count_value(lab.strays)?;
    run(
        tx,
        "INSERT INTO labs (code, name, last, stray, records, sessions, trail) VALUES (?1, ?2, ?3, ?4, 0, 0, 0)",
        &[
            text_value(code),
            text_value(name),
            moment_value(lab.last),
            strays,
        ],
    )?;
    let id = tx.last_insert_rowid();
    Ok(RowId { id })
}

// Adds the persons, one after the other.
fn add_persons<W: Writable>(tx: &mut W, lab: RowId, persons: &[Person]) -> Result<(), Error>
    ensures { Writes W.lender W.state (InTurn (AddsPerson lab.id) persons.now)
        tx.old tx.new result }
{
    for person in persons {
        add_person(tx, lab, None, person)?;
    }
    Ok(())
}

// Adds the rows of the trail, one after the other.
fn add_trail<W: Writable>(tx: &mut W, lab: RowId, trail: &[TrailRow]) -> Result<(), Error>
    ensures { Writes W.lender W.state (InTurn (AddsTold lab.id) trail.now) tx.old tx.new result }
{
    for told in trail {
        add_told(tx, lab, None, None, told)?;
    }
    Ok(())
}

/// Adds all rows of the laboratory.
///
/// # Errors
/// The store failed, or memory ran out.
pub fn add_rows<W: Writable>(tx: &mut W, lab: &Lab) -> Result<(), Error>
    ensures { WritesUnless (λ _. IsTooGreat lab.now.strays) W.lender W.state (AddsRows lab.now)
        tx.old tx.new result }
{
    let row = add_lab(tx, lab)?;
    add_persons(tx, row, lab.persons.as_slice())?;
    add_trail(tx, row, lab.trail.as_slice())
}
