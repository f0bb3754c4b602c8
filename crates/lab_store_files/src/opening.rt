//! Opens an existing file, if it has this schema.

ghost use Rattle.std.specs.Prelude.{◌≡◌, ◌⊎◌, ℕ, ℤ, ◌≤◌, Bool, Option, Result, [], Ok, IfOk, OnOk};
ghost use Rattle.sqlite_value.specs.Order.{column};
ghost use Rattle.sqlite.specs.Held.{state};
ghost use Rattle.sqlite.specs.State.{HasCleanDisk, IsUnchanged, Shown};
ghost use Rattle.lab_store_tables.specs.Ready.{IsAtRest, IsKept, LeavesNoMore, PassesBy, WhereShown};
ghost use Rattle.lab_store_tables.specs.Schema.{schema_number};
ghost use Rattle.lab_store_files.specs.declared.faults.FileFault.{FileFault as Fault};
ghost use Rattle.lab_store_files.specs.Faults.{FailedInStore};
ghost use Rattle.lab_store_files.specs.Owed.{AnswersOwed, IsOwed};
ghost use Rattle.lab_store_files.specs.Schemas as spec;
ghost use Rattle.lab_store_files.specs.Verdicts.{integer_in, number_query, number_shown, number_verdict, file_verdict, AnswersVerdict};

use crate::faults::FileFault;
use crate::schemas::{has_number, is_whole};
use crate::texts;
use lab_store_tables::SCHEMA;
use sqlite::types::ValueRef;
use sqlite::{Alter, Connection, Error, Row};
use sqlite_schema::schema::Schema;

/// The number of this schema, as a column holds it.
const OWN_SCHEMA: i64 = SCHEMA as i64;

/// Law: a file owes one answer, and not two, whatever schema is wanted, whatever tables it has and
/// whatever number it names.
pub fn one_answer_is_owed()
    ensures some { (wanted : ℕ) → 1 ≤ wanted → (whole : Bool) → (number : Option ℤ) →
        (answer : Result (Unit {0}) Fault) × IsOwed wanted whole number answer }
    ensures alone { (wanted : ℕ) → 1 ≤ wanted → (whole : Bool) → (number : Option ℤ) →
        (one other : Result (Unit {0}) Fault) → IsOwed wanted whole number one →
        IsOwed wanted whole number other → one ≡ other }
{}

// The whole number in the first column of a row.
fn integer_in(row: &Row) -> Option<i64>
    ensures { result ≡ integer_in (column row.now 0) }
{
    match row.get_ref(0) {
        Ok(ValueRef::Int(number)) => Some(number),
        Ok(ValueRef::Null | ValueRef::Real(_) | ValueRef::Text(_) | ValueRef::Blob(_)) => None,
        Err(_) => None,
    }
}

// The number that the rows show, if there is exactly one row and it shows a number.
fn shown_number(rows: &[Row]) -> Option<i64>
    ensures { result ≡ number_shown rows.now }
{
    if rows.len() != 1 {
        return None;
    }
    integer_in(&rows[0])
}

fn check_number(number: i64) -> Result<(), FileFault>
    ensures { result ≡ number_verdict number }
{
    if number < 1 {
        return Err(FileFault::NotADeskFile);
    }
    if number < OWN_SCHEMA {
        return Err(FileFault::SchemaOld(number.unsigned_abs()));
    }
    if number > OWN_SCHEMA {
        return Err(FileFault::SchemaNew(number.unsigned_abs()));
    }
    Ok(())
}

// What the file is, judged by its schema and by the rows that the query for the number returns.
fn verdict(schema: &Schema, rows: &[Row]) -> Result<(), FileFault>
    ensures { result ≡ file_verdict schema.now rows.now }
{
    let Some(number) = shown_number(rows) else {
        return Err(FileFault::NotADeskFile);
    };
    check_number(number)?;
    if is_whole(schema) {
        Ok(())
    } else {
        Err(FileFault::NotADeskFile)
    }
}

// The rows that the query for the number returns.
fn number_rows<S: Alter>(conn: &mut Connection<S>) -> Result<Vec<Row>, Error>
    ensures shown { HasCleanDisk (state S.Store conn.new) →
        IfOk result (λ rows. Shown number_query []
        (state S.Store conn.old) (state S.Store conn.new) rows.items) }
    ensures same { HasCleanDisk (state S.Store conn.new) →
        OnOk result (IsUnchanged (state S.Store conn.old) (state S.Store conn.new)) }
    ensures rows { IsAtRest (state S.Store conn.old) → WhereShown (state S.Store conn.new)
        ((state S.Store conn.new).now ≡ (state S.Store conn.old).now) }
    ensures crash { LeavesNoMore (state S.Store conn.old) (state S.Store conn.new) }
    ensures passes { PassesBy (state S.Store conn.old) (state S.Store conn.new) }
{
    conn.query_all(texts::SCHEMA_QUERY, &[])
}

/// Opens a file in which laboratories are kept: its schema is the schema of this crate, by the one
/// row of the table `desk`, and every table and column is there. Writes nothing. Doesn't check what
/// the rows say.
///
/// # Errors
/// The file isn't one of these files, or has an older or a newer schema, with its number, or the
/// store failed, or memory ran out.
pub fn open<S: Alter>(conn: &mut Connection<S>) -> Result<(), FileFault>
    // The answer is the verdict on the file, unless the store failed first:
    ensures answer { HasCleanDisk (state S.Store conn.new) →
        AnswersVerdict (state S.Store conn.old) (state S.Store conn.new) result }
    // Each refusal is told exactly where the file owes it, unless the store failed:
    ensures owed { HasCleanDisk (state S.Store conn.new) →
        AnswersOwed schema_number spec.is_whole (state S.Store conn.old).now result }
    // A file of ours is never refused as a foreign one:
    ensures ours { HasCleanDisk (state S.Store conn.new) →
        WhereShown (state S.Store conn.old) (IsKept (state S.Store conn.old).now →
        (result ≡ Ok tt) ⊎ FailedInStore result) }
    ensures same { HasCleanDisk (state S.Store conn.new) →
        OnOk result (IsUnchanged (state S.Store conn.old) (state S.Store conn.new)) }
    // Whatever the result, the rows are unchanged, and a crash leaves no more than before:
    ensures rows { IsAtRest (state S.Store conn.old) → WhereShown (state S.Store conn.new)
        ((state S.Store conn.new).now ≡ (state S.Store conn.old).now) }
    ensures crash { LeavesNoMore (state S.Store conn.old) (state S.Store conn.new) }
    ensures passes { PassesBy (state S.Store conn.old) (state S.Store conn.new) }
{
    if !has_number(conn.schema()) {
        return Err(FileFault::NotADeskFile);
    }
    let rows = number_rows(conn)?;
    verdict(conn.schema(), &rows)
}
