//! The only way to a file of an older schema: it is opened, where it is one of which files are moved.

ghost use Rattle.std.specs.Prelude.{◌≡◌, ◌≢◌, ◌⊎◌, ℤ, Bool, Option, [], Result, Ok, Err, IfOk, IfErr};
ghost use Rattle.sqlite_value.specs.Order.{column};
ghost use Rattle.sqlite.specs.Held.{state};
ghost use Rattle.sqlite.specs.State.{HasCleanDisk, Shown};
ghost use Rattle.lab_store_files.specs.declared.faults.FileFault.{FileFault as AnyFault};
ghost use Rattle.lab_store_files.specs.declared.faults.FileFault.TheVariants.{NotEmpty, Storage};
ghost use Rattle.lab_store_files.specs.Faults.{FailedInStore};
ghost use Rattle.lab_store_files.specs.Verdicts.{integer_in, number_query, number_shown};
ghost use Rattle.lab_move_tables.specs.Reading.{ReadsOld};
ghost use Rattle.lab_move_tables.specs.declared.older.Older.{Older as AnyOlder};
ghost use Rattle.lab_move.specs.Causes.{IsUnanswered};
ghost use Rattle.lab_move.specs.Private.Faults.{IsOfStore};
ghost use Rattle.lab_move.specs.Openings.{ending_of, left_by};
ghost use Rattle.lab_move.specs.OldFiles.{older_of, whole_verdict, other_verdict, named_verdict, old_verdict, OldAnswers, IsNamedOldFile};
ghost use Rattle.lab_move.specs.Owed.{AnswersOldOwed, IsOldOwed};

use crate::faults::store_fault;
use crate::schemas::{has_number, is_whole};
use lab_move_tables::Older;
use lab_store_files::FileFault;
use lab_store_read::{ReadFault, Readable, read_fault};
use sqlite::types::ValueRef;
use sqlite::{Alter, Connection, Row};
use sqlite_schema::schema::Schema;
use std::marker::Model;

/// An old file that is asked, over a connection to it.
#[derive(Drop)]
pub(crate) struct Asked<S: Alter> {
    /// The connection.
    pub(crate) conn: Connection<S>,
}

impl<S: Alter> Readable for Asked<S> {
    ghost use Rattle.sqlite.specs.Held.{state as state_held};

    ghost state = { λ file. state_held S.Store file.conn };

    fn query_all(&mut self, sql: &str, params: &[ValueRef<'_>]) -> Result<Vec<Row>, ReadFault> {
        match self.conn.query_all(sql, params) {
            Ok(rows) => Ok(rows),
            Err(error) => Err(read_fault(error)),
        }
    }
}

/// A file of an older schema, which was asked once which one it is. `open_old` makes the only
/// `OldFile` there is. Nobody else writes to the file. A contract sees the connection and the schema.
pub struct OldFile<S: Alter> {
    conn: Connection<S>,
    older: Older,
}

// `drop` is written out, so that a caller doesn't prove again how each part is dropped.
impl<S: Alter + Drop> Drop for OldFile<S> {
    fn drop(self) {
        let OldFile { conn: _, older: _ } = self;
    }
}

impl<S: Alter> Model for OldFile<S> {
    ghost use Rattle.std.specs.Prelude.{Ok};
    ghost use Rattle.sqlite.specs.Held.{state};
    ghost use Rattle.sqlite.specs.State.{HasCleanDisk};
    ghost use Rattle.lab_move.specs.Openings.{Opened, opened_code};
    ghost use Rattle.lab_move.specs.Owed.{AnswersOldOwed};

    ghost Value = { Opened S };

    ghost coded = { opened_code S.code };

    ghost view = { λ file. record { conn = file.conn; older = file.older } };

    ghost invariant = { λ file. HasCleanDisk (state S.Store file.conn) →
        AnswersOldOwed (state S.Store file.conn).now (Ok file.older) };
}

impl<S: Alter> OldFile<S> {
    // The file, to be asked for its rows, and of which schema it is, as it answered.
    pub(crate) fn into_parts(self) -> (Asked<S>, Older)
        ensures conn { result.0.conn ≡ self.conn }
        ensures older { result.1 ≡ self.older }
        ensures owed { HasCleanDisk (state S.Store result.0.conn) →
            AnswersOldOwed (state S.Store result.0.conn).now (Ok result.1) }
    {
        let OldFile { conn, older } = self;
        (Asked { conn }, older)
    }
}

/// Why a file isn't one of an older schema, and the connection, which is handed back.
#[derive(Drop)]
pub struct Unopened<S: Alter> {
    /// Why the file wasn't opened.
    pub fault: FileFault,
    /// The connection.
    pub conn: Connection<S>,
}

/// Law: an old file owes one answer, and not two, whichever older schemas' tables it has and
/// whatever number it names.
pub fn one_old_answer_is_owed()
    ensures some { (has : AnyOlder → Bool) → (number : Option ℤ) →
        (answer : Result AnyOlder AnyFault) × IsOldOwed has number answer }
    ensures alone { (has : AnyOlder → Bool) → (number : Option ℤ) →
        (one other : Result AnyOlder AnyFault) → IsOldOwed has number one →
        IsOldOwed has number other → one ≡ other }
{}

// The whole number that a row shows first.
fn integer_in(row: &Row) -> Option<i64>
    ensures { result ≡ integer_in (column row.now 0) }
{
    match row.get_ref(0) {
        Ok(ValueRef::Int(number)) => Some(number),
        Ok(ValueRef::Null | ValueRef::Real(_) | ValueRef::Text(_) | ValueRef::Blob(_)) => None,
        Err(_) => None,
    }
}

// The number that the rows show, where one row alone shows one.
fn shown_number(rows: &[Row]) -> Option<i64>
    ensures { result ≡ number_shown rows.now }
{
    if rows.len() != 1 {
        return None;
    }
    integer_in(&rows[0])
}

// The older schema that has the number.
fn with_number(number: i64) -> Option<Older>
    ensures { result ≡ older_of number }
{
    Older::ALL
        .iter()
        .find(|one| one.number() == number)
        .copied()
}

// What a file is that names an older schema and may have all its tables.
fn whole_verdict(older: Older, whole: bool) -> Result<Older, FileFault>
    ensures { result ≡ whole_verdict older whole }
{
    if whole {
        Ok(older)
    } else {
        Err(FileFault::NotADeskFile)
    }
}

// What a file is whose number is that of no older schema.
fn other_verdict(number: i64) -> Result<Older, FileFault>
    ensures { result ≡ other_verdict number }
{
    if number < 1 {
        return Err(FileFault::NotADeskFile);
    }
    if number < Older::ALL[0].number() {
        return Err(FileFault::SchemaOld(number.unsigned_abs()));
    }
    Err(FileFault::SchemaNew(number.unsigned_abs()))
}

// What the file is, by the number of its schema.
fn number_verdict(schema: &Schema, number: i64) -> Result<Older, FileFault>
    ensures { result ≡ named_verdict schema.now number (older_of number) }
{
    match with_number(number) {
        Some(older) => whole_verdict(older, is_whole(older, schema)),
        None => other_verdict(number),
    }
}

// What the file is, by its schema and by what the question for the number shows.
fn verdict(schema: &Schema, rows: &[Row]) -> Result<Older, FileFault>
    ensures { result ≡ old_verdict schema.now rows.now }
{
    match shown_number(rows) {
        Some(number) => number_verdict(schema, number),
        None => Err(FileFault::NotADeskFile),
    }
}

// The rows that the question for the number shows.
fn number_rows<D: Readable>(tables: &mut D) -> Result<Vec<Row>, FileFault>
    ensures reads { ReadsOld (λ _ _. Unit {0}) (D.state tables.old) (D.state tables.new) result }
    ensures shown { HasCleanDisk (D.state tables.new) → IfOk result (λ rows.
        Shown number_query [] (D.state tables.old) (D.state tables.new) rows.items) }
    ensures fault { IfErr result IsOfStore }
    ensures cause { HasCleanDisk (D.state tables.new) → IfErr result (λ fault. fault ≡ Storage →
        IsUnanswered number_query (D.state tables.old) (D.state tables.new)) }
{
    match tables.query_all("SELECT schema FROM desk", &[]) {
        Ok(rows) => Ok(rows),
        Err(fault) => Err(store_fault(fault)),
    }
}

// Of which older schema the file is.
fn older_in<S: Alter>(file: &mut Asked<S>) -> Result<Older, FileFault>
    ensures answer { HasCleanDisk (state S.Store file.new.conn) →
        OldAnswers (state S.Store file.old.conn) (state S.Store file.new.conn) result }
    ensures owed { HasCleanDisk (state S.Store file.new.conn) →
        AnswersOldOwed (state S.Store file.old.conn).now result }
    ensures ours { HasCleanDisk (state S.Store file.new.conn) → (older : AnyOlder) →
        IsNamedOldFile older (state S.Store file.old.conn).now →
        (result ≡ Ok older) ⊎ FailedInStore result }
    ensures reads { ReadsOld (λ _ _. Unit {0})
        (state S.Store file.old.conn) (state S.Store file.new.conn) result }
    ensures fault { result ≢ Err NotEmpty }
    ensures cause { HasCleanDisk (state S.Store file.new.conn) →
        IfErr result (λ fault. fault ≡ Storage →
        IsUnanswered number_query (state S.Store file.old.conn) (state S.Store file.new.conn)) }
{
    if !has_number(file.conn.schema()) {
        return Err(FileFault::NotADeskFile);
    }
    let rows = number_rows(file)?;
    verdict(file.conn.schema(), &rows)
}

/// Opens a file of an older schema. It looks of which one the file is, by the one row of the table
/// `desk`, and by whether each table, column and reference is there, however they were written.
/// Nothing is written. What the rows say isn't looked at.
///
/// # Errors
/// None of these files, an older or a newer schema with its number, a refusal of the store, or out
/// of memory. The connection is handed back.
pub fn open_old<S: Alter>(conn: Connection<S>) -> Result<OldFile<S>, Unopened<S>>
    // The answer is the verdict on the file, or the store gave none:
    ensures answer { HasCleanDisk (state S.Store (left_by result)) → OldAnswers
        (state S.Store conn) (state S.Store (left_by result)) (ending_of result) }
    // Each refusal is told exactly where the file owes it, unless the store failed:
    ensures owed { HasCleanDisk (state S.Store (left_by result)) →
        AnswersOldOwed (state S.Store conn).now (ending_of result) }
    // A file of an older schema is never refused as another one:
    ensures ours { HasCleanDisk (state S.Store (left_by result)) → (older : AnyOlder) →
        IsNamedOldFile older (state S.Store conn).now →
        (ending_of result ≡ Ok older) ⊎ FailedInStore (ending_of result) }
    // However it ends, the rows are as they were, and a crash leaves no more than before:
    ensures reads { ReadsOld (λ _ _. Unit {0})
        (state S.Store conn) (state S.Store (left_by result)) (ending_of result) }
    ensures fault { ending_of result ≢ Err NotEmpty }
    // The store's refusal has its cause:
    ensures cause { HasCleanDisk (state S.Store (left_by result)) →
        IfErr (ending_of result) (λ fault. fault ≡ Storage →
        IsUnanswered number_query (state S.Store conn) (state S.Store (left_by result))) }
{
    let mut file = Asked { conn };
    match older_in(&mut file) {
        Ok(older) => Ok(OldFile {
            conn: file.conn,
            older,
        }),
        Err(fault) => Err(Unopened {
            fault,
            conn: file.conn,
        }),
    }
}
