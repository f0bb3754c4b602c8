//! The making of a new file, in one commit.

ghost use Rattle.std.specs.Prelude.{◌≡◌, ◌⊎◌, ℕ, List, [], None, Err, IfErr, OnOk, OnErr, IsTrue};
ghost use Rattle.sqlite.specs.Held.{state};
ghost use Rattle.sqlite.specs.State.{HasCleanDisk, KeepsCommit, Survives, ExecutesInside};
ghost use Rattle.lab_store_tables.specs.Meaning.{meaning};
ghost use Rattle.lab_store_tables.specs.Schema.{lab_schema};
ghost use Rattle.lab_store_tables.specs.Ready.{IsAtRest, IsReady, WhereShown, tables_of};
ghost use Rattle.lab_store_files.specs.declared.faults.FileFault.TheVariants.{NotEmpty, Storage, Memory};
ghost use Rattle.lab_store_files.specs.Schemas as spec;
ghost use Rattle.lab_store_files.specs.Tables.{all_tables};
ghost use Rattle.lab_store_files.specs.Private.NewFiles.{schema_of, schema_before, schema_with};
ghost use Rattle.lab_store_files.specs.NewFiles.{IsEmptyUnder, IsBlank, IsNewFile, EndsNewFile};

use crate::faults::FileFault;
use crate::schemas::is_taken;
use crate::tables::LabTable;
use crate::texts;
use sqlite::{Alter, Connection, Error, Transaction};

// Runs a statement that has no parameters.
fn run<S: Alter>(tx: &mut Transaction<'_, S>, text: &str) -> Result<usize, Error>
    requires mode { HasCleanDisk (state S.Store tx.old.conn.now) →
        IsTrue (state S.Store tx.old.conn.now).in_transaction }
    ensures same_reference { tx.new.conn.ghost_name ≡ tx.old.conn.ghost_name }
    ensures runs { HasCleanDisk (state S.Store tx.new.conn.now) → ExecutesInside 0 text.now []
        (state S.Store tx.old.conn.now) (state S.Store tx.new.conn.now) result }
    ensures kept { HasCleanDisk (state S.Store tx.new.conn.now) → KeepsCommit
        (state S.Store tx.old.conn.now) (state S.Store tx.new.conn.now) }
    ensures inside { HasCleanDisk (state S.Store tx.new.conn.now) →
        OnOk result (IsTrue (state S.Store tx.new.conn.now).in_transaction) }
    ensures survives { Survives
        (state S.Store tx.old.conn.now) (state S.Store tx.new.conn.now) (λ _. ⊥) }
{
    tx.execute(text, &[])
}

// Makes one table after those that are there.
fn make_table<S: Alter>(tx: &mut Transaction<'_, S>, one: LabTable) -> Result<usize, Error>
    requires mode { HasCleanDisk (state S.Store tx.old.conn.now) →
        IsTrue (state S.Store tx.old.conn.now).in_transaction }
    ensures same_reference { tx.new.conn.ghost_name ≡ tx.old.conn.ghost_name }
    ensures made { HasCleanDisk (state S.Store tx.new.conn.now) →
        IsEmptyUnder (schema_before one) (state S.Store tx.old.conn.now).now →
        OnOk result (IsEmptyUnder (schema_with one) (state S.Store tx.new.conn.now).now) }
    ensures kept { HasCleanDisk (state S.Store tx.new.conn.now) → KeepsCommit
        (state S.Store tx.old.conn.now) (state S.Store tx.new.conn.now) }
    ensures inside { HasCleanDisk (state S.Store tx.new.conn.now) →
        OnOk result (IsTrue (state S.Store tx.new.conn.now).in_transaction) }
    ensures survives { Survives
        (state S.Store tx.old.conn.now) (state S.Store tx.new.conn.now) (λ _. ⊥) }
{
    run(tx, one.text())
}

// Makes the tables, one after the other.
fn make_tables<S: Alter>(tx: &mut Transaction<'_, S>) -> Result<(), Error>
    requires mode { HasCleanDisk (state S.Store tx.old.conn.now) →
        IsTrue (state S.Store tx.old.conn.now).in_transaction }
    ensures same_reference { tx.new.conn.ghost_name ≡ tx.old.conn.ghost_name }
    ensures made { HasCleanDisk (state S.Store tx.new.conn.now) →
        IsBlank (state S.Store tx.old.conn.now).now →
        OnOk result (IsEmptyUnder (schema_of all_tables) (state S.Store tx.new.conn.now).now) }
    ensures kept { HasCleanDisk (state S.Store tx.new.conn.now) → KeepsCommit
        (state S.Store tx.old.conn.now) (state S.Store tx.new.conn.now) }
    ensures inside { HasCleanDisk (state S.Store tx.new.conn.now) →
        OnOk result (IsTrue (state S.Store tx.new.conn.now).in_transaction) }
    ensures survives { Survives
        (state S.Store tx.old.conn.now) (state S.Store tx.new.conn.now) (λ _. ⊥) }
{
    for one in LabTable::ALL {
        make_table(tx, one)?;
    }
    Ok(())
}

// Makes the index after the tables.
fn make_index<S: Alter>(tx: &mut Transaction<'_, S>) -> Result<usize, Error>
    requires mode { HasCleanDisk (state S.Store tx.old.conn.now) →
        IsTrue (state S.Store tx.old.conn.now).in_transaction }
    ensures same_reference { tx.new.conn.ghost_name ≡ tx.old.conn.ghost_name }
    ensures made { HasCleanDisk (state S.Store tx.new.conn.now) →
        IsEmptyUnder (schema_of all_tables) (state S.Store tx.old.conn.now).now →
        OnOk result (IsEmptyUnder lab_schema (state S.Store tx.new.conn.now).now) }
    ensures kept { HasCleanDisk (state S.Store tx.new.conn.now) → KeepsCommit
        (state S.Store tx.old.conn.now) (state S.Store tx.new.conn.now) }
    ensures inside { HasCleanDisk (state S.Store tx.new.conn.now) →
        OnOk result (IsTrue (state S.Store tx.new.conn.now).in_transaction) }
    ensures survives { Survives
        (state S.Store tx.old.conn.now) (state S.Store tx.new.conn.now) (λ _. ⊥) }
{
    run(tx, texts::SESSIONS_OF_PERSON)
}

// Adds the row that names the schema.
fn name_schema<S: Alter>(tx: &mut Transaction<'_, S>) -> Result<usize, Error>
    requires mode { HasCleanDisk (state S.Store tx.old.conn.now) →
        IsTrue (state S.Store tx.old.conn.now).in_transaction }
    ensures same_reference { tx.new.conn.ghost_name ≡ tx.old.conn.ghost_name }
    ensures made { HasCleanDisk (state S.Store tx.new.conn.now) →
        IsEmptyUnder lab_schema (state S.Store tx.old.conn.now).now →
        OnOk result (IsNewFile (state S.Store tx.new.conn.now).now) }
    ensures kept { HasCleanDisk (state S.Store tx.new.conn.now) → KeepsCommit
        (state S.Store tx.old.conn.now) (state S.Store tx.new.conn.now) }
    ensures inside { HasCleanDisk (state S.Store tx.new.conn.now) →
        OnOk result (IsTrue (state S.Store tx.new.conn.now).in_transaction) }
    ensures survives { Survives
        (state S.Store tx.old.conn.now) (state S.Store tx.new.conn.now) (λ _. ⊥) }
{
    run(tx, texts::SCHEMA_ROW)
}

// Makes everything that a new file has. The row that names the schema comes last: a file without it
// is unfinished.
fn make_all<S: Alter>(tx: &mut Transaction<'_, S>) -> Result<(), Error>
    requires mode { HasCleanDisk (state S.Store tx.old.conn.now) →
        IsTrue (state S.Store tx.old.conn.now).in_transaction }
    ensures same_reference { tx.new.conn.ghost_name ≡ tx.old.conn.ghost_name }
    ensures made { HasCleanDisk (state S.Store tx.new.conn.now) →
        IsBlank (state S.Store tx.old.conn.now).now →
        OnOk result (IsNewFile (state S.Store tx.new.conn.now).now) }
    ensures kept { HasCleanDisk (state S.Store tx.new.conn.now) → KeepsCommit
        (state S.Store tx.old.conn.now) (state S.Store tx.new.conn.now) }
    ensures inside { HasCleanDisk (state S.Store tx.new.conn.now) →
        OnOk result (IsTrue (state S.Store tx.new.conn.now).in_transaction) }
    ensures survives { Survives
        (state S.Store tx.old.conn.now) (state S.Store tx.new.conn.now) (λ _. ⊥) }
{
    make_tables(tx)?;
    make_index(tx)?;
    name_schema(tx)?;
    Ok(())
}

// Makes the file in one transaction.
fn make_file<S: Alter>(conn: &mut Connection<S>) -> Result<(), Error>
    requires at_rest { IsAtRest (state S.Store conn.old) }
    ensures made { HasCleanDisk (state S.Store conn.new) → IsBlank (state S.Store conn.old).now →
        OnOk result (IsTrue (state S.Store conn.new).is_open
        × IsNewFile (state S.Store conn.new).now) }
    ensures rows { WhereShown (state S.Store conn.new)
        (OnErr result ((state S.Store conn.new).now ≡ (state S.Store conn.old).now)) }
    ensures ends { EndsNewFile (state S.Store conn.old) (state S.Store conn.new) }
{
    let mut tx = conn.transaction();
    make_all(&mut tx)?;
    tx.commit()?;
    Ok(())
}

/// Makes the tables of a new file and the row that names their schema, in one commit. Tables with
/// other names are unchanged.
///
/// # Errors
/// A table with such a name exists, the store failed, or memory ran out. The rows are then as
/// before.
pub fn create<S: Alter>(conn: &mut Connection<S>) -> Result<(), FileFault>
    requires at_rest { IsAtRest (state S.Store conn.old) }
    // In an empty file:
    ensures made { HasCleanDisk (state S.Store conn.new) → IsBlank (state S.Store conn.old).now →
        OnOk result (IsTrue (state S.Store conn.new).is_open
        × IsNewFile (state S.Store conn.new).now) }
    ensures ready { HasCleanDisk (state S.Store conn.new) → IsBlank (state S.Store conn.old).now →
        OnOk result (IsReady (state S.Store conn.new)) }
    ensures nobody { HasCleanDisk (state S.Store conn.new) →
        IsBlank (state S.Store conn.old).now → OnOk result
        ((code : List ℕ) → meaning (tables_of (state S.Store conn.new)) code ≡ None) }

    // In any file:
    ensures taken { IsTrue (spec.is_taken (state S.Store conn.old).now.schema) →
        result ≡ Err NotEmpty }
    ensures not_empty { result ≡ Err NotEmpty →
        IsTrue (spec.is_taken (state S.Store conn.old).now.schema) × (conn.new ≡ conn.old) }
    ensures fault { IfErr result
        (λ fault. (fault ≡ NotEmpty) ⊎ ((fault ≡ Storage) ⊎ (fault ≡ Memory))) }
    ensures rows { WhereShown (state S.Store conn.new)
        (OnErr result ((state S.Store conn.new).now ≡ (state S.Store conn.old).now)) }
    ensures ends { EndsNewFile (state S.Store conn.old) (state S.Store conn.new) }
{
    if is_taken(conn.schema()) {
        return Err(FileFault::NotEmpty);
    }
    make_file(conn)?;
    Ok(())
}
