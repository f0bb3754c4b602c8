//! The tables of a file that is to be filled, by one commit; its schema is named once it is.

ghost use Rattle.std.specs.Prelude.{◌≡◌, ◌⊎◌, ℕ, ◌+◌, ◌<◌, List, length, map, take, get_or, Err, IfErr, OnOk, IsFalse, IsTrue};
ghost use Rattle.sqlite_schema.specs.declared.schema.Table.{Table};
ghost use Rattle.sqlite.specs.Held.{state};
ghost use Rattle.sqlite.specs.State.{HasCleanDisk, KeepsCommit, Survives};
ghost use Rattle.lab_store_tables.specs.Ready.{IsAtRest};
ghost use Rattle.lab_store_files.specs.declared.faults.FileFault.TheVariants.{NotEmpty, Storage, Memory};
ghost use Rattle.lab_store_files.specs.NewFiles.{IsEmptyUnder, IsBlank};
ghost use Rattle.lab_store_files.specs.Schemas as spec;
ghost use Rattle.lab_store_read.specs.Faults.{is_out_of_memory};
ghost use Rattle.lab_move_write.specs.Private.Causes.{FailsMaking};
ghost use Rattle.lab_move_write.specs.Causes.{MakingEndsForCause};
ghost use Rattle.lab_move_write.specs.Commits.{MakesAtOnce};
ghost use Rattle.lab_move_write.specs.Tables.{own_tables, schema_of};
ghost use Rattle.lab_move_write.specs.Unfinished.{IsUnfinished, Begins};
ghost use Rattle.lab_move_write.specs.Private.Unfinished.{Makes};

use crate::schemas::is_taken;
use crate::texts;
use lab_store_files::FileFault;
use lab_store_write::Writable;
use lab_store_write::running::Inside;
use lab_store_write::statements::run;
use sqlite::{Alter, Connection, Error, Transaction};

// Makes the table whose statement it is, behind those that stand before it.
fn make_table<W: Writable>(tx: &mut W, text: &str) -> Result<usize, Error>
    ensures { (i : ℕ) (d : Table × List ℕ) → i < length own_tables →
        text.now ≡ (get_or own_tables i d).1 → Makes W.lender W.state
        (IsEmptyUnder (schema_of (take i own_tables)))
        (IsEmptyUnder (schema_of (take (i + 1) own_tables))) tx.old tx.new result }
{
    run(tx, text, &[])
}

// Makes the tables whose statements they are, one after the other.
fn make_each<W: Writable>(tx: &mut W, texts: &[&str]) -> Result<(), Error>
    ensures { map (λ text. text.now) texts.now ≡ map (λ one. one.1) own_tables →
        Makes W.lender W.state IsBlank (IsEmptyUnder (schema_of own_tables))
        tx.old tx.new result }
{
    for text in texts {
        make_table(tx, text)?;
    }
    Ok(())
}

// Makes the index behind the tables.
fn make_index<W: Writable>(tx: &mut W) -> Result<usize, Error>
    ensures { Makes W.lender W.state (IsEmptyUnder (schema_of own_tables)) IsUnfinished
        tx.old tx.new result }
{
    run(tx, texts::SESSIONS_OF_PERSON, &[])
}

// Makes all that the file has before it is filled.
fn make_all<W: Writable>(tx: &mut W) -> Result<usize, Error>
    ensures { Makes W.lender W.state IsBlank IsUnfinished tx.old tx.new result }
{
    make_each(tx, texts::TABLES.as_slice())?;
    make_index(tx)
}

// Makes it inside the transaction.
fn make_inside<S: Alter>(tx: &mut Transaction<'_, S>) -> Result<usize, Error>
    requires inside { IsTrue (state S.Store tx.old.conn.now).in_transaction }
    ensures same_reference { tx.new.conn.ghost_name ≡ tx.old.conn.ghost_name }
    ensures inside { HasCleanDisk (state S.Store tx.new.conn.now) →
        OnOk result (IsTrue (state S.Store tx.new.conn.now).in_transaction) }
    ensures made { HasCleanDisk (state S.Store tx.new.conn.now) →
        OnOk result (IsBlank (state S.Store tx.old.conn.now).now →
        IsUnfinished (state S.Store tx.new.conn.now).now) }
    ensures kept { HasCleanDisk (state S.Store tx.new.conn.now) → KeepsCommit
        (state S.Store tx.old.conn.now) (state S.Store tx.new.conn.now) }
    ensures survives { Survives
        (state S.Store tx.old.conn.now) (state S.Store tx.new.conn.now) (λ _. ⊥) }
    ensures failed { HasCleanDisk (state S.Store tx.new.conn.now) →
        IfErr result (FailsMaking IsBlank (state S.Store) tx.old.conn.now tx.new.conn.now) }
{
    let mut inside = Inside { tx };
    let made = make_all(&mut inside);
    let Inside { tx: _ } = inside;
    made
}

// Makes it in one transaction.
fn commit_tables<S: Alter>(conn: &mut Connection<S>) -> Result<(), Error>
    requires at_rest { IsAtRest (state S.Store conn.old) }
    ensures ends { MakesAtOnce (λ db. IsBlank (state S.Store conn.old).now → IsUnfinished db) result
        (state S.Store conn.old) (state S.Store conn.new) }
    ensures cause { MakingEndsForCause S.Store (λ e. IsFalse (is_out_of_memory e))
        conn.old conn.new result }
{
    let mut tx = conn.transaction();
    make_inside(&mut tx)?;
    tx.commit()
}

/// Makes the tables of a new file, by one commit, without the row that names their schema: until that row is added, `open`
/// of `lab_store_files` takes the file for none in which laboratories are kept. Tables of other names stay as they are.
///
/// # Errors
/// A table of such a name is there, a refusal of the store, or out of memory. The rows are then as before.
pub fn make_tables<S: Alter>(conn: &mut Connection<S>) -> Result<(), FileFault>
    requires at_rest { IsAtRest (state S.Store conn.old) }
    // However it ends, in an empty file all of it is made or nothing:
    ensures ends { MakesAtOnce (λ db. IsBlank (state S.Store conn.old).now → IsUnfinished db) result
        (state S.Store conn.old) (state S.Store conn.new) }
    ensures begun { MakesAtOnce (Begins (state S.Store conn.old).now) result
        (state S.Store conn.old) (state S.Store conn.new) }

    // In any file:
    ensures taken { IsTrue (spec.is_taken (state S.Store conn.old).now.schema) →
        result ≡ Err NotEmpty }
    ensures not_empty { result ≡ Err NotEmpty →
        IsTrue (spec.is_taken (state S.Store conn.old).now.schema) × (conn.new ≡ conn.old) }
    ensures fault { IfErr result
        (λ fault. (fault ≡ NotEmpty) ⊎ ((fault ≡ Storage) ⊎ (fault ≡ Memory))) }
    // The store's refusal has its cause:
    ensures cause { MakingEndsForCause S.Store (λ fault. fault ≡ Storage) conn.old conn.new result }
{
    if is_taken(conn.schema()) {
        return Err(FileFault::NotEmpty);
    }
    match commit_tables(conn) {
        Ok(()) => Ok(()),
        Err(error) => Err(FileFault::from(error)),
    }
}
