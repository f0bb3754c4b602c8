//! A file into which laboratories were carried is finished: its schema is named.

ghost use Rattle.std.specs.Prelude.{◌≡◌, [], IfOk, IsFalse, IsTrue};
ghost use Rattle.sqlite.specs.Held.{state};
ghost use Rattle.sqlite.specs.State.{ExecutesInside, HasCleanDisk, KeepsCommit, Survives};
ghost use Rattle.lab_store_tables.specs.Ready.{IsAtRest, IsMadeBy};
ghost use Rattle.lab_store_read.specs.Cells.{storage};
ghost use Rattle.lab_store_read.specs.Faults.{is_out_of_memory};
ghost use Rattle.lab_store_write.specs.Calls.{Steps};
ghost use Rattle.lab_store_write.specs.Private.Calls.{Writes};
ghost use Rattle.lab_move_write.specs.Causes.{NamingEndsForCause};
ghost use Rattle.lab_move_write.specs.Commits.{MakesAtOnce};
ghost use Rattle.lab_move_write.specs.Unfinished.{Finishes};
ghost use Rattle.lab_move_write.specs.Namings.{NamesSchema, naming_text};

use lab_store_read::{ReadFault, read_fault};
use lab_store_write::Writable;
use lab_store_write::running::Inside;
use lab_store_write::statements::run;
use sqlite::{Alter, Connection, Error, Transaction};

// Adds the row that names the schema.
fn name_schema<W: Writable>(tx: &mut W) -> Result<usize, Error>
    ensures writes { Writes W.lender W.state NamesSchema tx.old tx.new result }
    ensures ran { IsTrue (W.state tx.old).in_transaction → HasCleanDisk (W.state tx.new) →
        ExecutesInside 0 naming_text [] (W.state tx.old) (W.state tx.new) result }
{
    run(tx, "INSERT INTO desk (schema) VALUES (3)", &[])
}

// Adds it inside the transaction.
fn name_inside<S: Alter>(tx: &mut Transaction<'_, S>) -> Result<usize, Error>
    requires inside { IsTrue (state S.Store tx.old.conn.now).in_transaction }
    ensures same_reference { tx.new.conn.ghost_name ≡ tx.old.conn.ghost_name }
    ensures made { HasCleanDisk (state S.Store tx.new.conn.now) →
        IfOk result (λ _. Steps NamesSchema
        (state S.Store tx.old.conn.now) (state S.Store tx.new.conn.now)) }
    ensures kept { HasCleanDisk (state S.Store tx.new.conn.now) → KeepsCommit
        (state S.Store tx.old.conn.now) (state S.Store tx.new.conn.now) }
    ensures survives { Survives
        (state S.Store tx.old.conn.now) (state S.Store tx.new.conn.now) (λ _. ⊥) }
    ensures ran { HasCleanDisk (state S.Store tx.new.conn.now) → ExecutesInside 0 naming_text []
        (state S.Store tx.old.conn.now) (state S.Store tx.new.conn.now) result }
{
    let mut inside = Inside { tx };
    let made = name_schema(&mut inside);
    let Inside { tx: _ } = inside;
    made
}

// Adds it in one transaction.
fn commit_name<S: Alter>(conn: &mut Connection<S>) -> Result<(), Error>
    requires at_rest { IsAtRest (state S.Store conn.old) }
    ensures ends { MakesAtOnce (IsMadeBy NamesSchema (state S.Store conn.old)) result
        (state S.Store conn.old) (state S.Store conn.new) }
    ensures cause { NamingEndsForCause S.Store (λ e. IsFalse (is_out_of_memory e))
        conn.old conn.new result }
{
    let mut tx = conn.transaction();
    name_inside(&mut tx)?;
    tx.commit()
}

/// Names the schema of a file into which laboratories were carried, by one commit: from then on `open` of `lab_store_files`
/// takes the file.
///
/// # Errors
/// The store refused, or memory ran out. The rows are then as before.
pub fn finish<S: Alter>(conn: &mut Connection<S>) -> Result<(), ReadFault>
    requires at_rest { IsAtRest (state S.Store conn.old) }
    ensures ends { MakesAtOnce (IsMadeBy NamesSchema (state S.Store conn.old)) result
        (state S.Store conn.old) (state S.Store conn.new) }
    ensures finished { MakesAtOnce (Finishes (state S.Store conn.old).now) result
        (state S.Store conn.old) (state S.Store conn.new) }
    // The store's refusal has its cause:
    ensures cause { NamingEndsForCause S.Store (λ fault. fault ≡ storage) conn.old conn.new result }
{
    match commit_name(conn) {
        Ok(()) => Ok(()),
        Err(error) => Err(read_fault(error)),
    }
}
