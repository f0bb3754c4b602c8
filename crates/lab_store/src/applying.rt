//! Makes all changes of a request in one commit.

ghost use Rattle.std.specs.Prelude.{◌≡◌, [], IsTrue, OnOk};
ghost use Rattle.sqlite.specs.Held.{state};
ghost use Rattle.sqlite.specs.Effect.{IsDatabase};
ghost use Rattle.sqlite.specs.State.{HasCleanDisk, IsUnchanged, KeepsCommit, Survives};
ghost use Rattle.lab_store_tables.specs.Changes.{InTurn};
ghost use Rattle.lab_store_tables.specs.Ready.{IsAtRest, IsReady, LeavesNoMore};
ghost use Rattle.lab_store_tables.specs.Steps.{StepsBy, AreMadeIfAny};
ghost use Rattle.lab_store_write.specs.Calls.{FailsForTrying, Steps};
ghost use Rattle.lab_store_write_changes.specs.Causes.{OneIsTooMuch};
ghost use Rattle.lab_store_write_changes.specs.Tried.{TriesAll};
ghost use Rattle.lab_store.specs.Causes.{ChangesHaveTheirCause};
ghost use Rattle.lab_store.specs.Private.Causes.{TransactionHasItsCauseTrying};
ghost use Rattle.lab_store.specs.Commits.{EndsStep};
ghost use Rattle.lab_store.specs.Counting.{IsKeeping};

use crate::tables::Tables;
use lab_forms_texts::LabCode;
use lab_records_kept::Change;
use lab_store_load::{Counted, lab_id_at};
use lab_store_read::{BadStore, ReadFault, read_fault};
use lab_store_write::RowId;
use lab_store_write::running::Inside;
use lab_store_write_changes::all_inside;
use sqlite::{Alter, Connection, Error, Transaction};
use std::alloc::Global;

// Makes the changes, one after the other, inside the transaction.
fn make_inside<S: Alter>(
    tx: &mut Transaction<'_, S>,
    lab: RowId,
    changes: &[Change],
) -> Result<(), Error>
    requires inside { IsTrue (state S.Store tx.old.conn.now).in_transaction }
    ensures same_reference { tx.new.conn.ghost_name ≡ tx.old.conn.ghost_name }
    ensures inside { HasCleanDisk (state S.Store tx.new.conn.now) →
        OnOk result (IsTrue (state S.Store tx.new.conn.now).in_transaction) }
    // In a database that keeps its own rules:
    ensures made { HasCleanDisk (state S.Store tx.new.conn.now) →
        OnOk result (IsDatabase (state S.Store tx.old.conn.now).now →
        Steps (InTurn (StepsBy lab.id) changes.now)
        (state S.Store tx.old.conn.now) (state S.Store tx.new.conn.now)) }
    ensures kept { HasCleanDisk (state S.Store tx.new.conn.now) → KeepsCommit
        (state S.Store tx.old.conn.now) (state S.Store tx.new.conn.now) }
    ensures survives { Survives
        (state S.Store tx.old.conn.now) (state S.Store tx.new.conn.now) (λ _. ⊥) }
    ensures failed { IsDatabase (state S.Store tx.old.conn.now).now →
        FailsForTrying (λ _. OneIsTooMuch changes.now) (TriesAll lab.id changes.now)
        (state S.Store) tx.old.conn.now tx.new.conn.now result }
{
    let mut inside = Inside { tx };
    let made = all_inside(&mut inside, lab, changes);
    let Inside { tx: _ } = inside;
    made
}

// Makes the changes of the laboratory whose row has the id, in one transaction.
fn commit_all<S: Alter>(
    conn: &mut Connection<S>,
    lab: RowId,
    changes: &[Change],
) -> Result<(), Error>
    requires at_rest { IsAtRest (state S.Store conn.old) }
    ensures ends { EndsStep (InTurn (StepsBy lab.id) changes.now) result
        (state S.Store conn.old) (state S.Store conn.new) }
    ensures cause { TransactionHasItsCauseTrying (TriesAll lab.id changes.now) S.Store
        (OneIsTooMuch changes.now) conn.old conn.new result }
{
    let _rules = conn.schema();
    let mut tx = conn.transaction();
    make_inside(&mut tx, lab, changes)?;
    tx.commit()
}

/// Makes the changes of the laboratory with the code in one commit, all of them or none. If there
/// are no changes, nothing is committed. The laboratory's row isn't looked up if it is the one that
/// was counted.
///
/// # Errors
/// No laboratory has the code, a change names something that doesn't exist, the store failed, or
/// memory ran out. The rows are then as before.
pub fn apply<S: Alter>(
    alloc: Global,
    tables: &mut Tables<S>,
    counted: &Option<Counted>,
    code: &LabCode,
    changes: &[Change],
) -> Result<(), ReadFault>
    requires keeping { IsKeeping (state S.Store tables.old.conn) counted.now }
    ensures at_rest { IsAtRest (state S.Store tables.new.conn) }
    ensures clean { HasCleanDisk (state S.Store tables.new.conn) →
        HasCleanDisk (state S.Store tables.old.conn) }
    ensures live { HasCleanDisk (state S.Store tables.new.conn) →
        IsTrue (state S.Store tables.new.conn).is_open →
        IsTrue (state S.Store tables.old.conn).is_open }
    ensures ends { IsReady (state S.Store tables.old.conn) →
        EndsStep (AreMadeIfAny code.now changes.now) result
        (state S.Store tables.old.conn) (state S.Store tables.new.conn) }
    ensures quiet { changes.now ≡ [] → IsReady (state S.Store tables.old.conn) →
        LeavesNoMore (state S.Store tables.old.conn) (state S.Store tables.new.conn) }
    ensures same { changes.now ≡ [] → HasCleanDisk (state S.Store tables.new.conn) →
        OnOk result (IsUnchanged (state S.Store tables.old.conn) (state S.Store tables.new.conn)) }
    ensures cause { ChangesHaveTheirCause S.Store code.now changes.now
        tables.old.conn tables.new.conn result }
{
    let found = lab_id_at(alloc, tables, counted, code)?;
    if changes.is_empty() {
        return Ok(());
    }
    let Some(id) = found else {
        return Err(ReadFault::Refused(BadStore));
    };
    match commit_all(&mut tables.conn, RowId { id }, changes) {
        Ok(()) => Ok(()),
        Err(error) => Err(read_fault(error)),
    }
}
