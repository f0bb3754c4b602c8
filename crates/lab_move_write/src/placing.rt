//! A whole laboratory, placed by one commit.

ghost use Rattle.std.specs.Prelude.{◌≡◌, IfOk, IsTrue};
ghost use Rattle.sqlite.specs.Held.{state};
ghost use Rattle.sqlite.specs.State.{HasCleanDisk, KeepsCommit, Survives};
ghost use Rattle.lab_records_kept.specs.Bound.{IsBound};
ghost use Rattle.lab_records_kept.specs.Dual.{IsDual};
ghost use Rattle.lab_records_kept.specs.Limits.{IsWithin};
ghost use Rattle.lab_store_tables.specs.Ready.{IsAtRest, IsMadeBy};
ghost use Rattle.lab_store_read.specs.Cells.{storage};
ghost use Rattle.lab_store_write.specs.Private.Calls.{FailsFor};
ghost use Rattle.lab_store_write.specs.Calls.{Steps, WritesUnless};
ghost use Rattle.lab_store_write.specs.Causes.{IsTooGreat};
ghost use Rattle.lab_store_write.specs.Transactions.{EndsForCause};
ghost use Rattle.lab_store_write.specs.Private.Transactions.{TransactionEndsForCause};
ghost use Rattle.lab_move_write.specs.Commits.{MakesAtOnce};
ghost use Rattle.lab_move_write.specs.Placings.{PlacesByRules};
ghost use Rattle.lab_move_write.specs.Carrying.{Carries};

use crate::kinds::add_kinds;
use crate::progress::MoveProgress;
use lab_records_kept::Lab;
use lab_store_read::{ReadFault, read_fault};
use lab_store_write::Writable;
use lab_store_write::running::Inside;
use lab_store_write_changes::add_lab;
use sqlite::{Alter, Connection, Error, Transaction};

// Adds the laboratory's row, and then all that it has.
fn add_whole<W: Writable, P: MoveProgress>(
    tx: &mut W,
    lab: &Lab,
    progress: &mut P,
) -> Result<(), Error>
    ensures { WritesUnless (λ _. IsTooGreat lab.now.strays) W.lender W.state
        (PlacesByRules lab.now) tx.old tx.new result }
{
    let row = add_lab(tx, lab)?;
    add_kinds(tx, row, lab, progress)
}

// Adds it inside the transaction.
fn add_inside<S: Alter, P: MoveProgress>(
    tx: &mut Transaction<'_, S>,
    lab: &Lab,
    progress: &mut P,
) -> Result<(), Error>
    requires inside { IsTrue (state S.Store tx.old.conn.now).in_transaction }
    ensures same_reference { tx.new.conn.ghost_name ≡ tx.old.conn.ghost_name }
    ensures made { HasCleanDisk (state S.Store tx.new.conn.now) →
        IfOk result (λ _. Steps (PlacesByRules lab.now)
        (state S.Store tx.old.conn.now) (state S.Store tx.new.conn.now)) }
    ensures kept { HasCleanDisk (state S.Store tx.new.conn.now) → KeepsCommit
        (state S.Store tx.old.conn.now) (state S.Store tx.new.conn.now) }
    ensures survives { Survives
        (state S.Store tx.old.conn.now) (state S.Store tx.new.conn.now) (λ _. ⊥) }
    ensures failed { FailsFor (λ _. IsTooGreat lab.now.strays) (state S.Store)
        tx.old.conn.now tx.new.conn.now result }
{
    let mut inside = Inside { tx };
    let made = add_whole(&mut inside, lab, progress);
    let Inside { tx: _ } = inside;
    made
}

// Adds it in one transaction.
fn commit_whole<S: Alter, P: MoveProgress>(
    conn: &mut Connection<S>,
    lab: &Lab,
    progress: &mut P,
) -> Result<(), Error>
    requires at_rest { IsAtRest (state S.Store conn.old) }
    ensures ends { MakesAtOnce (IsMadeBy (PlacesByRules lab.now) (state S.Store conn.old)) result
        (state S.Store conn.old) (state S.Store conn.new) }
    ensures cause { TransactionEndsForCause S.Store (IsTooGreat lab.now.strays)
        conn.old conn.new result }
{
    let mut tx = conn.transaction();
    add_inside(&mut tx, lab, progress)?;
    tx.commit()
}

/// Places the laboratory by one commit: its row, and all that it has, each kind in its order. The progress is reported after
/// each record.
///
/// # Errors
/// The store refused, also where a laboratory of the code is there, or where somebody or a form is named that the
/// laboratory doesn't have; or memory ran out. The rows are then as before.
pub fn place_lab<S: Alter, P: MoveProgress>(
    conn: &mut Connection<S>,
    lab: &Lab,
    progress: &mut P,
) -> Result<(), ReadFault>
    requires at_rest { IsAtRest (state S.Store conn.old) }
    ensures ends { MakesAtOnce (IsMadeBy (PlacesByRules lab.now) (state S.Store conn.old)) result
        (state S.Store conn.old) (state S.Store conn.new) }
    // One that is within its limits, bound and under dual control means itself then:
    ensures placed { IsWithin lab.now → IsBound lab.now → IsDual lab.now →
        MakesAtOnce (Carries lab.now (state S.Store conn.old).now) result
        (state S.Store conn.old) (state S.Store conn.new) }
    // The store's refusal has its cause:
    ensures cause { EndsForCause S.Store (λ fault. fault ≡ storage) (IsTooGreat lab.now.strays)
        conn.old conn.new result }
{
    match commit_whole(conn, lab, progress) {
        Ok(()) => Ok(()),
        Err(error) => Err(read_fault(error)),
    }
}
