//! Adds a laboratory that is founded, in one commit.

ghost use Rattle.std.specs.Prelude.{◌≡◌, Err, IsTrue};
ghost use Rattle.sqlite.specs.Held.{state};
ghost use Rattle.sqlite.specs.State.{HasCleanDisk};
ghost use Rattle.lab_records_keeper.specs.declared.faults.PlacingFault.TheVariants.{LabExists};
ghost use Rattle.lab_store_tables.specs.Ready.{IsAtRest, IsReady};
ghost use Rattle.lab_store.specs.Causes.{FoundingHasItsCause};
ghost use Rattle.lab_store.specs.Commits.{EndsStep};
ghost use Rattle.lab_store.specs.Founding.{IsPlacedBy, IsTaken};

use crate::places::{is_there, place};
use crate::tables::Tables;
use lab_records_keeper::PlacingFault;
use lab_records_kept::Newborn;
use lab_store_write_changes::{is_asked, laboratory};
use sqlite::Alter;
use std::alloc::Global;

/// Adds the newborn laboratory in one commit: its row, its founders in the order of their codes,
/// and the first row of its trail; all of them, or none.
///
/// # Errors
/// A laboratory with the code exists, the store failed, two founders have the same code (which the
/// store refuses), or memory ran out. The rows are then as before. A founder for whom a one-time
/// word was asked is refused too: nobody can have asked before the founding, so this never happens.
pub fn found<S: Alter>(
    alloc: Global,
    tables: &mut Tables<S>,
    newborn: Newborn,
) -> Result<(), PlacingFault>
    requires at_rest { IsAtRest (state S.Store tables.old.conn) }
    ensures at_rest { IsAtRest (state S.Store tables.new.conn) }
    ensures clean { HasCleanDisk (state S.Store tables.new.conn) →
        HasCleanDisk (state S.Store tables.old.conn) }
    ensures live { HasCleanDisk (state S.Store tables.new.conn) →
        IsTrue (state S.Store tables.new.conn).is_open →
        IsTrue (state S.Store tables.old.conn).is_open }
    ensures ends { IsReady (state S.Store tables.old.conn) → EndsStep (IsPlacedBy newborn) result
        (state S.Store tables.old.conn) (state S.Store tables.new.conn) }
    ensures exists { result ≡ Err LabExists → IsReady (state S.Store tables.old.conn) →
        IsTaken newborn.code (state S.Store tables.old.conn) (state S.Store tables.new.conn) }
    ensures cause { FoundingHasItsCause S.Store newborn tables.old.conn tables.new.conn result }
{
    if is_there(tables, &newborn.code)? {
        return Err(PlacingFault::LabExists);
    }
    if is_asked(&newborn) {
        return Err(PlacingFault::Storage);
    }
    let lab = laboratory(alloc, newborn)?;
    place(&mut tables.conn, &lab)
}
