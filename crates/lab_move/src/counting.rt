//! Whether an old file has as many rows in each table as the new one: if it has more, something was left behind.

ghost use Rattle.std.specs.Prelude.{◌≡◌, ◌⊎◌, [], Some, IfOk, IfErr, OnOk, OnErr, IsFalse, IsTrue};
ghost use Rattle.sqlite_value.specs.declared.value.Value.TheVariants.{Int};
ghost use Rattle.sqlite.specs.Held.{state};
ghost use Rattle.sqlite.specs.State.{HasCleanDisk};
ghost use Rattle.lab_store_tables.specs.Held.{IsTyped};
ghost use Rattle.lab_store_tables.specs.Ready.{tables_of};
ghost use Rattle.lab_store_read.specs.Reads.{AsksQuery};
ghost use Rattle.lab_store_read.specs.Cells.{storage};
ghost use Rattle.lab_store_files.specs.declared.faults.FileFault.TheVariants.{Storage};
ghost use Rattle.lab_store_write.specs.Transactions.{HasOurTables};
ghost use Rattle.lab_move_tables.specs.Reading.{ReadsOld};
ghost use Rattle.lab_store_read.specs.Causes.{IsCaused};
ghost use Rattle.lab_move.specs.Causes.{CountsDiffer, FailsToMatch};
ghost use Rattle.lab_move.specs.Counting.{AreAlike, AreCounts, HasAsMany, cell, counts_text};
ghost use Rattle.lab_move.specs.Private.Counting.{ShowsNumber, LacksNumber};
ghost use Rattle.lab_move.specs.Private.Faults.{IsOfStore};

use crate::faults::store_fault;
use lab_store_files::FileFault;
use lab_store_read::cells::id_of;
use lab_store_read::{BadStore, ReadFault, Readable, read_fault};
use sqlite::{Alter, Connection, Row};

/// How many rows each table has, but for `desk`.
const QUESTION: &str =
    "SELECT (SELECT count(*) FROM labs), (SELECT count(*) FROM persons), (SELECT count(*) FROM sessions), (SELECT count(*) FROM forms), (SELECT count(*) FROM fields), (SELECT count(*) FROM choices), (SELECT count(*) FROM records), (SELECT count(*) FROM versions), (SELECT count(*) FROM entries), (SELECT count(*) FROM signatures), (SELECT count(*) FROM trail)";

/// How many tables are counted.
const TABLES: usize = 11;

// What the question shows of an old file.
fn old_rows<D: Readable>(old: &mut D) -> Result<Vec<Row>, ReadFault>
    ensures { AsksQuery counts_text [] (D.state old.old) (D.state old.new) result }
{
    old.query_all(QUESTION, &[])
}

// What it shows of a new one.
fn new_rows<T: Alter>(new: &mut Connection<T>) -> Result<Vec<Row>, ReadFault>
    ensures { AsksQuery counts_text [] (state T.Store new.old) (state T.Store new.new) result }
{
    match new.query_all(QUESTION, &[]) {
        Ok(rows) => Ok(rows),
        Err(error) => Err(read_fault(error)),
    }
}

// The number at a place of the first row.
fn number_at(rows: &[Row], at: usize) -> Result<i64, ReadFault>
    ensures number { IfOk result (λ many. cell rows.now at ≡ Some (Int many)) }
    ensures fault { IfErr result (λ _. ¬ ShowsNumber rows.now at) }
{
    match rows.first() {
        Some(row) => id_of(row, at),
        None => Err(ReadFault::Refused(BadStore)),
    }
}

// Whether both show the same number for each table.
fn are_alike(rows: &[Row], others: &[Row]) -> Result<bool, ReadFault>
    ensures alike { IfOk result (λ yes. IsTrue yes → AreAlike rows.now others.now) }
    ensures unlike { IfOk result (λ yes. IsFalse yes → ¬ AreAlike rows.now others.now) }
    ensures fault { IfErr result (λ _. LacksNumber rows.now ⊎ LacksNumber others.now) }
{
    for at in 0..TABLES {
        let there = number_at(rows, at)?;
        let wanted = number_at(others, at)?;
        if there != wanted {
            return Ok(false);
        }
    }
    Ok(true)
}

// Whether the new file's tables have so many rows.
fn has_so_many<T: Alter>(new: &mut Connection<T>, rows: &[Row]) -> Result<bool, ReadFault>
    ensures reads { ReadsOld (λ _ _. Unit {0})
        (state T.Store new.old) (state T.Store new.new) result }
    ensures counted { HasCleanDisk (state T.Store new.new) → IsTyped (state T.Store new.old).now →
        IfOk result (λ yes. IsTrue yes → AreCounts rows.now (tables_of (state T.Store new.old))) }
    ensures unlike { HasCleanDisk (state T.Store new.new) → HasOurTables (state T.Store new.old) →
        IfOk result (λ yes. IsFalse yes → ¬ AreCounts rows.now (tables_of (state T.Store new.old))) }
    ensures cause { HasCleanDisk (state T.Store new.new) → HasOurTables (state T.Store new.old) →
        IfErr result (λ fault. fault ≡ storage →
        IsCaused (state T.Store new.old) (state T.Store new.new)
        ⊎ (¬ AreCounts rows.now (tables_of (state T.Store new.old)))) }
{
    let others = new_rows(new)?;
    are_alike(rows, &others)
}

// Whether each table has as many rows in both files.
fn has_as_many<D: Readable, T: Alter>(
    old: &mut D,
    new: &mut Connection<T>,
) -> Result<bool, ReadFault>
    ensures reads { ReadsOld (λ _ _. Unit {0}) (D.state old.old) (D.state old.new) result }
    ensures passes { ReadsOld (λ _ _. Unit {0})
        (state T.Store new.old) (state T.Store new.new) result }
    ensures counted { HasCleanDisk (D.state old.new) → HasCleanDisk (state T.Store new.new) →
        IsTyped (state T.Store new.old).now → IfOk result (λ yes. IsTrue yes →
        HasAsMany (D.state old.old).now (tables_of (state T.Store new.old))) }
    ensures unlike { HasCleanDisk (D.state old.new) → HasCleanDisk (state T.Store new.new) →
        HasOurTables (state T.Store new.old) → IfOk result (λ yes. IsFalse yes →
        CountsDiffer T.Store (D.state old.old) (D.state old.new) new.old) }
    ensures cause { HasCleanDisk (D.state old.new) → HasCleanDisk (state T.Store new.new) →
        HasOurTables (state T.Store new.old) → IfErr result (λ fault. fault ≡ storage →
        FailsToMatch T.Store (D.state old.old) (D.state old.new) new.old new.new) }
{
    let rows = old_rows(old)?;
    has_so_many(new, &rows)
}

// What is answered where the numbers differ: no laboratory can be named.
fn all_or_storage(all: bool) -> Result<(), FileFault>
    ensures all { OnOk result (IsTrue all) }
    ensures unlike { OnErr result (IsFalse all) }
    ensures fault { IfErr result IsOfStore }
{
    if all { Ok(()) } else { Err(FileFault::Storage) }
}

/// Compares how many rows each table has in the old file and in the new one. Nothing is written.
///
/// # Errors
/// The numbers differ, the store of either file refused, or memory ran out.
pub(crate) fn compare_counts<D: Readable, T: Alter>(
    old: &mut D,
    new: &mut Connection<T>,
) -> Result<(), FileFault>
    ensures reads { ReadsOld (λ _ _. Unit {0}) (D.state old.old) (D.state old.new) result }
    ensures passes { ReadsOld (λ _ _. Unit {0})
        (state T.Store new.old) (state T.Store new.new) result }
    ensures counted { HasCleanDisk (D.state old.new) → HasCleanDisk (state T.Store new.new) →
        IsTyped (state T.Store new.old).now → OnOk result
        (HasAsMany (D.state old.old).now (tables_of (state T.Store new.old))) }
    ensures fault { IfErr result IsOfStore }
    ensures cause { HasCleanDisk (D.state old.new) → HasCleanDisk (state T.Store new.new) →
        HasOurTables (state T.Store new.old) → IfErr result (λ fault. fault ≡ Storage →
        FailsToMatch T.Store (D.state old.old) (D.state old.new) new.old new.new) }
{
    match has_as_many(old, new) {
        Ok(all) => all_or_storage(all),
        Err(fault) => Err(store_fault(fault)),
    }
}
