//! Whether rows that were shown in order are numbered from 1 on, and belong to one laboratory.

ghost use Rattle.std.specs.Prelude.{◌≡◌, All, IfErr, IfOk};
ghost use Rattle.lab_store_read.specs.Cells.{storage};
ghost use Rattle.lab_move_tables.specs.Checks.{are_rows_numbered, are_owned, HasId, HasNumber};

use lab_store_read::ReadFault;
use lab_store_read::cells::{id_of, small_of};
use sqlite::Row;

/// Whether the numbers in the column run from 1 on without gaps.
///
/// # Errors
/// A row isn't one that is written, or memory ran out.
pub fn are_rows_numbered(rows: &[Row], at: usize) -> Result<bool, ReadFault>
    ensures value { IfOk result (λ yes. yes ≡ are_rows_numbered at rows.now) }
    ensures fault { IfErr result (λ fault. fault ≡ storage → ¬ All (HasNumber at) rows.now) }
{
    let mut next = 1u64;
    for row in rows {
        if u64::from(small_of(row, at)?) != next {
            return Ok(false);
        }
        next = next.saturating_add(1);
    }
    Ok(true)
}

/// Whether each row has the laboratory in the column.
///
/// # Errors
/// A row isn't one that is written, or memory ran out.
pub fn are_owned(rows: &[Row], at: usize, lab: i64) -> Result<bool, ReadFault>
    ensures value { IfOk result (λ yes. yes ≡ are_owned at lab rows.now) }
    ensures fault { IfErr result (λ fault. fault ≡ storage → ¬ All (HasId at) rows.now) }
{
    for row in rows {
        if id_of(row, at)? != lab {
            return Ok(false);
        }
    }
    Ok(true)
}
