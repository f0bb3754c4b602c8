//! One column of a row, as the type that stands in it. A value of another type is a fault of the store.

ghost use Rattle.std.specs.Prelude.{◌≡◌, All, IfErr, IfOk};
ghost use Rattle.sqlite_value.specs.Order.{column};
ghost use Rattle.lab_store_tables.specs.Rows.{number_in, flag_in};
ghost use Rattle.lab_store_tables.specs.Columns.{roles_in};
ghost use Rattle.lab_store_read.specs.Cells.{storage};
ghost use Rattle.lab_move_tables.specs.Checks.{HasNumber};
ghost use Rattle.lab_move_tables.specs.OldRows.{reason_in};
ghost use Rattle.lab_move_read_people.specs.Cells.{is_null};
ghost use Rattle.lab_move_read_people.specs.Kept.{are_counted};
ghost use Rattle.lab_move_read_people.specs.Readable.{HasCell, HasFlag, HasReason, HasRoles};

use lab_forms_texts::Note;
use lab_move_tables::are_rows_numbered;
use lab_people_access::Roles;
use lab_store_read::cells::{cell_of, small_of, text_of};
use lab_store_read::{BadStore, ReadFault};
use lab_store_read_people::roles_of as roles_of_sum;
use sqlite::Row;
use sqlite::types::ValueRef;
use std::alloc::Global;

/// Yes or no, which stand as 1 and 0 alone.
///
/// # Errors
/// The store refused, a row isn't one that is written, or memory ran out.
pub fn flag_of(row: &Row, at: usize) -> Result<bool, ReadFault>
    ensures value { IfOk result (λ flag. flag ≡ flag_in (column row.now at)) }
    ensures fault { IfErr result (λ fault. fault ≡ storage → ¬ HasFlag at row.now) }
{
    match small_of(row, at)? {
        0 => Ok(false),
        1 => Ok(true),
        _ => Err(ReadFault::Refused(BadStore)),
    }
}

/// The roles whose sum stands in a column; no sum is above 31.
///
/// # Errors
/// The store refused, a row isn't one that is written, or memory ran out.
pub fn roles_of(row: &Row, at: usize) -> Result<Roles, ReadFault>
    ensures value { IfOk result (λ roles. roles ≡ roles_in (number_in (column row.now at))) }
    ensures fault { IfErr result (λ fault. fault ≡ storage → ¬ HasRoles at row.now) }
{
    let sum = small_of(row, at)?;
    if sum > 31 {
        return Err(ReadFault::Refused(BadStore));
    }
    Ok(roles_of_sum(sum))
}

/// Whether nothing stands in the column.
///
/// # Errors
/// The store refused, or memory ran out.
pub fn is_null(row: &Row, at: usize) -> Result<bool, ReadFault>
    ensures value { IfOk result (λ empty. empty ≡ is_null (column row.now at)) }
    ensures fault { IfErr result (λ fault. fault ≡ storage → ¬ HasCell at row.now) }
{
    match cell_of(row, at)? {
        ValueRef::Null => Ok(true),
        ValueRef::Int(_) | ValueRef::Real(_) | ValueRef::Text(_) | ValueRef::Blob(_) => Ok(false),
    }
}

/// A reason, or none, which stands as NULL or as an empty text.
///
/// # Errors
/// The store refused, a row isn't one that is written, or memory ran out.
pub fn reason_of(alloc: Global, row: &Row, at: usize) -> Result<Option<Note>, ReadFault>
    ensures value { IfOk result (λ reason. reason ≡ reason_in (column row.now at)) }
    ensures fault { IfErr result (λ fault. fault ≡ storage → ¬ HasReason at row.now) }
{
    match cell_of(row, at)? {
        ValueRef::Null | ValueRef::Text([]) => Ok(None),
        ValueRef::Text(_) => Ok(Some(text_of(alloc, row, at)?)),
        _ => Err(ReadFault::Refused(BadStore)),
    }
}

/// Whether there is this number of rows, and the numbers in the column run from 1 on.
///
/// # Errors
/// A row isn't one that is written, or memory ran out.
pub fn are_counted(rows: &[Row], at: usize, count: u64) -> Result<bool, ReadFault>
    ensures value { IfOk result (λ yes. yes ≡ are_counted at count rows.now) }
    ensures fault { IfErr result (λ fault. fault ≡ storage → ¬ All (HasNumber at) rows.now) }
{
    if rows.len() as u64 != count {
        return Ok(false);
    }
    are_rows_numbered(rows, at)
}
