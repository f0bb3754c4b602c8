//! One column of a row, read as its type. The only fault of the store is a value of another type.

ghost use Rattle.std.specs.Prelude.{◌≡◌, Some, [], IfOk, IfErr, unwrap_or, slice_get};
ghost use Rattle.sqlite_value.specs.Order.{column, bytes};
ghost use Rattle.lab_forms_texts.specs.Moment.{is_moment};
ghost use Rattle.lab_store_tables.specs.Rows.{number, optional, number_in, optional_in};
ghost use Rattle.lab_store_read.specs.Cells.{is_number, is_small, is_digest, is_optional, stands, IsNotRead};
ghost use Rattle.lab_store_read_people.specs.PersonsReadable.{is_salt};

use lab_forms_texts::Moment;
use lab_store_read::cells::{cell_of, moment_of, small_if};
use lab_store_read::{BadStore, ReadFault};
use sqlite::Row;
use sqlite::types::ValueRef;

/// Returns the moment in a column, or `None` for NULL.
///
/// # Errors
/// The column holds neither NULL nor a moment.
pub fn moment_if(row: &Row, at: usize) -> Result<Option<Moment>, ReadFault>
    ensures value { IfOk result (λ moment. moment ≡ optional_in number_in (column row.now at)) }
    ensures shown { IfOk result (λ moment. slice_get row.now at ≡ Some (optional number moment)) }
    ensures fault { IfErr result
        (IsNotRead (stands (is_optional (is_number is_moment)) row.now at)) }
{
    match cell_of(row, at)? {
        ValueRef::Null => Ok(None),
        ValueRef::Int(_) => Ok(Some(moment_of(row, at)?)),
        _ => Err(ReadFault::Refused(BadStore)),
    }
}

/// Returns the moment in a column that this row must fill.
///
/// # Errors
/// The column holds no moment.
pub fn moment_due(row: &Row, at: usize) -> Result<Moment, ReadFault>
    ensures value { IfOk result
        (λ moment. moment ≡ unwrap_or (optional_in number_in (column row.now at)) 0) }
    ensures fault { IfErr result (IsNotRead (stands (is_number is_moment) row.now at)) }
{
    match moment_if(row, at)? {
        Some(moment) => Ok(moment),
        None => Err(ReadFault::Refused(BadStore)),
    }
}

/// Returns the number in a column that this row must fill.
///
/// # Errors
/// The column holds no number of at most 32 bits.
pub fn small_due(row: &Row, at: usize) -> Result<u32, ReadFault>
    ensures value { IfOk result
        (λ count. count ≡ unwrap_or (optional_in number_in (column row.now at)) 0) }
    ensures shown { IfOk result (λ count. slice_get row.now at ≡ Some (number count)) }
    ensures fault { IfErr result (IsNotRead (stands (is_number is_small) row.now at)) }
{
    match small_if(row, at)? {
        Some(count) => Ok(count),
        None => Err(ReadFault::Refused(BadStore)),
    }
}

/// Returns the salt in a column that this row must fill.
///
/// # Errors
/// The column doesn't hold 16 bytes.
pub fn salt_due(row: &Row, at: usize) -> Result<[u8; 16], ReadFault>
    ensures value { IfOk result
        (λ salt. salt ≡ unwrap_or (optional_in bytes (column row.now at)) []) }
    ensures fault { IfErr result (IsNotRead (stands is_salt row.now at)) }
{
    match cell_of(row, at)? {
        ValueRef::Blob(blob) => match <[u8; 16]>::try_from(blob) {
            Ok(salt) => Ok(salt),
            Err(_) => Err(ReadFault::Refused(BadStore)),
        },
        _ => Err(ReadFault::Refused(BadStore)),
    }
}

/// Returns the 32 bytes in a column that this row must fill.
///
/// # Errors
/// The column doesn't hold 32 bytes.
pub fn bytes_due(row: &Row, at: usize) -> Result<[u8; 32], ReadFault>
    ensures value { IfOk result
        (λ made. made ≡ unwrap_or (optional_in bytes (column row.now at)) []) }
    ensures fault { IfErr result (IsNotRead (stands is_digest row.now at)) }
{
    match cell_of(row, at)? {
        ValueRef::Blob(blob) => match <[u8; 32]>::try_from(blob) {
            Ok(made) => Ok(made),
            Err(_) => Err(ReadFault::Refused(BadStore)),
        },
        _ => Err(ReadFault::Refused(BadStore)),
    }
}
