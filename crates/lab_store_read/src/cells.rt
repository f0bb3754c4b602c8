//! One column of a row, read as its type. The only fault of the store is a value of another type;
//! memory can run out only for texts.

ghost use Rattle.std.specs.Prelude.{◌≡◌, ◌&&◌, IfOk, IfErr, IsTrue, slice_get};
ghost use Rattle.std.specs.Str.{is_utf8};
ghost use Rattle.sqlite_value.specs.declared.value.Value.TheVariants.{Int, Text as StoredText, Blob};
ghost use Rattle.sqlite_value.specs.Order.{column, bytes};
ghost use Rattle.sqlite_value.specs.Value.{owned};
ghost use Rattle.sqlite_rules.specs.Edit.{id_in};
ghost use Rattle.lab_forms_texts.specs.Moment.{is_moment};
ghost use Rattle.lab_forms_texts.specs.Ordinals.{is_ordinal};
ghost use Rattle.lab_store_tables.specs.Rows.{number, optional, number_in, flag_in, optional_in};
ghost use Rattle.lab_store_read.specs.Cells.{storage, is_id, is_number, is_small, is_text_cell, is_digest, is_optional, stands, IsNotRead, IsNotMade};

use crate::faults::{ReadFault, name_fault};
use lab_forms_texts::{Moment, Ordinal, Text, TextRule};
use lab_records_keeper::BadStore;
use lab_seal_hashes::Digest;
use sqlite::Row;
use sqlite::types::ValueRef;
use std::alloc::Global;

/// Returns the value of a column.
///
/// # Errors
/// The row doesn't have the column.
pub fn cell_of(row: &Row, at: usize) -> Result<ValueRef<'_>, ReadFault>
    ensures value { IfOk result (λ value. owned value ≡ column row.now at) }
    ensures shown { IfOk result (λ value. slice_get row.now at ≡ Some (owned value)) }
    ensures fault { IfErr result (λ fault.
        (slice_get row.now at ≡ None) × (fault ≡ storage)) }
{
    match row.get_ref(at) {
        Ok(value) => Ok(value),
        Err(_) => Err(ReadFault::Refused(BadStore)),
    }
}

/// Returns the id in a column.
///
/// # Errors
/// The column holds no id.
pub fn id_of(row: &Row, at: usize) -> Result<i64, ReadFault>
    ensures value { IfOk result (λ id. id ≡ id_in (column row.now at)) }
    ensures shown { IfOk result (λ id. slice_get row.now at ≡ Some (Int id)) }
    ensures fault { IfErr result (IsNotRead (stands is_id row.now at)) }
{
    match cell_of(row, at)? {
        ValueRef::Int(id) => Ok(id),
        _ => Err(ReadFault::Refused(BadStore)),
    }
}

/// Returns the id in a column, or `None` for NULL.
///
/// # Errors
/// The column holds neither NULL nor an id.
pub fn id_if(row: &Row, at: usize) -> Result<Option<i64>, ReadFault>
    ensures value { IfOk result (λ id. id ≡ optional_in id_in (column row.now at)) }
    ensures shown { IfOk result (λ id. slice_get row.now at ≡ Some (optional Int id)) }
    ensures fault { IfErr result (IsNotRead (stands (is_optional is_id) row.now at)) }
{
    match cell_of(row, at)? {
        ValueRef::Null => Ok(None),
        ValueRef::Int(id) => Ok(Some(id)),
        _ => Err(ReadFault::Refused(BadStore)),
    }
}

/// Returns the number in a column, of at most 32 bits.
///
/// # Errors
/// The column holds no such number.
pub fn small_of(row: &Row, at: usize) -> Result<u32, ReadFault>
    ensures value { IfOk result (λ count. count ≡ number_in (column row.now at)) }
    ensures shown { IfOk result (λ count. slice_get row.now at ≡ Some (number count)) }
    ensures fault { IfErr result (IsNotRead (stands (is_number is_small) row.now at)) }
{
    match u32::try_from(id_of(row, at)?) {
        Ok(count) => Ok(count),
        Err(_) => Err(ReadFault::Refused(BadStore)),
    }
}

/// Returns the ordinal in a column: a number that counts things of a kind.
///
/// # Errors
/// The column holds no such number.
pub fn ordinal_of(row: &Row, at: usize) -> Result<Ordinal, ReadFault>
    ensures value { IfOk result (λ number. number ≡ number_in (column row.now at)) }
    ensures shown { IfOk result (λ count. slice_get row.now at ≡ Some (number count)) }
    ensures fault { IfErr result (IsNotRead (stands (is_number is_ordinal) row.now at)) }
{
    match Ordinal::new(small_of(row, at)?) {
        Some(number) => Ok(number),
        None => Err(ReadFault::Refused(BadStore)),
    }
}

/// Returns the moment in a column.
///
/// # Errors
/// The column holds no moment.
pub fn moment_of(row: &Row, at: usize) -> Result<Moment, ReadFault>
    ensures value { IfOk result (λ moment. moment ≡ number_in (column row.now at)) }
    ensures shown { IfOk result (λ moment. slice_get row.now at ≡ Some (number moment)) }
    ensures fault { IfErr result (IsNotRead (stands (is_number is_moment) row.now at)) }
{
    match Moment::from_seconds(id_of(row, at)?) {
        Ok(moment) => Ok(moment),
        Err(_) => Err(ReadFault::Refused(BadStore)),
    }
}

// Parses the bytes as a text of the rule.
fn parsed_text<R: TextRule>(alloc: Global, text: &[u8]) -> Result<Text<R>, ReadFault>
    ensures value { IfOk result (λ read. read ≡ text.now) }
    ensures fault { IfErr result (IsNotMade (is_utf8 text.now && R.admits text.now)) }
{
    match std::str::from_utf8(text) {
        Ok(text) => match Text::<R>::parse(alloc, text) {
            Ok(text) => Ok(text),
            Err(fault) => Err(name_fault(fault)),
        },
        Err(_) => Err(ReadFault::Refused(BadStore)),
    }
}

/// Returns the text in a column, which its rule must admit.
///
/// # Errors
/// The column holds no such text, or memory ran out for it.
pub fn text_of<R: TextRule>(alloc: Global, row: &Row, at: usize) -> Result<Text<R>, ReadFault>
    ensures value { IfOk result (λ text. text ≡ bytes (column row.now at)) }
    ensures shown { IfOk result (λ text. slice_get row.now at ≡ Some (StoredText text)) }
    ensures fault { IfErr result (IsNotMade (stands (is_text_cell R.admits) row.now at)) }
{
    match cell_of(row, at)? {
        ValueRef::Text(text) => parsed_text(alloc, text),
        _ => Err(ReadFault::Refused(BadStore)),
    }
}

/// Returns the yes or no in a column.
///
/// # Errors
/// The column holds no number of at most 32 bits.
pub fn flag_of(row: &Row, at: usize) -> Result<bool, ReadFault>
    ensures value { IfOk result (λ flag. flag ≡ flag_in (column row.now at)) }
    ensures shown { IfOk result (λ _. IsTrue (stands (is_number is_small) row.now at)) }
    ensures fault { IfErr result (IsNotRead (stands (is_number is_small) row.now at)) }
{
    Ok(small_of(row, at)? != 0)
}

/// Returns the number in a column, of at most 32 bits, or `None` for NULL.
///
/// # Errors
/// The column holds neither NULL nor such a number.
pub fn small_if(row: &Row, at: usize) -> Result<Option<u32>, ReadFault>
    ensures value { IfOk result (λ count. count ≡ optional_in number_in (column row.now at)) }
    ensures shown { IfOk result (λ count. slice_get row.now at ≡ Some (optional number count)) }
    ensures fault { IfErr result
        (IsNotRead (stands (is_optional (is_number is_small)) row.now at)) }
{
    match cell_of(row, at)? {
        ValueRef::Null => Ok(None),
        ValueRef::Int(_) => Ok(Some(small_of(row, at)?)),
        _ => Err(ReadFault::Refused(BadStore)),
    }
}

/// Returns the text in a column, which its rule must admit, or `None` for NULL.
///
/// # Errors
/// The column holds neither NULL nor such a text, or memory ran out for it.
pub fn text_if<R: TextRule>(
    alloc: Global,
    row: &Row,
    at: usize,
) -> Result<Option<Text<R>>, ReadFault>
    ensures value { IfOk result (λ text. text ≡ optional_in bytes (column row.now at)) }
    ensures shown { IfOk result (λ text. slice_get row.now at ≡ Some (optional StoredText text)) }
    ensures fault { IfErr result (IsNotMade (stands (is_optional (is_text_cell R.admits)) row.now at)) }
{
    match cell_of(row, at)? {
        ValueRef::Null => Ok(None),
        ValueRef::Text(text) => Ok(Some(parsed_text(alloc, text)?)),
        _ => Err(ReadFault::Refused(BadStore)),
    }
}

/// Returns the digest in a column, of 32 bytes.
///
/// # Errors
/// The column doesn't hold 32 bytes.
pub fn digest_of(row: &Row, at: usize) -> Result<Digest, ReadFault>
    ensures value { IfOk result (λ digest. digest ≡ bytes (column row.now at)) }
    ensures shown { IfOk result (λ digest. slice_get row.now at ≡ Some (Blob digest)) }
    ensures fault { IfErr result (IsNotRead (stands is_digest row.now at)) }
{
    match cell_of(row, at)? {
        ValueRef::Blob(blob) => match <[u8; 32]>::try_from(blob) {
            Ok(sum) => Ok(Digest::from_bytes(sum)),
            Err(_) => Err(ReadFault::Refused(BadStore)),
        },
        _ => Err(ReadFault::Refused(BadStore)),
    }
}
