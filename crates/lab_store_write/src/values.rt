//! The value that a statement gets for a column of each type.

ghost use Rattle.std.specs.Prelude.{◌≡◌, option_map, IfOk, IfErr};
ghost use Rattle.sqlite_value.specs.declared.value.Value.TheVariants.{Int, Text, Blob};
ghost use Rattle.sqlite_value.specs.Value.{owned};
ghost use Rattle.sqlite.specs.Values.{bound_value};
ghost use Rattle.lab_store_tables.specs.Rows.{number, flag, optional};
ghost use Rattle.lab_store_write.specs.Causes.{IsTooGreat};
ghost use Rattle.lab_store_write.specs.Ids.{row_id};

use crate::statements::RowId;
use lab_forms_texts::{Moment, Ordinal};
use sqlite::types::ValueRef;
use sqlite::{Error, ErrorCode};

/// Returns the value of an id.
pub fn id_value<'a>(id: RowId) -> ValueRef<'a>
    ensures { bound_value (owned result) ≡ Int id.id }
{
    ValueRef::Int(id.id)
}

/// Returns the value of an id, or NULL.
pub fn id_or_null<'a>(id: Option<RowId>) -> ValueRef<'a>
    ensures { bound_value (owned result) ≡ optional Int (option_map row_id id) }
{
    match id {
        Some(id) => ValueRef::Int(id.id),
        None => ValueRef::Null,
    }
}

/// Returns the value of a moment.
pub fn moment_value<'a>(moment: Moment) -> ValueRef<'a>
    ensures { bound_value (owned result) ≡ number moment }
{
    ValueRef::Int(moment.seconds())
}

/// Returns the value of a moment, or NULL.
pub fn moment_or_null<'a>(moment: Option<Moment>) -> ValueRef<'a>
    ensures { bound_value (owned result) ≡ optional number moment }
{
    match moment {
        Some(moment) => ValueRef::Int(moment.seconds()),
        None => ValueRef::Null,
    }
}

/// Returns the value of a number of at most 32 bits.
pub fn small_value<'a>(small: u32) -> ValueRef<'a>
    ensures { bound_value (owned result) ≡ number small }
{
    ValueRef::Int(i64::from(small))
}

/// Returns the value of an ordinal: a number that counts things of a kind.
pub fn ordinal_value<'a>(ordinal: Ordinal) -> ValueRef<'a>
    ensures { bound_value (owned result) ≡ number ordinal }
{
    ValueRef::Int(i64::from(ordinal.get()))
}

/// Returns the value of yes or no.
pub fn flag_value<'a>(yes: bool) -> ValueRef<'a>
    ensures { bound_value (owned result) ≡ flag yes }
{
    if yes {
        ValueRef::Int(1)
    } else {
        ValueRef::Int(0)
    }
}

/// Returns the value of a text.
pub fn text_value(text: &str) -> ValueRef<'_>
    ensures { bound_value (owned result) ≡ Text text.now }
{
    ValueRef::Text(text.as_bytes())
}

/// Returns the value of bytes.
pub fn blob_value(bytes: &[u8]) -> ValueRef<'_>
    ensures { bound_value (owned result) ≡ Blob bytes.now }
{
    ValueRef::Blob(bytes)
}

/// Returns the value of a number that the store holds: one below 2^63.
pub fn place_value<'a>(place: u64) -> ValueRef<'a>
    requires { ¬ IsTooGreat place }
    ensures { bound_value (owned result) ≡ number place }
{
    ValueRef::Int(place as i64)
}

/// Returns the value of a number that may be too great for the store, which holds numbers below
/// 2^63.
///
/// # Errors
/// The number is too great.
pub fn count_value<'a>(count: u64) -> Result<ValueRef<'a>, Error>
    ensures value { IfOk result (λ value. bound_value (owned value) ≡ number count) }
    ensures fault { IfErr result (λ _. IsTooGreat count) }
{
    if count > 9_223_372_036_854_775_807 {
        return Err(Error::SqliteFailure(ErrorCode::TooBig));
    }
    Ok(ValueRef::Int(count as i64))
}
