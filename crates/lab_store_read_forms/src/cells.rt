//! One column of a row, read as its type. The only fault of the store is a value of another type.

ghost use Rattle.std.specs.Prelude.{◌≡◌, IfOk, IfErr};
ghost use Rattle.sqlite_value.specs.Order.{column, bytes};
ghost use Rattle.sqlite_value.specs.declared.value.Value.TheVariants.{Text as StoredText};
ghost use Rattle.lab_store_tables.specs.Rows.{optional_in};
ghost use Rattle.lab_store_read.specs.Cells.{is_text_cell, is_optional, stands, IsNotMade};
ghost use Rattle.lab_store_read_forms.specs.Readable.{is_any};

use lab_forms::Bound;
use lab_store_read::cells::cell_of;
use lab_store_read::{BadStore, ReadFault};
use sqlite::Row;
use sqlite::types::ValueRef;
use std::alloc::Global;

// Parses the bytes as a bound.
fn bound_of(alloc: Global, text: &[u8]) -> Result<Bound, ReadFault>
    ensures value { IfOk result (λ bound. bound ≡ text.now) }
    ensures fault { IfErr result (IsNotMade (is_text_cell is_any (StoredText text.now))) }
{
    match std::str::from_utf8(text) {
        Ok(text) => Ok(Bound::new(String::from_str(alloc, text)?)),
        Err(_) => Err(ReadFault::Refused(BadStore)),
    }
}

/// Returns the least or the greatest amount of a number, or `None` for NULL.
///
/// # Errors
/// The column holds neither NULL nor a text, or memory ran out for it.
pub(crate) fn bound_if(alloc: Global, row: &Row, at: usize) -> Result<Option<Bound>, ReadFault>
    ensures value { IfOk result (λ bound. bound ≡ optional_in bytes (column row.now at)) }
    ensures fault { IfErr result (IsNotMade (stands (is_optional (is_text_cell is_any)) row.now at)) }
{
    match cell_of(row, at)? {
        ValueRef::Null => Ok(None),
        ValueRef::Text(text) => Ok(Some(bound_of(alloc, text)?)),
        _ => Err(ReadFault::Refused(BadStore)),
    }
}
