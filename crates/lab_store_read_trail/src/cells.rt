//! One column of a row, read as its type. The only fault of the store is a value of another type;
//! memory can run out only for texts.

ghost use Rattle.std.specs.Prelude.{◌≡◌, ◌&&◌, IfOk, IfErr};
ghost use Rattle.std.specs.Str.{is_utf8};
ghost use Rattle.sqlite_value.specs.Order.{column, bytes};
ghost use Rattle.lab_store_read.specs.Cells.{is_text_cell, stands, IsNotMade};
ghost use Rattle.lab_store_read_trail.specs.Readable.{is_subject};

use lab_records_kept::Subject;
use lab_store_read::cells::cell_of;
use lab_store_read::{BadStore, ReadFault};
use sqlite::Row;
use sqlite::types::ValueRef;
use std::alloc::Global;

// Parses the bytes as a subject.
fn subject_by(alloc: Global, text: &[u8]) -> Result<Subject, ReadFault>
    ensures value { IfOk result (λ subject. subject ≡ text.now) }
    ensures fault { IfErr result (IsNotMade (is_utf8 text.now && is_subject text.now)) }
{
    match std::str::from_utf8(text) {
        Ok(text) => Ok(Subject::new(String::from_str(alloc, text)?)),
        Err(_) => Err(ReadFault::Refused(BadStore)),
    }
}

/// Returns the subject in a column: what something was done to.
///
/// # Errors
/// The column holds no text, or memory ran out for it.
pub(crate) fn subject_of(alloc: Global, row: &Row, at: usize) -> Result<Subject, ReadFault>
    ensures value { IfOk result (λ subject. subject ≡ bytes (column row.now at)) }
    ensures fault { IfErr result (IsNotMade (stands (is_text_cell is_subject) row.now at)) }
{
    match cell_of(row, at)? {
        ValueRef::Text(text) => subject_by(alloc, text),
        _ => Err(ReadFault::Refused(BadStore)),
    }
}
