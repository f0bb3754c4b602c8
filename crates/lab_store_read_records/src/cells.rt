//! One column of a row, read as its type. The only fault of the store is a value of another type.

ghost use Rattle.std.specs.Prelude.{◌≡◌, IfOk, IfErr};
ghost use Rattle.sqlite_value.specs.Order.{column};
ghost use Rattle.lab_store_tables.specs.Rows.{number_in};
ghost use Rattle.lab_store_read.specs.Cells.{is_number, stands, IsNotRead};
ghost use Rattle.lab_store_read_records.specs.Readable.{is_count};

use lab_store_read::cells::id_of;
use lab_store_read::{BadStore, ReadFault};
use sqlite::Row;

/// Returns the number in a column, which is never below zero.
///
/// # Errors
/// The column holds no such number.
pub(crate) fn count_of(row: &Row, at: usize) -> Result<u64, ReadFault>
    ensures value { IfOk result (λ count. count ≡ number_in (column row.now at)) }
    ensures fault { IfErr result (IsNotRead (stands (is_number is_count) row.now at)) }
{
    match u64::try_from(id_of(row, at)?) {
        Ok(count) => Ok(count),
        Err(_) => Err(ReadFault::Refused(BadStore)),
    }
}
