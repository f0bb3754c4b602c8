//! The codes of all laboratories.

ghost use Rattle.std.specs.Prelude.{◌≡◌, map, All, IfErr, IfOk};
ghost use Rattle.lab_store_read.specs.Cells.{storage};
ghost use Rattle.lab_move_tables.specs.Reading.{ReadsOldWhere};
ghost use Rattle.lab_move_read.specs.Laboratories.{codes_of};
ghost use Rattle.lab_move_read.specs.Private.Laboratories.{code_read};
ghost use Rattle.lab_move_read.specs.Readable.{HasCodes, HasLabCode};

use lab_forms_texts::{LabCode, Series};
use lab_move_tables::code_rows;
use lab_store_read::cells::text_of;
use lab_store_read::{ReadFault, Readable};
use sqlite::Row;
use std::alloc::Global;

// The codes that rows show.
fn codes_of_rows(alloc: Global, rows: &[Row]) -> Result<Vec<LabCode>, ReadFault>
    ensures value { IfOk result (λ made. made.items ≡ map code_read rows.now) }
    ensures fault { IfErr result (λ fault. fault ≡ storage → ¬ All HasLabCode rows.now) }
{
    let mut made = Vec::new(alloc);
    for row in rows {
        made.push(text_of(alloc, row, 0)?)?;
    }
    Ok(made)
}

// The codes that rows show, as a list.
fn codes_listed(alloc: Global, rows: &[Row]) -> Result<Series<LabCode>, ReadFault>
    ensures value { IfOk result (λ made. made ≡ map code_read rows.now) }
    ensures fault { IfErr result (λ fault. fault ≡ storage → ¬ All HasLabCode rows.now) }
{
    Ok(Series::from_vec(codes_of_rows(alloc, rows)?))
}

/// The codes of all laboratories of a file of an older schema, in the order of their bytes. However it ends, the rows are as they
/// were.
///
/// # Errors
/// The store refused, a row isn't one that is written, or memory ran out.
pub fn codes<D: Readable>(alloc: Global, conn: &mut D) -> Result<Series<LabCode>, ReadFault>
    ensures { ReadsOldWhere HasCodes (λ t made. made ≡ codes_of t)
        (D.state conn.old) (D.state conn.new) result }
{
    let rows = code_rows(conn)?;
    codes_listed(alloc, &rows)
}
