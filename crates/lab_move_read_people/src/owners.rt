//! The person to whom an arrow leads, where the person is of the laboratory.

ghost use Rattle.std.specs.Prelude.{◌≡◌, option_map, slice_get, IfErr, IfOk, IfSome};
ghost use Rattle.sqlite_value.specs.Order.{column, bytes};
ghost use Rattle.lab_store_tables.specs.Meaning.{code_of};
ghost use Rattle.lab_move_tables.specs.KeptLabs.{is_theirs, is_nobody_or_theirs};
ghost use Rattle.lab_move_read_people.specs.Kept.{found_of, TriesOld};
ghost use Rattle.lab_move_read_people.specs.Private.Kept.{IsTried};
ghost use Rattle.lab_move_read_people.specs.Private.Owners.{shows_lab, IsFirstOwner};
ghost use Rattle.lab_move_read_people.specs.Readable.{HasFirstOwner, HasOwner, HasOwnerRow};
ghost use Rattle.lab_move_read_people.specs.declared.faults.KeptFault.TheVariants.{Storage};

use crate::KeptFault;
use lab_forms_texts::PersonCode;
use lab_move_tables::owner_rows;
use lab_store_read::Readable;
use lab_store_read::cells::{id_of, text_of};
use sqlite::Row;
use std::alloc::Global;

// The code that a row shows. The row isn't well kept if it shows another laboratory.
#[tactic(auto, using(crate::proofs::Found::told_back))]
fn owner_of_row(alloc: Global, lab: i64, row: &Row) -> Result<PersonCode, KeptFault>
    ensures tried { IsTried (shows_lab lab row.now)
        (λ code. code ≡ bytes (column row.now 0)) result }
    ensures fault { IfErr result (λ fault. fault ≡ Storage → ¬ HasOwnerRow row.now) }
{
    if id_of(row, 1)? != lab {
        return Err(KeptFault::NotKept);
    }
    Ok(text_of(alloc, row, 0)?)
}

// The code that the first row shows. It is a fault of the store if there is no row.
fn first_owner(alloc: Global, lab: i64, rows: &[Row]) -> Result<PersonCode, KeptFault>
    ensures found { IfOk (found_of result) (IsFirstOwner lab (slice_get rows.now 0)) }
    ensures fault { IfErr result (λ fault. fault ≡ Storage → ¬ HasFirstOwner rows.now) }
{
    match rows.first() {
        Some(row) => owner_of_row(alloc, lab, row),
        None => Err(KeptFault::Storage),
    }
}

/// Returns the code of the person with the id, who has to be of the laboratory with the id.
///
/// # Errors
/// The person isn't of the laboratory, the store failed, a row isn't one that a program could have
/// written, or memory ran out.
pub(crate) fn theirs_at<D: Readable>(
    alloc: Global,
    conn: &mut D,
    lab: i64,
    id: i64,
) -> Result<PersonCode, KeptFault>
    ensures { TriesOld (λ db t. HasOwner db t id) (λ t. is_theirs t lab id)
        (λ t code. code ≡ code_of t id)
        (D.state conn.old) (D.state conn.new) result }
{
    let rows = owner_rows(conn, id)?;
    first_owner(alloc, lab, &rows)
}

/// Returns the code of the person with the id, if there is an id. The person has to be of the
/// laboratory.
///
/// # Errors
/// The person isn't of the laboratory, the store failed, a row isn't one that a program could have
/// written, or memory ran out.
pub(crate) fn theirs_if<D: Readable>(
    alloc: Global,
    conn: &mut D,
    lab: i64,
    id: Option<i64>,
) -> Result<Option<PersonCode>, KeptFault>
    ensures { TriesOld (λ db t. IfSome id (HasOwner db t)) (λ t. is_nobody_or_theirs t lab id)
        (λ t code. code ≡ option_map (code_of t) id)
        (D.state conn.old) (D.state conn.new) result }
{
    match id {
        Some(id) => Ok(Some(theirs_at(alloc, conn, lab, id)?)),
        None => Ok(None),
    }
}
