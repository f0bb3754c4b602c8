//! Versions of forms, with their fields.

ghost use Rattle.std.specs.Prelude.{◌≡◌, option_map, slice_get, IfOk, IfErr, IsTrue};
ghost use Rattle.sqlite_keyed.specs.Keyed.{get_by};
ghost use Rattle.lab_store_tables.specs.Rows.{form_id};
ghost use Rattle.lab_store_tables.specs.Meaning.{form_at};
ghost use Rattle.lab_store_read.specs.Causes.{HasItsCause, HasFirst};
ghost use Rattle.lab_store_read.specs.Cells.{storage};
ghost use Rattle.lab_store_read.specs.Reads.{Reads};
ghost use Rattle.lab_forms.specs.Forms.{is_form};
ghost use Rattle.lab_store_read_forms.specs.Private.Forms.{form_head};
ghost use Rattle.lab_store_read_forms.specs.Forms.{form_by};
ghost use Rattle.lab_store_read_forms.specs.Readable.{HasForm, HasFields, HasFormAt};
ghost use Rattle.lab_store_read_forms.specs.Shown.{forms_shown, form_read};

use crate::fields::fields_at;
use crate::heads::FormHead;
use lab_forms::{Field, Form};
use lab_records_kept::FormVersion;
use lab_store_read::asking::rows_by_one;
use lab_store_read::cells::{flag_of, id_of, ordinal_of, text_of};
use lab_store_read::{BadStore, ReadFault, Readable};
use sqlite::Row;
use std::alloc::Global;

// The row of the version of a form with the id.
fn form_rows<D: Readable>(conn: &mut D, id: i64) -> Result<Vec<Row>, ReadFault>
    ensures reads { Reads (λ t rows. rows.items ≡ forms_shown t id)
        (D.state conn.old) (D.state conn.new) result }
    ensures cause { HasItsCause (λ t. Unit {0}) (D.state conn.old) (D.state conn.new) result }
{
    rows_by_one(
        conn,
        "SELECT id, code, version, approval FROM forms WHERE id = ?1",
        id,
    )
}

/// Returns the version of a form that a row shows.
///
/// # Errors
/// The store failed, a row isn't one that this program could have written, or memory ran out.
pub fn form_of_row(alloc: Global, row: &Row) -> Result<FormHead, ReadFault>
    ensures value { IfOk result (λ form. form ≡ form_read row.now) }
    ensures fault { IfErr result (λ fault. fault ≡ storage → ¬ HasForm row.now) }
{
    let id = id_of(row, 0)?;
    let version = ordinal_of(row, 2)?;
    let approval = flag_of(row, 3)?;
    let code = text_of(alloc, row, 1)?;
    Ok(FormHead {
        id,
        code,
        version,
        approval,
    })
}

/// Returns the version of a form that the first row shows.
///
/// # Errors
/// The store failed, a row isn't one that this program could have written, or memory ran out.
pub fn first_form(alloc: Global, rows: &[Row]) -> Result<Option<FormHead>, ReadFault>
    ensures value { IfOk result (λ form. form ≡ option_map form_read (slice_get rows.now 0)) }
    ensures fault { IfErr result (λ fault. fault ≡ storage → ¬ HasFirst HasForm rows.now) }
{
    match rows.first() {
        Some(row) => Ok(Some(form_of_row(alloc, row)?)),
        None => Ok(None),
    }
}

// The own row of the version of a form with the id.
fn form_head_at<D: Readable>(
    alloc: Global,
    conn: &mut D,
    id: i64,
) -> Result<Option<FormHead>, ReadFault>
    ensures reads { Reads (λ t form. form ≡ option_map form_head (get_by form_id t.forms id))
        (D.state conn.old) (D.state conn.new) result }
    ensures cause { HasItsCause (λ t. HasFirst HasForm (forms_shown t id))
        (D.state conn.old) (D.state conn.new) result }
{
    let rows = form_rows(conn, id)?;
    first_form(alloc, &rows)
}

/// Returns the form with the fields. It is a fault of the store if they make no form.
///
/// # Errors
/// The fields make no form.
pub fn form_made(fields: Vec<Field>, approval: bool) -> Result<Form, ReadFault>
    ensures value { IfOk result
        (λ form. form ≡ record { fields = fields.items; approval = approval }) }
    ensures fault { IfErr result (λ fault. fault ≡ storage → ¬ IsTrue (is_form fields.items)) }
{
    match Form::make(fields, approval) {
        Ok(form) => Ok(form),
        Err(_) => Err(ReadFault::Refused(BadStore)),
    }
}

/// Returns the version of a form that has the row, with its fields. It is a fault of the store if
/// no form may have these fields.
///
/// # Errors
/// The store failed, a row isn't one that this program could have written, or memory ran out.
pub fn form_whole<D: Readable>(
    alloc: Global,
    conn: &mut D,
    head: FormHead,
) -> Result<FormVersion, ReadFault>
    ensures reads { Reads (λ t form. form ≡ form_by t head)
        (D.state conn.old) (D.state conn.new) result }
    ensures cause { HasItsCause (λ t. HasFields t head.id)
        (D.state conn.old) (D.state conn.new) result }
{
    let fields = fields_at(alloc, conn, head.id)?;
    let form = form_made(fields, head.approval)?;
    Ok(FormVersion {
        code: head.code,
        version: head.version,
        form,
    })
}

/// Returns the version of a form with the id, with its fields. It is a fault of the store if there
/// is none.
///
/// # Errors
/// The store failed, a row isn't one that this program could have written, or memory ran out.
pub fn form_at<D: Readable>(alloc: Global, conn: &mut D, id: i64) -> Result<FormVersion, ReadFault>
    ensures reads { Reads (λ t form. form ≡ form_at t id)
        (D.state conn.old) (D.state conn.new) result }
    ensures cause { HasItsCause (λ t. HasFormAt t id) (D.state conn.old) (D.state conn.new) result }
{
    let Some(head) = form_head_at(alloc, conn, id)? else {
        return Err(ReadFault::Refused(BadStore));
    };
    form_whole(alloc, conn, head)
}
