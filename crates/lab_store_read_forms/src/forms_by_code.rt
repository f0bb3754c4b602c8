//! Versions of forms, by the codes of the forms.

ghost use Rattle.std.specs.Prelude.{◌≡◌, option_map, IfOk, IfErr, IfSome};
ghost use Rattle.lab_records_kept.specs.Lookups.{last_of, last_form, exact_form};
ghost use Rattle.lab_store_tables.specs.Meaning.{forms_of};
ghost use Rattle.lab_store_read.specs.Causes.{HasItsCause, HasFirst};
ghost use Rattle.lab_store_read.specs.Cells.{storage};
ghost use Rattle.lab_store_read.specs.Reads.{Reads, MayRead};
ghost use Rattle.lab_store_read_forms.specs.Forms.{form_by};
ghost use Rattle.lab_store_read_forms.specs.Readable.{HasForm, HasFields, HasWholeForm};
ghost use Rattle.lab_store_read_forms.specs.Shown.{form_read};
ghost use Rattle.lab_store_read_forms.specs.declared.heads.FormHead.{FormHead};
ghost use Rattle.lab_store_read_forms.specs.FormsByCode.{exact_shown, form_versions_shown};

use crate::asking::rows_by_version;
use crate::{FormHead, first_form, form_of_row, form_whole};
use lab_forms_texts::{Key, Ordinal};
use lab_records_kept::FormVersion;
use lab_store_read::asking::rows_by_code;
use lab_store_read::{ReadFault, Readable};
use sqlite::Row;
use std::alloc::Global;

// The row of the version of the form, in the laboratory with the id.
fn exact_rows<D: Readable>(
    conn: &mut D,
    lab: i64,
    code: &str,
    version: u32,
) -> Result<Vec<Row>, ReadFault>
    ensures reads { Reads (λ t rows. rows.items ≡ exact_shown t lab code.now version)
        (D.state conn.old) (D.state conn.new) result }
    ensures cause { HasItsCause (λ t. Unit {0}) (D.state conn.old) (D.state conn.new) result }
{
    rows_by_version(
        conn,
        "SELECT id, code, version, approval FROM forms WHERE lab = ?1 AND code = ?2 AND version = ?3",
        lab,
        code,
        version,
    )
}

// The rows of the versions of the form, in the laboratory with the id, in the order of their
// numbers.
fn form_version_rows<D: Readable>(conn: &mut D, lab: i64, code: &str) -> Result<Vec<Row>, ReadFault>
    ensures reads { Reads (λ t rows. rows.items ≡ form_versions_shown t lab code.now)
        (D.state conn.old) (D.state conn.new) result }
    ensures cause { HasItsCause (λ t. Unit {0}) (D.state conn.old) (D.state conn.new) result }
{
    rows_by_code(
        conn,
        "SELECT id, code, version, approval FROM forms WHERE lab = ?1 AND code = ?2 ORDER BY code, version",
        lab,
        code,
    )
}

// The version of a form that the last row shows.
fn last_form_of(alloc: Global, rows: &[Row]) -> Result<Option<FormHead>, ReadFault>
    ensures value { IfOk result (λ form. form ≡ option_map form_read (last_of rows.now)) }
    ensures fault { IfErr result (λ fault. fault ≡ storage → ¬ IfSome (last_of rows.now) HasForm) }
{
    match rows.last() {
        Some(row) => Ok(Some(form_of_row(alloc, row)?)),
        None => Ok(None),
    }
}

// The version of a form that has the row, if there is a row.
fn form_if<D: Readable>(
    alloc: Global,
    conn: &mut D,
    head: Option<FormHead>,
) -> Result<Option<FormVersion>, ReadFault>
    ensures reads { MayRead (λ t form. form ≡ option_map (form_by t) head)
        (D.state conn.old) (D.state conn.new) result }
    ensures cause { HasItsCause (λ t. IfSome head (λ (one : FormHead). HasFields t one.id))
        (D.state conn.old) (D.state conn.new) result }
{
    match head {
        Some(head) => {
            let form = form_whole(alloc, conn, head)?;
            Ok(Some(form))
        }
        None => Ok(None),
    }
}

/// Returns the version of the form that has the number, in the laboratory with the id.
///
/// # Errors
/// The store failed, a row isn't one that this program could have written, or memory ran out.
pub fn exact_form_at<D: Readable>(
    alloc: Global,
    conn: &mut D,
    lab: i64,
    code: &Key,
    version: Ordinal,
) -> Result<Option<FormVersion>, ReadFault>
    ensures reads { Reads (λ t form. form ≡ exact_form (forms_of t lab) code.now version)
        (D.state conn.old) (D.state conn.new) result }
    ensures cause { HasItsCause
        (λ t. HasFirst (HasWholeForm t) (exact_shown t lab code.now version))
        (D.state conn.old) (D.state conn.new) result }
{
    let rows = exact_rows(conn, lab, code.as_str(), version.get())?;
    let head = first_form(alloc, &rows)?;
    form_if(alloc, conn, head)
}

/// Returns the last version of the form, in the laboratory with the id.
///
/// # Errors
/// The store failed, a row isn't one that this program could have written, or memory ran out.
pub fn last_form_at<D: Readable>(
    alloc: Global,
    conn: &mut D,
    lab: i64,
    code: &Key,
) -> Result<Option<FormVersion>, ReadFault>
    ensures reads { Reads (λ t form. form ≡ last_form (forms_of t lab) code.now)
        (D.state conn.old) (D.state conn.new) result }
    ensures cause { HasItsCause (λ t.
        IfSome (last_of (form_versions_shown t lab code.now)) (HasWholeForm t))
        (D.state conn.old) (D.state conn.new) result }
{
    let rows = form_version_rows(conn, lab, code.as_str())?;
    let head = last_form_of(alloc, &rows)?;
    form_if(alloc, conn, head)
}
