//! The versions of forms of a laboratory, with their fields, by the ids of their rows.

ghost use Rattle.std.specs.Prelude.{◌≡◌, Some, None, find, [], ◌∷◌, map, is_some, All, IfErr, IfOk};
ghost use Rattle.sqlite_value.specs.declared.value.Value.TheVariants.{Int};
ghost use Rattle.std.specs.Option.{option_copied};
ghost use Rattle.std.specs.List.{list_all};
ghost use Rattle.std.specs.Ordering.{int_eq};
ghost use Rattle.lab_move_tables.specs.KeptLabs.{are_kept_forms};
ghost use Rattle.lab_store_read.specs.Cells.{storage};
ghost use Rattle.lab_move_tables.specs.Answering.{IsTaken};
ghost use Rattle.lab_move_tables.specs.Questions.{form_text};
ghost use Rattle.lab_move_tables.specs.Shown.{forms_shown};
ghost use Rattle.lab_move_read_people.specs.declared.faults.KeptFault.TheVariants.{Storage};
ghost use Rattle.lab_move_read.specs.Readable.{HasFormParts, HasForms, HasOldForm};
ghost use Rattle.lab_move_tables.specs.Reading.{ReadsByWhere};
ghost use Rattle.lab_move_read_people.specs.Private.Kept.{IsTried};
ghost use Rattle.lab_move_read_people.specs.Kept.{TriesBy, TriesOld};
ghost use Rattle.lab_move_read.specs.Forms.{form_read, form_of, forms_at_of};
ghost use Rattle.lab_move_read.specs.Private.Forms.{form_heads_of, form_at_by, form_follows, forms_run, is_kept_form_head};
ghost use Rattle.lab_move_read.specs.Records.{named_form};

use crate::fields::fields_at;
use lab_forms_texts::Series;
use lab_move_read_people::KeptFault;
use lab_move_tables::{Older, form_rows};
use lab_records_kept::FormVersion;
use lab_store_read::cells::{id_of, ordinal_of, text_of};
use lab_store_read::{ReadFault, Readable};
use lab_store_read_forms::{FormAt, FormHead, form_made};
use lab_store_read_records::RecordHead;
use sqlite::Row;
use std::alloc::Global;

// The version of a form that a row shows.
fn form_of_row(alloc: Global, older: Older, row: &Row) -> Result<FormHead, ReadFault>
    ensures value { IfOk result (λ form. form ≡ form_read older row.now) }
    ensures fault { IfErr result (λ fault. fault ≡ storage → ¬ HasOldForm row.now) }
{
    let id = id_of(row, 0)?;
    let version = ordinal_of(row, 2)?;
    let approval = match older {
        Older::Two => false,
    };
    let code = text_of(alloc, row, 1)?;
    Ok(FormHead {
        id,
        code,
        version,
        approval,
    })
}

// The versions of forms that rows show.
fn forms_of_rows(alloc: Global, older: Older, rows: &[Row]) -> Result<Vec<FormHead>, ReadFault>
    ensures value { IfOk result (λ made. made.items ≡ map (form_read older) rows.now) }
    ensures fault { IfErr result (λ fault. fault ≡ storage → ¬ All HasOldForm rows.now) }
{
    let mut made = Vec::new(alloc);
    for row in rows {
        made.push(form_of_row(alloc, older, row)?)?;
    }
    Ok(made)
}

// The own rows of the versions of forms of the laboratory with the id, in the order of codes and numbers.
fn form_heads_at<D: Readable>(
    alloc: Global,
    conn: &mut D,
    older: Older,
    lab: i64,
) -> Result<Vec<FormHead>, ReadFault>
    ensures { ReadsByWhere older (λ db t. IsTaken db (form_text older) (Int lab ∷ [])
        × All HasOldForm (forms_shown older t lab))
        (λ t made. made.items ≡ form_heads_of t lab)
        (D.state conn.old) (D.state conn.new) result }
{
    let rows = form_rows(conn, older, lab)?;
    forms_of_rows(alloc, older, &rows)
}

// The version of a form that has the row, with its fields. It is a fault of the store if no form may
// have these fields.
fn form_whole<D: Readable>(alloc: Global, conn: &mut D, head: FormHead) -> Result<FormAt, KeptFault>
    ensures { TriesOld (λ db t. HasFormParts db t head) (λ t. is_kept_form_head t head)
        (λ t form. form ≡ form_at_by t head)
        (D.state conn.old) (D.state conn.new) result }
{
    let fields = fields_at(alloc, conn, head.id)?;
    let form = form_made(fields.into_vec(), head.approval)?;
    Ok(FormAt {
        id: head.id,
        form: FormVersion {
            code: head.code,
            version: head.version,
            form,
        },
    })
}

// The versions of forms that have the rows, with their fields.
fn forms_whole<D: Readable>(
    alloc: Global,
    conn: &mut D,
    heads: Vec<FormHead>,
) -> Result<Series<FormAt>, KeptFault>
    ensures { TriesOld (λ db t. All (HasFormParts db t) heads.items)
        (λ t. list_all (is_kept_form_head t) heads.items)
        (λ t made. made ≡ map (form_at_by t) heads.items)
        (D.state conn.old) (D.state conn.new) result }
{
    let mut made = Series::new(alloc);
    for head in heads {
        let form = form_whole(alloc, conn, head)?;
        made.push(form)?;
    }
    Ok(made)
}

// Whether the version follows the one before, of its form or of another.
fn follows(head: &FormHead, before: Option<&FormHead>) -> bool
    ensures { result ≡ form_follows head.now (option_copied before.entry) }
{
    match before {
        Some(other) => {
            if other.code.as_str() == head.code.as_str() {
                u64::from(head.version.get()) == u64::from(other.version.get()) + 1
            } else {
                head.version.get() == 1
            }
        }
        None => head.version.get() == 1,
    }
}

// Whether the versions of each form are numbered from 1 on.
fn forms_run(heads: &[FormHead]) -> bool
    ensures { result ≡ forms_run None heads.now }
{
    let mut before: Option<&FormHead> = None;
    for head in heads {
        if !follows(head, before) {
            return false;
        }
        before = Some(head);
    }
    true
}

/// Returns the versions of forms of the laboratory with the id, by the ids of their rows and in the
/// order of codes and numbers.
///
/// # Errors
/// They aren't well kept, the store failed, a row isn't one that a program could have written, or
/// memory ran out.
pub fn forms_at<D: Readable>(
    alloc: Global,
    conn: &mut D,
    older: Older,
    lab: i64,
) -> Result<Series<FormAt>, KeptFault>
    ensures { TriesBy older (HasForms older lab) (λ t. are_kept_forms t lab)
        (λ t made. made ≡ forms_at_of t lab)
        (D.state conn.old) (D.state conn.new) result }
{
    let heads = form_heads_at(alloc, conn, older, lab)?;
    if !forms_run(&heads) {
        return Err(KeptFault::NotKept);
    }
    forms_whole(alloc, conn, heads)
}

// The one whose row has the id.
fn form_with_id(forms: &[FormAt], id: i64) -> Option<&FormAt>
    ensures { option_copied result ≡ find (λ one. int_eq one.id id) forms.now }
{
    forms.iter().find(|one| one.id == id)
}

/// Returns the version of a form that the record follows, which has to be one of these and to have
/// the code that the record's row names.
///
/// # Errors
/// It isn't, or memory ran out.
pub(crate) fn named_form(forms: &[FormAt], head: &RecordHead) -> Result<FormVersion, KeptFault>
    ensures tried { IsTried (is_some (named_form forms.now head.now))
        (λ form. Some form ≡ named_form forms.now head.now) result }
    ensures fault { IfErr result (λ fault. ¬ (fault ≡ Storage)) }
{
    let Some(one) = form_with_id(forms, head.form) else {
        return Err(KeptFault::NotKept);
    };
    if one.form.code.as_str() != head.form_code.as_str() {
        return Err(KeptFault::NotKept);
    }
    Ok(one.form.clone()?)
}

/// Returns the versions of forms, without the ids of their rows.
///
/// # Errors
/// Memory ran out.
pub fn forms_alone(alloc: Global, forms: Vec<FormAt>) -> Result<Series<FormVersion>, ReadFault>
    ensures value { IfOk result (λ made. made ≡ map form_of forms.items) }
    ensures fault { IfErr result (λ fault. ¬ (fault ≡ storage)) }
{
    let mut made = Series::new(alloc);
    for one in forms {
        made.push(one.form)?;
    }
    Ok(made)
}
