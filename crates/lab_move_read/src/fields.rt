//! The fields of a version of a form, with their choices.

ghost use Rattle.std.specs.Prelude.{◌≡◌, [], ◌∷◌, map, All, IfErr, IfOk};
ghost use Rattle.sqlite_value.specs.declared.value.Value.TheVariants.{Int};
ghost use Rattle.std.specs.List.{list_all};
ghost use Rattle.lab_store_tables.specs.Meaning.{fields_of, names_of};
ghost use Rattle.lab_store_read_forms.specs.Private.Forms.{field_by, field_heads_of};
ghost use Rattle.lab_store_read_forms.specs.KindsShown.{name_read};
ghost use Rattle.lab_store_read_forms.specs.Shown.{field_read};
ghost use Rattle.lab_move_tables.specs.Checks.{are_rows_numbered};
ghost use Rattle.lab_move_tables.specs.KeptLabs.{are_kept_names, are_kept_fields};
ghost use Rattle.lab_store_read.specs.Cells.{storage};
ghost use Rattle.lab_move_tables.specs.Answering.{IsTaken};
ghost use Rattle.lab_move_tables.specs.Questions.{field_text};
ghost use Rattle.lab_move_tables.specs.Shown.{fields_shown};
ghost use Rattle.lab_move_read_people.specs.declared.faults.KeptFault.TheVariants.{Storage};
ghost use Rattle.lab_move_read.specs.Readable.{AreFields, AreNames, HasFieldNames, HasFieldsOf, HasNamesOf, HasOldField};
ghost use Rattle.lab_move_read_people.specs.Private.Kept.{IsTried};
ghost use Rattle.lab_move_read_people.specs.Kept.{TriesOld};
ghost use Rattle.lab_move_read.specs.Private.Forms.{are_kept_places, is_kept_field_head};

use lab_forms::Field;
use lab_forms_texts::{Name, Series};
use lab_move_read_people::KeptFault;
use lab_move_read_people::cells::flag_of;
use lab_move_tables::{are_rows_numbered, choice_rows, field_rows};
use lab_store_read::cells::{id_of, text_of};
use lab_store_read::{ReadFault, Readable};
use lab_store_read_forms::{FieldHead, kind_of_row, kind_with, names_of_rows};
use sqlite::Row;
use std::alloc::Global;

// The names that rows show. The rows have to be numbered.
#[tactic(auto, using(lab_move_read_people::proofs::Found::told_back))]
fn names_tried(alloc: Global, rows: &[Row]) -> Result<Vec<Name>, KeptFault>
    ensures tried { IsTried (are_rows_numbered 1 rows.now)
        (λ made. made.items ≡ map name_read rows.now) result }
    ensures fault { IfErr result (λ fault. fault ≡ Storage → ¬ AreNames rows.now) }
{
    if !are_rows_numbered(rows, 1)? {
        return Err(KeptFault::NotKept);
    }
    Ok(names_of_rows(alloc, rows)?)
}

// The names of the field with the id, in the order of their places.
fn names_at<D: Readable>(alloc: Global, conn: &mut D, field: i64) -> Result<Vec<Name>, KeptFault>
    ensures { TriesOld (HasNamesOf field) (λ t. are_kept_names t field)
        (λ t made. made.items ≡ names_of t field)
        (D.state conn.old) (D.state conn.new) result }
{
    let rows = choice_rows(conn, field)?;
    names_tried(alloc, &rows)
}

// The field that a row shows.
fn field_of_row(alloc: Global, row: &Row) -> Result<FieldHead, ReadFault>
    ensures value { IfOk result (λ field. field ≡ field_read row.now) }
    ensures fault { IfErr result (λ fault. fault ≡ storage → ¬ HasOldField row.now) }
{
    let id = id_of(row, 0)?;
    let required = flag_of(row, 3)?;
    let key = text_of(alloc, row, 1)?;
    let label = text_of(alloc, row, 2)?;
    let kind = kind_of_row(alloc, row)?;
    Ok(FieldHead {
        id,
        key,
        label,
        required,
        kind,
    })
}

// The fields that rows show.
fn fields_of_rows(alloc: Global, rows: &[Row]) -> Result<Vec<FieldHead>, ReadFault>
    ensures value { IfOk result (λ made. made.items ≡ map field_read rows.now) }
    ensures fault { IfErr result (λ fault. fault ≡ storage → ¬ All HasOldField rows.now) }
{
    let mut made = Vec::new(alloc);
    for row in rows {
        made.push(field_of_row(alloc, row)?)?;
    }
    Ok(made)
}

// The fields that rows show. The rows have to be numbered.
#[tactic(auto, using(lab_move_read_people::proofs::Found::told_back))]
fn fields_tried(alloc: Global, rows: &[Row]) -> Result<Vec<FieldHead>, KeptFault>
    ensures tried { IsTried (are_rows_numbered 10 rows.now)
        (λ made. made.items ≡ map field_read rows.now) result }
    ensures fault { IfErr result (λ fault. fault ≡ Storage → ¬ AreFields rows.now) }
{
    if !are_rows_numbered(rows, 10)? {
        return Err(KeptFault::NotKept);
    }
    Ok(fields_of_rows(alloc, rows)?)
}

// The own rows of the fields of the version of a form with the id, in the order of their places.
fn field_heads_at<D: Readable>(
    alloc: Global,
    conn: &mut D,
    form: i64,
) -> Result<Vec<FieldHead>, KeptFault>
    ensures { TriesOld
        (λ db t. IsTaken db field_text (Int form ∷ []) × AreFields (fields_shown t form))
        (λ t. are_kept_places t form) (λ t made. made.items ≡ field_heads_of t form)
        (D.state conn.old) (D.state conn.new) result }
{
    let rows = field_rows(conn, form)?;
    fields_tried(alloc, &rows)
}

// The field of the row, with its choices.
fn field_whole<D: Readable>(
    alloc: Global,
    conn: &mut D,
    head: FieldHead,
) -> Result<Field, KeptFault>
    ensures { TriesOld (λ db t. HasFieldNames db t head) (λ t. is_kept_field_head t head)
        (λ t field. field ≡ field_by t head)
        (D.state conn.old) (D.state conn.new) result }
{
    let names = names_at(alloc, conn, head.id)?;
    Ok(Field {
        key: head.key,
        label: head.label,
        required: head.required,
        kind: kind_with(head.kind, names),
    })
}

// The fields of the rows, with their choices.
fn fields_whole<D: Readable>(
    alloc: Global,
    conn: &mut D,
    heads: Vec<FieldHead>,
) -> Result<Series<Field>, KeptFault>
    ensures { TriesOld (λ db t. All (HasFieldNames db t) heads.items)
        (λ t. list_all (is_kept_field_head t) heads.items)
        (λ t made. made ≡ map (field_by t) heads.items)
        (D.state conn.old) (D.state conn.new) result }
{
    let mut made = Series::new(alloc);
    for head in heads {
        let field = field_whole(alloc, conn, head)?;
        made.push(field)?;
    }
    Ok(made)
}

/// Returns the fields of the version of a form with the id, in the order of their places, with their
/// choices.
///
/// # Errors
/// They aren't well kept, the store failed, a row isn't one that a program could have written, or
/// memory ran out.
pub(crate) fn fields_at<D: Readable>(
    alloc: Global,
    conn: &mut D,
    form: i64,
) -> Result<Series<Field>, KeptFault>
    ensures { TriesOld (HasFieldsOf form) (λ t. are_kept_fields t form)
        (λ t made. made ≡ fields_of t form)
        (D.state conn.old) (D.state conn.new) result }
{
    let heads = field_heads_at(alloc, conn, form)?;
    fields_whole(alloc, conn, heads)
}
