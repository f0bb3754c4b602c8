//! The fields of a version of a form, with their choices.

ghost use Rattle.std.specs.Prelude.{◌≡◌, [], ◌∷◌, ◌++◌, map, All, IfOk, IfErr};
ghost use Rattle.lab_store_tables.specs.Meaning.{fields_of};
ghost use Rattle.lab_store_read.specs.Causes.{HasItsCause};
ghost use Rattle.lab_store_read.specs.Cells.{storage};
ghost use Rattle.lab_store_read.specs.Reads.{Reads, MayRead};
ghost use Rattle.lab_store_read_forms.specs.Private.Forms.{field_heads_of, field_by};
ghost use Rattle.lab_store_read_forms.specs.Readable.{HasField, HasWholeField, HasNames};
ghost use Rattle.lab_store_read_forms.specs.Shown.{fields_shown, field_read};
ghost use Rattle.lab_store_read_forms.specs.Kinds.{is_choice};
ghost use Rattle.lab_store_read_forms.specs.declared.heads.FieldHead.{FieldHead};

use crate::choices::names_if;
use crate::heads::FieldHead;
use crate::kinds::{is_choice, kind_of_row, kind_with};
use lab_forms::Field;
use lab_store_read::asking::rows_by_one;
use lab_store_read::cells::{flag_of, id_of, text_of};
use lab_store_read::{ReadFault, Readable};
use sqlite::Row;
use std::alloc::Global;

// The fields of the version of a form with the id, in the order of their places.
fn field_rows<D: Readable>(conn: &mut D, form: i64) -> Result<Vec<Row>, ReadFault>
    ensures reads { Reads (λ t rows. rows.items ≡ fields_shown t form)
        (D.state conn.old) (D.state conn.new) result }
    ensures cause { HasItsCause (λ t. Unit {0}) (D.state conn.old) (D.state conn.new) result }
{
    rows_by_one(
        conn,
        "SELECT id, key, label, required, kind, unit, decimals, low, high, size FROM fields WHERE form = ?1 ORDER BY place",
        form,
    )
}

// The field that a row shows.
fn field_of_row(alloc: Global, row: &Row) -> Result<FieldHead, ReadFault>
    ensures value { IfOk result (λ field. field ≡ field_read row.now) }
    ensures fault { IfErr result (λ fault. fault ≡ storage → ¬ HasField row.now) }
{
    let id = id_of(row, 0)?;
    let required = flag_of(row, 3)?;
    let key = text_of(alloc, row, 1)?;
    let label = text_of(alloc, row, 2)?;
    let kind = kind_of_row(alloc, row)?;
    Ok(FieldHead {
        id,
        key,
        label,
        required,
        kind,
    })
}

// The fields that rows show.
fn fields_of_rows(alloc: Global, rows: &[Row]) -> Result<Vec<FieldHead>, ReadFault>
    ensures value { IfOk result (λ made. made.items ≡ map field_read rows.now) }
    ensures fault { IfErr result (λ fault. fault ≡ storage → ¬ All HasField rows.now) }
{
    let mut made = Vec::new(alloc);
    for row in rows {
        made.push(field_of_row(alloc, row)?)?;
    }
    Ok(made)
}

// The own rows of the fields of the version of a form with the id, in the order of their places.
fn field_heads_at<D: Readable>(
    alloc: Global,
    conn: &mut D,
    form: i64,
) -> Result<Vec<FieldHead>, ReadFault>
    ensures reads { Reads (λ t made. made.items ≡ field_heads_of t form)
        (D.state conn.old) (D.state conn.new) result }
    ensures cause { HasItsCause (λ t. All HasField (fields_shown t form))
        (D.state conn.old) (D.state conn.new) result }
{
    let rows = field_rows(conn, form)?;
    fields_of_rows(alloc, &rows)
}

// The field with the row, with its choices.
fn field_whole<D: Readable>(
    alloc: Global,
    conn: &mut D,
    head: FieldHead,
) -> Result<Field, ReadFault>
    ensures reads { MayRead (λ t field. field ≡ field_by t head)
        (D.state conn.old) (D.state conn.new) result }
    ensures cause { HasItsCause (λ t. HasNames t head.id (is_choice head.kind))
        (D.state conn.old) (D.state conn.new) result }
{
    let names = names_if(alloc, conn, head.id, is_choice(&head.kind))?;
    Ok(Field {
        key: head.key,
        label: head.label,
        required: head.required,
        kind: kind_with(head.kind, names),
    })
}

// Adds the field with the row after the others.
fn add_field<D: Readable>(
    alloc: Global,
    conn: &mut D,
    made: &mut Vec<Field>,
    head: FieldHead,
) -> Result<(), ReadFault>
    ensures reads { MayRead (λ t _. made.new.items ≡ made.old.items ++ field_by t head ∷ [])
        (D.state conn.old) (D.state conn.new) result }
    ensures cause { HasItsCause (λ t. HasNames t head.id (is_choice head.kind))
        (D.state conn.old) (D.state conn.new) result }
{
    let field = field_whole(alloc, conn, head)?;
    made.push(field)?;
    Ok(())
}

// Adds the fields with the rows after the others.
fn add_fields<D: Readable>(
    alloc: Global,
    conn: &mut D,
    made: &mut Vec<Field>,
    heads: Vec<FieldHead>,
) -> Result<(), ReadFault>
    ensures reads { MayRead (λ t _. made.new.items ≡ made.old.items ++ map (field_by t) heads.items)
        (D.state conn.old) (D.state conn.new) result }
    ensures cause { HasItsCause (λ t. All (λ (head : FieldHead).
        HasNames t head.id (is_choice head.kind)) heads.items)
        (D.state conn.old) (D.state conn.new) result }
{
    for head in heads {
        add_field(alloc, conn, made, head)?;
    }
    Ok(())
}

/// Returns the fields of the version of a form with the id, in the order of their places, with
/// their choices.
///
/// # Errors
/// The store failed, a row isn't one that this program could have written, or memory ran out.
pub fn fields_at<D: Readable>(
    alloc: Global,
    conn: &mut D,
    form: i64,
) -> Result<Vec<Field>, ReadFault>
    ensures reads { Reads (λ t made. made.items ≡ fields_of t form)
        (D.state conn.old) (D.state conn.new) result }
    ensures cause { HasItsCause (λ t. All (HasWholeField t) (fields_shown t form))
        (D.state conn.old) (D.state conn.new) result }
{
    let heads = field_heads_at(alloc, conn, form)?;
    let mut made = Vec::new(alloc);
    add_fields(alloc, conn, &mut made, heads)?;
    Ok(made)
}
