//! Versions of forms of a laboratory, their fields and the names of these, each by its own row.

ghost use Rattle.std.specs.Prelude.{◌≡◌, [], ◌∷◌};
ghost use Rattle.sqlite_value.specs.declared.value.Value.TheVariants.{Int};
ghost use Rattle.lab_move_tables.specs.Answering.{IsTaken};
ghost use Rattle.lab_move_tables.specs.Questions.{choice_text, field_text, form_text};
ghost use Rattle.lab_move_tables.specs.Reading.{ReadsByWhere, ReadsOldWhere};
ghost use Rattle.lab_move_tables.specs.Shown.{forms_shown, fields_shown, choices_shown};

use crate::older::Older;
use lab_store_read::asking::rows_by_one;
use lab_store_read::{ReadFault, Readable};
use sqlite::Row;

/// The versions of all forms of the laboratory with the id, in the order of codes and numbers.
///
/// # Errors
/// The store refused, or memory ran out.
pub fn form_rows<D: Readable>(conn: &mut D, older: Older, lab: i64) -> Result<Vec<Row>, ReadFault>
    ensures { ReadsByWhere older (λ db _. IsTaken db (form_text older) (Int lab ∷ []))
        (λ t rows. rows.items ≡ forms_shown older t lab)
        (D.state conn.old) (D.state conn.new) result }
{
    rows_by_one(conn, older.form_text(), lab)
}

/// The fields of the version of a form with the id, in the order of their places.
///
/// # Errors
/// The store refused, or memory ran out.
pub fn field_rows<D: Readable>(conn: &mut D, form: i64) -> Result<Vec<Row>, ReadFault>
    ensures { ReadsOldWhere (λ db _. IsTaken db field_text (Int form ∷ []))
        (λ t rows. rows.items ≡ fields_shown t form)
        (D.state conn.old) (D.state conn.new) result }
{
    rows_by_one(
        conn,
        "SELECT id, key, label, required, kind, unit, decimals, low, high, size, place FROM fields WHERE form = ?1 ORDER BY place",
        form,
    )
}

/// The names of the field with the id, in the order of their places.
///
/// # Errors
/// The store refused, or memory ran out.
pub fn choice_rows<D: Readable>(conn: &mut D, field: i64) -> Result<Vec<Row>, ReadFault>
    ensures { ReadsOldWhere (λ db _. IsTaken db choice_text (Int field ∷ []))
        (λ t rows. rows.items ≡ choices_shown t field)
        (D.state conn.old) (D.state conn.new) result }
{
    rows_by_one(
        conn,
        "SELECT name, place FROM choices WHERE field = ?1 ORDER BY place",
        field,
    )
}
