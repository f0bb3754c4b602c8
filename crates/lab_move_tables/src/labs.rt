//! Laboratories, each by its own row.

ghost use Rattle.std.specs.Prelude.{◌≡◌, [], ◌∷◌};
ghost use Rattle.sqlite_value.specs.declared.value.Value.TheVariants.{Text};
ghost use Rattle.lab_move_tables.specs.Answering.{IsTaken};
ghost use Rattle.lab_move_tables.specs.Questions.{codes_text, lab_text};
ghost use Rattle.lab_move_tables.specs.Reading.{ReadsOldWhere};
ghost use Rattle.lab_move_tables.specs.Shown.{codes_shown, labs_shown};

use crate::asking::rows_by_none;
use lab_store_read::asking::rows_by_text;
use lab_store_read::{ReadFault, Readable};
use sqlite::Row;

/// The codes of all laboratories, in the order of their bytes.
///
/// # Errors
/// The store refused, or memory ran out.
pub fn code_rows<D: Readable>(conn: &mut D) -> Result<Vec<Row>, ReadFault>
    ensures { ReadsOldWhere (λ db _. IsTaken db codes_text [])
        (λ t rows. rows.items ≡ codes_shown t)
        (D.state conn.old) (D.state conn.new) result }
{
    rows_by_none(conn, "SELECT code FROM labs ORDER BY code")
}

/// The row of the laboratory with the code, if there is one.
///
/// # Errors
/// The store refused, or memory ran out.
pub fn lab_rows<D: Readable>(conn: &mut D, code: &str) -> Result<Vec<Row>, ReadFault>
    ensures { ReadsOldWhere (λ db _. IsTaken db lab_text (Text code.now ∷ []))
        (λ t rows. rows.items ≡ labs_shown t code.now)
        (D.state conn.old) (D.state conn.new) result }
{
    rows_by_text(
        conn,
        "SELECT id, code, name, last, stray, records, sessions, trail FROM labs WHERE code = ?1",
        code,
    )
}
