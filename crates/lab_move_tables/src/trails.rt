//! Rows of the trail of a laboratory.

ghost use Rattle.std.specs.Prelude.{◌≡◌, [], ◌∷◌};
ghost use Rattle.sqlite_value.specs.declared.value.Value.TheVariants.{Int};
ghost use Rattle.lab_move_tables.specs.Answering.{IsTaken};
ghost use Rattle.lab_move_tables.specs.Questions.{told_text};
ghost use Rattle.lab_move_tables.specs.Reading.{ReadsOldWhere};
ghost use Rattle.lab_move_tables.specs.Shown.{trail_shown};

use lab_store_read::asking::rows_by_one;
use lab_store_read::{ReadFault, Readable};
use sqlite::Row;

/// The rows of the trail of the laboratory with the id, in the order of their numbers.
///
/// # Errors
/// The store refused, or memory ran out.
pub fn told_rows<D: Readable>(conn: &mut D, lab: i64) -> Result<Vec<Row>, ReadFault>
    ensures { ReadsOldWhere (λ db _. IsTaken db told_text (Int lab ∷ []))
        (λ t rows. rows.items ≡ trail_shown t lab)
        (D.state conn.old) (D.state conn.new) result }
{
    rows_by_one(
        conn,
        "SELECT number, moment, person, action, subject FROM trail WHERE lab = ?1 ORDER BY number",
        lab,
    )
}
