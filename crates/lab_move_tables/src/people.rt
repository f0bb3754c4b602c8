//! Persons and sessions of a laboratory, each by its own row.

ghost use Rattle.std.specs.Prelude.{◌≡◌, [], ◌∷◌};
ghost use Rattle.sqlite_value.specs.declared.value.Value.TheVariants.{Int};
ghost use Rattle.lab_move_tables.specs.Answering.{IsTaken};
ghost use Rattle.lab_move_tables.specs.Questions.{owner_text, person_text, session_text};
ghost use Rattle.lab_move_tables.specs.Reading.{ReadsByWhere, ReadsOldWhere};
ghost use Rattle.lab_move_tables.specs.Shown.{persons_shown, owners_shown, sessions_shown};

use crate::older::Older;
use lab_store_read::asking::rows_by_one;
use lab_store_read::{ReadFault, Readable};
use sqlite::Row;

/// The persons of the laboratory with the id, in the order of their codes.
///
/// # Errors
/// The store refused, or memory ran out.
pub fn person_rows<D: Readable>(conn: &mut D, older: Older, lab: i64) -> Result<Vec<Row>, ReadFault>
    ensures { ReadsByWhere older (λ db _. IsTaken db (person_text older) (Int lab ∷ []))
        (λ t rows. rows.items ≡ persons_shown older t lab)
        (D.state conn.old) (D.state conn.new) result }
{
    rows_by_one(conn, older.person_text(), lab)
}

/// The code and the laboratory of the person with the id.
///
/// # Errors
/// The store refused, or memory ran out.
pub fn owner_rows<D: Readable>(conn: &mut D, id: i64) -> Result<Vec<Row>, ReadFault>
    ensures { ReadsOldWhere (λ db _. IsTaken db owner_text (Int id ∷ []))
        (λ t rows. rows.items ≡ owners_shown t id)
        (D.state conn.old) (D.state conn.new) result }
{
    rows_by_one(conn, "SELECT code, lab FROM persons WHERE id = ?1", id)
}

/// The sessions of the laboratory with the id, in the order of their numbers, each with the code and the laboratory of its person.
///
/// # Errors
/// The store refused, or memory ran out.
pub fn session_rows<D: Readable>(conn: &mut D, lab: i64) -> Result<Vec<Row>, ReadFault>
    ensures { ReadsOldWhere (λ db _. IsTaken db session_text (Int lab ∷ []))
        (λ t rows. rows.items ≡ sessions_shown t lab)
        (D.state conn.old) (D.state conn.new) result }
{
    rows_by_one(
        conn,
        "SELECT sessions.number, persons.code, sessions.token, sessions.opened, sessions.last, sessions.closed, sessions.signed, persons.lab FROM sessions, persons WHERE sessions.lab = ?1 AND persons.id = sessions.person ORDER BY sessions.number",
        lab,
    )
}
