//! Records of a laboratory, their versions, and the entries and signatures of these, each by its own row.

ghost use Rattle.std.specs.Prelude.{◌≡◌, [], ◌∷◌, map};
ghost use Rattle.sqlite_value.specs.declared.value.Value.TheVariants.{Int};
ghost use Rattle.lab_move_tables.specs.Answering.{IsTaken};
ghost use Rattle.lab_move_tables.specs.Questions.{entry_place_text, entry_text, filed_text, signature_place_text, signature_text, version_text};
ghost use Rattle.lab_move_tables.specs.Reading.{ReadsByWhere, ReadsOldWhere};
ghost use Rattle.lab_move_tables.specs.Showing.{said_at};
ghost use Rattle.lab_move_tables.specs.Shown.{records_shown, versions_shown, entries_shown, entry_places_shown, signatures_shown, signature_places_shown};

use crate::older::Older;
use lab_store_read::asking::rows_by_one;
use lab_store_read::{ReadFault, Readable};
use sqlite::Row;

/// The records of the laboratory with the id, in the order of their numbers.
///
/// # Errors
/// The store refused, or memory ran out.
pub fn record_rows<D: Readable>(conn: &mut D, lab: i64) -> Result<Vec<Row>, ReadFault>
    ensures { ReadsOldWhere (λ db _. IsTaken db filed_text (Int lab ∷ []))
        (λ t rows. rows.items ≡ records_shown t lab)
        (D.state conn.old) (D.state conn.new) result }
{
    rows_by_one(
        conn,
        "SELECT id, number, form, form_code, sample, current FROM records WHERE lab = ?1 ORDER BY number",
        lab,
    )
}

/// The versions of the record with the id, in the order of their numbers, each with the code and the laboratory of its opener.
///
/// # Errors
/// The store refused, or memory ran out.
pub fn version_rows<D: Readable>(
    conn: &mut D,
    older: Older,
    kept: i64,
) -> Result<Vec<Row>, ReadFault>
    ensures { ReadsByWhere older (λ db _. IsTaken db (version_text older) (Int kept ∷ []))
        (λ t rows. map (said_at 4) rows.items ≡ versions_shown older t kept)
        (D.state conn.old) (D.state conn.new) result }
{
    rows_by_one(conn, older.version_text(), kept)
}

/// The entries of the version with the id, in the order of their places, each with the code and the laboratory of its person.
///
/// # Errors
/// The store refused, or memory ran out.
pub fn entry_rows<D: Readable>(conn: &mut D, version: i64) -> Result<Vec<Row>, ReadFault>
    ensures { ReadsOldWhere (λ db _. IsTaken db entry_text (Int version ∷ []))
        (λ t rows. map (said_at 5) rows.items ≡ entries_shown t version)
        (D.state conn.old) (D.state conn.new) result }
{
    rows_by_one(
        conn,
        "SELECT entries.key, entries.value, entries.unit, persons.code, entries.moment, entries.reason, entries.place, persons.lab FROM entries, persons WHERE entries.version = ?1 AND persons.id = entries.person ORDER BY entries.place",
        version,
    )
}

/// The places of all entries of the version with the id, in their order, also of those whose person isn't there.
///
/// # Errors
/// The store refused, or memory ran out.
pub fn entry_places<D: Readable>(conn: &mut D, version: i64) -> Result<Vec<Row>, ReadFault>
    ensures { ReadsOldWhere (λ db _. IsTaken db entry_place_text (Int version ∷ []))
        (λ t rows. rows.items ≡ entry_places_shown t version)
        (D.state conn.old) (D.state conn.new) result }
{
    rows_by_one(
        conn,
        "SELECT place FROM entries WHERE version = ?1 ORDER BY place",
        version,
    )
}

/// The signatures of the version with the id, in the order of their places, each with the code and the laboratory of its person.
///
/// # Errors
/// The store refused, or memory ran out.
pub fn signature_rows<D: Readable>(conn: &mut D, version: i64) -> Result<Vec<Row>, ReadFault>
    ensures { ReadsOldWhere (λ db _. IsTaken db signature_text (Int version ∷ []))
        (λ t rows. map (said_at 3) rows.items ≡ signatures_shown t version)
        (D.state conn.old) (D.state conn.new) result }
{
    rows_by_one(
        conn,
        "SELECT persons.code, signatures.name, signatures.meaning, signatures.reason, signatures.moment, signatures.digest, signatures.seal, signatures.place, persons.lab FROM signatures, persons WHERE signatures.version = ?1 AND persons.id = signatures.person ORDER BY signatures.place",
        version,
    )
}

/// The places of all signatures of the version with the id, in their order, also of those whose person isn't there.
///
/// # Errors
/// The store refused, or memory ran out.
pub fn signature_places<D: Readable>(conn: &mut D, version: i64) -> Result<Vec<Row>, ReadFault>
    ensures { ReadsOldWhere (λ db _. IsTaken db signature_place_text (Int version ∷ []))
        (λ t rows. rows.items ≡ signature_places_shown t version)
        (D.state conn.old) (D.state conn.new) result }
{
    rows_by_one(
        conn,
        "SELECT place FROM signatures WHERE version = ?1 ORDER BY place",
        version,
    )
}
