//! Signatures of a version.

ghost use Rattle.std.specs.Prelude.{◌≡◌, map, All, IfOk, IfErr, IfSome, IfNone, IsFalse};
ghost use Rattle.lab_store_tables.specs.Columns.{meaning_in};
ghost use Rattle.lab_store_tables.specs.Meaning.{signatures_of};
ghost use Rattle.lab_store_read_records.specs.Shown.{signatures_shown};
ghost use Rattle.lab_store_read_records.specs.Private.Shown.{signature_read};
ghost use Rattle.sqlite_value.specs.Order.{column, bytes};
ghost use Rattle.lab_store_tables.specs.Rows.{optional_in};
ghost use Rattle.lab_store_read.specs.Causes.{HasItsCause};
ghost use Rattle.lab_store_read.specs.Cells.{storage};
ghost use Rattle.lab_store_read.specs.Reads.{Reads};
ghost use Rattle.lab_store_read_records.specs.Readable.{is_meaning, HasMeaning, HasSignature};

use lab_forms_texts::{Keys, Note, Text};
use lab_records_kept::Signature;
use lab_seal_versions::{Meaning, Seal};
use lab_store_read::asking::rows_by_one;
use lab_store_read::cells::{digest_of, moment_of, text_if, text_of};
use lab_store_read::{BadStore, ReadFault, Readable};
use sqlite::Row;
use std::alloc::Global;

// The signatures of the version with the id, in the order of their places.
fn signature_rows<D: Readable>(conn: &mut D, version: i64) -> Result<Vec<Row>, ReadFault>
    ensures reads { Reads (λ t rows. rows.items ≡ signatures_shown t version)
        (D.state conn.old) (D.state conn.new) result }
    ensures cause { HasItsCause (λ t. Unit {0}) (D.state conn.old) (D.state conn.new) result }
{
    rows_by_one(
        conn,
        "SELECT persons.code, signatures.name, signatures.meaning, signatures.reason, signatures.moment, signatures.digest, signatures.seal FROM signatures, persons WHERE signatures.version = ?1 AND persons.id = signatures.person ORDER BY signatures.place",
        version,
    )
}

// What a version was signed as, by its word and its reason. `None` if no meaning is stored with
// this word and reason: only a rejection has a reason.
fn meaning_by(word: &str, reason: Option<Note>) -> Option<Meaning>
    ensures value { IfSome result (λ meaning. meaning ≡ meaning_in word.now reason) }
    ensures none { IfNone result (IsFalse (is_meaning word.now reason)) }
{
    match word {
        "authorship" => Some(Meaning::Authorship),
        "review" => Some(Meaning::Review),
        "rejection" => match reason {
            Some(reason) => Some(Meaning::Rejection(reason)),
            None => None,
        },
        "approval" => Some(Meaning::Approval),
        _ => None,
    }
}

// What the version was signed as, read from two columns of a row.
fn meaning_of(alloc: Global, row: &Row) -> Result<Meaning, ReadFault>
    ensures value { IfOk result (λ meaning. meaning
        ≡ meaning_in (bytes (column row.now 2)) (optional_in bytes (column row.now 3))) }
    ensures fault { IfErr result (λ fault. fault ≡ storage → ¬ HasMeaning row.now) }
{
    let word: Text<Keys> = text_of(alloc, row, 2)?;
    let reason = text_if(alloc, row, 3)?;
    meaning_by(word.as_str(), reason).ok_or(ReadFault::Refused(BadStore))
}

// The signature that a row shows.
fn signature_of_row(alloc: Global, row: &Row) -> Result<Signature, ReadFault>
    ensures value { IfOk result (λ signature. signature ≡ signature_read row.now) }
    ensures fault { IfErr result (λ fault. fault ≡ storage → ¬ HasSignature row.now) }
{
    let moment = moment_of(row, 4)?;
    let digest = digest_of(row, 5)?;
    let seal = Seal::from_bytes(digest_of(row, 6)?.bytes());
    let person = text_of(alloc, row, 0)?;
    let name = text_of(alloc, row, 1)?;
    let meaning = meaning_of(alloc, row)?;
    Ok(Signature {
        person,
        name,
        meaning,
        moment,
        digest,
        seal,
    })
}

// The signatures that rows show.
fn signatures_of_rows(alloc: Global, rows: &[Row]) -> Result<Vec<Signature>, ReadFault>
    ensures value { IfOk result (λ made. made.items ≡ map signature_read rows.now) }
    ensures fault { IfErr result (λ fault. fault ≡ storage → ¬ All HasSignature rows.now) }
{
    let mut made = Vec::new(alloc);
    for row in rows {
        made.push(signature_of_row(alloc, row)?)?;
    }
    Ok(made)
}

/// Returns the signatures of the version with the id, in the order of their places.
///
/// # Errors
/// The store failed, a row isn't one that this program could have written, or memory ran out.
pub fn signatures_at<D: Readable>(
    alloc: Global,
    conn: &mut D,
    version: i64,
) -> Result<Vec<Signature>, ReadFault>
    ensures reads { Reads (λ t made. made.items ≡ signatures_of t version)
        (D.state conn.old) (D.state conn.new) result }
    ensures cause { HasItsCause (λ t. All HasSignature (signatures_shown t version))
        (D.state conn.old) (D.state conn.new) result }
{
    let rows = signature_rows(conn, version)?;
    signatures_of_rows(alloc, &rows)
}
