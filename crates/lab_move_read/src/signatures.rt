//! Signatures of a version.

ghost use Rattle.std.specs.Prelude.{◌≡◌, ◌&&◌, length, map, All, IfErr, IfOk, IfSome, IsFalse, None};
ghost use Rattle.sqlite_value.specs.Order.{column, bytes};
ghost use Rattle.lab_store_tables.specs.Columns.{meaning_in};
ghost use Rattle.lab_store_tables.specs.Meaning.{signatures_of};
ghost use Rattle.lab_move_tables.specs.OldRows.{reason_in};
ghost use Rattle.lab_move_tables.specs.KeptLabs.{are_kept_signatures};
ghost use Rattle.lab_move_tables.specs.Checks.{are_owned};
ghost use Rattle.lab_store_read.specs.Cells.{storage};
ghost use Rattle.lab_move_read_people.specs.declared.faults.KeptFault.TheVariants.{Storage};
ghost use Rattle.lab_move_read.specs.Readable.{AreSignatures, HasOldMeaning, HasOldSignature, HasSignatures, is_old_meaning};
ghost use Rattle.lab_move_read_people.specs.Private.Kept.{IsTried};
ghost use Rattle.lab_move_read_people.specs.Kept.{TriesOld, are_counted};
ghost use Rattle.lab_move_read.specs.Private.Records.{signature_read};

use lab_forms_texts::{Keys, Note, Series, Text};
use lab_move_read_people::KeptFault;
use lab_move_read_people::cells::{are_counted, reason_of};
use lab_move_tables::{are_owned, signature_places, signature_rows};
use lab_records_kept::Signature;
use lab_seal_versions::{Meaning, Seal};
use lab_store_read::cells::{digest_of, moment_of, text_of};
use lab_store_read::{BadStore, ReadFault, Readable};
use sqlite::Row;
use std::alloc::Global;

// What a version was signed as, by its word and its reason. `None` where no meaning is stored with this word and reason: a
// rejection alone has a reason.
fn meaning_by(word: &str, reason: Option<Note>) -> Option<Meaning>
    ensures value { IfSome result (λ meaning. meaning ≡ meaning_in word.now reason) }
    ensures none { result ≡ None → IsFalse (is_old_meaning word.now reason) }
{
    match reason {
        Some(reason) => match word {
            "rejection" => Some(Meaning::Rejection(reason)),
            _ => None,
        },
        None => match word {
            "authorship" => Some(Meaning::Authorship),
            "review" => Some(Meaning::Review),
            "approval" => Some(Meaning::Approval),
            _ => None,
        },
    }
}

// What the version was signed as, which stands in two columns of a row.
fn meaning_of(alloc: Global, row: &Row) -> Result<Meaning, ReadFault>
    ensures value { IfOk result (λ meaning. meaning
        ≡ meaning_in (bytes (column row.now 2)) (reason_in (column row.now 3))) }
    ensures fault { IfErr result (λ fault. fault ≡ storage → ¬ HasOldMeaning row.now) }
{
    let word: Text<Keys> = text_of(alloc, row, 2)?;
    let reason = reason_of(alloc, row, 3)?;
    meaning_by(word.as_str(), reason).ok_or(ReadFault::Refused(BadStore))
}

// The signature that a row shows.
fn signature_of_row(alloc: Global, row: &Row) -> Result<Signature, ReadFault>
    ensures value { IfOk result (λ signature. signature ≡ signature_read row.now) }
    ensures fault { IfErr result (λ fault. fault ≡ storage → ¬ HasOldSignature row.now) }
{
    let moment = moment_of(row, 4)?;
    let digest = digest_of(row, 5)?;
    let seal = Seal::from_bytes(digest_of(row, 6)?.bytes());
    let person = text_of(alloc, row, 0)?;
    let name = text_of(alloc, row, 1)?;
    let meaning = meaning_of(alloc, row)?;
    Ok(Signature {
        person,
        name,
        meaning,
        moment,
        digest,
        seal,
    })
}

// The signatures that rows show.
fn signatures_of_rows(alloc: Global, rows: &[Row]) -> Result<Vec<Signature>, ReadFault>
    ensures value { IfOk result (λ made. made.items ≡ map signature_read rows.now) }
    ensures fault { IfErr result (λ fault. fault ≡ storage → ¬ All HasOldSignature rows.now) }
{
    let mut made = Vec::new(alloc);
    for row in rows {
        made.push(signature_of_row(alloc, row)?)?;
    }
    Ok(made)
}

// The signatures that rows show. The rows have to be as many as the places, numbered, and of persons
// of the laboratory.
#[tactic(auto, using(lab_move_read_people::proofs::Found::told_back))]
fn signatures_tried(
    alloc: Global,
    rows: &[Row],
    places: &[Row],
    lab: i64,
) -> Result<Series<Signature>, KeptFault>
    ensures tried { IsTried (are_counted 7 (length places.now) rows.now && are_owned 8 lab rows.now)
        (λ made. made ≡ map signature_read rows.now) result }
    ensures fault { IfErr result (λ fault. fault ≡ Storage → ¬ AreSignatures rows.now) }
{
    if !are_counted(rows, 7, places.len() as u64)? {
        return Err(KeptFault::NotKept);
    }
    if !are_owned(rows, 8, lab)? {
        return Err(KeptFault::NotKept);
    }
    Ok(Series::from_vec(signatures_of_rows(alloc, rows)?))
}

/// Returns the signatures of the version with the id, in the order of their places. A signature
/// whose person isn't there is missing among the rows, and not among the places.
///
/// # Errors
/// They aren't well kept, the store failed, a row isn't one that a program could have written, or
/// memory ran out.
pub(crate) fn signatures_at<D: Readable>(
    alloc: Global,
    conn: &mut D,
    lab: i64,
    version: i64,
) -> Result<Series<Signature>, KeptFault>
    ensures { TriesOld (HasSignatures version) (λ t. are_kept_signatures t lab version)
        (λ t made. made ≡ signatures_of t version)
        (D.state conn.old) (D.state conn.new) result }
{
    let rows = signature_rows(conn, version)?;
    let places = signature_places(conn, version)?;
    signatures_tried(alloc, &rows, &places, lab)
}
