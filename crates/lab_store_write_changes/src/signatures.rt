//! The signatures of a version, each added after those that the version has.

ghost use Rattle.lab_records_kept.specs.declared.changes.Change.TheVariants.{SignatureAdded};
ghost use Rattle.lab_store_tables.specs.Changes.{AppliesIn, AddsSignature};
ghost use Rattle.lab_store_write.specs.Calls.{WritesTrying};
ghost use Rattle.lab_store_write.specs.Private.Calls.{Becomes};
ghost use Rattle.lab_store_write.specs.Causes.{IsTooGreat};
ghost use Rattle.lab_store_write_changes.specs.Private.EntriesAdded.{with_signature};
ghost use Rattle.lab_store_write_changes.specs.Tried.{Only, TriesToAddSignature, TriesIn, WritesKnowing, adding_signature_at};

use crate::named::version_at;
use crate::places::signature_place;
use crate::texts::reason_or_null;
use lab_forms_texts::Ordinal;
use lab_records_kept::Signature;
use lab_store_write::statements::run;
use lab_store_write::values::{blob_value, id_value, moment_value, place_value, text_value};
use lab_store_write::{Giver, RowId, Writable, person_id_by};
use sqlite::Error;

// Adds the row.
fn insert_signature<W: Writable>(
    tx: &mut W,
    version: RowId,
    place: u64,
    person: RowId,
    signature: &Signature,
) -> Result<usize, Error>
    requires { ¬ IsTooGreat place }
    ensures { WritesTrying (Only (adding_signature_at version.id place person.id signature.now))
        W.lender W.state
        (Becomes (with_signature version.id place person.id signature.now)) tx.old tx.new result }
{
    let name = signature.name.as_str();
    let meaning = signature.meaning.word();
    let digest = signature.digest.bytes();
    let seal = signature.seal.bytes();
    run(
        tx,
        "INSERT INTO signatures (version, place, person, name, meaning, moment, reason, digest, seal) VALUES (?1, ?2, ?3, ?4, ?5, ?6, ?7, ?8, ?9)",
        &[
            id_value(version),
            place_value(place),
            id_value(person),
            text_value(name),
            text_value(meaning),
            moment_value(signature.moment),
            reason_or_null(&signature.meaning),
            blob_value(&digest),
            blob_value(&seal),
        ],
    )
}

/// Adds a signature after those that the version has.
///
/// # Errors
/// The errors of `Writable`, or nobody has the code of the signer.
pub(crate) fn add_signature<W: Writable>(
    tx: &mut W,
    lab: RowId,
    giver: Option<Giver<'_>>,
    version: RowId,
    signature: &Signature,
) -> Result<(), Error>
    ensures { WritesKnowing lab.id giver.entry (TriesToAddSignature lab.id version.id signature.now)
        (AddsSignature lab.id version.id signature.now) W.lender W.state tx.old tx.new result }
{
    let person = person_id_by(tx, lab, giver, &signature.person)?;
    let place = signature_place(tx, version)?;
    insert_signature(tx, version, place, person, signature)?;
    Ok(())
}

/// Adds a signature of a version of a record.
///
/// # Errors
/// The errors of `Writable`, or no such version exists, or nobody has the code.
pub fn sign_version<W: Writable>(
    tx: &mut W,
    lab: RowId,
    giver: Option<Giver<'_>>,
    wanted: Ordinal,
    version: Ordinal,
    signature: &Signature,
) -> Result<(), Error>
    ensures { WritesKnowing lab.id giver.entry
        (TriesIn lab.id (SignatureAdded wanted version signature.now))
        (AppliesIn lab.id (SignatureAdded wanted version signature.now))
        W.lender W.state tx.old tx.new result }
{
    let signed = version_at(tx, lab, wanted, version)?;
    add_signature(tx, lab, giver, signed, signature)
}
