//! Why what is kept is legible: its types admit nothing else. Each function here is a law: it
//! leaves its arguments as they are.

ghost use Rattle.std.specs.Prelude.{All};
ghost use Rattle.lab_copy_rows.specs.Lines.{IsMeaning, IsVersionReason};
ghost use Rattle.lab_records_copies.specs.CopyLines.{reason_of};
ghost use Rattle.lab_records_kept.specs.Births.{newborn_lab};
ghost use Rattle.lab_records_copy_out.specs.Legible.{IsLegible, IsLegibleChange, IsLegiblePerson, IsLegibleRecord, IsLegibleSignature, IsLegibleVersion, IsLegibleOrder};
ghost use Rattle.lab_records_copy_out.specs.CopyTexts.{desk_order};
ghost use Rattle.lab_seal_versions.specs.Versions.{IsDigest, IsReason, IsRow};

use lab_forms_texts::Series;
use lab_people_access::Person;
use lab_records_kept::{
    Change, Digest, EntryRow, Lab, Meaning, Moment, Newborn, Note, Ordinal, Record, Seal,
    Signature, Version,
};

// A digest has 32 bytes.
fn digest_has_bytes(digest: &Digest)
    ensures { IsDigest digest.now }
{
    let _digits = digest.digits();
}

// A seal has 32 bytes.
fn seal_has_bytes(seal: &Seal)
    ensures { IsDigest seal.now }
{
    digest_has_bytes(&Digest::from_bytes(seal.bytes()));
}

// A reason is a note, if there is one.
fn reason_is_note(reason: &Option<Note>)
    ensures { IsReason reason.now }
{
    if let Some(reason) = reason {
        let _text = reason.as_str();
    }
}

// The parts of a row are what their types admit.
fn row_is_legible(row: &EntryRow)
    ensures { IsRow row.now }
{
    let _key = row.key.as_str();
    let _value = row.value.as_str();
    let _unit = row.unit.as_str();
    let _person = row.person.as_str();
    let _moment = row.moment.seconds();
    reason_is_note(&row.reason);
}

fn rows_are_legible(rows: &[EntryRow])
    ensures { All IsRow rows.now }
{
    for row in rows {
        row_is_legible(row);
    }
}

// The reason of a rejection is a note.
fn meaning_is_legible(meaning: &Meaning)
    ensures { IsMeaning meaning.now }
{
    if let Meaning::Rejection(reason) = meaning {
        let _text = reason.as_str();
    }
}

fn signature_is_legible(signature: &Signature)
    ensures { IsLegibleSignature signature.now }
{
    let _person = signature.person.as_str();
    let _name = signature.name.as_str();
    let _moment = signature.moment.seconds();
    meaning_is_legible(&signature.meaning);
    digest_has_bytes(&signature.digest);
    seal_has_bytes(&signature.seal);
}

fn signatures_are_legible(signatures: &[Signature])
    ensures { All IsLegibleSignature signatures.now }
{
    for signature in signatures {
        signature_is_legible(signature);
    }
}

// A version has a reason unless it is the first, and the reason is a note.
fn reason_is_legible(version: &Version)
    ensures { IsVersionReason version.now.origin.number (reason_of version.now) }
{
    if let Some(amendment) = version.origin.amendment() {
        let _text = amendment.reason.as_str();
    }
}

fn version_is_legible(version: &Version)
    ensures { IsLegibleVersion version.now }
{
    let _number = version.origin.number().get();
    let _opener = version.opener.as_str();
    let _opened = version.opened.seconds();
    reason_is_legible(version);
    rows_are_legible(version.rows.rows());
    signatures_are_legible(version.signatures.as_slice());
}

fn versions_are_legible(versions: &[Version])
    ensures { All IsLegibleVersion versions.now }
{
    for version in versions {
        version_is_legible(version);
    }
}

fn record_is_legible(kept: &Record)
    ensures { IsLegibleRecord kept.now }
{
    let _number = kept.number.get();
    let _form_version = kept.form.version.get();
    let _form = kept.form.code.as_str();
    let _sample = kept.sample.as_str();
    versions_are_legible(kept.versions.as_slice());
}

fn person_is_legible(person: &Person)
    ensures { IsLegiblePerson person.now }
{
    let _code = person.code.as_str();
}

fn persons_are_legible(persons: &[Person])
    ensures { All IsLegiblePerson persons.now }
{
    for person in persons {
        person_is_legible(person);
    }
}

fn records_are_legible(records: &[Record])
    ensures { All IsLegibleRecord records.now }
{
    for kept in records {
        record_is_legible(kept);
    }
}

/// Law: a laboratory is legible.
pub fn lab_is_legible(lab: &Lab)
    ensures { IsLegible lab.now }
{
    let _code = lab.code.as_str();
    let _name = lab.name.as_str();
    persons_are_legible(lab.persons.as_slice());
    records_are_legible(lab.records.as_slice());
}

// What a change adds is what its types admit.
fn change_is_legible(change: &Change)
    ensures { IsLegibleChange change.now }
{
    match change {
        Change::PersonAdded(person) => person_is_legible(person),
        Change::PersonSet(person) => person_is_legible(person),
        Change::RecordAdded(kept) => record_is_legible(kept),
        Change::RowAdded { row, .. } => row_is_legible(row),
        Change::VersionOpened { version, .. } => version_is_legible(version),
        Change::SignatureAdded { signature, .. } => signature_is_legible(signature),
        _ => {}
    }
}

/// Law: what changes add is legible.
pub fn changes_are_legible(changes: &Series<Change>)
    ensures { All IsLegibleChange changes.now }
{
    for change in changes.as_slice() {
        change_is_legible(change);
    }
}

/// Law: a new laboratory is legible.
#[tactic(auto, using(crate::proofs::LegibleLemmas::born_legible))]
pub fn newborn_is_legible(newborn: &Newborn)
    ensures { IsLegible (newborn_lab newborn.now) }
{
    let _code = newborn.code.as_str();
    let _name = newborn.name.as_str();
    person_is_legible(&newborn.first);
    person_is_legible(&newborn.second);
    person_is_legible(&newborn.third);
}

/// Law: the range of a copy and its moment are what their types admit.
pub fn order_is_legible(from: Ordinal, to: Ordinal, moment: Moment)
    ensures { IsLegibleOrder (desk_order from to moment) }
{
    let _from = from.get();
    let _to = to.get();
    let _moment = moment.seconds();
}
