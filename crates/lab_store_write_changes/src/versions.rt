//! Versions of records, each with its rows and its signatures.

ghost use Rattle.std.specs.Prelude.{◌≡◌, pos};
ghost use Rattle.sqlite_keyed.specs.Keyed.{next_key};
ghost use Rattle.lab_records_kept.specs.declared.changes.Change.TheVariants.{VersionOpened};
ghost use Rattle.lab_store_tables.specs.Rows.{version_id};
ghost use Rattle.lab_store_tables.specs.Columns.{format_number};
ghost use Rattle.lab_store_tables.specs.Changes.{AppliesIn, InTurn, AddsEntry, AddsSignature, AddsVersion, version_row_of, set_current as with_current};
ghost use Rattle.lab_store_write.specs.Calls.{AnswersTrying, WritesTrying};
ghost use Rattle.lab_store_write.specs.Private.Calls.{Becomes};
ghost use Rattle.lab_store_write.specs.Givers.{Knows};
ghost use Rattle.lab_store_write.specs.Private.Givers.{EachKnowing};
ghost use Rattle.lab_store_write_changes.specs.RecordsAdded.{with_version};
ghost use Rattle.lab_store_write_changes.specs.Tried.{Only, TriedFrom, TriesToAddEntries, TriesToAddSignatures, TriesToAddVersion, TriesIn, WritesKnowing, adding_version, setting_current};

use crate::entries::add_entry;
use crate::named::record_at;
use crate::signatures::add_signature;
use crate::texts::cause_or_null;
use lab_forms_texts::Ordinal;
use lab_records_kept::{Signature, Version};
use lab_seal_versions::{EntryRow, Format};
use lab_store_write::ids::insert;
use lab_store_write::statements::run;
use lab_store_write::values::{id_value, moment_value, ordinal_value, small_value};
use lab_store_write::{Giver, RowId, Writable, person_id_by};
use sqlite::Error;

// The number of a format.
fn format_number(format: Format) -> u32
    ensures { result ≡ format_number format }
{
    match format {
        Format::One => 1,
        Format::Two { .. } => 2,
    }
}

// Adds the row.
fn insert_version<W: Writable>(
    tx: &mut W,
    kept: RowId,
    opener: RowId,
    version: &Version,
) -> Result<RowId, Error>
    ensures { AnswersTrying
        (Only (adding_version (version_row_of kept.id (pos 0) opener.id version.now)))
        W.lender W.state (λ one before after.
        (one.id ≡ next_key version_id before.versions)
        × (after ≡ with_version kept.id opener.id version.now before))
        tx.old tx.new result }
{
    let number = version.origin.number();
    let format = format_number(version.format);
    insert(
        tx,
        "INSERT INTO versions (record, number, format, opener, opened, reason) VALUES (?1, ?2, ?3, ?4, ?5, ?6)",
        &[
            id_value(kept),
            ordinal_value(number),
            small_value(format),
            id_value(opener),
            moment_value(version.opened),
            cause_or_null(version.origin.amendment()),
        ],
    )
}

// Adds entries, one after the other.
fn add_entries<W: Writable>(
    tx: &mut W,
    lab: RowId,
    giver: Option<Giver<'_>>,
    version: RowId,
    rows: &[EntryRow],
) -> Result<(), Error>
    ensures { WritesTrying (TriedFrom (Knows lab.id giver.entry)
        (TriesToAddEntries lab.id version.id rows.now)) W.lender W.state
        (InTurn (EachKnowing lab.id giver.entry (AddsEntry lab.id version.id)) rows.now)
        tx.old tx.new result }
{
    for one in rows {
        add_entry(tx, lab, giver, version, one)?;
    }
    Ok(())
}

// Adds signatures, one after the other.
fn add_signatures<W: Writable>(
    tx: &mut W,
    lab: RowId,
    giver: Option<Giver<'_>>,
    version: RowId,
    signatures: &[Signature],
) -> Result<(), Error>
    ensures { WritesTrying (TriedFrom (Knows lab.id giver.entry)
        (TriesToAddSignatures lab.id version.id signatures.now)) W.lender W.state
        (InTurn (EachKnowing lab.id giver.entry (AddsSignature lab.id version.id)) signatures.now)
        tx.old tx.new result }
{
    for one in signatures {
        add_signature(tx, lab, giver, version, one)?;
    }
    Ok(())
}

/// Adds a version with its rows and its signatures.
///
/// # Errors
/// The errors of `Writable`, or nobody has the code of a person who opened, entered or signed.
pub(crate) fn add_version<W: Writable>(
    tx: &mut W,
    lab: RowId,
    giver: Option<Giver<'_>>,
    kept: RowId,
    version: &Version,
) -> Result<(), Error>
    ensures { WritesKnowing lab.id giver.entry (TriesToAddVersion lab.id kept.id version.now)
        (AddsVersion lab.id kept.id version.now) W.lender W.state tx.old tx.new result }
{
    let opener = person_id_by(tx, lab, giver, &version.opener)?;
    let id = insert_version(tx, kept, opener, version)?;
    add_entries(tx, lab, giver, id, version.rows.rows())?;
    add_signatures(tx, lab, giver, id, version.signatures.as_slice())?;
    Ok(())
}

// Sets which version of the record is the current one.
fn set_current<W: Writable>(tx: &mut W, kept: RowId, version: Ordinal) -> Result<usize, Error>
    ensures { WritesTrying (Only (setting_current kept.id version)) W.lender W.state
        (Becomes (with_current kept.id version)) tx.old tx.new result }
{
    run(
        tx,
        "UPDATE records SET current = ?2 WHERE id = ?1",
        &[id_value(kept), ordinal_value(version)],
    )
}

/// Adds a version of a record, which becomes the current one.
///
/// # Errors
/// The errors of `Writable`, or no record has the number, or nobody has one of the codes.
pub fn open_version<W: Writable>(
    tx: &mut W,
    lab: RowId,
    giver: Option<Giver<'_>>,
    wanted: Ordinal,
    version: &Version,
) -> Result<(), Error>
    ensures { WritesKnowing lab.id giver.entry (TriesIn lab.id (VersionOpened wanted version.now))
        (AppliesIn lab.id (VersionOpened wanted version.now))
        W.lender W.state tx.old tx.new result }
{
    let kept = record_at(tx, lab, wanted)?;
    add_version(tx, lab, giver, kept, version)?;
    set_current(tx, kept, version.origin.number())?;
    Ok(())
}
