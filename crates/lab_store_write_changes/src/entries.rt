//! The entries of a version, each added after those that the version has.

ghost use Rattle.lab_records_kept.specs.declared.changes.Change.TheVariants.{RowAdded};
ghost use Rattle.lab_store_tables.specs.Changes.{AppliesIn, AddsEntry};
ghost use Rattle.lab_store_write.specs.Calls.{WritesTrying};
ghost use Rattle.lab_store_write.specs.Private.Calls.{Becomes};
ghost use Rattle.lab_store_write.specs.Causes.{IsTooGreat};
ghost use Rattle.lab_store_write_changes.specs.Private.EntriesAdded.{with_entry};
ghost use Rattle.lab_store_write_changes.specs.Tried.{Only, TriesToAddEntry, TriesIn, WritesKnowing, adding_entry_at};

use crate::named::current_version_at;
use crate::places::entry_place;
use crate::texts::note_or_null;
use lab_forms_texts::Ordinal;
use lab_seal_versions::EntryRow;
use lab_store_write::statements::run;
use lab_store_write::values::{id_value, moment_value, place_value, text_value};
use lab_store_write::{Giver, RowId, Writable, person_id_by};
use sqlite::Error;

// Adds the row.
fn insert_entry<W: Writable>(
    tx: &mut W,
    version: RowId,
    place: u64,
    person: RowId,
    entry: &EntryRow,
) -> Result<usize, Error>
    requires { ¬ IsTooGreat place }
    ensures { WritesTrying (Only (adding_entry_at version.id place person.id entry.now)) W.lender
        W.state (Becomes (with_entry version.id place person.id entry.now)) tx.old tx.new result }
{
    let key = entry.key.as_str();
    let value = entry.value.as_str();
    let unit = entry.unit.as_str();
    run(
        tx,
        "INSERT INTO entries (version, place, key, value, unit, person, moment, reason) VALUES (?1, ?2, ?3, ?4, ?5, ?6, ?7, ?8)",
        &[
            id_value(version),
            place_value(place),
            text_value(key),
            text_value(value),
            text_value(unit),
            id_value(person),
            moment_value(entry.moment),
            note_or_null(&entry.reason),
        ],
    )
}

/// Adds an entry after those that the version has.
///
/// # Errors
/// The errors of `Writable`, or nobody has the code of the person who entered it.
pub(crate) fn add_entry<W: Writable>(
    tx: &mut W,
    lab: RowId,
    giver: Option<Giver<'_>>,
    version: RowId,
    entry: &EntryRow,
) -> Result<(), Error>
    ensures { WritesKnowing lab.id giver.entry (TriesToAddEntry lab.id version.id entry.now)
        (AddsEntry lab.id version.id entry.now) W.lender W.state tx.old tx.new result }
{
    let person = person_id_by(tx, lab, giver, &entry.person)?;
    let place = entry_place(tx, version)?;
    insert_entry(tx, version, place, person, entry)?;
    Ok(())
}

/// Adds an entry to the current version of a record.
///
/// # Errors
/// The errors of `Writable`, or no record has the number, or nobody has the code.
pub fn enter_row<W: Writable>(
    tx: &mut W,
    lab: RowId,
    giver: Option<Giver<'_>>,
    wanted: Ordinal,
    entry: &EntryRow,
) -> Result<(), Error>
    ensures { WritesKnowing lab.id giver.entry (TriesIn lab.id (RowAdded wanted entry.now))
        (AppliesIn lab.id (RowAdded wanted entry.now)) W.lender W.state tx.old tx.new result }
{
    let version = current_version_at(tx, lab, wanted)?;
    add_entry(tx, lab, giver, version, entry)
}
