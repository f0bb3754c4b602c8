//! Records, each with its versions.

ghost use Rattle.std.specs.Prelude.{◌≡◌, pos};
ghost use Rattle.sqlite_keyed.specs.Keyed.{next_key};
ghost use Rattle.lab_records_kept.specs.declared.changes.Change.TheVariants.{RecordAdded};
ghost use Rattle.lab_store_tables.specs.Rows.{LabRow, record_id};
ghost use Rattle.lab_store_tables.specs.Changes.{AppliesIn, in_lab, InTurn, AddsVersion, record_row_of};
ghost use Rattle.lab_store_write.specs.Calls.{AnswersTrying, WritesTrying};
ghost use Rattle.lab_store_write.specs.Private.Calls.{Becomes};
ghost use Rattle.lab_store_write.specs.Givers.{Knows};
ghost use Rattle.lab_store_write.specs.Private.Givers.{EachKnowing};
ghost use Rattle.lab_store_write_changes.specs.RecordsAdded.{with_record};
ghost use Rattle.lab_store_write_changes.specs.Tried.{Only, TriedFrom, TriesToAddVersions, TriesIn, WritesKnowing, adding_record, counting_records};

use crate::named_forms::form_id_at;
use crate::versions::add_version;
use lab_forms_texts::Ordinal;
use lab_records_kept::{Record, Version};
use lab_store_write::ids::insert;
use lab_store_write::statements::run;
use lab_store_write::values::{id_value, ordinal_value, place_value, text_value};
use lab_store_write::{Giver, RowId, Writable};
use sqlite::Error;

// Adds the row.
fn insert_record<W: Writable>(
    tx: &mut W,
    lab: RowId,
    form: RowId,
    kept: &Record,
) -> Result<RowId, Error>
    ensures { AnswersTrying
        (Only (adding_record (record_row_of lab.id (pos 0) form.id kept.now)))
        W.lender W.state (λ one before after.
        (one.id ≡ next_key record_id before.records)
        × (after ≡ with_record lab.id form.id kept.now before))
        tx.old tx.new result }
{
    let code = kept.form.code.as_str();
    let sample = kept.sample.as_str();
    let versions = kept.versions.as_slice();
    let current = versions.len() as u64;
    insert(
        tx,
        "INSERT INTO records (lab, number, form, form_code, sample, current) VALUES (?1, ?2, ?3, ?4, ?5, ?6)",
        &[
            id_value(lab),
            ordinal_value(kept.number),
            id_value(form),
            text_value(code),
            text_value(sample),
            place_value(current),
        ],
    )
}

// Sets how many records the laboratory has.
fn set_records<W: Writable>(tx: &mut W, lab: RowId, count: Ordinal) -> Result<usize, Error>
    ensures { WritesTrying (Only (counting_records lab.id count)) W.lender W.state
        (Becomes (in_lab lab.id (λ (one : LabRow). record one { records = count })))
        tx.old tx.new result }
{
    run(
        tx,
        "UPDATE labs SET records = ?2 WHERE id = ?1",
        &[id_value(lab), ordinal_value(count)],
    )
}

// Adds versions, one after the other.
fn add_versions<W: Writable>(
    tx: &mut W,
    lab: RowId,
    giver: Option<Giver<'_>>,
    kept: RowId,
    versions: &[Version],
) -> Result<(), Error>
    ensures { WritesTrying (TriedFrom (Knows lab.id giver.entry)
        (TriesToAddVersions lab.id kept.id versions.now)) W.lender W.state
        (InTurn (EachKnowing lab.id giver.entry (AddsVersion lab.id kept.id)) versions.now)
        tx.old tx.new result }
{
    for one in versions {
        add_version(tx, lab, giver, kept, one)?;
    }
    Ok(())
}

/// Adds a record with its versions.
///
/// # Errors
/// The errors of `Writable`, or no such version of a form exists, or nobody has one of the codes.
pub fn add_record<W: Writable>(
    tx: &mut W,
    lab: RowId,
    giver: Option<Giver<'_>>,
    kept: &Record,
) -> Result<(), Error>
    ensures { WritesKnowing lab.id giver.entry (TriesIn lab.id (RecordAdded kept.now))
        (AppliesIn lab.id (RecordAdded kept.now)) W.lender W.state tx.old tx.new result }
{
    let form = form_id_at(tx, lab, &kept.form.code, kept.form.version)?;
    let id = insert_record(tx, lab, form, kept)?;
    set_records(tx, lab, kept.number)?;
    add_versions(tx, lab, giver, id, kept.versions.as_slice())?;
    Ok(())
}
