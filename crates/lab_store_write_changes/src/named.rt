//! Records and versions that are named by keys of the tables.

ghost use Rattle.std.specs.Prelude.{◌≡◌, [], ◌∷◌, Some, option_map, slice_get, IfOk, IfErr};
ghost use Rattle.sqlite_value.specs.declared.value.Value.TheVariants.{Int};
ghost use Rattle.sqlite.specs.State.{HasCleanDisk};
ghost use Rattle.lab_store_tables.specs.Rows.{record_id};
ghost use Rattle.lab_store_tables.specs.Changes.{record_named};
ghost use Rattle.lab_store_write.specs.Calls.{AnswersTrying, Finds};
ghost use Rattle.lab_store_write.specs.Causes.{IsShown};
ghost use Rattle.lab_store_write_changes.specs.Private.VersionsShown.{records_shown, versions_shown, first_value, IsUnversioned};
ghost use Rattle.lab_store_write_changes.specs.VersionsShown.{current_of, version_in_record};
ghost use Rattle.lab_store_write_changes.specs.Tried.{Only, asking_record, asking_current, asking_version};

use lab_forms_texts::Ordinal;
use lab_store_write::values::{id_value, ordinal_value};
use lab_store_write::{RowId, Writable, first_id};
use sqlite::{Error, Row};

// The rows of the record with the number, in the laboratory.
fn record_rows<W: Writable>(tx: &mut W, lab: RowId, wanted: Ordinal) -> Result<Vec<Row>, Error>
    ensures found { AnswersTrying (Only (asking_record lab.id wanted)) W.lender W.state
        (λ rows. Finds (λ t. rows.items ≡ records_shown lab.id wanted t)) tx.old tx.new result }
    ensures shown { HasCleanDisk (W.state tx.new) → IfOk result (λ rows.
        IsShown (asking_record lab.id wanted) (W.state tx.old) (W.state tx.new) rows.items) }
{
    tx.query_all(
        "SELECT id FROM records WHERE lab = ?1 AND number = ?2 ORDER BY id",
        &[id_value(lab), ordinal_value(wanted)],
    )
}

/// Returns the record with the number, in the laboratory.
///
/// # Errors
/// The errors of `Writable`, or no such row exists.
pub(crate) fn record_at<W: Writable>(
    tx: &mut W,
    lab: RowId,
    wanted: Ordinal,
) -> Result<RowId, Error>
    ensures { AnswersTrying (Only (asking_record lab.id wanted)) W.lender W.state
        (λ one. Finds (λ t. option_map record_id (record_named t lab.id wanted) ≡ Some one.id))
        tx.old tx.new result }
{
    let rows = record_rows(tx, lab, wanted)?;
    first_id(&rows)
}

// The version that a row shows. Fails if the row shows NULL, because no version is named then.
fn version_of(row: &Row) -> Result<RowId, Error>
    ensures value { IfOk result (λ one. first_value row.now ≡ Int one.id) }
    ensures fault { IfErr result (IsUnversioned (row.now ∷ [])) }
{
    match row.get(0)? {
        Some(id) => Ok(RowId { id }),
        None => Err(Error::QueryReturnedNoRows),
    }
}

// The version that the first row shows. Fails if there is no row, or if the row shows NULL, because
// no version is named then.
fn first_version(rows: &[Row]) -> Result<RowId, Error>
    ensures value { IfOk result (λ one.
        option_map first_value (slice_get rows.now 0) ≡ Some (Int one.id)) }
    ensures fault { IfErr result (IsUnversioned rows.now) }
{
    match rows.first() {
        Some(row) => version_of(row),
        None => Err(Error::QueryReturnedNoRows),
    }
}

// The rows of the current version of the record with the number, in the laboratory.
fn current_rows<W: Writable>(tx: &mut W, lab: RowId, wanted: Ordinal) -> Result<Vec<Row>, Error>
    ensures found { AnswersTrying (Only (asking_current lab.id wanted)) W.lender W.state
        (λ rows. Finds (λ t. rows.items ≡ versions_shown current_of lab.id wanted t))
        tx.old tx.new result }
    ensures shown { HasCleanDisk (W.state tx.new) → IfOk result (λ rows.
        IsShown (asking_current lab.id wanted) (W.state tx.old) (W.state tx.new) rows.items) }
{
    tx.query_all(
        "SELECT versions.id FROM records LEFT JOIN versions ON versions.record = records.id AND versions.number = records.current WHERE records.lab = ?1 AND records.number = ?2 ORDER BY records.id, versions.id",
        &[id_value(lab), ordinal_value(wanted)],
    )
}

/// Returns the current version of the record with the number, in the laboratory.
///
/// # Errors
/// The errors of `Writable`, or no such row exists.
pub(crate) fn current_version_at<W: Writable>(
    tx: &mut W,
    lab: RowId,
    wanted: Ordinal,
) -> Result<RowId, Error>
    ensures { AnswersTrying (Only (asking_current lab.id wanted)) W.lender W.state
        (λ one. Finds (λ t. version_in_record current_of t lab.id wanted ≡ Some one.id))
        tx.old tx.new result }
{
    let rows = current_rows(tx, lab, wanted)?;
    first_version(&rows)
}

// The rows of the version of the record with the number, in the laboratory.
fn version_rows<W: Writable>(
    tx: &mut W,
    lab: RowId,
    wanted: Ordinal,
    version: Ordinal,
) -> Result<Vec<Row>, Error>
    ensures found { AnswersTrying (Only (asking_version lab.id wanted version)) W.lender W.state
        (λ rows. Finds (λ t. rows.items ≡ versions_shown (λ _. version) lab.id wanted t))
        tx.old tx.new result }
    ensures shown { HasCleanDisk (W.state tx.new) → IfOk result (λ rows. IsShown
        (asking_version lab.id wanted version) (W.state tx.old) (W.state tx.new) rows.items) }
{
    tx.query_all(
        "SELECT versions.id FROM records LEFT JOIN versions ON versions.record = records.id AND versions.number = ?3 WHERE records.lab = ?1 AND records.number = ?2 ORDER BY records.id, versions.id",
        &[id_value(lab), ordinal_value(wanted), ordinal_value(version)],
    )
}

/// Returns the version of the record with the number, in the laboratory.
///
/// # Errors
/// The errors of `Writable`, or no such row exists.
pub(crate) fn version_at<W: Writable>(
    tx: &mut W,
    lab: RowId,
    wanted: Ordinal,
    version: Ordinal,
) -> Result<RowId, Error>
    ensures { AnswersTrying (Only (asking_version lab.id wanted version)) W.lender W.state
        (λ one. Finds (λ t. version_in_record (λ _. version) t lab.id wanted ≡ Some one.id))
        tx.old tx.new result }
{
    let rows = version_rows(tx, lab, wanted, version)?;
    first_version(&rows)
}
