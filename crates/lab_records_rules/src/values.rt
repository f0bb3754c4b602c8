//! What the versions of a record state together: its values, and the keys that a version altered.
//! They are looked up in a table of the last row of each key, which is made in one walk over the
//! rows.
ghost use Rattle.std.specs.Prelude.{◌≡◌, ◌-◌, ℕ, List, Some, cond, map, filter, take, IfOk, OnOk, option_copied};
ghost use Rattle.std.specs.List.{filter_map};
ghost use Rattle.std.specs.Option.{option_or};
ghost use Rattle.lab_forms.specs.Forms.{key_of};
ghost use Rattle.lab_records_rules.specs.Latest.{noted};
ghost use Rattle.lab_records_kept.specs.Values.{all_rows, has_key, value_of, values_at, altered_at, is_altered_by};

use lab_forms::Field;
use lab_forms_texts::{Key, Ordinal, OutOfMemory, Series};
use lab_records_kept::{Record, Version};
use lab_seal_versions::EntryRow;
use std::alloc::Global;
use std::collections::BTreeMap;

/// What a reply states about a record at a version: the keys that the version altered, and the
/// values of the record at it.
#[derive(Drop)]
pub struct ValuesTold {
    pub altered: Series<Key>,
    pub values: Series<EntryRow>,
}

/// Returns the keys that the version with the number altered, and the values of the record at that
/// version: for each field that has a value, its last row in all versions up to that one. Both are
/// in the order of the form. Fails only if memory runs out.
///
/// # Errors
/// Memory ran out.
pub fn values_told(alloc: Global, kept: &Record, number: Ordinal) -> Result<ValuesTold, OutOfMemory>
    ensures altered { IfOk result (λ told. told.altered ≡ altered_at kept.now number) }
    ensures values { IfOk result (λ told. told.values ≡ values_at kept.now number) }
{
    let versions = kept.versions.as_slice();
    let count = number.get() as usize;
    let before = latest(alloc, first_versions(versions, count - 1))?;
    let after = latest(alloc, first_versions(versions, count))?;
    let fields = kept.form.form.fields();
    let altered = altered_by(alloc, fields, &before, &after)?;
    let values = values_by(alloc, fields, &after)?;
    Ok(ValuesTold { altered, values })
}

/// Returns the keys that the version with the number altered, in the order of the form: those whose
/// value differs from that at the version before. Fails only if memory runs out.
///
/// # Errors
/// Memory ran out.
pub fn altered_at(alloc: Global, kept: &Record, number: Ordinal) -> Result<Series<Key>, OutOfMemory>
    ensures { IfOk result (λ keys. keys ≡ altered_at kept.now number) }
{
    let versions = kept.versions.as_slice();
    let count = number.get() as usize;
    let before = latest(alloc, first_versions(versions, count - 1))?;
    let after = latest(alloc, first_versions(versions, count))?;
    altered_by(alloc, kept.form.form.fields(), &before, &after)
}

/// Returns the first versions, at most `count`.
pub fn first_versions(versions: &[Version], count: usize) -> &[Version]
    ensures { result.now ≡ take count versions.now }
{
    if count < versions.len() {
        &versions[..count]
    } else {
        versions
    }
}

/// Makes the table of the last row of each key in the versions, in one walk over their rows. Fails
/// only if memory runs out.
///
/// # Errors
/// Memory ran out.
pub fn latest<'a>(
    alloc: Global,
    versions: &'a [Version],
) -> Result<BTreeMap<&'a str, &'a EntryRow>, OutOfMemory>
    ensures { IfOk result
        (λ table. (key : List ℕ) → noted table key ≡ value_of (all_rows versions.now) key) }
{
    let mut table = BTreeMap::new(alloc);
    for version in versions {
        note_each(&mut table, version.rows.rows())?;
    }
    Ok(table)
}

// Notes the rows. Each replaces an earlier row with the same key.
fn note_each<'a>(
    table: &mut BTreeMap<&'a str, &'a EntryRow>,
    rows: &'a [EntryRow],
) -> Result<(), OutOfMemory>
    ensures { OnOk result ((key : List ℕ) →
        noted table.new key ≡ option_or (value_of rows.now key) (noted table.old key)) }
{
    for row in rows {
        note(table, row)?;
    }
    Ok(())
}

fn note<'a>(
    table: &mut BTreeMap<&'a str, &'a EntryRow>,
    row: &'a EntryRow,
) -> Result<(), OutOfMemory>
    ensures { OnOk result ((key : List ℕ) →
        noted table.new key ≡ cond (has_key key row.now) (Some row.now) (noted table.old key)) }
{
    table.insert(row.key.as_str(), row)?;
    Ok(())
}

/// Returns the row that is noted under a key.
pub fn row_of_key<'a>(table: &BTreeMap<&'a str, &'a EntryRow>, key: &Key) -> Option<&'a EntryRow>
    ensures { option_copied result ≡ noted table.now key.now }
{
    table.get(key.as_str()).copied()
}

// The rows that are noted under the fields' keys, in the order of the fields.
fn values_by<'a>(
    alloc: Global,
    fields: &[Field],
    table: &BTreeMap<&'a str, &'a EntryRow>,
) -> Result<Series<EntryRow>, OutOfMemory>
    ensures { IfOk result
        (λ rows. rows ≡ filter_map (λ field. noted table.now (key_of field)) fields.now) }
{
    let mut rows = Series::new(alloc);
    for field in fields {
        if let Some(row) = row_of_key(table, &field.key) {
            rows.push(row.copy()?)?;
        }
    }
    Ok(rows)
}

// The keys of fields for which the second table has another value than the first, or a value where
// the first has none.
fn altered_by<'a>(
    alloc: Global,
    fields: &[Field],
    before: &BTreeMap<&'a str, &'a EntryRow>,
    after: &BTreeMap<&'a str, &'a EntryRow>,
) -> Result<Series<Key>, OutOfMemory>
    ensures { IfOk result (λ keys. keys
        ≡ filter (λ key. is_altered_by (noted before.now key) (noted after.now key))
        (map key_of fields.now)) }
{
    let mut keys = Series::new(alloc);
    for field in fields {
        if is_altered_by(
            row_of_key(before, &field.key),
            row_of_key(after, &field.key),
        ) {
            keys.push(field.key.copy()?)?;
        }
    }
    Ok(keys)
}

fn is_altered_by(before: Option<&EntryRow>, after: Option<&EntryRow>) -> bool
    ensures { result ≡ is_altered_by (option_copied before.entry) (option_copied after.entry) }
{
    match (before, after) {
        (_, None) => false,
        (None, Some(_)) => true,
        (Some(before), Some(after)) => before.value.as_str() != after.value.as_str(),
    }
}
