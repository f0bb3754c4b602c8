//! A version of a number of rows, and its text.

use crate::sample_results::{both, made_of, text};
use anyhow::Result;
use lab_forms_texts::{Moment, Ordinal, OutOfMemory};
use lab_seal_versions::{EntryRow, EntryRows, Format, Origin, VersionParts, write_version};
use std::alloc::Global;

fn row(alloc: Global, place: u32) -> Result<EntryRow> {
    let moment = Moment::from_seconds(1100 + i64::from(place))?;
    let measured = both(text(alloc, "7.50"), text(alloc, "mg/L"));
    let entered = both(text(alloc, "lead"), text(alloc, "dan"));
    let explained = both(entered, text(alloc, "misread scale"));
    let ((value, unit), ((key, person), reason)) = both(measured, explained)?;
    Ok(EntryRow {
        key,
        value,
        unit,
        person,
        moment,
        reason: Some(reason),
    })
}

fn add_row(alloc: Global, rows: &mut Vec<EntryRow>, place: u32) -> Result<()> {
    let row = row(alloc, place)?;
    Ok(rows.push(row).map_err(OutOfMemory::from)?)
}

fn many_rows(alloc: Global, count: u32) -> Result<EntryRows> {
    let mut rows = Vec::new(alloc);
    for place in 0..count {
        add_row(alloc, &mut rows, place)?;
    }
    Ok(EntryRows::new(rows))
}

/// A first version of this number of rows.
pub fn version(alloc: Global, rows: u32) -> Result<VersionParts> {
    let opened = Moment::from_seconds(1000)?;
    let place = both(text(alloc, "aqua"), text(alloc, "water"));
    let opening = both(text(alloc, "S1"), text(alloc, "dan"));
    let front = both(place, opening);
    let (((lab, form), (sample, opener)), rows) = both(front, many_rows(alloc, rows))?;
    Ok(VersionParts {
        format: Format::Two { approval: false },
        lab,
        record_number: Ordinal::FIRST,
        origin: Origin::first(),
        form,
        form_version: Ordinal::FIRST,
        sample,
        opener,
        opened,
        rows,
    })
}

/// The text of a version.
pub fn text_of(alloc: Global, version: Result<VersionParts>) -> Result<Vec<u8>> {
    made_of(version, |version| write_version(alloc, version))
}

/// The text of a first version of this number of rows.
pub fn version_text(alloc: Global, rows: u32) -> Result<Vec<u8>> {
    text_of(alloc, version(alloc, rows))
}
