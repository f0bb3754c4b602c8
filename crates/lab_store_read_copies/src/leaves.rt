//! What is written of a record: its own row, and the rows of a version, read from the tables.

ghost use Rattle.std.specs.Prelude.{◌≡◌, is_some, IfOk, IsFalse};
ghost use Rattle.sqlite.specs.State.{HasCleanDisk};
ghost use Rattle.lab_store_read_copies.specs.Causes.{HasPlacedVersion};
ghost use Rattle.lab_store_read_copies.specs.Gives.{Gives, SendsRows};
ghost use Rattle.lab_store_read_copies.specs.GivenRows.{cover_rows, rows_of_version};
ghost use Rattle.lab_store_read_records.specs.Leaves.{leaf_by, leaf_of};
ghost use Rattle.lab_store_read_records.specs.Readable.{is_placed};
ghost use Rattle.lab_store_tables.specs.Meaning.{version_after};
ghost use Rattle.lab_store_tables.specs.Ready.{IsReady, tables_of};

use crate::faults::copy_fault;
use lab_copy_rows::CopyOut;
use lab_forms_texts::LabCode;
use lab_records_copies::{record_row, version_rows};
use lab_records_copy_out::CopyOutFault;
use lab_records_kept::{Record, Version};
use lab_seal_hashes::Digest;
use lab_store_read::Readable;
use lab_store_read_records::{VersionHead, VersionLeaf, leaf_at, version_after};
use std::alloc::Global;
use std::io::Write;

/// Writes a record's own row.
///
/// # Errors
/// Memory ran out, or a write failed or took no byte. The front of the row's text was written.
pub fn give_cover<W: Write>(
    alloc: Global,
    lab: &LabCode,
    cover: &Record,
    out: &mut CopyOut,
    writer: &mut W,
) -> Result<(), CopyOutFault>
    ensures { SendsRows ⊥ (cover_rows lab.now cover.now)
        (W.contents writer.old) (W.contents writer.new) out.old out.new result }
{
    let row = record_row(alloc, lab, cover)?;
    out.give(alloc, writer, &[row])?;
    Ok(())
}

// Writes the rows of a version.
fn give_version<W: Write>(
    alloc: Global,
    lab: &LabCode,
    cover: &Record,
    version: &Version,
    out: &mut CopyOut,
    writer: &mut W,
) -> Result<(), CopyOutFault>
    ensures { SendsRows ⊥ (rows_of_version lab.now cover.now version.now)
        (W.contents writer.old) (W.contents writer.new) out.old out.new result }
{
    let rows = version_rows(alloc, lab, cover, version)?;
    out.give(alloc, writer, rows.as_slice())?;
    Ok(())
}

// Writes the rows of the version that its own rows show, after a version with the digest or as the
// first one, and returns this version.
fn give_leaf<W: Write>(
    alloc: Global,
    lab: &LabCode,
    cover: &Record,
    before: Option<Digest>,
    leaf: VersionLeaf,
    out: &mut CopyOut,
    writer: &mut W,
) -> Result<Version, CopyOutFault>
    ensures sends { SendsRows (IsFalse (is_placed (is_some before) leaf.number leaf.reason))
        (rows_of_version lab.now cover.now (version_after cover.now before (leaf_of leaf)))
        (W.contents writer.old) (W.contents writer.new) out.old out.new result }
    ensures version { IfOk result
        (λ version. version ≡ version_after cover.now before (leaf_of leaf)) }
{
    let Some(version) = version_after(cover, before, leaf) else {
        return Err(CopyOutFault::Storage);
    };
    give_version(alloc, lab, cover, &version, out, writer)?;
    Ok(version)
}

/// Writes the rows of the version with the row, after a version with the digest or as the first
/// one, and returns this version.
///
/// # Errors
/// The store failed, memory ran out, or a write failed or took no byte. The front of the rows' text
/// was written, and the tables are unchanged.
pub fn give_version_at<D: Readable, W: Write>(
    alloc: Global,
    conn: &mut D,
    lab: &LabCode,
    cover: &Record,
    before: Option<Digest>,
    head: VersionHead,
    out: &mut CopyOut,
    writer: &mut W,
) -> Result<Version, CopyOutFault>
    ensures gives { Gives
        (λ t. rows_of_version lab.now cover.now (version_after cover.now before (leaf_by t head)))
        (λ t. HasPlacedVersion t (is_some before) head) (D.state conn.old) (D.state conn.new)
        (W.contents writer.old) (W.contents writer.new) out.old out.new result }
    ensures version { IsReady (D.state conn.old) → HasCleanDisk (D.state conn.new) →
        IfOk result (λ version. version
        ≡ version_after cover.now before (leaf_by (tables_of (D.state conn.old)) head)) }
{
    match leaf_at(alloc, conn, head) {
        Ok(leaf) => give_leaf(alloc, lab, cover, before, leaf, out, writer),
        Err(fault) => Err(copy_fault(fault)),
    }
}
