//! The copying of a record's rows from the tables: each version is read, its rows are written, and
//! it is dropped.

ghost use Rattle.std.specs.Prelude.{◌≡◌, ◌≤◌, None, Some, [], ◌∷◌, false, map, option_map, IfOk, IfSome, IsTrue, option_to_list};
ghost use Rattle.sqlite.specs.State.{HasCleanDisk};
ghost use Rattle.lab_forms_texts.specs.Ordinals.{last_ordinal};
ghost use Rattle.lab_records_kept.specs.Digests.{digest_of};
ghost use Rattle.lab_store_read.specs.Causes.{HasFirst};
ghost use Rattle.lab_store_read_copies.specs.Causes.{HasNumbered, HasRange};
ghost use Rattle.lab_store_read_copies.specs.Private.Causes.{HasPlacedVersions, HasVersions};
ghost use Rattle.lab_store_read_copies.specs.Gives.{Gives, GivesRows};
ghost use Rattle.lab_store_read_copies.specs.GivenRows.{IsFormed, lab_at};
ghost use Rattle.lab_store_read_copies.specs.Private.GivenRows.{rows_of_versions, parts_rows, versions_rows};
ghost use Rattle.lab_store_read_records.specs.Leaves.{leaf_by};
ghost use Rattle.lab_store_read_records.specs.Shown.{records_shown};
ghost use Rattle.lab_store_read_forms.specs.Readable.{HasParts, HasWholeRecord};
ghost use Rattle.lab_store_read_forms.specs.Wholes.{record_by};
ghost use Rattle.lab_store_tables.specs.Meaning.{chained, meaning};
ghost use Rattle.lab_store_tables.specs.Ready.{IsReady, tables_of};
ghost use Rattle.lab_records_copy_out.specs.CopyTexts.{record_at, record_rows, walked_to};

use crate::covers::{Cover, cover_behind, head_in};
use crate::faults::copy_fault;
use crate::leaves::{give_cover, give_version_at};
use lab_copy_rows::CopyOut;
use lab_forms_texts::{LabCode, Ordinal, OutOfMemory};
use lab_records_copy_out::{CopyOutFault, Progress};
use lab_records_kept::{Record, Version};
use lab_seal_hashes::Digest;
use lab_store_read::Readable;
use lab_store_read_records::{LabHead, RecordHead, VersionHead, lab_at, versions_at};
use std::alloc::Global;
use std::io::Write;

// The digest of the version before another one, if there is one.
fn digest_behind(
    alloc: Global,
    lab: &LabCode,
    cover: &Record,
    before: Option<Version>,
) -> Result<Option<Digest>, OutOfMemory>
    ensures { IfOk result
        (λ digest. digest ≡ option_map (digest_of lab.now cover.now) before) }
{
    match before {
        Some(version) => Ok(Some(cover.digest_of(alloc, lab, &version)?)),
        None => Ok(None),
    }
}

// Writes the rows of the versions with the rows, each after the digest of the version before it. A
// digest is made only if another version follows, and before that version is read.
fn give_each_version<D: Readable, W: Write>(
    alloc: Global,
    conn: &mut D,
    lab: &LabCode,
    cover: &Record,
    heads: Vec<VersionHead>,
    out: &mut CopyOut,
    writer: &mut W,
) -> Result<(), CopyOutFault>
    ensures { GivesRows (IsTrue (D.state conn.old).is_open) (λ t. Unit {0})
        (λ t. rows_of_versions lab.now cover.now
        (chained lab.now cover.now None (map (leaf_by t) heads.items)))
        (λ t. HasPlacedVersions t false heads.items) (D.state conn.old) (D.state conn.new)
        (W.contents writer.old) (W.contents writer.new) out.old out.new result }
{
    let mut before = None;
    for head in heads {
        let digest = digest_behind(alloc, lab, cover, before)?;
        let version = give_version_at(alloc, conn, lab, cover, digest, head, out, writer)?;
        before = Some(version);
    }
    Ok(())
}

// Writes the rows of the versions of the record with the id.
fn give_versions<D: Readable, W: Write>(
    alloc: Global,
    conn: &mut D,
    lab: &LabCode,
    cover: &Record,
    kept: i64,
    out: &mut CopyOut,
    writer: &mut W,
) -> Result<(), CopyOutFault>
    ensures { Gives (λ t. versions_rows t lab.now cover.now kept)
        (λ t. HasVersions t kept) (D.state conn.old) (D.state conn.new)
        (W.contents writer.old) (W.contents writer.new) out.old out.new result }
{
    match versions_at(alloc, conn, kept) {
        Ok(heads) => give_each_version(alloc, conn, lab, cover, heads, out, writer),
        Err(fault) => Err(copy_fault(fault)),
    }
}

// Writes the rows of the record with the id: its own row, and the rows of its versions.
fn give_covered<D: Readable, W: Write>(
    alloc: Global,
    conn: &mut D,
    lab: &LabCode,
    cover: &Record,
    kept: i64,
    out: &mut CopyOut,
    writer: &mut W,
) -> Result<(), CopyOutFault>
    ensures { Gives (λ t. parts_rows t lab.now cover.now kept)
        (λ t. HasVersions t kept) (D.state conn.old) (D.state conn.new)
        (W.contents writer.old) (W.contents writer.new) out.old out.new result }
{
    give_cover(alloc, lab, cover, out, writer)?;
    give_versions(alloc, conn, lab, cover, kept, out, writer)
}

// Writes the rows of the record: its own, and those of the versions that the id leads to. Returns
// the record without its versions, for the record after it.
fn give_filed<D: Readable, W: Write>(
    alloc: Global,
    conn: &mut D,
    lab: &LabCode,
    cover: Cover,
    id: i64,
    out: &mut CopyOut,
    writer: &mut W,
) -> Result<Option<Cover>, CopyOutFault>
    ensures gives { Gives (λ t. parts_rows t lab.now cover.kept id)
        (λ t. HasVersions t id) (D.state conn.old) (D.state conn.new)
        (W.contents writer.old) (W.contents writer.new) out.old out.new result }
    ensures cover { IfOk result (λ behind. behind ≡ Some cover) }
{
    match give_covered(alloc, conn, lab, &cover.kept, id, out, writer) {
        Ok(()) => Ok(Some(cover)),
        Err(fault) => Err(fault),
    }
}

// Writes the rows of the record with the row, and returns the record without its versions. Its form
// is read unless it is the form of the record before it.
fn give_headed<D: Readable, W: Write>(
    alloc: Global,
    conn: &mut D,
    lab: &LabCode,
    before: Option<Cover>,
    head: RecordHead,
    out: &mut CopyOut,
    writer: &mut W,
) -> Result<Option<Cover>, CopyOutFault>
    ensures gives { GivesRows (Unit {0}) (λ t. IfSome before (IsFormed t))
        (λ t. record_rows lab.now (record_by t lab.now head ∷ []))
        (λ t. HasParts t head) (D.state conn.old) (D.state conn.new)
        (W.contents writer.old) (W.contents writer.new) out.old out.new result }
    ensures formed { IsReady (D.state conn.old) → HasCleanDisk (D.state conn.new) →
        IfSome before (IsFormed (tables_of (D.state conn.old))) →
        IfOk result (λ behind. IfSome behind (IsFormed (tables_of (D.state conn.old)))) }
{
    let id = head.id;
    match cover_behind(alloc, conn, before, head) {
        Ok(cover) => give_filed(alloc, conn, lab, cover, id, out, writer),
        Err(fault) => Err(copy_fault(fault)),
    }
}

// Writes the rows of the record with the number, if the laboratory with the row has one. Returns
// the last record without its versions, for the record after it.
fn give_record_at<D: Readable, W: Write>(
    alloc: Global,
    conn: &mut D,
    lab: &LabCode,
    found: &LabHead,
    before: Option<Cover>,
    number: Ordinal,
    out: &mut CopyOut,
    writer: &mut W,
) -> Result<Option<Cover>, CopyOutFault>
    ensures gives { GivesRows (Unit {0})
        (λ t. (Some found.now ≡ lab_at t lab.now) × IfSome before (IsFormed t))
        (λ t. record_rows lab.now (option_to_list (record_at number (meaning t lab.now))))
        (λ t. HasFirst (HasWholeRecord t) (records_shown t found.now.id number))
        (D.state conn.old) (D.state conn.new)
        (W.contents writer.old) (W.contents writer.new) out.old out.new result }
    ensures formed { IsReady (D.state conn.old) → HasCleanDisk (D.state conn.new) →
        IfSome before (IsFormed (tables_of (D.state conn.old))) →
        IfOk result (λ behind. IfSome behind (IsFormed (tables_of (D.state conn.old)))) }
{
    match head_in(alloc, conn, found, number) {
        Ok(Some(head)) => give_headed(alloc, conn, lab, before, head, out, writer),
        Ok(None) => Ok(before),
        Err(fault) => Err(copy_fault(fault)),
    }
}

// The number of a record.
fn ordinal(number: u32) -> Ordinal
    requires first { 1 ≤ number }
    requires last { number ≤ last_ordinal }
    ensures { result ≡ number }
{
    match Ordinal::new(number) {
        Some(number) => number,
        None => Ordinal::FIRST,
    }
}

// Writes the rows of the records from a number to a last one, of the laboratory with the row.
fn give_all<D: Readable, W: Write, P: Progress>(
    alloc: Global,
    conn: &mut D,
    lab: &LabCode,
    found: LabHead,
    from: Ordinal,
    last: u32,
    out: &mut CopyOut,
    writer: &mut W,
    progress: &mut P,
) -> Result<(), CopyOutFault>
    requires { last ≤ last_ordinal }
    ensures { GivesRows (IsTrue (D.state conn.old).is_open)
        (λ t. Some found ≡ lab_at t lab.now)
        (λ t. record_rows lab.now (walked_to (meaning t lab.now) from last))
        (λ t. HasNumbered t found.id from last) (D.state conn.old) (D.state conn.new)
        (W.contents writer.old) (W.contents writer.new) out.old out.new result }
{
    let first = from.get();
    let end = last + 1;
    let mut before = None;
    for number in first..end {
        let behind = give_record_at(
            alloc,
            conn,
            lab,
            &found,
            before,
            ordinal(number),
            out,
            writer,
        )?;
        before = behind;
        progress.tell_records(number - first + 1, end - first);
    }
    Ok(())
}

/// Writes the rows of the records from a number to a last one, if a laboratory has the code. The
/// laboratory's row is read once, and the form of a record unless it is the form of the record
/// before. Each version is read, and its rows are written, before the next is read. The progress is
/// reported after each number.
///
/// # Errors
/// The store failed, memory ran out, or a write failed or took no byte. The front of the rows' text
/// was written, and the tables are unchanged.
pub fn give_records_at<D: Readable, W: Write, P: Progress>(
    alloc: Global,
    conn: &mut D,
    lab: &LabCode,
    from: Ordinal,
    last: u32,
    out: &mut CopyOut,
    writer: &mut W,
    progress: &mut P,
) -> Result<(), CopyOutFault>
    requires { last ≤ last_ordinal }
    ensures { Gives (λ t. record_rows lab.now (walked_to (meaning t lab.now) from last))
        (λ t. HasRange t lab.now from last) (D.state conn.old) (D.state conn.new)
        (W.contents writer.old) (W.contents writer.new) out.old out.new result }
{
    match lab_at(alloc, conn, lab) {
        Ok(Some(found)) => give_all(alloc, conn, lab, found, from, last, out, writer, progress),
        Ok(None) => Ok(()),
        Err(fault) => Err(copy_fault(fault)),
    }
}
