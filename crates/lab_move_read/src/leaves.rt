//! The versions of a record, each as its own rows tell it.

ghost use Rattle.std.specs.Prelude.{◌≡◌, [], ◌∷◌, map, All, IfErr, IfOk};
ghost use Rattle.sqlite_value.specs.declared.value.Value.TheVariants.{Int};
ghost use Rattle.std.specs.List.{list_all};
ghost use Rattle.lab_store_tables.specs.Meaning.{leaves_of};
ghost use Rattle.lab_store_read_records.specs.Leaves.{leaf_of};
ghost use Rattle.lab_move_tables.specs.KeptLabs.{are_kept_versions, are_so_many};
ghost use Rattle.lab_store_read.specs.Cells.{storage};
ghost use Rattle.lab_move_tables.specs.Answering.{IsTaken};
ghost use Rattle.lab_move_tables.specs.Questions.{version_text};
ghost use Rattle.lab_move_tables.specs.Shown.{versions_shown};
ghost use Rattle.lab_move_read_people.specs.declared.faults.KeptFault.TheVariants.{Storage};
ghost use Rattle.lab_move_read.specs.Readable.{AreVersions, HasLeaf, HasOldVersion, HasVersions};
ghost use Rattle.lab_move_read_people.specs.Private.Kept.{IsTried};
ghost use Rattle.lab_move_read_people.specs.Kept.{TriesBy, TriesOld, are_counted};
ghost use Rattle.lab_move_read.specs.Records.{version_read};
ghost use Rattle.lab_move_read.specs.Private.Records.{version_heads_of, leaf_by, is_kept_leaf};

use crate::entries::entries_at;
use crate::heads::VersionHead;
use crate::signatures::signatures_at;
use lab_forms_texts::{Ordinal, Series};
use lab_move_read_people::KeptFault;
use lab_move_read_people::cells::{are_counted, reason_of};
use lab_move_tables::{Older, version_rows};
use lab_store_read::cells::{id_of, moment_of, ordinal_of, text_of};
use lab_store_read::{BadStore, ReadFault, Readable};
use lab_store_read_records::VersionLeaf;
use sqlite::Row;
use std::alloc::Global;

// The version that a row shows. A first version has no reason.
fn version_of_row(alloc: Global, older: Older, row: &Row) -> Result<VersionHead, ReadFault>
    ensures value { IfOk result (λ version. version ≡ version_read older row.now) }
    ensures fault { IfErr result (λ fault. fault ≡ storage → ¬ HasOldVersion row.now) }
{
    let id = id_of(row, 0)?;
    let number = ordinal_of(row, 1)?;
    let format = match older {
        Older::Two => 1,
    };
    let opened = moment_of(row, 3)?;
    let lab = id_of(row, 5)?;
    let opener = text_of(alloc, row, 2)?;
    let reason = reason_of(alloc, row, 4)?;
    if number == Ordinal::FIRST && reason.is_some() {
        return Err(ReadFault::Refused(BadStore));
    }
    Ok(VersionHead {
        id,
        number,
        format,
        opener,
        opened,
        reason,
        lab,
    })
}

// The versions that rows show.
fn versions_of_rows(
    alloc: Global,
    older: Older,
    rows: &[Row],
) -> Result<Vec<VersionHead>, ReadFault>
    ensures value { IfOk result (λ made. made.items ≡ map (version_read older) rows.now) }
    ensures fault { IfErr result (λ fault. fault ≡ storage → ¬ All HasOldVersion rows.now) }
{
    let mut made = Vec::new(alloc);
    for row in rows {
        made.push(version_of_row(alloc, older, row)?)?;
    }
    Ok(made)
}

// The versions that rows show. The rows have to be so many, and numbered.
#[tactic(auto, using(lab_move_read_people::proofs::Found::told_back))]
fn versions_tried(
    alloc: Global,
    older: Older,
    rows: &[Row],
    count: u32,
) -> Result<Vec<VersionHead>, KeptFault>
    ensures tried { IsTried (are_counted 1 count rows.now)
        (λ made. made.items ≡ map (version_read older) rows.now) result }
    ensures fault { IfErr result (λ fault. fault ≡ Storage → ¬ AreVersions rows.now) }
{
    if !are_counted(rows, 1, u64::from(count))? {
        return Err(KeptFault::NotKept);
    }
    Ok(versions_of_rows(alloc, older, rows)?)
}

// The own rows of the versions of the record with the id. They have to be so many, and numbered.
fn version_heads_at<D: Readable>(
    alloc: Global,
    conn: &mut D,
    older: Older,
    kept: i64,
    count: u32,
) -> Result<Vec<VersionHead>, KeptFault>
    ensures { TriesBy older (λ db t. IsTaken db (version_text older) (Int kept ∷ [])
        × AreVersions (versions_shown older t kept))
        (λ t. are_so_many t kept count)
        (λ t made. made.items ≡ version_heads_of t kept)
        (D.state conn.old) (D.state conn.new) result }
{
    let rows = version_rows(conn, older, kept)?;
    versions_tried(alloc, older, &rows, count)
}

// The version of the row, with its entries and signatures. A person of the laboratory has to have
// opened it.
fn leaf_whole<D: Readable>(
    alloc: Global,
    conn: &mut D,
    lab: i64,
    head: VersionHead,
) -> Result<VersionLeaf, KeptFault>
    ensures { TriesOld (λ db t. HasLeaf db t head) (λ t. is_kept_leaf t lab head)
        (λ t leaf. leaf_of leaf ≡ leaf_by t head)
        (D.state conn.old) (D.state conn.new) result }
{
    if head.lab != lab {
        return Err(KeptFault::NotKept);
    }
    let rows = entries_at(alloc, conn, lab, head.id)?;
    let signatures = signatures_at(alloc, conn, lab, head.id)?;
    Ok(VersionLeaf {
        number: head.number,
        format: head.format,
        opener: head.opener,
        opened: head.opened,
        reason: head.reason,
        rows,
        signatures,
    })
}

// The versions of the rows, with their entries and signatures.
fn leaves_whole<D: Readable>(
    alloc: Global,
    conn: &mut D,
    lab: i64,
    heads: Vec<VersionHead>,
) -> Result<Series<VersionLeaf>, KeptFault>
    ensures { TriesOld (λ db t. All (HasLeaf db t) heads.items)
        (λ t. list_all (is_kept_leaf t lab) heads.items)
        (λ t made. map leaf_of made ≡ map (leaf_by t) heads.items)
        (D.state conn.old) (D.state conn.new) result }
{
    let mut made = Series::new(alloc);
    for head in heads {
        let leaf = leaf_whole(alloc, conn, lab, head)?;
        made.push(leaf)?;
    }
    Ok(made)
}

/// Returns the versions of the record with the id, in the order of their numbers. They have to be of
/// that number.
///
/// # Errors
/// They aren't well kept, the store failed, a row isn't one that a program could have written, or
/// memory ran out.
pub(crate) fn leaves_at<D: Readable>(
    alloc: Global,
    conn: &mut D,
    older: Older,
    lab: i64,
    kept: i64,
    count: u32,
) -> Result<Series<VersionLeaf>, KeptFault>
    ensures { TriesBy older (HasVersions older kept) (λ t. are_kept_versions t lab kept count)
        (λ t made. map leaf_of made ≡ leaves_of t kept)
        (D.state conn.old) (D.state conn.new) result }
{
    let heads = version_heads_at(alloc, conn, older, kept, count)?;
    leaves_whole(alloc, conn, lab, heads)
}
