//! The records of a laboratory, with their forms and all their versions.

ghost use Rattle.std.specs.Prelude.{◌≡◌, [], ◌∷◌, false, map, All, IfErr, IfOk};
ghost use Rattle.sqlite_value.specs.declared.value.Value.TheVariants.{Int};
ghost use Rattle.std.specs.List.{list_all};
ghost use Rattle.lab_store_read_records.specs.Leaves.{leaf_of};
ghost use Rattle.lab_store_read_records.specs.Shown.{record_head_of};
ghost use Rattle.lab_store_read_forms.specs.Wholes.{record_with};
ghost use Rattle.lab_move_tables.specs.KeptLabs.{are_so_many_records};
ghost use Rattle.lab_store_read.specs.Cells.{storage};
ghost use Rattle.lab_store_read_records.specs.Readable.{ArePlaced};
ghost use Rattle.lab_move_tables.specs.Answering.{IsTaken};
ghost use Rattle.lab_move_tables.specs.Chained.{IsChained};
ghost use Rattle.lab_move_tables.specs.Questions.{filed_text};
ghost use Rattle.lab_move_tables.specs.Shown.{records_shown};
ghost use Rattle.lab_move_read_people.specs.declared.faults.KeptFault.TheVariants.{Storage};
ghost use Rattle.lab_move_read.specs.Readable.{AreRecords, HasRecordParts, HasRecords};
ghost use Rattle.lab_move_read_people.specs.Private.Kept.{IsTried};
ghost use Rattle.lab_move_read_people.specs.Kept.{TriesBy, TriesOld, are_counted};
ghost use Rattle.lab_move_read.specs.Records.{is_kept_record_head, record_by, record_heads_of, are_kept_records_by, records_by};

use crate::forms::named_form;
use crate::leaves::leaves_at;
use lab_forms_texts::{LabCode, Series};
use lab_move_read_people::KeptFault;
use lab_move_read_people::cells::are_counted;
use lab_move_tables::{Older, record_rows};
use lab_records_kept::{FormVersion, Record};
use lab_store_read::{ReadFault, Readable};
use lab_store_read_forms::FormAt;
use lab_store_read_records::{RecordHead, VersionLeaf, chain, records_of_rows};
use sqlite::Row;
use std::alloc::Global;

// The records that rows show. The rows have to be so many, and numbered.
#[tactic(auto, using(lab_move_read_people::proofs::Found::told_back))]
fn records_tried(alloc: Global, rows: &[Row], count: u64) -> Result<Vec<RecordHead>, KeptFault>
    ensures tried { IsTried (are_counted 1 count rows.now)
        (λ made. made.items ≡ map record_head_of rows.now) result }
    ensures fault { IfErr result (λ fault. fault ≡ Storage → ¬ AreRecords rows.now) }
{
    if !are_counted(rows, 1, count)? {
        return Err(KeptFault::NotKept);
    }
    Ok(records_of_rows(alloc, rows)?)
}

// The own rows of the records of the laboratory with the id. They have to be so many, and numbered.
fn record_heads_at<D: Readable>(
    alloc: Global,
    conn: &mut D,
    lab: i64,
    count: u64,
) -> Result<Vec<RecordHead>, KeptFault>
    ensures { TriesOld
        (λ db t. IsTaken db filed_text (Int lab ∷ []) × AreRecords (records_shown t lab))
        (λ t. are_so_many_records t lab count)
        (λ t made. made.items ≡ record_heads_of t lab)
        (D.state conn.old) (D.state conn.new) result }
{
    let rows = record_rows(conn, lab)?;
    records_tried(alloc, &rows, count)
}

// The record of the row, the form and the versions.
fn record_with(
    alloc: Global,
    code: &LabCode,
    head: RecordHead,
    form: FormVersion,
    leaves: Vec<VersionLeaf>,
) -> Result<Record, ReadFault>
    ensures value { IfOk result
        (λ kept. kept ≡ record_with code.now head form (map leaf_of leaves.items)) }
    ensures chained { IfOk result (IsChained code.now) }
    ensures fault { IfErr result
        (λ fault. fault ≡ storage → ¬ ArePlaced false (map leaf_of leaves.items)) }
{
    let mut cover = Record {
        number: head.number,
        form,
        sample: head.sample,
        versions: Series::new(alloc),
    };
    cover.versions = chain(alloc, code, &cover, leaves)?;
    Ok(cover)
}

// The record of the row, with its form and its versions. The form has to be one of these, and there
// has to be a version.
fn record_whole<D: Readable>(
    alloc: Global,
    conn: &mut D,
    older: Older,
    lab: i64,
    code: &LabCode,
    forms: &[FormAt],
    head: RecordHead,
) -> Result<Record, KeptFault>
    ensures tries { TriesBy older (λ db t. HasRecordParts older db t head)
        (λ t. is_kept_record_head t lab forms.now head)
        (λ t kept. kept ≡ record_by t code.now forms.now head)
        (D.state conn.old) (D.state conn.new) result }
    ensures chained { IfOk result (IsChained code.now) }
{
    let leaves = leaves_at(alloc, conn, older, lab, head.id, head.current)?;
    let form = named_form(forms, &head)?;
    if head.current == 0 {
        return Err(KeptFault::NotKept);
    }
    Ok(record_with(alloc, code, head, form, leaves.into_vec())?)
}

// The records of the rows, with their forms and their versions.
fn records_whole<D: Readable>(
    alloc: Global,
    conn: &mut D,
    older: Older,
    lab: i64,
    code: &LabCode,
    forms: &[FormAt],
    heads: Vec<RecordHead>,
) -> Result<Series<Record>, KeptFault>
    ensures tries { TriesBy older (λ db t. All (HasRecordParts older db t) heads.items)
        (λ t. list_all (is_kept_record_head t lab forms.now) heads.items)
        (λ t made. made ≡ map (record_by t code.now forms.now) heads.items)
        (D.state conn.old) (D.state conn.new) result }
    ensures chained { IfOk result (All (IsChained code.now)) }
{
    let mut made = Series::new(alloc);
    for head in heads {
        let kept = record_whole(alloc, conn, older, lab, code, forms, head)?;
        made.push(kept)?;
    }
    Ok(made)
}

/// Returns the records of the laboratory with the code, whose row has the id, in the order of their
/// numbers. They have to be of that number, and of these forms.
///
/// # Errors
/// They aren't well kept, the store failed, a row isn't one that a program could have written, or
/// memory ran out.
pub fn records_at<D: Readable>(
    alloc: Global,
    conn: &mut D,
    older: Older,
    lab: i64,
    code: &LabCode,
    forms: &[FormAt],
    count: u64,
) -> Result<Series<Record>, KeptFault>
    ensures tries { TriesBy older (HasRecords older lab)
        (λ t. are_kept_records_by t lab forms.now count)
        (λ t made. made ≡ records_by t lab code.now forms.now)
        (D.state conn.old) (D.state conn.new) result }
    ensures chained { IfOk result (All (IsChained code.now)) }
{
    let heads = record_heads_at(alloc, conn, lab, count)?;
    records_whole(alloc, conn, older, lab, code, forms, heads)
}
