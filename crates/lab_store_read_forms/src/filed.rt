//! Whole records, by what a request names.

ghost use Rattle.std.specs.Prelude.{◌≡◌, [], ◌∷◌, ◌++◌, map, option_map, All, IfSome};
ghost use Rattle.lab_records_kept.specs.Lookups.{record_of, record_about};
ghost use Rattle.lab_records_kept.specs.Lookups.{records_within};
ghost use Rattle.lab_store_tables.specs.Meaning.{leaves_of, records_of};
ghost use Rattle.lab_store_read.specs.Causes.{HasItsCause, HasFirst};
ghost use Rattle.lab_store_read.specs.Reads.{Reads, MayRead};
ghost use Rattle.lab_store_read_records.specs.Retrieved.{abouts_shown, within_shown};
ghost use Rattle.lab_store_read_records.specs.Shown.{records_shown};
ghost use Rattle.lab_store_read_forms.specs.Private.FormsBehind.{IsAtItsId, IsFiledBehind};
ghost use Rattle.lab_store_read_forms.specs.Readable.{HasParts, HasWholeRecord};
ghost use Rattle.lab_store_read_forms.specs.Wholes.{record_by, record_with};

use crate::forms_behind::form_behind;
use crate::heads::FormAt;
use crate::wholes::{record_by_form, record_whole};
use lab_forms_texts::{Key, LabCode, Name, Ordinal};
use lab_records_kept::{FormVersion, FoundRecord, Record};
use lab_store_read::{ReadFault, Readable};
use lab_store_read_records::{RecordHead, record_about, record_at, records_within};
use std::alloc::Global;

// The record of the row, if there is a row.
fn record_if<D: Readable>(
    alloc: Global,
    conn: &mut D,
    code: &LabCode,
    head: Option<RecordHead>,
) -> Result<Option<FoundRecord>, ReadFault>
    ensures reads { MayRead (λ t kept. kept ≡ option_map (record_by t code.now) head)
        (D.state conn.old) (D.state conn.new) result }
    ensures cause { HasItsCause (λ t. IfSome head (HasParts t))
        (D.state conn.old) (D.state conn.new) result }
{
    match head {
        Some(head) => {
            let kept = record_whole(alloc, conn, code, head)?;
            Ok(Some(kept))
        }
        None => Ok(None),
    }
}

/// Returns the whole record with the number, in the laboratory with the code, whose row has the id.
///
/// # Errors
/// The store failed, a row isn't one that this program could have written, or memory ran out.
pub fn numbered_at<D: Readable>(
    alloc: Global,
    conn: &mut D,
    code: &LabCode,
    lab: i64,
    number: Ordinal,
) -> Result<Option<FoundRecord>, ReadFault>
    ensures reads { Reads (λ t kept. kept ≡ record_of (records_of t code.now lab) number)
        (D.state conn.old) (D.state conn.new) result }
    ensures cause { HasItsCause (λ t. HasFirst (HasWholeRecord t) (records_shown t lab number))
        (D.state conn.old) (D.state conn.new) result }
{
    let head = record_at(alloc, conn, lab, number)?;
    record_if(alloc, conn, code, head)
}

/// Returns the whole record with the form and the sample, in the laboratory with the code, whose
/// row has the id.
///
/// # Errors
/// The store failed, a row isn't one that this program could have written, or memory ran out.
pub fn about_at<D: Readable>(
    alloc: Global,
    conn: &mut D,
    code: &LabCode,
    lab: i64,
    form: &Key,
    sample: &Name,
) -> Result<Option<FoundRecord>, ReadFault>
    ensures reads { Reads (λ t kept. kept
        ≡ record_about (records_of t code.now lab) form.now sample.now)
        (D.state conn.old) (D.state conn.new) result }
    ensures cause { HasItsCause
        (λ t. HasFirst (HasWholeRecord t) (abouts_shown t lab form.now sample.now))
        (D.state conn.old) (D.state conn.new) result }
{
    let head = record_about(alloc, conn, lab, form, sample)?;
    record_if(alloc, conn, code, head)
}

// Adds the record of the row and the form after the others.
fn add_formed<D: Readable>(
    alloc: Global,
    conn: &mut D,
    code: &LabCode,
    made: &mut Vec<Record>,
    head: RecordHead,
    form: FormVersion,
) -> Result<(), ReadFault>
    ensures reads { Reads (λ t _. made.new.items
        ≡ made.old.items ++ record_with code.now head form (leaves_of t head.id) ∷ [])
        (D.state conn.old) (D.state conn.new) result }
    ensures cause { HasItsCause (λ t. HasParts t head)
        (D.state conn.old) (D.state conn.new) result }
{
    let kept = record_by_form(alloc, conn, code, head, form)?;
    made.push(kept.into_kept())?;
    Ok(())
}

// Adds the record of the row after the others. Its form is read unless it is the form of the record
// before.
fn add_record<D: Readable>(
    alloc: Global,
    conn: &mut D,
    code: &LabCode,
    made: &mut Vec<Record>,
    before: Option<FormAt>,
    head: RecordHead,
) -> Result<FormAt, ReadFault>
    ensures reads { MayRead (λ t found. IfSome before (IsAtItsId t)
        → IsFiledBehind t code.now head made.old.items made.new.items found)
        (D.state conn.old) (D.state conn.new) result }
    ensures cause { HasItsCause (λ t. HasParts t head)
        (D.state conn.old) (D.state conn.new) result }
{
    let found = form_behind(alloc, conn, before, head.form)?;
    let form = found.form.copy()?;
    add_formed(alloc, conn, code, made, head, form)?;
    Ok(found)
}

// Adds the records of the rows after the others. A form is read unless it is the form of the record
// before.
fn add_records<D: Readable>(
    alloc: Global,
    conn: &mut D,
    code: &LabCode,
    made: &mut Vec<Record>,
    heads: Vec<RecordHead>,
) -> Result<(), ReadFault>
    ensures reads { MayRead (λ t _. made.new.items
        ≡ made.old.items ++ map (record_by t code.now) heads.items)
        (D.state conn.old) (D.state conn.new) result }
    ensures cause { HasItsCause (λ t. All (HasParts t) heads.items)
        (D.state conn.old) (D.state conn.new) result }
{
    let mut before = None;
    for head in heads {
        let found = add_record(alloc, conn, code, made, before, head)?;
        before = Some(found);
    }
    Ok(())
}

/// Returns the whole records with a number in the range, in the laboratory with the code, whose row
/// has the id, in the order of the numbers. A form is read unless it is the form of the record
/// before.
///
/// # Errors
/// The store failed, a row isn't one that this program could have written, or memory ran out.
pub fn filed_within<D: Readable>(
    alloc: Global,
    conn: &mut D,
    code: &LabCode,
    lab: i64,
    from: Ordinal,
    to: Ordinal,
) -> Result<Vec<Record>, ReadFault>
    ensures reads { Reads (λ t made. made.items
        ≡ records_within from to (records_of t code.now lab))
        (D.state conn.old) (D.state conn.new) result }
    ensures cause { HasItsCause (λ t. All (HasWholeRecord t) (within_shown t lab from to))
        (D.state conn.old) (D.state conn.new) result }
{
    let heads = records_within(alloc, conn, lab, from, to)?;
    let mut made = Vec::new(alloc);
    add_records(alloc, conn, code, &mut made, heads)?;
    Ok(made)
}
