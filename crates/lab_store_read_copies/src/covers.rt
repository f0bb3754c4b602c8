//! A record without its versions: its own row, and its form.

ghost use Rattle.std.specs.Prelude.{◌≡◌, IfSome};
ghost use Rattle.lab_store_read_forms.specs.Readable.{HasFormAt};
ghost use Rattle.lab_store_read_forms.specs.Wholes.{cover_of};
ghost use Rattle.lab_store_read_records.specs.Readable.{HasRecord};
ghost use Rattle.lab_store_read_records.specs.Shown.{records_shown};
ghost use Rattle.lab_store_read_copies.specs.GivenRows.{IsFormed, cover_by, filed_by, head_in};
ghost use Rattle.lab_store_read.specs.Causes.{HasFirst, HasItsCause};
ghost use Rattle.lab_store_read.specs.Reads.{Reads, MayRead};

use lab_forms_texts::{Ordinal, Series};
use lab_records_kept::{FormVersion, Record};
use lab_store_read::{ReadFault, Readable};
use lab_store_read_forms::form_at;
use lab_store_read_records::{LabHead, RecordHead, record_at};
use std::alloc::Global;

/// A record without its versions, and the id of the version of a form that it follows.
#[derive(Drop)]
pub struct Cover {
    /// The id of the version of the form.
    pub form: i64,
    /// The record.
    pub kept: Record,
}

/// Returns the own row of the record with the number, if the laboratory has one.
///
/// # Errors
/// The store failed, a row isn't one that this program could have written, or memory ran out.
pub fn head_in<D: Readable>(
    alloc: Global,
    conn: &mut D,
    lab: &LabHead,
    number: Ordinal,
) -> Result<Option<RecordHead>, ReadFault>
    ensures reads { Reads (λ t head. head ≡ head_in t lab.now number)
        (D.state conn.old) (D.state conn.new) result }
    ensures cause { HasItsCause (λ t. HasFirst HasRecord (records_shown t lab.now.id number))
        (D.state conn.old) (D.state conn.new) result }
{
    record_at(alloc, conn, lab.id, number)
}

// The record of the row and the form, without its versions.
fn cover_of(alloc: Global, head: RecordHead, form: FormVersion) -> Record
    ensures { result ≡ cover_of head form }
{
    Record {
        number: head.number,
        form,
        sample: head.sample,
        versions: Series::new(alloc),
    }
}

// The record of the row, without its versions.
fn cover_at<D: Readable>(alloc: Global, conn: &mut D, head: RecordHead) -> Result<Record, ReadFault>
    ensures reads { Reads (λ t cover. cover ≡ cover_by t head)
        (D.state conn.old) (D.state conn.new) result }
    ensures cause { HasItsCause (λ t. HasFormAt t head.form)
        (D.state conn.old) (D.state conn.new) result }
{
    let form = form_at(alloc, conn, head.form)?;
    Ok(cover_of(alloc, head, form))
}

// The record of the row without its versions, whose form is read.
fn first_cover<D: Readable>(
    alloc: Global,
    conn: &mut D,
    head: RecordHead,
) -> Result<Cover, ReadFault>
    ensures reads { Reads (λ t cover. cover ≡ filed_by t head)
        (D.state conn.old) (D.state conn.new) result }
    ensures cause { HasItsCause (λ t. HasFormAt t head.form)
        (D.state conn.old) (D.state conn.new) result }
{
    let form = head.form;
    let kept = cover_at(alloc, conn, head)?;
    Ok(Cover { form, kept })
}

// The record of the row without its versions, with the form of the record before it.
fn same_cover(alloc: Global, before: Cover, head: RecordHead) -> Cover
    ensures { result ≡ record { form = before.form; kept = cover_of head before.kept.form } }
{
    let mut cover = before;
    cover.kept.number = head.number;
    cover.kept.sample = head.sample;
    cover.kept.versions = Series::new(alloc);
    cover
}

// The record of the row without its versions. Its form is read unless it is the form of the record
// before it.
fn cover_after<D: Readable>(
    alloc: Global,
    conn: &mut D,
    before: Cover,
    head: RecordHead,
) -> Result<Cover, ReadFault>
    ensures reads { MayRead (λ t cover. IsFormed t before → cover ≡ filed_by t head)
        (D.state conn.old) (D.state conn.new) result }
    ensures cause { HasItsCause (λ t. HasFormAt t head.form)
        (D.state conn.old) (D.state conn.new) result }
{
    if before.form == head.form {
        return Ok(same_cover(alloc, before, head));
    }
    first_cover(alloc, conn, head)
}

/// Returns the record of the row without its versions. Its form is read unless it is the form of
/// the record before it.
///
/// # Errors
/// The store failed, a row isn't one that this program could have written, or memory ran out.
pub fn cover_behind<D: Readable>(
    alloc: Global,
    conn: &mut D,
    before: Option<Cover>,
    head: RecordHead,
) -> Result<Cover, ReadFault>
    ensures reads { MayRead (λ t cover. IfSome before (IsFormed t) → cover ≡ filed_by t head)
        (D.state conn.old) (D.state conn.new) result }
    ensures cause { HasItsCause (λ t. HasFormAt t head.form)
        (D.state conn.old) (D.state conn.new) result }
{
    match before {
        Some(before) => cover_after(alloc, conn, before, head),
        None => first_cover(alloc, conn, head),
    }
}
