//! Records, with their forms and all their versions.

ghost use Rattle.std.specs.Prelude.{◌≡◌, map, false, IfOk, IfErr};
ghost use Rattle.lab_store_tables.specs.Meaning.{leaves_of};
ghost use Rattle.lab_store_read_records.specs.Leaves.{leaf_of};
ghost use Rattle.lab_store_read_forms.specs.Wholes.{record_with, record_by};
ghost use Rattle.lab_store_read.specs.Causes.{HasItsCause};
ghost use Rattle.lab_store_read.specs.Cells.{storage};
ghost use Rattle.lab_store_read.specs.Reads.{Reads};
ghost use Rattle.lab_store_read_records.specs.Readable.{ArePlaced};
ghost use Rattle.lab_store_read_forms.specs.Readable.{HasParts};

use crate::form_at;
use lab_forms_texts::{LabCode, Series};
use lab_records_kept::{FormVersion, FoundRecord, Record};
use lab_store_read::{ReadFault, Readable};
use lab_store_read_records::{RecordHead, VersionLeaf, chain, leaves_at};
use std::alloc::Global;

// The record made of the row, the form and the versions.
fn record_with(
    alloc: Global,
    lab: &LabCode,
    head: RecordHead,
    form: FormVersion,
    leaves: Vec<VersionLeaf>,
) -> Result<FoundRecord, ReadFault>
    ensures value { IfOk result
        (λ kept. kept ≡ record_with lab.now head form (map leaf_of leaves.items)) }
    ensures fault { IfErr result
        (λ fault. fault ≡ storage → ¬ ArePlaced false (map leaf_of leaves.items)) }
{
    let code = lab.copy()?;
    let mut cover = Record {
        number: head.number,
        form,
        sample: head.sample,
        versions: Series::new(alloc),
    };
    cover.versions = chain(alloc, lab, &cover, leaves)?;
    Ok(FoundRecord::chained(cover, code))
}

/// Returns the record of the row and the form, of the laboratory with the code, with all its
/// versions.
///
/// # Errors
/// The store failed, a row isn't one that this program could have written, or memory ran out.
pub(crate) fn record_by_form<D: Readable>(
    alloc: Global,
    conn: &mut D,
    lab: &LabCode,
    head: RecordHead,
    form: FormVersion,
) -> Result<FoundRecord, ReadFault>
    ensures reads { Reads (λ t kept. kept ≡ record_with lab.now head form (leaves_of t head.id))
        (D.state conn.old) (D.state conn.new) result }
    ensures cause { HasItsCause (λ t. HasParts t head)
        (D.state conn.old) (D.state conn.new) result }
{
    let leaves = leaves_at(alloc, conn, head.id)?;
    record_with(alloc, lab, head, form, leaves)
}

/// Returns the record with the row, of the laboratory with the code, with its form and all its
/// versions.
///
/// # Errors
/// The store failed, a row isn't one that this program could have written, or memory ran out.
pub fn record_whole<D: Readable>(
    alloc: Global,
    conn: &mut D,
    lab: &LabCode,
    head: RecordHead,
) -> Result<FoundRecord, ReadFault>
    ensures reads { Reads (λ t kept. kept ≡ record_by t lab.now head)
        (D.state conn.old) (D.state conn.new) result }
    ensures cause { HasItsCause (λ t. HasParts t head)
        (D.state conn.old) (D.state conn.new) result }
{
    let form = form_at(alloc, conn, head.form)?;
    record_by_form(alloc, conn, lab, head, form)
}
