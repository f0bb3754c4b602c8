//! The version of a form and the record that a command names.

ghost use Rattle.std.specs.Prelude.{◌≡◌, option_and_then, IfSome};
ghost use Rattle.lab_records_kept.specs.Parts.{form_meant, record_meant};
ghost use Rattle.lab_store_read_records.specs.Laboratories.{lab_by};
ghost use Rattle.lab_store_load.specs.Things.{things_by};
ghost use Rattle.lab_store_load.specs.Readable.{HasFormOf, HasFiledOf, HasThings};
ghost use Rattle.lab_store_read.specs.Causes.{HasItsCause};
ghost use Rattle.lab_store_read.specs.Reads.{Reads, MayRead};

use lab_records_kept::{FormVersion, FormWanted, FoundRecord, Need, RecordWanted};
use lab_store_read::{ReadFault, Readable};
use lab_store_read_forms::{about_at, exact_form_at, last_form_at, numbered_at};
use lab_store_read_records::LabHead;
use std::alloc::Global;

/// The form and the record that a command names.
#[derive(Drop)]
pub struct Things {
    /// The version of a form, if it was found.
    pub form: Option<FormVersion>,
    /// The record, if it was found.
    pub filed: Option<FoundRecord>,
}

// The version of a form that the command names.
fn form_wanted<D: Readable>(
    alloc: Global,
    conn: &mut D,
    lab: &LabHead,
    wanted: &FormWanted,
) -> Result<Option<FormVersion>, ReadFault>
    ensures reads { Reads (λ t form. form ≡ form_meant (lab_by t lab.now) wanted.now)
        (D.state conn.old) (D.state conn.new) result }
    ensures cause { HasItsCause (λ t. HasFormOf t lab.now.id wanted.now)
        (D.state conn.old) (D.state conn.new) result }
{
    match wanted {
        FormWanted::Last { code } => last_form_at(alloc, conn, lab.id, code),
        FormWanted::Exact { code, version } => exact_form_at(alloc, conn, lab.id, code, *version),
    }
}

// The version of a form that the command names, if it names one.
fn form_if<D: Readable>(
    alloc: Global,
    conn: &mut D,
    lab: &LabHead,
    wanted: &Option<FormWanted>,
) -> Result<Option<FormVersion>, ReadFault>
    ensures reads { MayRead (λ t form. form
        ≡ option_and_then (form_meant (lab_by t lab.now)) wanted.now)
        (D.state conn.old) (D.state conn.new) result }
    ensures cause { HasItsCause (λ t. IfSome wanted.now (HasFormOf t lab.now.id))
        (D.state conn.old) (D.state conn.new) result }
{
    match wanted {
        Some(wanted) => form_wanted(alloc, conn, lab, wanted),
        None => Ok(None),
    }
}

// The record that the command names.
fn filed_wanted<D: Readable>(
    alloc: Global,
    conn: &mut D,
    lab: &LabHead,
    wanted: &RecordWanted,
) -> Result<Option<FoundRecord>, ReadFault>
    ensures reads { Reads (λ t filed. filed ≡ record_meant (lab_by t lab.now) wanted.now)
        (D.state conn.old) (D.state conn.new) result }
    ensures cause { HasItsCause (λ t. HasFiledOf t lab.now.id wanted.now)
        (D.state conn.old) (D.state conn.new) result }
{
    match wanted {
        RecordWanted::Numbered { number } => numbered_at(alloc, conn, &lab.code, lab.id, *number),
        RecordWanted::About { form, sample } => {
            about_at(alloc, conn, &lab.code, lab.id, form, sample)
        }
    }
}

// The record that the command names, if it names one.
fn filed_if<D: Readable>(
    alloc: Global,
    conn: &mut D,
    lab: &LabHead,
    wanted: &Option<RecordWanted>,
) -> Result<Option<FoundRecord>, ReadFault>
    ensures reads { MayRead (λ t filed. filed
        ≡ option_and_then (record_meant (lab_by t lab.now)) wanted.now)
        (D.state conn.old) (D.state conn.new) result }
    ensures cause { HasItsCause (λ t. IfSome wanted.now (HasFiledOf t lab.now.id))
        (D.state conn.old) (D.state conn.new) result }
{
    match wanted {
        Some(wanted) => filed_wanted(alloc, conn, lab, wanted),
        None => Ok(None),
    }
}

/// Returns those that exist of the form and the record that the command names.
///
/// # Errors
/// The store failed, a row isn't one that this program could have written, or memory ran out.
pub fn things_at<D: Readable>(
    alloc: Global,
    conn: &mut D,
    lab: &LabHead,
    need: &Need,
) -> Result<Things, ReadFault>
    ensures reads { MayRead (λ t things. things ≡ things_by (lab_by t lab.now) need.now)
        (D.state conn.old) (D.state conn.new) result }
    ensures cause { HasItsCause (λ t. HasThings t lab.now need.now)
        (D.state conn.old) (D.state conn.new) result }
{
    let form = form_if(alloc, conn, lab, &need.form)?;
    let filed = filed_if(alloc, conn, lab, &need.filed)?;
    Ok(Things { form, filed })
}
