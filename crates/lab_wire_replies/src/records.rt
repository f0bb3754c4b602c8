//! Records, their versions, rows and signatures, as JSON.
ghost use Rattle.std.specs.Prelude.{◌≡◌, IfOk, OnOk, map};
ghost use Rattle.serde_json.specs.Data.{string};
ghost use Rattle.serde_json.specs.View.{view, members_view};
ghost use Rattle.lab_wire_replies.specs.Parts.{members_onto, text_or_empty};
ghost use Rattle.lab_wire_replies.specs.Members.{member_data};
ghost use Rattle.lab_wire_replies.specs.Records.{record_opened_data, entered_data, amended_data, signed_data, current_of, record_data, value_data, format_number, reason_of, version_about, version_opening, version_lists, version_data, records_data};

use crate::members::{
    bytes, count, current, flag, moment, object_of, object_with, ordinal, put_all, state, text,
    text_if_any,
};
use crate::parts::{AnyReply, Shown, list_of, put_list, put_list_of};
use lab_forms_texts::{Ordinal, OutOfMemory};
use lab_records_kept::Signature;
use lab_records_rules::{RecordRead, RecordState, VersionRead, VersionState};
use lab_seal_versions::{Amendment, Digest, EntryRow, Format, State};
use serde_json::{Map, Value};
use std::alloc::Global;

/// The group of the things that replies about records list.
pub struct OfRecords;

/// Returns the reply about a record that was opened.
///
/// # Errors
/// Memory ran out.
pub fn record_opened_value(
    alloc: Global,
    number: Ordinal,
    version: Ordinal,
) -> Result<Value, OutOfMemory>
    ensures { IfOk result (λ value. view value ≡ record_opened_data number version) }
{
    object_of(
        alloc,
        &[ordinal("record", number), ordinal("version", version)],
    )
}

/// Returns the reply about a value that was entered.
///
/// # Errors
/// Memory ran out.
pub fn entered_value(
    alloc: Global,
    number: Ordinal,
    version: Ordinal,
    rows: u64,
    digest: &Digest,
) -> Result<Value, OutOfMemory>
    ensures { IfOk result (λ value. view value ≡ entered_data number version rows digest.now) }
{
    object_of(
        alloc,
        &[
            bytes("digest", digest.bytes()),
            ordinal("record", number),
            count("rows", rows),
            ordinal("version", version),
        ],
    )
}

/// Returns the reply about a version that an amendment opened.
///
/// # Errors
/// Memory ran out.
pub fn amended_value(
    alloc: Global,
    number: Ordinal,
    version: Ordinal,
    digest: &Digest,
) -> Result<Value, OutOfMemory>
    ensures { IfOk result (λ value. view value ≡ amended_data number version digest.now) }
{
    object_of(
        alloc,
        &[
            bytes("digest", digest.bytes()),
            ordinal("record", number),
            ordinal("version", version),
        ],
    )
}

/// Returns the reply about a signature that was given.
///
/// # Errors
/// Memory ran out.
pub fn signed_value(
    alloc: Global,
    signature: &Signature,
    given: &Option<State>,
) -> Result<Value, OutOfMemory>
    ensures { IfOk result (λ value. view value ≡ signed_data signature.now given.now) }
{
    let members = [
        bytes("digest", signature.digest.bytes()),
        text("meaning", signature.meaning.word()),
        moment("moment", signature.moment),
        text("name", signature.name.as_str()),
        bytes("seal", signature.seal.bytes()),
        state("state", *given),
    ];
    object_of(alloc, &members)
}

impl Shown<OfRecords> for VersionState {
    ghost use Rattle.lab_wire_replies.specs.Records.{version_state_data};

    ghost data_of = { version_state_data };

    fn value(&self, alloc: Global) -> Result<Value, OutOfMemory> {
        object_of(
            alloc,
            &[
                bytes("digest", self.digest.bytes()),
                state("state", self.state),
                ordinal("version", self.version),
            ],
        )
    }
}

fn current_of(versions: &[VersionState]) -> Option<Ordinal>
    ensures { result ≡ current_of versions.now }
{
    versions.last().map(|version| version.version)
}

/// Returns a record, as JSON.
///
/// # Errors
/// Memory ran out.
pub fn record_value(alloc: Global, read: &RecordRead) -> Result<Value, OutOfMemory>
    ensures { IfOk result (λ value. view value ≡ record_data read.now) }
{
    let versions = list_of::<OfRecords, _>(alloc, read.versions.as_slice())?;
    let members = [
        current("current", current_of(read.versions.as_slice())),
        text("form", read.form.code.as_str()),
        ordinal("form_version", read.form.version),
        ordinal("record", read.number),
        text("sample", read.sample.as_str()),
    ];
    object_with(alloc, &members, "versions", versions)
}

impl Shown<OfRecords> for EntryRow {
    ghost use Rattle.lab_wire_replies.specs.Records.{row_data};

    ghost data_of = { row_data };

    fn value(&self, alloc: Global) -> Result<Value, OutOfMemory> {
        object_of(
            alloc,
            &[
                text("key", self.key.as_str()),
                moment("moment", self.moment),
                text("person", self.person.as_str()),
                text_if_any("reason", &self.reason),
                text("unit", self.unit.as_str()),
                text("value", self.value.as_str()),
            ],
        )
    }
}

impl Shown<OfRecords> for Signature {
    ghost use Rattle.lab_wire_replies.specs.Records.{signature_data};

    ghost data_of = { signature_data };

    fn value(&self, alloc: Global) -> Result<Value, OutOfMemory> {
        object_of(
            alloc,
            &[
                text("meaning", self.meaning.word()),
                moment("moment", self.moment),
                text("name", self.name.as_str()),
                text("person", self.person.as_str()),
                text("reason", self.meaning.reason()),
                bytes("seal", self.seal.bytes()),
            ],
        )
    }
}

// Values, listed without who entered them and when.
fn values_list(alloc: Global, rows: &[EntryRow]) -> Result<Vec<Value>, OutOfMemory>
    ensures { IfOk result (λ list. map view list.items ≡ map value_data rows.now) }
{
    let mut list = Vec::new(alloc);
    for row in rows {
        list.push(value_value(alloc, row)?)?;
    }
    Ok(list)
}

fn value_value(alloc: Global, row: &EntryRow) -> Result<Value, OutOfMemory>
    ensures { IfOk result (λ value. view value ≡ value_data row.now) }
{
    object_of(
        alloc,
        &[
            text("key", row.key.as_str()),
            text("unit", row.unit.as_str()),
            text("value", row.value.as_str()),
        ],
    )
}

fn format_number(format: Format) -> u32
    ensures { result ≡ format_number format }
{
    match format {
        Format::One => 1,
        Format::Two { .. } => 2,
    }
}

fn amendment_reason(amendment: &Option<Amendment>) -> &str
    ensures { string result.now ≡ text_or_empty (reason_of amendment.now) }
{
    match amendment {
        Some(amendment) => amendment.reason.as_str(),
        None => "",
    }
}

/// Returns a version of a record, as JSON.
///
/// # Errors
/// Memory ran out.
pub fn version_value(alloc: Global, read: &VersionRead) -> Result<Value, OutOfMemory>
    ensures { IfOk result (λ value. view value ≡ version_data read.now) }
{
    let mut members = Map::new(alloc);
    put_about(&mut members, alloc, read)?;
    put_opening(&mut members, alloc, read)?;
    put_lists(&mut members, alloc, read)?;
    Ok(Value::Object(members))
}

fn put_about(
    members: &mut Map<String, Value>,
    alloc: Global,
    read: &VersionRead,
) -> Result<(), OutOfMemory>
    ensures { OnOk result (members_view members.new.entries
        ≡ members_onto (version_about read.now) (members_view members.old.entries)) }
{
    put_all(
        members,
        alloc,
        &[
            flag("approval", read.form.form.approval()),
            text("form", read.form.code.as_str()),
            ordinal("form_version", read.form.version),
            ordinal("record", read.number),
            text("sample", read.sample.as_str()),
        ],
    )
}

fn put_opening(
    members: &mut Map<String, Value>,
    alloc: Global,
    read: &VersionRead,
) -> Result<(), OutOfMemory>
    ensures { OnOk result (members_view members.new.entries
        ≡ members_onto (version_opening read.now) (members_view members.old.entries)) }
{
    let version = &read.version;
    let told = [
        bytes("digest", read.digest.bytes()),
        count("format", u64::from(format_number(version.format))),
        moment("moment", version.opened),
        text("opener", version.opener.as_str()),
        text("reason", amendment_reason(version.origin.amendment())),
        state("state", read.state),
        ordinal("version", version.origin.number()),
    ];
    put_all(members, alloc, &told)
}

fn put_lists(
    members: &mut Map<String, Value>,
    alloc: Global,
    read: &VersionRead,
) -> Result<(), OutOfMemory>
    ensures { OnOk result (members_view members.new.entries
        ≡ members_onto (version_lists read.now) (members_view members.old.entries)) }
{
    let signatures = read.version.signatures.as_slice();
    put_list_of::<AnyReply, _>(members, alloc, "altered", read.altered.as_slice())?;
    put_list_of::<OfRecords, _>(members, alloc, "rows", read.version.rows.rows())?;
    put_list_of::<OfRecords, _>(members, alloc, "signatures", signatures)?;
    let values = values_list(alloc, read.values.as_slice())?;
    put_list(members, alloc, "values", values)
}

impl Shown<OfRecords> for RecordState {
    ghost use Rattle.lab_wire_replies.specs.Records.{record_state_data};

    ghost data_of = { record_state_data };

    fn value(&self, alloc: Global) -> Result<Value, OutOfMemory> {
        object_of(
            alloc,
            &[
                current("current", self.current),
                text("form", self.form.as_str()),
                ordinal("record", self.number),
                text("sample", self.sample.as_str()),
                state("state", self.state),
            ],
        )
    }
}

/// Returns a list of records, as JSON.
///
/// # Errors
/// Memory ran out.
pub fn records_value(alloc: Global, records: &[RecordState]) -> Result<Value, OutOfMemory>
    ensures { IfOk result (λ value. view value ≡ records_data records.now) }
{
    let records = list_of::<OfRecords, _>(alloc, records)?;
    object_with(alloc, &[], "records", records)
}
