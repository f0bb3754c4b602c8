//! Forms, as JSON.
ghost use Rattle.std.specs.Prelude.{◌≡◌, IfOk, OnOk};
ghost use Rattle.serde_json.specs.View.{view, members_view};
ghost use Rattle.lab_forms.specs.Kinds.{kind_word};
ghost use Rattle.lab_wire_replies.specs.Forms.{form_made_data, form_data, with_bound, with_kind, field_members};

use crate::members::{count, flag, object_of, object_with, ordinal, put_all, text};
use crate::parts::{AnyReply, Shown, list_of, put_list_of};
use lab_forms::{Bound, Field, Kind};
use lab_forms_texts::{Key, Ordinal, OutOfMemory};
use lab_records_kept::FormVersion;
use serde_json::{Map, Value};
use std::alloc::Global;

/// Returns the reply about a form's version that was made.
///
/// # Errors
/// Memory ran out.
pub fn form_made_value(alloc: Global, code: &Key, version: Ordinal) -> Result<Value, OutOfMemory>
    ensures { IfOk result (λ value. view value ≡ form_made_data code.now version) }
{
    object_of(
        alloc,
        &[text("form", code.as_str()), ordinal("version", version)],
    )
}

/// Returns a version of a form, as JSON.
///
/// # Errors
/// Memory ran out.
pub fn form_value(alloc: Global, form: &FormVersion) -> Result<Value, OutOfMemory>
    ensures { IfOk result (λ value. view value ≡ form_data form.now) }
{
    let fields = list_of::<OfForms, _>(alloc, form.form.fields())?;
    let members = [
        flag("approval", form.form.approval()),
        text("form", form.code.as_str()),
        ordinal("version", form.version),
    ];
    object_with(alloc, &members, "fields", fields)
}

/// The group of the things that a form lists.
pub struct OfForms;

impl Shown<OfForms> for Field {
    ghost use Rattle.lab_wire_replies.specs.Forms.{field_data};

    ghost data_of = { field_data };

    fn value(&self, alloc: Global) -> Result<Value, OutOfMemory> {
        let mut members = field_members(alloc, self)?;
        put_kind(&mut members, alloc, &self.kind)?;
        Ok(Value::Object(members))
    }
}

// The members that every field has.
fn field_members(alloc: Global, field: &Field) -> Result<Map<String, Value>, OutOfMemory>
    ensures { IfOk result (λ members. members_view members.entries ≡ field_members field.now) }
{
    let mut members = Map::new(alloc);
    let told = [
        text("key", field.key.as_str()),
        text("kind", kind_word(&field.kind)),
        text("label", field.label.as_str()),
        flag("required", field.required),
    ];
    put_all(&mut members, alloc, &told)?;
    Ok(members)
}

fn kind_word(kind: &Kind) -> &'static str
    ensures { result.now ≡ kind_word kind.now }
{
    match kind {
        Kind::Number { .. } => "number",
        Kind::Text { .. } => "text",
        Kind::Choice { .. } => "choice",
        Kind::Date => "date",
        Kind::YesNo => "yesno",
    }
}

// Adds the members that a kind has besides its word.
fn put_kind(members: &mut Map<String, Value>, alloc: Global, kind: &Kind) -> Result<(), OutOfMemory>
    ensures { OnOk result (members_view members.new.entries
        ≡ with_kind kind.now (members_view members.old.entries)) }
{
    match kind {
        Kind::Number {
            unit,
            decimals,
            min,
            max,
        } => {
            let told = [
                text("unit", unit.as_str()),
                count("decimals", u64::from(*decimals)),
            ];
            put_all(members, alloc, &told)?;
            put_bound(members, alloc, "min", min)?;
            put_bound(members, alloc, "max", max)
        }
        Kind::Text { size } => { put_all(members, alloc, &[count("size", u64::from(*size))]) }
        Kind::Choice { choices } => {
            put_list_of::<AnyReply, _>(members, alloc, "choices", choices.names())
        }
        Kind::Date | Kind::YesNo => Ok(()),
    }
}

fn put_bound(
    members: &mut Map<String, Value>,
    alloc: Global,
    name: &'static str,
    bound: &Option<Bound>,
) -> Result<(), OutOfMemory>
    ensures { OnOk result (members_view members.new.entries
        ≡ with_bound name.now bound.now (members_view members.old.entries)) }
{
    match bound {
        Some(bound) => put_all(members, alloc, &[text(name, bound.as_str())]),
        None => Ok(()),
    }
}
