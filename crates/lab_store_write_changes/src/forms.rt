//! Versions of forms, each with its fields and their choices.

ghost use Rattle.std.specs.Prelude.{◌≡◌, pos};
ghost use Rattle.sqlite_keyed.specs.Keyed.{next_key};
ghost use Rattle.lab_records_kept.specs.declared.changes.Change.TheVariants.{FormAdded};
ghost use Rattle.lab_store_tables.specs.Rows.{form_id, field_id};
ghost use Rattle.lab_store_tables.specs.Columns.{kind_names};
ghost use Rattle.lab_store_tables.specs.Changes.{AppliesIn, InTurn, AddsChoice, AddsField, form_row_of};
ghost use Rattle.lab_store_write.specs.Calls.{AnswersTrying, WritesTrying};
ghost use Rattle.lab_store_write.specs.Private.Calls.{Becomes};
ghost use Rattle.lab_store_write.specs.Causes.{IsTooGreat};
ghost use Rattle.lab_store_write_changes.specs.Private.FormsAdded.{choice_at, with_choice, field_at, with_field};
ghost use Rattle.lab_store_write_changes.specs.FormsAdded.{with_form};
ghost use Rattle.lab_store_write_changes.specs.Tried.{Only, TriesToAddChoice, TriesToAddChoices, TriesToAddField, TriesToAddFields, TriesIn, adding_choice, adding_field, adding_form};

use crate::kinds::{
    decimals_or_null, high_or_null, kind_word, low_or_null, size_or_null, unit_or_null,
};
use crate::places::{choice_place, field_place};
use lab_forms::{Field, Kind};
use lab_forms_texts::Name;
use lab_records_kept::FormVersion;
use lab_store_write::ids::insert;
use lab_store_write::statements::run;
use lab_store_write::values::{flag_value, id_value, ordinal_value, place_value, text_value};
use lab_store_write::{RowId, Writable};
use sqlite::Error;

// Adds the row.
fn insert_choice<W: Writable>(
    tx: &mut W,
    field: RowId,
    place: u64,
    name: &Name,
) -> Result<usize, Error>
    requires { ¬ IsTooGreat place }
    ensures { WritesTrying (Only (adding_choice (choice_at field.id (pos 0) place name.now)))
        W.lender W.state (Becomes (with_choice field.id place name.now)) tx.old tx.new result }
{
    run(
        tx,
        "INSERT INTO choices (field, place, name) VALUES (?1, ?2, ?3)",
        &[
            id_value(field),
            place_value(place),
            text_value(name.as_str()),
        ],
    )
}

// Adds a choice after those that the field has.
fn add_choice<W: Writable>(tx: &mut W, field: RowId, name: &Name) -> Result<(), Error>
    ensures { WritesTrying (TriesToAddChoice field.id name.now) W.lender W.state
        (AddsChoice field.id name.now) tx.old tx.new result }
{
    let place = choice_place(tx, field)?;
    insert_choice(tx, field, place, name)?;
    Ok(())
}

// Adds choices, one after the other.
fn add_choices<W: Writable>(tx: &mut W, field: RowId, names: &[Name]) -> Result<(), Error>
    ensures { WritesTrying (TriesToAddChoices field.id names.now) W.lender W.state
        (InTurn (AddsChoice field.id) names.now) tx.old tx.new result }
{
    for one in names {
        add_choice(tx, field, one)?;
    }
    Ok(())
}

// Adds the choices of a kind, if it has some.
fn add_kind<W: Writable>(tx: &mut W, field: RowId, kind: &Kind) -> Result<(), Error>
    ensures { WritesTrying (TriesToAddChoices field.id (kind_names kind.now)) W.lender W.state
        (InTurn (AddsChoice field.id) (kind_names kind.now)) tx.old tx.new result }
{
    match kind {
        Kind::Choice { choices } => add_choices(tx, field, choices.names()),
        Kind::Number { .. } | Kind::Text { .. } | Kind::Date | Kind::YesNo => Ok(()),
    }
}

// Adds the row.
fn insert_form<W: Writable>(tx: &mut W, lab: RowId, form: &FormVersion) -> Result<RowId, Error>
    ensures { AnswersTrying (Only (adding_form (form_row_of lab.id (pos 0) form.now)))
        W.lender W.state (λ one before after.
        (one.id ≡ next_key form_id before.forms)
        × (after ≡ with_form lab.id form.now before))
        tx.old tx.new result }
{
    let code = form.code.as_str();
    let approval = form.form.approval();
    insert(
        tx,
        "INSERT INTO forms (lab, code, version, approval) VALUES (?1, ?2, ?3, ?4)",
        &[
            id_value(lab),
            text_value(code),
            ordinal_value(form.version),
            flag_value(approval),
        ],
    )
}

// Adds the row.
fn insert_field<W: Writable>(
    tx: &mut W,
    form: RowId,
    place: u64,
    field: &Field,
) -> Result<RowId, Error>
    requires { ¬ IsTooGreat place }
    ensures { AnswersTrying (Only (adding_field (field_at form.id (pos 0) place field.now)))
        W.lender W.state (λ one before after.
        (one.id ≡ next_key field_id before.fields)
        × (after ≡ with_field form.id place field.now before))
        tx.old tx.new result }
{
    let key = field.key.as_str();
    let label = field.label.as_str();
    let word = kind_word(&field.kind);
    insert(
        tx,
        "INSERT INTO fields (form, place, key, label, required, kind, unit, decimals, low, high, size) VALUES (?1, ?2, ?3, ?4, ?5, ?6, ?7, ?8, ?9, ?10, ?11)",
        &[
            id_value(form),
            place_value(place),
            text_value(key),
            text_value(label),
            flag_value(field.required),
            text_value(word),
            unit_or_null(&field.kind),
            decimals_or_null(&field.kind),
            low_or_null(&field.kind),
            high_or_null(&field.kind),
            size_or_null(&field.kind),
        ],
    )
}

// Adds a field, with its choices, after those that the form has.
fn add_field<W: Writable>(tx: &mut W, form: RowId, field: &Field) -> Result<(), Error>
    ensures { WritesTrying (TriesToAddField form.id field.now) W.lender W.state
        (AddsField form.id field.now) tx.old tx.new result }
{
    let place = field_place(tx, form)?;
    let id = insert_field(tx, form, place, field)?;
    add_kind(tx, id, &field.kind)?;
    Ok(())
}

// Adds fields, one after the other.
fn add_fields<W: Writable>(tx: &mut W, form: RowId, fields: &[Field]) -> Result<(), Error>
    ensures { WritesTrying (TriesToAddFields form.id fields.now) W.lender W.state
        (InTurn (AddsField form.id) fields.now) tx.old tx.new result }
{
    for one in fields {
        add_field(tx, form, one)?;
    }
    Ok(())
}

/// Adds a version of a form with its fields.
///
/// # Errors
/// The store failed, or memory ran out.
pub fn add_form<W: Writable>(tx: &mut W, lab: RowId, form: &FormVersion) -> Result<(), Error>
    ensures { WritesTrying (TriesIn lab.id (FormAdded form.now)) W.lender W.state
        (AppliesIn lab.id (FormAdded form.now)) tx.old tx.new result }
{
    let id = insert_form(tx, lab, form)?;
    add_fields(tx, id, form.form.fields())?;
    Ok(())
}
