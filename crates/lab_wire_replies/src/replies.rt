//! What the body of a reply says, and its text: JSON, or the rows as CSV for a copy.
ghost use Rattle.std.specs.Prelude.{◌≡◌, IfOk, true};
ghost use Rattle.serde_json.specs.View.{view};
ghost use Rattle.lab_copy_rows.specs.Csv.{csv_text};
ghost use Rattle.lab_wire_replies.specs.Replies.{Json, card_data, body_of, body_text, reply_text};
ghost use Rattle.lab_wire_replies.specs.Private.Replies.{body_shown, HasNoFloat, is_json};

use crate::members::{object_of, text};
use crate::records::{
    amended_value, entered_value, record_opened_value, record_value, records_value, signed_value,
    version_value,
};
use crate::{
    changed_value, closed_value, form_made_value, form_value, half_value, opened_value,
    person_done_value, persons_value, refusal_value, roles_set_value, trail_value,
};
use lab_copy_rows::{CopyRow, write_copy};
use lab_forms_texts::{LabCode, Name, OutOfMemory};
use lab_records_machine::Reply;
use serde_json::Value;
use std::alloc::Global;

/// What a body says.
#[derive(Drop)]
pub(crate) enum Body<'r> {
    /// JSON.
    Json(Value),
    /// The rows of a copy.
    Csv(&'r [CopyRow]),
}

/// Returns the text of a reply's body. Fails only if memory runs out.
///
/// # Errors
/// Memory ran out.
#[tactic(auto, using(crate::proofs::ReplyLemmas::reply_floats))]
pub fn reply_body(alloc: Global, reply: &Reply) -> Result<Vec<u8>, OutOfMemory>
    ensures { IfOk result (λ body. body.items ≡ reply_text reply.now) }
{
    let body = body_of(alloc, reply)?;
    text_of(alloc, &body)
}

// The text of a body.
fn text_of(alloc: Global, body: &Body<'_>) -> Result<Vec<u8>, OutOfMemory>
    requires { HasNoFloat (body_shown body.now) }
    ensures { IfOk result (λ text. text.items ≡ body_text (body_shown body.now)) }
{
    match body {
        Body::Json(value) => Ok(value.to_string(alloc)?.into_bytes()),
        Body::Csv(rows) => copy_text(alloc, rows),
    }
}

// The rows of a copy as CSV. Writing to memory fails only if memory runs out.
fn copy_text(alloc: Global, rows: &[CopyRow]) -> Result<Vec<u8>, OutOfMemory>
    ensures { IfOk result (λ text. text.items ≡ csv_text rows.now) }
{
    let mut text = Vec::new(alloc);
    match write_copy(alloc, &mut text, rows) {
        Ok(()) => Ok(text),
        Err(_) => Err(OutOfMemory),
    }
}

// What the body of a reply says.
fn body_of(alloc: Global, reply: &Reply) -> Result<Body<'_>, OutOfMemory>
    ensures { IfOk result (λ body. body_shown body ≡ body_of reply.now) }
{
    match reply {
        Reply::Copied(rows) => Ok(Body::Csv(rows.as_slice())),
        reply => Ok(Body::Json(json_of(alloc, reply)?)),
    }
}

// The JSON value of a reply. Every reply except a copy has one.
fn json_of(alloc: Global, reply: &Reply) -> Result<Value, OutOfMemory>
    requires { is_json reply.now ≡ true }
    ensures { IfOk result (λ value. Json (view value) ≡ body_of reply.now) }
{
    match reply {
        Reply::Refused(refusal) => refusal_value(alloc, refusal),
        Reply::Card { lab, name } => card_value(alloc, lab, name),
        Reply::Opened {
            session,
            token,
            due,
        } => opened_value(alloc, *session, token, *due),
        Reply::Closed { session } => closed_value(alloc, *session),
        Reply::PasswordChanged { changed } => changed_value(alloc, *changed),
        Reply::PersonDone { code } => person_done_value(alloc, code),
        Reply::HalfTold { half } => half_value(alloc, half),
        Reply::RolesSet { code, roles } => roles_set_value(alloc, code, roles),
        Reply::Persons(persons) => persons_value(alloc, persons.as_slice()),
        Reply::FormMade { code, version } => form_made_value(alloc, code, *version),
        Reply::FormRead(form) => form_value(alloc, form),
        Reply::RecordOpened { number, version } => record_opened_value(alloc, *number, *version),
        Reply::Entered {
            number,
            version,
            rows,
            digest,
        } => entered_value(alloc, *number, *version, *rows, digest),
        Reply::Amended {
            number,
            version,
            digest,
        } => amended_value(alloc, *number, *version, digest),
        Reply::Signed { signature, state } => signed_value(alloc, signature, state),
        Reply::RecordRead(read) => record_value(alloc, read),
        Reply::VersionRead(read) => version_value(alloc, read),
        Reply::Records(records) => records_value(alloc, records.as_slice()),
        Reply::Trail(rows) => trail_value(alloc, rows.as_slice()),
        Reply::Copied(_) => unreachable!(),
    }
}

fn card_value(alloc: Global, lab: &LabCode, name: &Name) -> Result<Value, OutOfMemory>
    ensures { IfOk result (λ value. view value ≡ card_data lab.now name.now) }
{
    object_of(
        alloc,
        &[text("lab", lab.as_str()), text("name", name.as_str())],
    )
}
