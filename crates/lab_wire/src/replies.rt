//! Answers as bytes: HTTP/1.1 messages (RFC 9112) whose bodies are JSON (RFC 8259), or a copy as
//! CSV (RFC 4180).
ghost use Rattle.std.specs.Prelude.{◌≡◌, IfOk, string_bytes};
ghost use Rattle.lab_wire_replies.specs.Replies.{body_of};
ghost use Rattle.lab_wire.specs.Replies.{body_type, answer_type, entry_text, answer_text, challenge_field, allow_by_route, allow_by_request, allow_field, further_fields, reply_text, memory_text};

use crate::RouteRefusal;
use crate::refusals::RequestRefusal;
use crate::statuses::answer_status;
use http::StatusCode;
use lab_forms_texts::{OutOfMemory, RefusalKind, Tick};
use lab_records_keeper::{BadStore, KeeperFault};
use lab_records_machine::Reply;
use lab_wire_heads::message;
use lab_wire_replies::{entry_value, reply_body};
use std::alloc::Global;

/// The type of a body that is JSON.
const JSON: &str = "application/json";

/// The type of a body that is a copy.
const CSV: &str = "text/csv";

/// The answer to a request.
pub enum Answer {
    /// The laboratory's reply.
    Replied(Reply),
    /// The bytes ask nothing.
    Refused(RequestRefusal),
    /// The store failed; nothing was changed, unless the fault has shut the keeper.
    Storage,
}

// `drop` is written out, so that a caller doesn't prove again how each part is dropped.
impl Drop for Answer {
    fn drop(self) {
        match self {
            Answer::Replied(_) => {}
            Answer::Refused(_) => {}
            Answer::Storage => {}
        }
    }
}

/// Returns the bytes of an answer at a tick. Fails only if memory runs out.
///
/// # Errors
/// Memory ran out.
#[tactic(auto, unfolding(crate::specs::Replies::reply_text))]
pub fn reply_bytes(alloc: Global, tick: &Tick, answer: &Answer) -> Result<Vec<u8>, OutOfMemory>
    ensures { IfOk result (λ bytes. bytes.items ≡ reply_text tick.now answer.now) }
{
    let further = further_fields(alloc, answer)?;
    let body = answer_body(alloc, answer)?;
    message(
        alloc,
        answer_status(answer),
        Some(tick.moment),
        answer_type(answer),
        &further,
        &body,
    )
}

/// Returns the bytes of the reply that is sent if memory runs out; they are always the same. Fails
/// only if memory runs out.
///
/// # Errors
/// Memory ran out.
#[tactic(auto, unfolding(crate::specs::Replies::memory_text))]
pub fn memory_reply(alloc: Global) -> Result<Vec<u8>, OutOfMemory>
    ensures { IfOk result (λ bytes. bytes.items ≡ memory_text) }
{
    let body = entry_body(alloc, OutOfMemory.number().unwrap_or(0), OutOfMemory.word())?;
    message(
        alloc,
        StatusCode::SERVICE_UNAVAILABLE,
        None,
        JSON,
        "",
        &body,
    )
}

// ---- the body

// The type of a reply's body.
fn reply_type(reply: &Reply) -> &'static str
    ensures { result.now ≡ body_type (body_of reply.now) }
{
    match reply {
        Reply::Copied(_) => CSV,
        _ => JSON,
    }
}

// The type of an answer's body.
fn answer_type(answer: &Answer) -> &'static str
    ensures { result.now ≡ answer_type answer.now }
{
    match answer {
        Answer::Replied(reply) => reply_type(reply),
        Answer::Refused(_) | Answer::Storage => JSON,
    }
}

// The body of a refusal with only its word and its number.
#[tactic(auto, using(crate::proofs::ReplyLemmas::entry_floats))]
fn entry_body(alloc: Global, number: u32, word: &str) -> Result<Vec<u8>, OutOfMemory>
    ensures { IfOk result (λ body. body.items
        ≡ entry_text (record { number = number; word = word.now })) }
{
    let value = entry_value(alloc, number, word)?;
    Ok(value.to_string(alloc)?.into_bytes())
}

fn answer_body(alloc: Global, answer: &Answer) -> Result<Vec<u8>, OutOfMemory>
    ensures { IfOk result (λ body. body.items ≡ answer_text answer.now) }
{
    match answer {
        Answer::Replied(reply) => reply_body(alloc, reply),
        Answer::Refused(refusal) => {
            entry_body(alloc, refusal.number().unwrap_or(0), refusal.word())
        }
        Answer::Storage => {
            let storage = KeeperFault::Refused(BadStore);
            entry_body(alloc, storage.number().unwrap_or(0), storage.word())
        }
    }
}

// ---- the fields that a status asks for

// For 401: how a client shows who it is.
fn challenge_field(status: StatusCode) -> &'static str
    ensures { result.now ≡ challenge_field status }
{
    if status == StatusCode::UNAUTHORIZED {
        "WWW-Authenticate: LabSession\r\n"
    } else {
        ""
    }
}

// For 405: which methods the place has.
fn allow_by_route(alloc: Global, refusal: RouteRefusal) -> Result<String, OutOfMemory>
    ensures { IfOk result (λ field. string_bytes field ≡ allow_by_route refusal) }
{
    match refusal {
        RouteRefusal::Method(allowed) => {
            let methods = allowed.text();
            Ok(format!(in alloc; "Allow: {methods}\r\n")?)
        }
        RouteRefusal::NoRoute | RouteRefusal::Body(_) => Ok(String::new(alloc)),
    }
}

fn allow_by_request(alloc: Global, refusal: RequestRefusal) -> Result<String, OutOfMemory>
    ensures { IfOk result (λ field. string_bytes field ≡ allow_by_request refusal) }
{
    match refusal {
        RequestRefusal::Head(_) => Ok(String::new(alloc)),
        RequestRefusal::Route(route) => allow_by_route(alloc, route),
    }
}

fn allow_field(alloc: Global, answer: &Answer) -> Result<String, OutOfMemory>
    ensures { IfOk result (λ field. string_bytes field ≡ allow_field answer.now) }
{
    match answer {
        Answer::Refused(refusal) => allow_by_request(alloc, *refusal),
        Answer::Replied(_) | Answer::Storage => Ok(String::new(alloc)),
    }
}

// The further field lines of an answer, each with its end.
fn further_fields(alloc: Global, answer: &Answer) -> Result<String, OutOfMemory>
    ensures { IfOk result (λ fields. string_bytes fields ≡ further_fields answer.now) }
{
    let challenge = challenge_field(answer_status(answer));
    let allow = allow_field(alloc, answer)?;
    Ok(format!(in alloc; "{challenge}{allow}")?)
}
