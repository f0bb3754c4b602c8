//! Readings of a body whose shape is already known: each returns what stands at a name, or why it
//! is refused. A text is copied only once it is known to be good, so no refusal is reported as out
//! of memory.
ghost use Rattle.std.specs.Prelude.{◌≡◌, Ok, IfOk, IfErr, OnErr, IsSome, string_bytes};
ghost use Rattle.serde_json.specs.Find.{as_str};
ghost use Rattle.serde_json.specs.View.{view};
ghost use Rattle.lab_wire_members.specs.Members.{at, whole_in, ordinal_in, digest_in, roles_in};
ghost use Rattle.lab_wire_members.specs.Readings.{Faulty, wanted, admitted, text_at, named_at, named_if_at};

use crate::members;
use crate::refusals::{BodyFault, BodyRefusal};
use lab_forms_texts::{NameFault, Ordinal, Text, TextRule};
use lab_people_access::Roles;
use lab_seal_hashes::Digest;
use serde_json::Value;
use std::alloc::Global;

/// Copies a text that a rule admits.
///
/// # Errors
/// The body is refused, or memory ran out.
pub fn admitted_text<R: TextRule>(alloc: Global, text: &str) -> Result<Text<R>, BodyFault>
    ensures read { IfOk result (λ named. admitted R.admits text.now ≡ Ok named) }
    ensures fault { IfErr result (Faulty (admitted R.admits text.now)) }
{
    match Text::<R>::parse(alloc, text) {
        Ok(named) => Ok(named),
        Err(NameFault::Refused(_)) => Err(BodyFault::Refused(BodyRefusal::BadName)),
        Err(NameFault::Memory) => Err(BodyFault::Memory),
    }
}

/// Reads the text at a name, which a rule must admit.
///
/// # Errors
/// The body is refused, or memory ran out.
pub fn named_at<R: TextRule>(alloc: Global, value: &Value, name: &str) -> Result<Text<R>, BodyFault>
    ensures read { IfOk result (λ named. named_at R.admits name.now (view value.now) ≡ Ok named) }
    ensures fault { IfErr result (Faulty (named_at R.admits name.now (view value.now))) }
{
    match members::str_at(value, name) {
        Some(text) => admitted_text::<R>(alloc, text),
        None => Err(BodyFault::Refused(BodyRefusal::BadBody)),
    }
}

/// Reads the text at an optional name, which a rule must admit. Returns `None` if the name is
/// absent, and then allocates nothing.
///
/// # Errors
/// The body is refused, or memory ran out.
pub fn named_if_at<R: TextRule>(
    alloc: Global,
    value: &Value,
    name: &str,
) -> Result<Option<Text<R>>, BodyFault>
    ensures read { IfOk result
        (λ named. named_if_at R.admits name.now (view value.now) ≡ Ok named) }
    ensures fault { IfErr result (Faulty (named_if_at R.admits name.now (view value.now))) }
    ensures memory { OnErr result (IsSome (at as_str name.now (view value.now))) }
{
    match members::str_at(value, name) {
        Some(text) => match admitted_text::<R>(alloc, text) {
            Ok(named) => Ok(Some(named)),
            Err(fault) => Err(fault),
        },
        None => Ok(None),
    }
}

/// Reads the text at a name, whatever it is.
///
/// # Errors
/// The body is refused, or memory ran out.
pub fn text_at(alloc: Global, value: &Value, name: &str) -> Result<String, BodyFault>
    ensures read { IfOk result
        (λ text. text_at name.now (view value.now) ≡ Ok (string_bytes text)) }
    ensures fault { IfErr result (Faulty (text_at name.now (view value.now))) }
{
    match members::str_at(value, name) {
        Some(text) => match String::from_str(alloc, text) {
            Ok(text) => Ok(text),
            Err(_) => Err(BodyFault::Memory),
        },
        None => Err(BodyFault::Refused(BodyRefusal::BadBody)),
    }
}

/// Returns what was found, which must be there.
///
/// # Errors
/// Why the body is refused.
pub fn wanted_member<T: Drop>(found: Option<T>) -> Result<T, BodyRefusal>
    ensures { result ≡ wanted found }
{
    match found {
        Some(value) => Ok(value),
        None => Err(BodyRefusal::BadBody),
    }
}

/// Returns the number at a name.
pub fn ordinal_at(value: &Value, name: &str) -> Option<Ordinal>
    ensures { result ≡ at ordinal_in name.now (view value.now) }
{
    members::ordinal_in(value.get(name)?)
}

/// Returns the whole number at a name.
pub fn whole_at(value: &Value, name: &str) -> Option<u32>
    ensures { result ≡ at whole_in name.now (view value.now) }
{
    members::whole_in(value.get(name)?)
}

/// Returns the digest at a name.
pub fn digest_at(value: &Value, name: &str) -> Option<Digest>
    ensures { result ≡ at digest_in name.now (view value.now) }
{
    members::digest_in(value.get(name)?)
}

/// Returns the roles at a name.
pub fn roles_at(value: &Value, name: &str) -> Option<Roles>
    ensures { result ≡ at roles_in name.now (view value.now) }
{
    members::roles_in(value.get(name)?)
}
