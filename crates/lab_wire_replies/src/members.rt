//! The members of an object: lists of names and values.
ghost use Rattle.std.specs.Prelude.{◌≡◌, IfOk, OnOk, map};
ghost use Rattle.serde_json.specs.Data.{object, string, boolean, put as with_member};
ghost use Rattle.serde_json.specs.View.{view, members_view};
ghost use Rattle.lab_wire_replies.specs.Parts.{members_onto, members_from, object_from, list_from, whole, moment_data, digits_data, text_or_empty, state_data, current_data};
ghost use Rattle.lab_wire_replies.specs.Members.{told_data, member_data};

use crate::parts::{moment_text, put, text_value};
use lab_forms_texts::{Moment, Ordinal, OutOfMemory, Text, TextRule};
use lab_seal_versions::State;
use serde_json::{Map, Value};
use std::alloc::Global;

/// The value of a member.
#[derive(Clone, Copy, Drop)]
pub enum Told<'a> {
    /// A text.
    Text(&'a str),
    /// A whole number.
    Number(u64),
    /// `true` or `false`.
    Flag(bool),
    /// A moment, in its printed form.
    Moment(Moment),
    /// Bytes, as their digits.
    Bytes([u8; 32]),
    /// `null`.
    Nothing,
}

/// A member of an object.
#[derive(Clone, Copy, Drop)]
pub struct Member<'a> {
    name: &'static str,
    told: Told<'a>,
}

/// Returns a member whose value is a text.
pub fn text<'a>(name: &'static str, text: &'a str) -> Member<'a>
    ensures { member_data result ≡ (name.now, string text.now) }
{
    Member {
        name,
        told: Told::Text(text),
    }
}

/// Returns a member whose value is a whole number.
pub fn count<'a>(name: &'static str, number: u64) -> Member<'a>
    ensures { member_data result ≡ (name.now, whole number) }
{
    Member {
        name,
        told: Told::Number(number),
    }
}

/// Returns a member whose value is a number from 1 on.
pub fn ordinal<'a>(name: &'static str, ordinal: Ordinal) -> Member<'a>
    ensures { member_data result ≡ (name.now, whole ordinal) }
{
    count(name, u64::from(ordinal.get()))
}

/// Returns a member whose value is `true` or `false`.
pub fn flag<'a>(name: &'static str, flag: bool) -> Member<'a>
    ensures { member_data result ≡ (name.now, boolean flag) }
{
    Member {
        name,
        told: Told::Flag(flag),
    }
}

/// Returns a member whose value is a moment.
pub fn moment<'a>(name: &'static str, moment: Moment) -> Member<'a>
    ensures { member_data result ≡ (name.now, moment_data moment) }
{
    Member {
        name,
        told: Told::Moment(moment),
    }
}

/// Returns a member whose value is the digits of bytes.
pub fn bytes<'a>(name: &'static str, bytes: [u8; 32]) -> Member<'a>
    ensures { member_data result ≡ (name.now, digits_data bytes) }
{
    Member {
        name,
        told: Told::Bytes(bytes),
    }
}

/// Returns a member whose value is a text, or the empty text if none is given.
pub fn text_if_any<'a, R: TextRule>(name: &'static str, given: &'a Option<Text<R>>) -> Member<'a>
    ensures { member_data result ≡ (name.now, text_or_empty given.now) }
{
    match given {
        Some(given) => text(name, given.as_str()),
        None => text(name, ""),
    }
}

/// Returns a member whose value is the word of a state, or null.
pub fn state<'a>(name: &'static str, state: Option<State>) -> Member<'a>
    ensures { member_data result ≡ (name.now, state_data state) }
{
    match state {
        Some(state) => text(name, state.word()),
        None => nothing(name),
    }
}

/// Returns a member whose value is the number of a last version, or null.
pub fn current<'a>(name: &'static str, current: Option<Ordinal>) -> Member<'a>
    ensures { member_data result ≡ (name.now, current_data current) }
{
    match current {
        Some(version) => ordinal(name, version),
        None => nothing(name),
    }
}

fn nothing<'a>(name: &'static str) -> Member<'a>
    ensures { member_data result ≡ (name.now, Rattle.serde_json.specs.Data.null) }
{
    Member {
        name,
        told: Told::Nothing,
    }
}

// The JSON value of a member.
fn told_value(alloc: Global, told: &Told) -> Result<Value, OutOfMemory>
    ensures { IfOk result (λ value. view value ≡ told_data told.now) }
{
    match told {
        Told::Text(text) => text_value(alloc, *text),
        Told::Number(number) => Ok(Value::from(*number)),
        Told::Flag(flag) => Ok(Value::from(*flag)),
        Told::Moment(moment) => Ok(Value::from(moment_text(alloc, *moment)?)),
        Told::Bytes(bytes) => Ok(Value::from(hex::encode(alloc, bytes)?)),
        Told::Nothing => Ok(Value::Null),
    }
}

/// Adds members to an object. This function and those below fail only if memory runs out.
///
/// # Errors
/// Memory ran out.
pub fn put_all(
    members: &mut Map<String, Value>,
    alloc: Global,
    more: &[Member],
) -> Result<(), OutOfMemory>
    ensures { OnOk result (members_view members.new.entries
        ≡ members_onto (map member_data more.now) (members_view members.old.entries)) }
{
    for one in more {
        put(members, alloc, one.name, told_value(alloc, &one.told)?)?;
    }
    Ok(())
}

/// Returns an object of these members.
///
/// # Errors
/// Memory ran out.
pub fn object_of(alloc: Global, members: &[Member]) -> Result<Value, OutOfMemory>
    ensures { IfOk result (λ value. view value ≡ object_from (map member_data members.now)) }
{
    let mut object = Map::new(alloc);
    put_all(&mut object, alloc, members)?;
    Ok(Value::Object(object))
}

/// An object of these members and, at the name, a list.
///
/// # Errors
/// Memory ran out.
pub fn object_with(
    alloc: Global,
    members: &[Member],
    name: &'static str,
    list: Vec<Value>,
) -> Result<Value, OutOfMemory>
    ensures { IfOk result (λ value. view value ≡ object (with_member name.now
        (list_from (map view list.items)) (members_from (map member_data members.now)))) }
{
    let mut object = Map::new(alloc);
    put_all(&mut object, alloc, members)?;
    put(&mut object, alloc, name, Value::from(list))?;
    Ok(Value::Object(object))
}
