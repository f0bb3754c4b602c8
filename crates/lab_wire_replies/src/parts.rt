//! The parts of replies: lists, moments, bytes and states.
ghost use Rattle.std.specs.Prelude.{◌≡◌, IfOk, OnOk, List, ℕ, map, string_bytes};
ghost use Rattle.serde_json.specs.Data.{Data, string, put as with_member};
ghost use Rattle.serde_json.specs.View.{view, members_view};
ghost use Rattle.lab_forms_texts.specs.Moment.{moment_text};
ghost use Rattle.hex.specs.Hex.{encode_lower};
ghost use Rattle.lab_wire_replies.specs.Parts.{list_from, moment_data, digits_data, text_or_empty, state_data, current_data};

use lab_forms_texts::{Moment, Ordinal, OutOfMemory, Text, TextRule};
use lab_seal_hashes::{Digest, Half};
use lab_seal_versions::{Seal, State};
use serde_json::{Map, Value};
use std::alloc::Global;

/// A thing that a reply lists, in the form of the group of replies `G`.
pub trait Shown<G> {
    /// The JSON data of the thing.
    ghost data_of: { Self → Data };

    /// Returns the thing as a JSON value. Fails only if memory runs out.
    fn value(&self, alloc: Global) -> Result<Value, OutOfMemory>
        ensures { IfOk result (λ value. view value ≡ data_of self.now) };
}

/// Returns the things as a list of values, in their order. Fails only if memory runs out.
///
/// # Errors
/// Memory ran out.
pub fn list_of<G, T: Shown<G>>(alloc: Global, things: &[T]) -> Result<Vec<Value>, OutOfMemory>
    ensures { IfOk result (λ list. map view list.items ≡ map T.data_of things.now) }
{
    let mut list = Vec::new(alloc);
    for thing in things {
        list.push(thing.value(alloc)?)?;
    }
    Ok(list)
}

/// The group of all replies: a text has the same form in each.
pub struct AnyReply;

impl<R: TextRule> Shown<AnyReply> for Text<R> {
    ghost data_of = { string };

    fn value(&self, alloc: Global) -> Result<Value, OutOfMemory> {
        text_value(alloc, self.as_str())
    }
}

/// Returns a text as a value.
///
/// # Errors
/// Memory ran out.
pub fn text_value(alloc: Global, text: &str) -> Result<Value, OutOfMemory>
    ensures { IfOk result (λ value. view value ≡ string text.now) }
{
    Ok(Value::try_from_str(alloc, text)?)
}

/// Returns a moment in its printed form.
///
/// # Errors
/// Memory ran out.
#[tactic(auto, using(crate::proofs::PartLemmas::moment_is_text))]
pub fn moment_text(alloc: Global, moment: Moment) -> Result<String, OutOfMemory>
    ensures { IfOk result (λ text. string_bytes text ≡ moment_text moment) }
{
    let mut printed = [0; 20];
    moment.print(&mut printed);
    Ok(String::from_utf8_lossy(alloc, &printed)?)
}

/// Returns a half of a one-time word as its digits.
///
/// # Errors
/// Memory ran out.
pub fn half_text(alloc: Global, half: &Half) -> Result<String, OutOfMemory>
    ensures { IfOk result (λ text. string_bytes text ≡ encode_lower half.now) }
{
    Ok(String::from_utf8_lossy(alloc, &half.digits())?)
}

/// Adds a member to an object. Fails only if memory runs out.
///
/// # Errors
/// Memory ran out.
pub fn put(
    members: &mut Map<String, Value>,
    alloc: Global,
    name: &str,
    value: Value,
) -> Result<(), OutOfMemory>
    ensures { OnOk result (members_view members.new.entries
        ≡ with_member name.now (view value) (members_view members.old.entries)) }
{
    Ok(serde_json::put(members, alloc, name, value)?)
}

/// Adds a member that is a list. Fails only if memory runs out.
///
/// # Errors
/// Memory ran out.
pub fn put_list(
    members: &mut Map<String, Value>,
    alloc: Global,
    name: &str,
    list: Vec<Value>,
) -> Result<(), OutOfMemory>
    ensures { OnOk result (members_view members.new.entries
        ≡ with_member name.now (list_from (map view list.items))
        (members_view members.old.entries)) }
{
    put(members, alloc, name, Value::from(list))
}

/// Adds a member that lists these things as values, in their order. Fails only if memory runs out.
///
/// # Errors
/// Memory ran out.
pub fn put_list_of<G, T: Shown<G>>(
    members: &mut Map<String, Value>,
    alloc: Global,
    name: &str,
    things: &[T],
) -> Result<(), OutOfMemory>
    ensures { OnOk result (members_view members.new.entries
        ≡ with_member name.now (list_from (map T.data_of things.now))
        (members_view members.old.entries)) }
{
    let list = list_of::<G, T>(alloc, things)?;
    put_list(members, alloc, name, list)
}
