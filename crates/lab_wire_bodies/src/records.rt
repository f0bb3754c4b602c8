//! The bodies of the commands on records.
ghost use Rattle.std.specs.Prelude.{◌≡◌, Ok, IfOk, IfErr, List, map, bytes_eq};
ghost use Rattle.std.specs.List.{list_any};
ghost use Rattle.serde_json.specs.View.{view};
ghost use Rattle.lab_forms.specs.Words.{has_text_twice};
ghost use Rattle.lab_wire_bodies.specs.Records.{record_named, entry_named, is_amendment_body, item_key, different, altered_read, amendment_named};
ghost use Rattle.lab_wire_members.specs.Readings.{FaultyInTurn};

use lab_forms::FormRefusal;
use lab_forms_texts::{Keys, Names, Notes, Units};
use lab_records_machine::{Command, RecordCommand, SessionCommand};
use lab_records_rules::{Altered, Item};
use lab_wire_members::{
    BodyFault, BodyRefusal, Element, MemberWanted, each_has, each_of, elements_at, has_members,
    may, must, named_at, named_if_at, ordinal_at, typed_at, wanted_member,
};
use serde_json::Value;
use std::alloc::Global;

const RECORD: [MemberWanted; 2] = [must!("form", Text), must!("sample", Text)];

const ITEM: [MemberWanted; 3] = [
    must!("key", Text),
    must!("value", Text),
    must!("unit", Text),
];

const ENTRY: [MemberWanted; 5] = [
    must!("record", Ordinal),
    must!("key", Text),
    must!("value", Text),
    must!("unit", Text),
    may!("reason", Text),
];

const AMENDMENT: [MemberWanted; 3] = [
    must!("record", Ordinal),
    may!("reason", Text),
    must!("altered", List),
];

/// Reads the command that opens a record.
///
/// # Errors
/// The body is refused, or memory ran out.
#[tactic(auto, using(lab_wire_members::proofs::ReadingLemmas::in_turn), unfolding(crate::specs::Records::record_named))]
pub fn record(alloc: Global, value: &Value) -> Result<Command, BodyFault>
    ensures read { IfOk result (λ command. record_named (view value.now) ≡ Ok command) }
    ensures fault { IfErr result (FaultyInTurn (record_named (view value.now))) }
{
    if !has_members(value, &RECORD) {
        return Err(BodyFault::Refused(BodyRefusal::BadBody));
    }
    let form = named_at::<Keys>(alloc, value, "form")?;
    let sample = named_at::<Names>(alloc, value, "sample")?;
    Ok(Command::In(SessionCommand::OnRecord(RecordCommand::OpenRecord { form, sample })))
}

/// The group of the lists in bodies about records.
pub struct OfRecords;

impl Element<OfRecords> for Item {
    ghost use Rattle.lab_wire_bodies.specs.Records.{item_read};

    ghost says = { item_read };

    #[tactic(auto, using(lab_wire_members::proofs::ReadingLemmas::in_turn), unfolding(crate::specs::Records::item_read))]
    fn read(alloc: Global, value: &Value) -> Result<Item, BodyFault> {
        let key = named_at::<Keys>(alloc, value, "key")?;
        let typed = typed_at(alloc, value, "value")?;
        let unit = named_at::<Units>(alloc, value, "unit")?;
        Ok(Item {
            key,
            value: typed,
            unit,
        })
    }
}

/// Reads the command that enters a value.
///
/// # Errors
/// The body is refused, or memory ran out.
#[tactic(auto, using(lab_wire_members::proofs::ReadingLemmas::in_turn), unfolding(crate::specs::Records::entry_named))]
pub fn entry(alloc: Global, value: &Value) -> Result<Command, BodyFault>
    ensures read { IfOk result (λ command. entry_named (view value.now) ≡ Ok command) }
    ensures fault { IfErr result (FaultyInTurn (entry_named (view value.now))) }
{
    if !has_members(value, &ENTRY) {
        return Err(BodyFault::Refused(BodyRefusal::BadBody));
    }
    let number = wanted_member(ordinal_at(value, "record"))?;
    let item = Item::read(alloc, value)?;
    let reason = named_if_at::<Notes>(alloc, value, "reason")?;
    Ok(Command::In(SessionCommand::OnRecord(RecordCommand::Enter {
        number,
        item,
        reason,
    })))
}

#[tactic(auto, unfolding(crate::specs::Records::is_amendment_body))]
fn is_amendment_body(value: &Value) -> bool
    ensures { result ≡ is_amendment_body (view value.now) }
{
    has_members(value, &AMENDMENT) && each_has(value, "altered", &ITEM)
}

fn has_key(items: &[Item], key: &str) -> bool
    ensures { result ≡ list_any (λ item. bytes_eq (item_key item) key.now) items.now }
{
    items.iter().any(|item| item.key.as_str() == key)
}

fn has_key_twice(items: &[Item]) -> bool
    ensures { result ≡ has_text_twice (map item_key items.now) }
{
    for (place, item) in items.iter().enumerate() {
        if has_key(&items[place + 1..], item.key.as_str()) {
            return true;
        }
    }
    false
}

fn different_items(items: Vec<Item>) -> Result<Altered, BodyRefusal>
    ensures { result ≡ different items.items }
{
    if has_key_twice(&items) {
        return Err(BodyRefusal::Form(FormRefusal::KeyTwice));
    }
    Ok(Altered::from_vec(items))
}

#[tactic(auto, using(lab_wire_members::proofs::ReadingLemmas::in_turn), unfolding(crate::specs::Records::altered_read))]
fn altered_items(alloc: Global, value: &Value) -> Result<Altered, BodyFault>
    ensures read { IfOk result (λ altered. altered_read (view value.now) ≡ Ok altered) }
    ensures fault { IfErr result (FaultyInTurn (altered_read (view value.now))) }
{
    let Some(elements) = elements_at(value, "altered") else {
        return Err(BodyFault::Refused(BodyRefusal::BadBody));
    };
    let items = each_of::<OfRecords, Item>(alloc, elements)?;
    match different_items(items) {
        Ok(altered) => Ok(altered),
        Err(refusal) => Err(BodyFault::Refused(refusal)),
    }
}

/// Reads the command that amends a record.
///
/// # Errors
/// The body is refused, or memory ran out.
#[tactic(auto, using(lab_wire_members::proofs::ReadingLemmas::in_turn), unfolding(crate::specs::Records::amendment_named))]
pub fn amendment(alloc: Global, value: &Value) -> Result<Command, BodyFault>
    ensures read { IfOk result (λ command. amendment_named (view value.now) ≡ Ok command) }
    ensures fault { IfErr result (FaultyInTurn (amendment_named (view value.now))) }
{
    if !is_amendment_body(value) {
        return Err(BodyFault::Refused(BodyRefusal::BadBody));
    }
    let number = wanted_member(ordinal_at(value, "record"))?;
    let reason = named_if_at::<Notes>(alloc, value, "reason")?;
    let altered = altered_items(alloc, value)?;
    Ok(Command::In(SessionCommand::OnRecord(RecordCommand::Amend {
        number,
        reason,
        altered,
    })))
}
