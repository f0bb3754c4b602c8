//! The body of a form and of its fields, whose kinds decide which members they have.
ghost use Rattle.std.specs.Prelude.{◌≡◌, Ok, IfOk, IfErr, OnErr, IsSome, codes, find, ◌∷◌, [], false};
ghost use Rattle.std.specs.List.{list_all};
ghost use Rattle.std.specs.Option.{option_map_or, unwrap_or};
ghost use Rattle.serde_json.specs.Find.{as_bool, as_str};
ghost use Rattle.serde_json.specs.View.{view};
ghost use Rattle.lab_forms.specs.Forms.{form_made};
ghost use Rattle.lab_wire_bodies.specs.declared.forms.Sort.TheVariants.{Choice, Date, YesNo};
ghost use Rattle.lab_forms_texts.specs.declared.refusals.Fault.TheVariants.{Memory};
ghost use Rattle.lab_wire_members.specs.Members.{at, elements_at, has_members};
ghost use Rattle.lab_wire_bodies.specs.Forms.{sort_word, names_sort, sort_of, sort_in, field_members, is_field_body, is_form_body, number_read, text_read, choices_read, kind_read, form_reading, form_read, form_named};
ghost use Rattle.lab_wire_members.specs.Readings.{FaultyInTurn};

use lab_forms::{Bound, Choices, Field, Form, Kind};
use lab_forms_texts::{Keys, Name, Names, Units};
use lab_records_machine::{Command, RecordCommand, SessionCommand};
use lab_wire_members::{
    BodyFault, BodyRefusal, Element, MemberWanted, admitted_text, each_of, elements_at, flag_at,
    has_members, may, must, named_at, str_at, wanted_member, whole_at,
};
use serde_json::Value;
use std::alloc::Global;

/// The kinds of fields, by their words.
#[derive(Clone, Copy, Drop)]
pub enum Sort {
    Number,
    Text,
    Choice,
    Date,
    YesNo,
}

impl Sort {
    fn word(self) -> &'static str
        ensures { result.now ≡ sort_word self }
    {
        match self {
            Sort::Number => "number",
            Sort::Text => "text",
            Sort::Choice => "choice",
            Sort::Date => "date",
            Sort::YesNo => "yesno",
        }
    }
}

const FORM: [MemberWanted; 3] = [
    must!("form", Text),
    must!("fields", List),
    may!("approval", Flag),
];

const NUMBER: [MemberWanted; 8] = [
    must!("key", Text),
    must!("label", Text),
    must!("required", Flag),
    must!("kind", Text),
    must!("unit", Text),
    must!("decimals", Whole),
    may!("min", Text),
    may!("max", Text),
];

const TEXT: [MemberWanted; 5] = [
    must!("key", Text),
    must!("label", Text),
    must!("required", Flag),
    must!("kind", Text),
    must!("size", Whole),
];

const CHOICE: [MemberWanted; 5] = [
    must!("key", Text),
    must!("label", Text),
    must!("required", Flag),
    must!("kind", Text),
    must!("choices", Texts),
];

const OTHER: [MemberWanted; 4] = [
    must!("key", Text),
    must!("label", Text),
    must!("required", Flag),
    must!("kind", Text),
];

fn yes_no_of(word: &str) -> Option<Sort>
    ensures { result ≡ find (names_sort word.now) (YesNo ∷ []) }
{
    if word == Sort::YesNo.word() {
        Some(Sort::YesNo)
    } else {
        None
    }
}

fn choosing_sort_of(word: &str) -> Option<Sort>
    ensures { result ≡ find (names_sort word.now) (Choice ∷ Date ∷ YesNo ∷ []) }
{
    if word == Sort::Choice.word() {
        Some(Sort::Choice)
    } else if word == Sort::Date.word() {
        Some(Sort::Date)
    } else {
        yes_no_of(word)
    }
}

fn sort_of(word: &str) -> Option<Sort>
    ensures { result ≡ sort_of word.now }
{
    if word == Sort::Number.word() {
        Some(Sort::Number)
    } else if word == Sort::Text.word() {
        Some(Sort::Text)
    } else {
        choosing_sort_of(word)
    }
}

fn sort_in(value: &Value) -> Option<Sort>
    ensures { result ≡ sort_in (view value.now) }
{
    sort_of(str_at(value, "kind")?)
}

// Whether a value has the members of a field of this kind.
fn has_sort(value: &Value, sort: Sort) -> bool
    ensures { result ≡ has_members (field_members sort) (view value.now) }
{
    match sort {
        Sort::Number => has_members(value, &NUMBER),
        Sort::Text => has_members(value, &TEXT),
        Sort::Choice => has_members(value, &CHOICE),
        Sort::Date | Sort::YesNo => has_members(value, &OTHER),
    }
}

#[tactic(auto, unfolding(crate::specs::Forms::is_field_body))]
fn is_field_body(value: &Value) -> bool
    ensures { result ≡ is_field_body (view value.now) }
{
    match sort_in(value) {
        Some(sort) => has_sort(value, sort),
        None => false,
    }
}

fn are_fields(values: &[Value]) -> bool
    ensures { result ≡ list_all (λ value. is_field_body (view value)) values.now }
{
    values.iter().all(|value| is_field_body(value))
}

#[tactic(auto, using(lab_wire_members::proofs::MemberLemmas::all_of_views))]
fn has_fields(value: &Value) -> bool
    ensures { result ≡ option_map_or (list_all is_field_body)
        (elements_at (codes "fields") (view value.now)) false }
{
    match elements_at(value, "fields") {
        Some(list) => are_fields(list),
        None => false,
    }
}

#[tactic(auto, unfolding(crate::specs::Forms::is_form_body))]
fn is_form_body(value: &Value) -> bool
    ensures { result ≡ is_form_body (view value.now) }
{
    has_members(value, &FORM) && has_fields(value)
}

/// The group of the lists in the body of a form.
pub struct OfForm;

impl Element<OfForm> for Name {
    ghost use Rattle.lab_wire_bodies.specs.Forms.{choice_read};

    ghost says = { choice_read };

    #[tactic(auto, using(lab_wire_members::proofs::ReadingLemmas::in_turn))]
    fn read(alloc: Global, value: &Value) -> Result<Name, BodyFault> {
        match value.as_str() {
            Some(text) => admitted_text::<Names>(alloc, text),
            None => Err(BodyFault::Refused(BodyRefusal::BadBody)),
        }
    }
}

fn bound_at(alloc: Global, value: &Value, name: &str) -> Result<Option<Bound>, BodyFault>
    ensures read { IfOk result (λ bound. at as_str name.now (view value.now) ≡ bound) }
    ensures fault { IfErr result (λ fault. fault ≡ Memory) }
    ensures memory { OnErr result (IsSome (at as_str name.now (view value.now))) }
{
    match str_at(value, name) {
        Some(text) => match String::from_str(alloc, text) {
            Ok(text) => Ok(Some(Bound::new(text))),
            Err(_) => Err(BodyFault::Memory),
        },
        None => Ok(None),
    }
}

#[tactic(auto, using(lab_wire_members::proofs::ReadingLemmas::in_turn))]
fn number(alloc: Global, value: &Value) -> Result<Kind, BodyFault>
    ensures read { IfOk result (λ kind. number_read (view value.now) ≡ Ok kind) }
    ensures fault { IfErr result (FaultyInTurn (number_read (view value.now))) }
{
    let unit = named_at::<Units>(alloc, value, "unit")?;
    let decimals = wanted_member(whole_at(value, "decimals"))?;
    let min = bound_at(alloc, value, "min")?;
    let max = bound_at(alloc, value, "max")?;
    Ok(Kind::Number {
        unit,
        decimals,
        min,
        max,
    })
}

#[tactic(auto, using(lab_wire_members::proofs::ReadingLemmas::in_turn))]
fn text(value: &Value) -> Result<Kind, BodyRefusal>
    ensures { result ≡ text_read (view value.now) }
{
    let size = wanted_member(whole_at(value, "size"))?;
    Ok(Kind::Text { size })
}

#[tactic(auto, using(lab_wire_members::proofs::ReadingLemmas::in_turn))]
fn choices(alloc: Global, value: &Value) -> Result<Kind, BodyFault>
    ensures read { IfOk result (λ kind. choices_read (view value.now) ≡ Ok kind) }
    ensures fault { IfErr result (FaultyInTurn (choices_read (view value.now))) }
{
    let Some(elements) = elements_at(value, "choices") else {
        return Err(BodyFault::Refused(BodyRefusal::BadBody));
    };
    let names = each_of::<OfForm, Name>(alloc, elements)?;
    Ok(Kind::Choice {
        choices: Choices::new(names),
    })
}

fn kind(alloc: Global, value: &Value, sort: Sort) -> Result<Kind, BodyFault>
    ensures read { IfOk result (λ kind. kind_read sort (view value.now) ≡ Ok kind) }
    ensures fault { IfErr result (FaultyInTurn (kind_read sort (view value.now))) }
{
    match sort {
        Sort::Number => number(alloc, value),
        Sort::Text => match text(value) {
            Ok(kind) => Ok(kind),
            Err(refusal) => Err(BodyFault::Refused(refusal)),
        },
        Sort::Choice => choices(alloc, value),
        Sort::Date => Ok(Kind::Date),
        Sort::YesNo => Ok(Kind::YesNo),
    }
}

impl Element<OfForm> for Field {
    ghost use Rattle.lab_wire_bodies.specs.Forms.{field_read};

    ghost says = { field_read };

    #[tactic(auto, using(lab_wire_members::proofs::ReadingLemmas::in_turn), unfolding(crate::specs::Forms::field_read))]
    fn read(alloc: Global, value: &Value) -> Result<Field, BodyFault> {
        let key = named_at::<Keys>(alloc, value, "key")?;
        let label = named_at::<Names>(alloc, value, "label")?;
        let required = wanted_member(flag_at(value, "required"))?;
        let sort = wanted_member(sort_in(value))?;
        let kind = kind(alloc, value, sort)?;
        Ok(Field {
            key,
            label,
            required,
            kind,
        })
    }
}

fn form_made(fields: Vec<Field>, approval: bool) -> Result<Form, BodyRefusal>
    ensures { result ≡ form_reading (form_made fields.items approval) }
{
    match Form::make(fields, approval) {
        Ok(form) => Ok(form),
        Err(refusal) => Err(BodyRefusal::Form(refusal)),
    }
}

// Whether approval is required; `false` if the body doesn't say.
fn approval(value: &Value) -> bool
    ensures { result ≡ unwrap_or (at as_bool (codes "approval") (view value.now)) false }
{
    flag_at(value, "approval").unwrap_or(false)
}

#[tactic(auto, using(lab_wire_members::proofs::ReadingLemmas::in_turn), unfolding(crate::specs::Forms::form_read))]
fn form_read(alloc: Global, value: &Value) -> Result<Command, BodyFault>
    ensures read { IfOk result (λ command. form_read (view value.now) ≡ Ok command) }
    ensures fault { IfErr result (FaultyInTurn (form_read (view value.now))) }
{
    let code = named_at::<Keys>(alloc, value, "form")?;
    let Some(elements) = elements_at(value, "fields") else {
        return Err(BodyFault::Refused(BodyRefusal::BadBody));
    };
    let fields = each_of::<OfForm, Field>(alloc, elements)?;
    let form = form_made(fields, approval(value))?;
    Ok(Command::In(SessionCommand::OnRecord(RecordCommand::MakeForm { code, form })))
}

/// Reads the command that makes a form, or its next version.
///
/// # Errors
/// The body is refused, or memory ran out.
#[tactic(auto, using(lab_wire_members::proofs::ReadingLemmas::in_turn), unfolding(crate::specs::Forms::form_named))]
pub fn form(alloc: Global, value: &Value) -> Result<Command, BodyFault>
    ensures read { IfOk result (λ command. form_named (view value.now) ≡ Ok command) }
    ensures fault { IfErr result (FaultyInTurn (form_named (view value.now))) }
{
    if !is_form_body(value) {
        return Err(BodyFault::Refused(BodyRefusal::BadBody));
    }
    form_read(alloc, value)
}
