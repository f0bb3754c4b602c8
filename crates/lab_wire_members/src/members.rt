//! The members of a body's objects: which members are allowed, which are required, and what a value
//! says.
ghost use Rattle.std.specs.Prelude.{◌≡◌, ◌∷◌, List, map, count_by, is_some, option_map, option_and_then, find, [], false};
ghost use Rattle.std.specs.List.{list_all};
ghost use Rattle.std.specs.Option.{option_map_or};
ghost use Rattle.lab_forms_texts.specs.Ordinals.{ordinal_of};
ghost use Rattle.lab_people_access.specs.declared.roles.Role.TheVariants.{Manager, Administrator, Inspector};
ghost use Rattle.lab_people_access.specs.Roles.{no_roles};
ghost use Rattle.serde_json.specs.Find.{get, as_bool, as_str};
ghost use Rattle.serde_json.specs.View.{view};
ghost use Rattle.lab_wire_members.specs.Members.{whole_in, ordinal_in, digest_in, list_in, names_role, role_of, role_in, role_added, roles_with, roles_in, is_text_member, is_of, rule_shown, keeps, has_members, at, elements_at, each_has};

use lab_forms_texts::{LAST_ORDINAL, Ordinal};
use lab_people_access::{Role, Roles};
use lab_seal_hashes::Digest;
use serde_json::Value;

/// The kind of a member's value.
#[derive(Clone, Copy, Debug, PartialEq, Eq, Drop)]
pub enum MemberKind {
    /// A string.
    Text,
    /// `true` or `false`.
    Flag,
    /// A whole number from 1 to 1,000,000,000.
    Ordinal,
    /// A whole number from 0 to 4,294,967,295.
    Whole,
    /// A string of 64 lower hexadecimal digits.
    Digest,
    /// A list of the words of different roles.
    Roles,
    /// A list of strings.
    Texts,
    /// A list. The kind of its elements is stated beside it.
    List,
}

/// What a body may have at a name, and whether it must have it.
#[derive(Clone, Copy, Drop)]
pub struct MemberWanted {
    pub name: &'static str,
    pub kind: MemberKind,
    pub is_required: bool,
}

/// A required member, as `must!("code", Text)`.
#[macro_export]
macro_rules! must {
    ($name:literal, $kind:ident) => {
        $crate::MemberWanted {
            name: $name,
            kind: $crate::MemberKind::$kind,
            is_required: true,
        }
    };
}

/// An optional member, as `may!("reason", Text)`.
#[macro_export]
macro_rules! may {
    ($name:literal, $kind:ident) => {
        $crate::MemberWanted {
            name: $name,
            kind: $crate::MemberKind::$kind,
            is_required: false,
        }
    };
}

/// Returns the whole number that a value is.
pub fn whole_in(value: &Value) -> Option<u32>
    ensures { result ≡ whole_in (view value.now) }
{
    let number = value.as_u64()?;
    if number <= u64::from(u32::MAX) {
        Some(number as u32)
    } else {
        None
    }
}

fn ordinal_of(number: u64) -> Option<Ordinal>
    ensures { result ≡ ordinal_of number }
{
    if number > u64::from(LAST_ORDINAL) {
        return None;
    }
    Ordinal::new(number as u32)
}

/// Returns the number from 1 to 1,000,000,000 that a value is.
pub fn ordinal_in(value: &Value) -> Option<Ordinal>
    ensures { result ≡ ordinal_in (view value.now) }
{
    ordinal_of(value.as_u64()?)
}

/// Returns the digest that a value is, from its digits.
pub fn digest_in(value: &Value) -> Option<Digest>
    ensures { result ≡ digest_in (view value.now) }
{
    Digest::from_digits(value.as_str()?.as_bytes())
}

/// Returns the elements of the list that a value is.
pub fn list_in(value: &Value) -> Option<&[Value]>
    ensures { option_map (λ list. map view list.now) result ≡ list_in (view value.now) }
{
    match value.as_array() {
        Some(list) => Some(list.as_slice()),
        None => None,
    }
}

fn inspector_of(word: &str) -> Option<Role>
    ensures { result ≡ find (names_role word.now) (Inspector ∷ []) }
{
    if word == Role::Inspector.word() {
        Some(Role::Inspector)
    } else {
        None
    }
}

fn live_desk_of(word: &str) -> Option<Role>
    ensures { result ≡ find (names_role word.now) (Manager ∷ Administrator ∷ Inspector ∷ []) }
{
    if word == Role::Manager.word() {
        Some(Role::Manager)
    } else if word == Role::Administrator.word() {
        Some(Role::Administrator)
    } else {
        inspector_of(word)
    }
}

fn role_of(word: &str) -> Option<Role>
    ensures { result ≡ role_of word.now }
{
    if word == Role::Analyst.word() {
        Some(Role::Analyst)
    } else if word == Role::Reviewer.word() {
        Some(Role::Reviewer)
    } else {
        live_desk_of(word)
    }
}

fn role_in(value: &Value) -> Option<Role>
    ensures { result ≡ role_in (view value.now) }
{
    role_of(value.as_str()?)
}

fn role_added(roles: Roles, role: Option<Role>) -> Option<Roles>
    ensures { result ≡ role_added roles role }
{
    let role = role?;
    if roles.has(role) {
        return None;
    }
    Some(roles.with(role))
}

fn roles_of(values: &[Value]) -> Option<Roles>
    ensures { result ≡ roles_with no_roles (map view values.now) }
{
    let mut roles = Roles::none();
    for value in values {
        let Some(more) = role_added(roles, role_in(value)) else {
            return None;
        };
        roles = more;
    }
    Some(roles)
}

/// Returns the roles that a value is, from the list of their words.
pub fn roles_in(value: &Value) -> Option<Roles>
    ensures { result ≡ roles_in (view value.now) }
{
    roles_of(list_in(value)?)
}

fn is_text_member(value: &Value) -> bool
    ensures { result ≡ is_text_member (view value.now) }
{
    value.as_str().is_some()
}

fn are_texts(values: &[Value]) -> bool
    ensures { result ≡ list_all (λ value. is_text_member (view value)) values.now }
{
    values.iter().all(|value| is_text_member(value))
}

#[tactic(auto, using(crate::proofs::MemberLemmas::all_of_views))]
fn has_texts(value: &Value) -> bool
    ensures { result ≡ option_map_or (list_all is_text_member) (list_in (view value.now)) false }
{
    match list_in(value) {
        Some(list) => are_texts(list),
        None => false,
    }
}

fn is_of(kind: MemberKind, value: &Value) -> bool
    ensures { result ≡ is_of kind (view value.now) }
{
    match kind {
        MemberKind::Text => is_text_member(value),
        MemberKind::Flag => value.as_bool().is_some(),
        MemberKind::Ordinal => ordinal_in(value).is_some(),
        MemberKind::Whole => whole_in(value).is_some(),
        MemberKind::Digest => digest_in(value).is_some(),
        MemberKind::Roles => roles_in(value).is_some(),
        MemberKind::Texts => has_texts(value),
        MemberKind::List => list_in(value).is_some(),
    }
}

fn keeps(value: &Value, rule: &MemberWanted) -> bool
    ensures { result ≡ keeps (rule_shown rule.now)
        (get (rule_shown rule.now).name (view value.now)) }
{
    match value.get(rule.name) {
        Some(found) => is_of(rule.kind, found),
        None => !rule.is_required,
    }
}

fn is_there(value: &Value, rule: &MemberWanted) -> bool
    ensures { result ≡ is_some (get (rule_shown rule.now).name (view value.now)) }
{
    value.get(rule.name).is_some()
}

fn all_kept(value: &Value, rules: &[MemberWanted]) -> bool
    ensures { result ≡ list_all (λ rule. keeps (rule_shown rule)
        (get (rule_shown rule).name (view value.now))) rules.now }
{
    rules.iter().all(|rule| keeps(value, rule))
}

fn count_there(value: &Value, rules: &[MemberWanted]) -> usize
    ensures { result ≡ count_by (λ rule. is_some (get (rule_shown rule).name (view value.now)))
        rules.now }
{
    rules.iter().filter(|rule| is_there(value, rule)).count()
}

/// Returns whether a value is an object of exactly these members, whose names differ.
pub fn has_members(value: &Value, rules: &[MemberWanted]) -> bool
    ensures { result ≡ has_members (map rule_shown rules.now) (view value.now) }
{
    let Some(object) = value.as_object() else {
        return false;
    };
    object.len() == count_there(value, rules) && all_kept(value, rules)
}

fn all_have(values: &[Value], rules: &[MemberWanted]) -> bool
    ensures { result ≡ list_all (λ value. has_members (map rule_shown rules.now) (view value))
        values.now }
{
    values.iter().all(|value| has_members(value, rules))
}

/// Returns the text at a name.
pub fn str_at<'v>(value: &'v Value, name: &str) -> Option<&'v str>
    ensures { option_map (λ text. text.now) result ≡ at as_str name.now (view value.now) }
{
    value.get(name)?.as_str()
}

/// Returns the `true` or `false` at a name.
pub fn flag_at(value: &Value, name: &str) -> Option<bool>
    ensures { result ≡ at as_bool name.now (view value.now) }
{
    value.get(name)?.as_bool()
}

/// Returns the elements of the list at a name.
pub fn elements_at<'v>(value: &'v Value, name: &str) -> Option<&'v [Value]>
    ensures { option_map (λ list. map view list.now) result
        ≡ elements_at name.now (view value.now) }
{
    list_in(value.get(name)?)
}

/// Returns whether a list stands at a name, and its elements are objects of exactly these members.
#[tactic(auto, using(crate::proofs::MemberLemmas::all_of_views))]
pub fn each_has(value: &Value, name: &str, rules: &[MemberWanted]) -> bool
    ensures { result ≡ each_has (map rule_shown rules.now)
        (elements_at name.now (view value.now)) }
{
    match elements_at(value, name) {
        Some(list) => all_have(list, rules),
        None => false,
    }
}
