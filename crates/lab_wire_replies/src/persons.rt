//! Sessions, accounts and persons, as JSON.
ghost use Rattle.std.specs.Prelude.{◌≡◌, IfOk, string_bytes, map};
ghost use Rattle.serde_json.specs.Data.{string};
ghost use Rattle.serde_json.specs.View.{view};
ghost use Rattle.lab_people_access.specs.Roles.{role_list, role_word};
ghost use Rattle.lab_wire_replies.specs.Parts.{list_from};
ghost use Rattle.lab_wire_replies.specs.Persons.{opened_data, closed_data, changed_data, person_done_data, half_data, roles_set_data, persons_data};

use crate::members::{bytes, flag, moment, object_of, object_with, ordinal, text};
use crate::parts::{Shown, half_text, list_of, text_value};
use lab_forms_texts::{Moment, Ordinal, OutOfMemory, PersonCode};
use lab_people_access::{Role, Roles};
use lab_records_rules::PersonLine;
use lab_seal_hashes::{Half, Token};
use serde_json::Value;
use std::alloc::Global;

/// Returns the reply about a session that was opened.
///
/// # Errors
/// Memory ran out.
pub fn opened_value(
    alloc: Global,
    session: Ordinal,
    token: &Token,
    due: bool,
) -> Result<Value, OutOfMemory>
    ensures { IfOk result (λ value. view value ≡ opened_data session token.now due) }
{
    object_of(
        alloc,
        &[
            flag("due", due),
            ordinal("session", session),
            bytes("token", token.bytes()),
        ],
    )
}

/// Returns the reply about a session that was closed.
///
/// # Errors
/// Memory ran out.
pub fn closed_value(alloc: Global, session: Ordinal) -> Result<Value, OutOfMemory>
    ensures { IfOk result (λ value. view value ≡ closed_data session) }
{
    object_of(alloc, &[ordinal("session", session)])
}

/// Returns the reply about a password that was changed.
///
/// # Errors
/// Memory ran out.
pub fn changed_value(alloc: Global, changed: Moment) -> Result<Value, OutOfMemory>
    ensures { IfOk result (λ value. view value ≡ changed_data changed) }
{
    object_of(alloc, &[moment("changed", changed)])
}

/// Returns the reply about a person who was enrolled, retired or unlocked.
///
/// # Errors
/// Memory ran out.
pub fn person_done_value(alloc: Global, code: &PersonCode) -> Result<Value, OutOfMemory>
    ensures { IfOk result (λ value. view value ≡ person_done_data code.now) }
{
    object_of(alloc, &[text("code", code.as_str())])
}

/// Returns the reply with a half of a one-time word.
///
/// # Errors
/// Memory ran out.
pub fn half_value(alloc: Global, half: &Half) -> Result<Value, OutOfMemory>
    ensures { IfOk result (λ value. view value ≡ half_data half.now) }
{
    let half = half_text(alloc, half)?;
    object_of(alloc, &[text("half", half.as_str())])
}

/// The group of the things that replies about persons list.
pub struct OfPersons;

impl Shown<OfPersons> for Role {
    ghost data_of = { λ role. string (role_word role) };

    fn value(&self, alloc: Global) -> Result<Value, OutOfMemory> {
        text_value(alloc, self.word())
    }
}

fn roles_list(alloc: Global, roles: &Roles) -> Result<Vec<Value>, OutOfMemory>
    ensures { IfOk result (λ list. map view list.items
        ≡ map string (map role_word (role_list roles.now))) }
{
    let roles = roles.list(alloc)?;
    list_of::<OfPersons, _>(alloc, &roles)
}

/// Returns the reply with the roles that a person has from now on.
///
/// # Errors
/// Memory ran out.
pub fn roles_set_value(
    alloc: Global,
    code: &PersonCode,
    roles: &Roles,
) -> Result<Value, OutOfMemory>
    ensures { IfOk result (λ value. view value ≡ roles_set_data code.now roles.now) }
{
    let roles = roles_list(alloc, roles)?;
    object_with(alloc, &[text("code", code.as_str())], "roles", roles)
}

impl Shown<OfPersons> for PersonLine {
    ghost use Rattle.lab_wire_replies.specs.Persons.{person_data};

    ghost data_of = { person_data };

    fn value(&self, alloc: Global) -> Result<Value, OutOfMemory> {
        let roles = roles_list(alloc, &self.roles)?;
        let members = [
            text("code", self.code.as_str()),
            flag("locked", self.locked),
            text("name", self.name.as_str()),
            flag("retired", self.retired),
        ];
        object_with(alloc, &members, "roles", roles)
    }
}

/// Returns the list of the persons, as JSON.
///
/// # Errors
/// Memory ran out.
pub fn persons_value(alloc: Global, persons: &[PersonLine]) -> Result<Value, OutOfMemory>
    ensures { IfOk result (λ value. view value ≡ persons_data persons.now) }
{
    let persons = list_of::<OfPersons, _>(alloc, persons)?;
    object_with(alloc, &[], "persons", persons)
}
