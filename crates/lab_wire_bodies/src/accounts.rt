//! The bodies of the commands on sessions and accounts.
ghost use Rattle.std.specs.Prelude.{◌≡◌, Ok, IfOk, IfErr};
ghost use Rattle.serde_json.specs.View.{view};
ghost use Rattle.lab_wire_bodies.specs.Accounts.{opening_named, closing_named, password_named, enrolment_named, roles_named, person_named, issue_named, confirmation_named, retirement_named, unlocking_named};
ghost use Rattle.lab_wire_members.specs.Readings.{FaultyInTurn};

use lab_forms_texts::{Names, PersonCode, PersonCodes};
use lab_records_machine::{AccountCommand, Command, SessionCommand};
use lab_wire_members::{
    BodyFault, BodyRefusal, MemberWanted, has_members, must, named_at, roles_at, typed_at,
    wanted_member,
};
use serde_json::Value;
use std::alloc::Global;

const OPENING: [MemberWanted; 2] = [must!("code", Text), must!("password", Text)];

const PASSWORD: [MemberWanted; 2] = [must!("old", Text), must!("new", Text)];

const ENROLMENT: [MemberWanted; 3] = [
    must!("code", Text),
    must!("name", Text),
    must!("roles", Roles),
];

const ROLES: [MemberWanted; 2] = [must!("code", Text), must!("roles", Roles)];

const PERSON: [MemberWanted; 1] = [must!("code", Text)];

/// Reads the command that opens a session.
///
/// # Errors
/// The body is refused, or memory ran out.
#[tactic(auto, using(lab_wire_members::proofs::ReadingLemmas::in_turn), unfolding(crate::specs::Accounts::opening_named))]
pub fn opening(alloc: Global, value: &Value) -> Result<Command, BodyFault>
    ensures read { IfOk result (λ command. opening_named (view value.now) ≡ Ok command) }
    ensures fault { IfErr result (FaultyInTurn (opening_named (view value.now))) }
{
    if !has_members(value, &OPENING) {
        return Err(BodyFault::Refused(BodyRefusal::BadBody));
    }
    let code = named_at::<PersonCodes>(alloc, value, "code")?;
    let password = typed_at(alloc, value, "password")?;
    Ok(Command::Open { code, password })
}

/// Returns the command that closes the session.
///
/// # Errors
/// Why the body is refused.
#[tactic(auto, using(lab_wire_members::proofs::ReadingLemmas::in_turn), unfolding(crate::specs::Accounts::closing_named))]
pub fn closing(value: &Value) -> Result<Command, BodyRefusal>
    ensures { result ≡ closing_named (view value.now) }
{
    if !has_members(value, &[]) {
        return Err(BodyRefusal::BadBody);
    }
    Ok(Command::In(SessionCommand::OnAccount(AccountCommand::Close)))
}

/// Reads the command that changes a password.
///
/// # Errors
/// The body is refused, or memory ran out.
#[tactic(auto, using(lab_wire_members::proofs::ReadingLemmas::in_turn), unfolding(crate::specs::Accounts::password_named))]
pub fn password(alloc: Global, value: &Value) -> Result<Command, BodyFault>
    ensures read { IfOk result (λ command. password_named (view value.now) ≡ Ok command) }
    ensures fault { IfErr result (FaultyInTurn (password_named (view value.now))) }
{
    if !has_members(value, &PASSWORD) {
        return Err(BodyFault::Refused(BodyRefusal::BadBody));
    }
    let old = typed_at(alloc, value, "old")?;
    let new = typed_at(alloc, value, "new")?;
    Ok(Command::In(SessionCommand::OnAccount(AccountCommand::ChangePassword { old, new })))
}

/// Reads the command that enrols a person.
///
/// # Errors
/// The body is refused, or memory ran out.
#[tactic(auto, using(lab_wire_members::proofs::ReadingLemmas::in_turn), unfolding(crate::specs::Accounts::enrolment_named))]
pub fn enrolment(alloc: Global, value: &Value) -> Result<Command, BodyFault>
    ensures read { IfOk result (λ command. enrolment_named (view value.now) ≡ Ok command) }
    ensures fault { IfErr result (FaultyInTurn (enrolment_named (view value.now))) }
{
    if !has_members(value, &ENROLMENT) {
        return Err(BodyFault::Refused(BodyRefusal::BadBody));
    }
    let code = named_at::<PersonCodes>(alloc, value, "code")?;
    let name = named_at::<Names>(alloc, value, "name")?;
    let roles = wanted_member(roles_at(value, "roles"))?;
    Ok(Command::In(SessionCommand::OnAccount(AccountCommand::Enrol { code, name, roles })))
}

/// Reads the command that sets a person's roles.
///
/// # Errors
/// The body is refused, or memory ran out.
#[tactic(auto, using(lab_wire_members::proofs::ReadingLemmas::in_turn), unfolding(crate::specs::Accounts::roles_named))]
pub fn setting_roles(alloc: Global, value: &Value) -> Result<Command, BodyFault>
    ensures read { IfOk result (λ command. roles_named (view value.now) ≡ Ok command) }
    ensures fault { IfErr result (FaultyInTurn (roles_named (view value.now))) }
{
    if !has_members(value, &ROLES) {
        return Err(BodyFault::Refused(BodyRefusal::BadBody));
    }
    let code = named_at::<PersonCodes>(alloc, value, "code")?;
    let roles = wanted_member(roles_at(value, "roles"))?;
    Ok(Command::In(SessionCommand::OnAccount(AccountCommand::SetRoles { code, roles })))
}

#[tactic(auto, using(lab_wire_members::proofs::ReadingLemmas::in_turn), unfolding(crate::specs::Accounts::person_named))]
fn person(alloc: Global, value: &Value) -> Result<PersonCode, BodyFault>
    ensures read { IfOk result (λ code. person_named (view value.now) ≡ Ok code) }
    ensures fault { IfErr result (FaultyInTurn (person_named (view value.now))) }
{
    if !has_members(value, &PERSON) {
        return Err(BodyFault::Refused(BodyRefusal::BadBody));
    }
    named_at::<PersonCodes>(alloc, value, "code")
}

/// Reads the command that asks for a one-time password.
///
/// # Errors
/// The body is refused, or memory ran out.
#[tactic(auto, using(lab_wire_members::proofs::ReadingLemmas::in_turn), unfolding(crate::specs::Accounts::issue_named))]
pub fn issue(alloc: Global, value: &Value) -> Result<Command, BodyFault>
    ensures read { IfOk result (λ command. issue_named (view value.now) ≡ Ok command) }
    ensures fault { IfErr result (FaultyInTurn (issue_named (view value.now))) }
{
    let code = person(alloc, value)?;
    Ok(Command::In(SessionCommand::OnAccount(AccountCommand::AskIssue { code })))
}

/// Reads the command that confirms a one-time password.
///
/// # Errors
/// The body is refused, or memory ran out.
#[tactic(auto, using(lab_wire_members::proofs::ReadingLemmas::in_turn), unfolding(crate::specs::Accounts::confirmation_named))]
pub fn confirmation(alloc: Global, value: &Value) -> Result<Command, BodyFault>
    ensures read { IfOk result (λ command. confirmation_named (view value.now) ≡ Ok command) }
    ensures fault { IfErr result (FaultyInTurn (confirmation_named (view value.now))) }
{
    let code = person(alloc, value)?;
    Ok(Command::In(SessionCommand::OnAccount(AccountCommand::ConfirmIssue { code })))
}

/// Reads the command that retires a person, who has left.
///
/// # Errors
/// The body is refused, or memory ran out.
#[tactic(auto, using(lab_wire_members::proofs::ReadingLemmas::in_turn), unfolding(crate::specs::Accounts::retirement_named))]
pub fn retirement(alloc: Global, value: &Value) -> Result<Command, BodyFault>
    ensures read { IfOk result (λ command. retirement_named (view value.now) ≡ Ok command) }
    ensures fault { IfErr result (FaultyInTurn (retirement_named (view value.now))) }
{
    let code = person(alloc, value)?;
    Ok(Command::In(SessionCommand::OnAccount(AccountCommand::Retire { code })))
}

/// Reads the command that takes away a person's lock.
///
/// # Errors
/// The body is refused, or memory ran out.
#[tactic(auto, using(lab_wire_members::proofs::ReadingLemmas::in_turn), unfolding(crate::specs::Accounts::unlocking_named))]
pub fn unlocking(alloc: Global, value: &Value) -> Result<Command, BodyFault>
    ensures read { IfOk result (λ command. unlocking_named (view value.now) ≡ Ok command) }
    ensures fault { IfErr result (FaultyInTurn (unlocking_named (view value.now))) }
{
    let code = person(alloc, value)?;
    Ok(Command::In(SessionCommand::OnAccount(AccountCommand::Unlock { code })))
}
