//! The changes of persons' accounts.
ghost use Rattle.std.specs.Prelude.{◌≡◌, option_copied};
ghost use Rattle.lab_people.specs.Accounts.{changing, enrolling, person_meant, setting_roles, retiring, unlocking};

use lab_forms_texts::{Name, PersonCode, Tick};
use lab_people_access::{
    Closing, PERSONS_LIMIT, Password, PeopleFault, PeopleRefusal, Person, Roles, Session, attempt,
};
use lab_seal_hashes::salt;

/// The result of a change of a password.
#[derive(Drop)]
pub struct PasswordChanged {
    /// The person, with the new password.
    pub person: Person,
    /// The session in which the password was changed.
    pub session: Session,
    /// Which sessions of the person are closed.
    pub closing: Closing,
}

/// The result of a change of a person's account by an administrator.
#[derive(Drop)]
pub struct Effect {
    /// The person, after the change.
    pub person: Person,
    /// Which sessions of the person are closed.
    pub closing: Closing,
}

/// Changes a person's own password in a session, with the old password. The session must already
/// have noted the request. It is then as before its first signature, and the other sessions of the
/// person are closed.
///
/// # Errors
/// In this order: `Failed`, `BadPassword`, `SamePassword`.
#[tactic(auto, unfolding(crate::specs::Accounts::changing))]
pub fn change_password(
    person: Person,
    mut session: Session,
    old: &str,
    new: &str,
    tick: &Tick,
) -> Result<PasswordChanged, PeopleFault>
    ensures { result ≡ changing person session old.now new.now tick.now }
{
    let mut person = attempt(Some(person), old, tick.moment)?;
    if !Password::admits(new) {
        return Err(PeopleRefusal::BadPassword.into());
    }
    if new == old {
        return Err(PeopleRefusal::SamePassword.into());
    }
    let closing = Closing::Others(session.number);
    person.password = Password::choose(new, salt(&tick.words), tick.moment);
    session.signed = false;
    Ok(PasswordChanged {
        person,
        session,
        closing,
    })
}

/// Enrols a person, who has no password yet. `holder` is the person who has or had the code, if
/// there is one, and `persons` is how many persons the laboratory has, retired ones too.
///
/// # Errors
/// In this order: `CodeTaken`, `LabFull`.
#[tactic(auto, unfolding(crate::specs::Accounts::enrolling))]
pub fn enrol(
    code: PersonCode,
    name: Name,
    roles: Roles,
    holder: Option<&Person>,
    persons: u32,
) -> Result<Person, PeopleRefusal>
    ensures { result ≡ enrolling code name roles (option_copied holder.entry) persons }
{
    if holder.is_some() {
        return Err(PeopleRefusal::CodeTaken);
    }
    if persons >= PERSONS_LIMIT {
        return Err(PeopleRefusal::LabFull);
    }
    Ok(Person::newcomer(code, name, roles))
}

// The person whom a command of the caller names, if that person isn't retired and isn't the caller.
pub(crate) fn person_meant_by(
    caller: &PersonCode,
    person: Option<Person>,
) -> Result<Person, PeopleRefusal>
    ensures { result ≡ person_meant caller.now person }
{
    let Some(person) = person else {
        return Err(PeopleRefusal::NoSuchPerson);
    };
    if person.retired {
        return Err(PeopleRefusal::NoSuchPerson);
    }
    if person.code == *caller {
        return Err(PeopleRefusal::OwnIssue);
    }
    Ok(person)
}

/// Sets the roles of a person, who was already looked up.
///
/// # Errors
/// In this order: `NoSuchPerson`, `OwnIssue`.
#[tactic(auto, unfolding(crate::specs::Accounts::setting_roles))]
pub fn set_roles(
    caller: &PersonCode,
    person: Option<Person>,
    roles: Roles,
) -> Result<Effect, PeopleRefusal>
    ensures { result ≡ setting_roles caller.now person roles }
{
    let mut person = person_meant_by(caller, person)?;
    person.roles = roles;
    Ok(Effect {
        person,
        closing: Closing::Nothing,
    })
}

/// Retires a person, who was already looked up, for good. All sessions of the person are closed.
///
/// # Errors
/// In this order: `NoSuchPerson`, `OwnIssue`.
#[tactic(auto, unfolding(crate::specs::Accounts::retiring))]
pub fn retire(caller: &PersonCode, person: Option<Person>) -> Result<Effect, PeopleRefusal>
    ensures { result ≡ retiring caller.now person }
{
    let mut person = person_meant_by(caller, person)?;
    person.retired = true;
    Ok(Effect {
        person,
        closing: Closing::All,
    })
}

/// Unlocks a person, who was already looked up: the failed passwords no longer count.
///
/// # Errors
/// In this order: `NoSuchPerson`, `OwnIssue`.
#[tactic(auto, unfolding(crate::specs::Accounts::unlocking))]
pub fn unlock(caller: &PersonCode, person: Option<Person>) -> Result<Effect, PeopleRefusal>
    ensures { result ≡ unlocking caller.now person }
{
    let person = person_meant_by(caller, person)?;
    Ok(Effect {
        person: person.without_lock(),
        closing: Closing::Nothing,
    })
}
