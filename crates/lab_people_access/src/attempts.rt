//! How a password that somebody gives is checked.
ghost use Rattle.std.specs.Prelude.{◌≡◌, option_copied};
ghost use Rattle.lab_people_access.specs.Attempts.{attempt_of, signing_attempt, is_own_code, attempt_by, failure_of};

use crate::passwords::fails;
use crate::persons::Person;
use crate::refusals::Failure;
use lab_forms_texts::{Moment, PersonCode};

/// The number of failed passwords that locks an account.
pub const FAILURES_TO_LOCK: u32 = 5;

/// Checks a text as the password of a person, who was looked up by a code. Returns the person
/// without failed passwords and without a lock.
///
/// # Errors
/// What follows from a text that isn't accepted.
pub fn attempt(person: Option<Person>, text: &str, moment: Moment) -> Result<Person, Failure>
    ensures { result ≡ attempt_of person text.now moment }
{
    match person {
        Some(person) => try_password(person, true, text, moment),
        None => {
            fails(text.as_bytes(), 0);
            Err(Failure::Stray)
        }
    }
}

/// Checks a text as the password of a person who signs in a session, and the code, if one is given.
/// The code of another person counts as a failed password of the person who signs. Returns the
/// person without failed passwords and without a lock.
///
/// # Errors
/// What follows from a code or a text that isn't accepted.
pub fn attempt_signing(
    person: Person,
    code: Option<&PersonCode>,
    text: &str,
    moment: Moment,
) -> Result<Person, Failure>
    ensures { result ≡ signing_attempt person (option_copied code.entry) text.now moment }
{
    let is_own = is_own(code, &person);
    try_password(person, is_own, text, moment)
}

// Whether the code is that of the person; `true` if no code is given.
fn is_own(code: Option<&PersonCode>, person: &Person) -> bool
    ensures { result ≡ is_own_code (option_copied code.entry) person.now }
{
    match code {
        Some(code) => *code == person.code,
        None => true,
    }
}

#[tactic(auto, unfolding(crate::specs::Attempts::attempt_by))]
fn try_password(person: Person, is_own: bool, text: &str, moment: Moment) -> Result<Person, Failure>
    ensures { result ≡ attempt_by person is_own text.now moment }
{
    if person.retired || !person.password.is_set() {
        fails(text.as_bytes(), 0);
        return Err(Failure::Stray);
    }
    if person.is_locked(moment) {
        fails(text.as_bytes(), 0);
        return Err(Failure::AlreadyLocked(person));
    }
    if is_own && person.password.accepts(text, moment) {
        return Ok(person.without_lock());
    }
    Err(fail(person, moment))
}

// Counts one more failed password; the fifth locks the account.
fn fail(mut person: Person, moment: Moment) -> Failure
    ensures { result ≡ failure_of person moment }
{
    let before = match person.locked {
        Some(_) => 0,
        None => person.failures,
    };
    if before < FAILURES_TO_LOCK - 1 {
        person.failures = before + 1;
        person.locked = None;
        return Failure::Counted(person);
    }
    person.failures = FAILURES_TO_LOCK;
    person.locked = Some(moment);
    Failure::Locking(person)
}
