//! The results of commands on accounts.
ghost use Rattle.std.specs.Prelude.{◌≡◌, [], ◌∷◌, Ok, IfOk, IsTrue, OnErr};
ghost use Rattle.lab_people.specs.Accounts.{changing, enrolling, setting_roles, retiring, unlocking};
ghost use Rattle.lab_people.specs.Issues.{asking, confirming};
ghost use Rattle.lab_records_machine.specs.Done.{then_person_done, changed_done, enrolled_done, person_changes, asked_done, confirmed_done, roles_done, retired_done, unlocked_done};
ghost use Rattle.lab_records_machine.specs.Makings.{is_made_of};

use crate::counts::enrol_counted;
use lab_forms_texts::{Moment, Name, OutOfMemory, PersonCode, Series, Tick};
use lab_people::{
    Effect, Issued, PasswordChanged, ask_issue, change_password, confirm_issue, retire, set_roles,
    unlock,
};
use lab_people_access::{Closing, PeopleFault, Person, Roles, Session};
use lab_records_kept::{Change, Deed, Occasion};
use lab_records_machine::{Done, Reply, pair, single, triple};
use lab_records_rules::{Refusal, Typed};
use std::alloc::Global;

/// Returns the result of a change of one's own password. Fails only if memory runs out, and only if
/// both passwords are accepted.
///
/// # Errors
/// Memory ran out.
pub fn changing_done(
    alloc: Global,
    caller: Person,
    session: Session,
    old: &Typed,
    new: &Typed,
    tick: &Tick,
) -> Result<Done, OutOfMemory>
    ensures done { IfOk result (λ done. done ≡ changed_done tick.now.moment
        (changing caller session old.now new.now tick.now)) }
    ensures memory { OnErr result (IsTrue (is_made_of (changed_done tick.now.moment
        (changing caller session old.now new.now tick.now)))) }
{
    match change_password(caller, session, old.as_str(), new.as_str(), tick) {
        Ok(changed) => changed_done(alloc, tick.moment, changed),
        Err(fault) => match fault {
            PeopleFault::Failed(failure) => Ok(Done::Failed(Occasion::Changing, failure)),
            PeopleFault::Refused(refusal) => Ok(Done::Refused(Refusal::People(refusal))),
        },
    }
}

// The result after the password was changed.
fn changed_done(
    alloc: Global,
    moment: Moment,
    changed: PasswordChanged,
) -> Result<Done, OutOfMemory>
    ensures { IfOk result (λ done. done ≡ changed_done moment (Ok changed)) }
{
    let told = changed.person.code.copy()?;
    let closed = changed.person.code.copy()?;
    let closing = changed.closing;
    let changes = triple(
        alloc,
        Change::PersonSet(changed.person),
        Change::SessionSet(changed.session),
        Change::SessionsClosed {
            person: closed,
            closing,
        },
    )?;
    Ok(Done::Made(
        Reply::PasswordChanged { changed: moment },
        Deed::Password { person: told },
        changes,
    ))
}

/// Returns the result of an enrolment; `persons` is how many persons the laboratory has. Fails only
/// if memory runs out, and only if the result isn't a refusal.
///
/// # Errors
/// Memory ran out.
pub fn enrolling_done(
    alloc: Global,
    code: PersonCode,
    name: Name,
    roles: Roles,
    holder: &Option<Person>,
    persons: u64,
) -> Result<Done, OutOfMemory>
    ensures done { IfOk result (λ done. done
        ≡ then_person_done (enrolling code name roles holder.now persons) enrolled_done) }
    ensures memory { OnErr result (IsTrue (is_made_of (then_person_done
        (enrolling code name roles holder.now persons) enrolled_done))) }
{
    match enrol_counted(code, name, roles, holder.as_ref(), persons) {
        Ok(person) => enrolled_done(alloc, person),
        Err(refusal) => Ok(Done::Refused(Refusal::People(refusal))),
    }
}

fn enrolled_done(alloc: Global, person: Person) -> Result<Done, OutOfMemory>
    ensures { IfOk result (λ done. done ≡ enrolled_done person) }
{
    let told = person.code.copy()?;
    let enrolled = person.code.copy()?;
    let roles = person.roles;
    let changes = single(alloc, Change::PersonAdded(person))?;
    Ok(Done::Made(
        Reply::PersonDone { code: told },
        Deed::Enrol {
            person: enrolled,
            roles,
        },
        changes,
    ))
}

// The changes that set an account, and close its sessions if any have to be closed.
fn person_changes(
    alloc: Global,
    person: Person,
    closing: Closing,
) -> Result<Series<Change>, OutOfMemory>
    ensures { IfOk result (λ changes. changes ≡ person_changes person closing) }
{
    match closing {
        Closing::Nothing => single(alloc, Change::PersonSet(person)),
        Closing::All | Closing::Others(_) => closing_changes(alloc, person, closing),
    }
}

fn closing_changes(
    alloc: Global,
    person: Person,
    closing: Closing,
) -> Result<Series<Change>, OutOfMemory>
    ensures { IfOk result (λ changes. changes
        ≡ Change.PersonSet person ∷ Change.SessionsClosed person.code closing ∷ []) }
{
    let code = person.code.copy()?;
    pair(
        alloc,
        Change::PersonSet(person),
        Change::SessionsClosed {
            person: code,
            closing,
        },
    )
}

/// Returns the result of a request for a one-time word. Fails only if memory runs out, and only if
/// the result isn't a refusal.
///
/// # Errors
/// Memory ran out.
pub fn asking_done(
    alloc: Global,
    caller: PersonCode,
    person: Option<Person>,
    tick: &Tick,
) -> Result<Done, OutOfMemory>
    ensures done { IfOk result (λ done. done
        ≡ then_person_done (asking caller person tick.now) asked_done) }
    ensures memory { OnErr result
        (IsTrue (is_made_of (then_person_done (asking caller person tick.now) asked_done))) }
{
    match ask_issue(caller, person, tick) {
        Ok(issued) => asked_done(alloc, issued),
        Err(refusal) => Ok(Done::Refused(Refusal::People(refusal))),
    }
}

fn asked_done(alloc: Global, issued: Issued) -> Result<Done, OutOfMemory>
    ensures { IfOk result (λ done. done ≡ asked_done issued) }
{
    let half = issued.half;
    let person = issued.person.code.copy()?;
    let changes = person_changes(alloc, issued.person, issued.closing)?;
    Ok(Done::Made(Reply::HalfTold { half }, Deed::Issue { person }, changes))
}

/// Returns the result of a confirmation of a one-time word. Fails only if memory runs out, and only
/// if the result isn't a refusal.
///
/// # Errors
/// Memory ran out.
pub fn confirming_done(
    alloc: Global,
    caller: &PersonCode,
    person: Option<Person>,
    tick: &Tick,
) -> Result<Done, OutOfMemory>
    ensures done { IfOk result (λ done. done
        ≡ then_person_done (confirming caller.now person tick.now) confirmed_done) }
    ensures memory { OnErr result
        (IsTrue (is_made_of (then_person_done (confirming caller.now person tick.now) confirmed_done))) }
{
    match confirm_issue(caller, person, tick) {
        Ok(issued) => confirmed_done(alloc, issued),
        Err(refusal) => Ok(Done::Refused(Refusal::People(refusal))),
    }
}

fn confirmed_done(alloc: Global, issued: Issued) -> Result<Done, OutOfMemory>
    ensures { IfOk result (λ done. done ≡ confirmed_done issued) }
{
    let half = issued.half;
    let person = issued.person.code.copy()?;
    let changes = person_changes(alloc, issued.person, issued.closing)?;
    Ok(Done::Made(Reply::HalfTold { half }, Deed::Confirm { person }, changes))
}

/// Returns the result of setting a person's roles. Fails only if memory runs out, and only if the
/// result isn't a refusal.
///
/// # Errors
/// Memory ran out.
pub fn setting_roles_done(
    alloc: Global,
    caller: &PersonCode,
    person: Option<Person>,
    roles: Roles,
) -> Result<Done, OutOfMemory>
    ensures done { IfOk result (λ done. done
        ≡ then_person_done (setting_roles caller.now person roles) roles_done) }
    ensures memory { OnErr result
        (IsTrue (is_made_of (then_person_done (setting_roles caller.now person roles) roles_done))) }
{
    match set_roles(caller, person, roles) {
        Ok(effect) => roles_done(alloc, effect),
        Err(refusal) => Ok(Done::Refused(Refusal::People(refusal))),
    }
}

fn roles_done(alloc: Global, effect: Effect) -> Result<Done, OutOfMemory>
    ensures { IfOk result (λ done. done ≡ roles_done effect) }
{
    let code = effect.person.code.copy()?;
    let person = effect.person.code.copy()?;
    let roles = effect.person.roles;
    let changes = person_changes(alloc, effect.person, effect.closing)?;
    Ok(Done::Made(
        Reply::RolesSet { code, roles },
        Deed::Roles { person, roles },
        changes,
    ))
}

/// Returns the result of a retirement. Fails only if memory runs out, and only if the result isn't
/// a refusal.
///
/// # Errors
/// Memory ran out.
pub fn retiring_done(
    alloc: Global,
    caller: &PersonCode,
    person: Option<Person>,
) -> Result<Done, OutOfMemory>
    ensures done { IfOk result (λ done. done
        ≡ then_person_done (retiring caller.now person) retired_done) }
    ensures memory { OnErr result
        (IsTrue (is_made_of (then_person_done (retiring caller.now person) retired_done))) }
{
    match retire(caller, person) {
        Ok(effect) => retired_done(alloc, effect),
        Err(refusal) => Ok(Done::Refused(Refusal::People(refusal))),
    }
}

fn retired_done(alloc: Global, effect: Effect) -> Result<Done, OutOfMemory>
    ensures { IfOk result (λ done. done ≡ retired_done effect) }
{
    let code = effect.person.code.copy()?;
    let person = effect.person.code.copy()?;
    let changes = person_changes(alloc, effect.person, effect.closing)?;
    Ok(Done::Made(Reply::PersonDone { code }, Deed::Retire { person }, changes))
}

/// Returns the result of unlocking an account. Fails only if memory runs out, and only if the
/// result isn't a refusal.
///
/// # Errors
/// Memory ran out.
pub fn unlocking_done(
    alloc: Global,
    caller: &PersonCode,
    person: Option<Person>,
) -> Result<Done, OutOfMemory>
    ensures done { IfOk result (λ done. done
        ≡ then_person_done (unlocking caller.now person) unlocked_done) }
    ensures memory { OnErr result
        (IsTrue (is_made_of (then_person_done (unlocking caller.now person) unlocked_done))) }
{
    match unlock(caller, person) {
        Ok(effect) => unlocked_done(alloc, effect),
        Err(refusal) => Ok(Done::Refused(Refusal::People(refusal))),
    }
}

fn unlocked_done(alloc: Global, effect: Effect) -> Result<Done, OutOfMemory>
    ensures { IfOk result (λ done. done ≡ unlocked_done effect) }
{
    let code = effect.person.code.copy()?;
    let person = effect.person.code.copy()?;
    let changes = person_changes(alloc, effect.person, effect.closing)?;
    Ok(Done::Made(Reply::PersonDone { code }, Deed::Unlock { person }, changes))
}
