//! Laws of accounts, on which users rely. Each function does nothing: its contract states the law,
//! for all persons, sessions and moments.
ghost use Rattle.std.specs.Prelude.{◌≡◌, ◌≢◌, ℕ, Bool, List, length, true, false, Option, Some, Ok, Err};
ghost use Rattle.lab_forms_texts.specs.declared.tick.Tick.{Tick as AnyTick};
ghost use Rattle.lab_people_access.specs.declared.persons.Person.{Person as AnyPerson};
ghost use Rattle.lab_people_access.specs.declared.persons.Ask.{Ask as AnyAsk};
ghost use Rattle.lab_people_access.specs.declared.sessions.Session.{Session as AnySession};
ghost use Rattle.lab_people_access.specs.declared.openings.Opened.{Opened as AnyOpened};
ghost use Rattle.lab_people_access.specs.declared.roles.Roles.{Roles as AnyRoles};
ghost use Rattle.lab_people_access.specs.declared.sessions.Closing.{Closing as AnyClosing};
ghost use Rattle.lab_people_access.specs.declared.refusals.Failure.TheVariants.{Stray};
ghost use Rattle.lab_people_access.specs.declared.refusals.PeopleFault.TheVariants.{Failed};
ghost use Rattle.lab_people_access.specs.declared.refusals.PeopleRefusal.TheVariants.{SamePerson, NoSuchPerson};
ghost use Rattle.lab_people.specs.declared.accounts.Effect.{Effect as AnyEffect};
ghost use Rattle.lab_people.specs.Laws.{IsNewCode, IsNewToken, IsRuleRefusal, AreClosed, AreRefused, AcceptsNone, StaysClosed, own_refusal};
ghost use Rattle.lab_people_access.specs.Persons.{person_of, stands};
ghost use Rattle.lab_people_access.specs.Sessions.{is_live, session_of, session_after, sessions_after, touched_session, signed_session};
ghost use Rattle.lab_people_access.specs.Attempts.{attempt_by, signing_attempt};
ghost use Rattle.lab_people_access.specs.Openings.{opening, token_digest};
ghost use Rattle.lab_people.specs.Accounts.{changing, with_new_password, enrolling, setting_roles, retiring, unlocking};
ghost use Rattle.lab_people.specs.Issues.{asking, confirming};

/// Law: a code is given to one person only, even after that person has retired.
pub fn a_code_is_given_once()
    ensures { (persons : List AnyPerson) (code name : List ℕ) (roles : AnyRoles)
        (person : AnyPerson) →
        enrolling code name roles (person_of persons code) (length persons) ≡ Ok person →
        (person.code ≡ code) × IsNewCode person.code persons }
{}

/// Law: no two sessions of a laboratory have tokens with the same digest, even if one is closed.
pub fn a_token_is_given_once()
    ensures { (sessions : List AnySession) (code text : List ℕ) (person : Option AnyPerson)
        (tick : AnyTick) (opened : AnyOpened) →
        opening code person text tick (length sessions) (session_of sessions (token_digest tick))
        ≡ Ok opened → IsNewToken opened.session.token sessions }
{}

/// Law: nobody asks for a one-time word, confirms one, sets roles, retires or unlocks on their own
/// account.
pub fn accounts_are_kept_by_others()
    ensures { (person : AnyPerson) (tick : AnyTick) (roles : AnyRoles) →
        AreRefused person.code person tick roles (own_refusal person) }
{}

/// Law: the administrator who asked for a one-time word for another person can't confirm it, and is
/// refused with `SamePerson` while it can be confirmed.
pub fn a_one_time_word_takes_two()
    ensures refused { (person : AnyPerson) (ask : AnyAsk) (tick : AnyTick) → person.ask ≡ Some ask →
        IsRuleRefusal (confirming ask.asker (Some person) tick) }
    ensures same_person { (person : AnyPerson) (ask : AnyAsk) (tick : AnyTick) →
        person.ask ≡ Some ask → person.retired ≡ false → person.code ≢ ask.asker →
        stands ask tick.moment ≡ true →
        confirming ask.asker (Some person) tick ≡ Err SamePerson }
{}

/// Law: retiring a person closes all sessions of the person. A retired person can't open a session,
/// no password of theirs is accepted, no attempt with one is counted for any person, and no command
/// changes the person. Nothing reopens a closed session: no request, no signing, no change of the
/// password, and no closing.
pub fn retirement_is_for_good()
    ensures leaves { (caller : List ℕ) (person : AnyPerson) (effect : AnyEffect)
        (sessions : List AnySession) → retiring caller (Some person) ≡ Ok effect →
        (effect.person ≡ record person { retired = true })
        × AreClosed person.code (sessions_after effect.closing person.code sessions) }
    ensures no_password { (person : AnyPerson) (session : AnySession) (code text new : List ℕ)
        (given : Option (List ℕ)) (tick : AnyTick) (sessions : ℕ) (repeated : Option AnySession) →
        person.retired ≡ true →
        AcceptsNone person session code text new given tick sessions repeated }
    ensures no_command { (person : AnyPerson) (caller : List ℕ) (tick : AnyTick)
        (roles : AnyRoles) → person.retired ≡ true →
        AreRefused caller person tick roles NoSuchPerson }
    ensures closed { (closing : AnyClosing) (code new : List ℕ) (person : AnyPerson)
        (session : AnySession) (tick : AnyTick) (moment : ℕ) → session.closed ≡ true →
        StaysClosed session closing code new person tick moment }
{}
