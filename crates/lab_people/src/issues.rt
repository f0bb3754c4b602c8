//! One-time words, of which two administrators each give a person one half.
ghost use Rattle.std.specs.Prelude.{◌≡◌};
ghost use Rattle.lab_seal_hashes.specs.Words.{half_of};
ghost use Rattle.lab_people.specs.Issues.{half_verifier, asking, confirming};

use crate::accounts::person_meant_by;
use lab_forms_texts::{PersonCode, Tick};
use lab_people_access::{Ask, Closing, Password, PeopleRefusal, Person, ROUNDS};
use lab_seal_hashes::{Half, Verifier, salt};

/// A half of a one-time word that was issued.
#[derive(Drop)]
pub struct Issued {
    /// The person who gets the one-time word.
    pub person: Person,
    /// The half. It is returned once and not kept.
    pub half: Half,
    /// Which sessions of the person are closed.
    pub closing: Closing,
}

// The verifier of the written half of a one-time word.
fn verifier_of_half(half: &Half, tick: &Tick) -> Verifier
    requires { half.now ≡ half_of tick.now.words }
    ensures { result ≡ half_verifier tick.now }
{
    Verifier::make(&half.digits(), salt(&tick.words), ROUNDS)
}

/// Asks for a one-time word for a person, who was already looked up, and returns its first half. It
/// replaces what the same caller asked for before, and what is too old to be confirmed.
///
/// # Errors
/// In this order: `NoSuchPerson`, `OwnIssue`, `IssueOpen`.
#[tactic(auto, unfolding(crate::specs::Issues::asking))]
pub fn ask_issue(
    caller: PersonCode,
    person: Option<Person>,
    tick: &Tick,
) -> Result<Issued, PeopleRefusal>
    ensures { result ≡ asking caller person tick.now }
{
    let mut person = person_meant_by(&caller, person)?;
    if let Some(ask) = person.standing_ask(tick.moment)
        && ask.asker != caller
    {
        return Err(PeopleRefusal::IssueOpen);
    }
    let half = Half::from_words(&tick.words);
    person.ask = Some(Ask {
        asker: caller,
        asked: tick.moment,
        first: verifier_of_half(&half, tick),
    });
    Ok(Issued {
        person,
        half,
        closing: Closing::Nothing,
    })
}

/// Confirms what another administrator asked for, and returns the second half. The one-time word
/// replaces the person's password, and all sessions of the person are closed; failed passwords and
/// a lock stay.
///
/// # Errors
/// In this order: `NoSuchPerson`, `OwnIssue`, `NoIssue`, `SamePerson`.
#[tactic(auto, unfolding(crate::specs::Issues::confirming))]
pub fn confirm_issue(
    caller: &PersonCode,
    person: Option<Person>,
    tick: &Tick,
) -> Result<Issued, PeopleRefusal>
    ensures { result ≡ confirming caller.now person tick.now }
{
    let mut person = person_meant_by(caller, person)?;
    let Some(ask) = person.standing_ask(tick.moment) else {
        return Err(PeopleRefusal::NoIssue);
    };
    if ask.asker == *caller {
        return Err(PeopleRefusal::SamePerson);
    }
    let first = ask.first;
    let half = Half::from_words(&tick.words);
    person.password = Password::OneTime {
        first,
        second: verifier_of_half(&half, tick),
        confirmed: tick.moment,
    };
    person.ask = None;
    Ok(Issued {
        person,
        half,
        closing: Closing::All,
    })
}
