//! How sessions are opened.
ghost use Rattle.std.specs.Prelude.{◌≡◌, option_copied};
ghost use Rattle.lab_people_access.specs.Openings.{opening};

use crate::attempts::attempt;
use crate::persons::Person;
use crate::refusals::{PeopleFault, PeopleRefusal};
use crate::sessions::Session;
use lab_forms_texts::{Ordinal, PersonCode, Tick};
use lab_seal_hashes::Token;

/// A session that was just opened.
#[derive(Drop)]
pub struct Opened {
    /// The person, without failed passwords.
    pub person: Person,
    /// The new session.
    pub session: Session,
    /// The token of the session. It is returned once and not kept.
    pub token: Token,
    /// Whether the person's password was due to be changed at the opening.
    pub due: bool,
}

/// Opens a session with a code, with which the person was looked up, and a password. `sessions` is
/// how many session numbers the laboratory has used, and `repeated` is the session that already has
/// the token of the tick, if there is one.
///
/// # Errors
/// In this order: `Failed`, `RandomRepeated`, `LabFull`.
#[tactic(auto, unfolding(crate::specs::Openings::opening))]
pub fn open_session(
    code: PersonCode,
    person: Option<Person>,
    password: &str,
    tick: &Tick,
    sessions: u32,
    repeated: Option<&Session>,
) -> Result<Opened, PeopleFault>
    ensures { result ≡ opening code person password.now tick.now sessions
        (option_copied repeated.entry) }
{
    let person = attempt(person, password, tick.moment)?;
    if repeated.is_some() {
        return Err(PeopleRefusal::RandomRepeated.into());
    }
    let Some(number) = Ordinal::after(sessions) else {
        return Err(PeopleRefusal::LabFull.into());
    };
    let token = Token::from_words(&tick.words);
    let session = Session {
        number,
        person: code,
        token: token.digest(),
        opened: tick.moment,
        last: tick.moment,
        closed: false,
        signed: false,
    };
    let due = person.password.is_due(tick.moment);
    Ok(Opened {
        person,
        session,
        token,
        due,
    })
}
