//! Copies of persons, of what was asked for them, and of sessions: the calls on these take no memory. Each has its arguments
//! made for it alone, so that running out of memory stops one call and no other.

use crate::results::print_made;
use crate::sample_results::{both, made_of, text};
use anyhow::{Context, Result};
use lab_forms_texts::{Moment, PersonCodes, Tick};
use lab_people::{Ask, Opened, Password, Person, Roles, Session, Verifier, enrol, open_session};
use std::alloc::Global;
use std::io::{self, Print};

const PASSWORD: &str = "dan password 1";

// The rounds of the verifiers here: so few that each growth is refused in no time.
const ROUNDS: u32 = 2;

/// Makes each copy once, and prints for each the code of its person, or the word of its fault.
pub(crate) fn print_person_growths(rt: &impl Print, alloc: Global) -> io::Result<()> {
    print_made(rt, copied_person(alloc), |dan| dan.code.as_str())?;
    print_made(rt, copied_ask(alloc), |ask| ask.asker.as_str())?;
    print_made(rt, copied_session(alloc), |session| session.person.as_str())
}

fn tick() -> Result<Tick> {
    Ok(Tick {
        moment: Moment::from_seconds(900)?,
        words: [1, 2, 3, 4, 5, 6, 7, 8],
    })
}

fn verifier(text: &str) -> Verifier {
    Verifier::make(text.as_bytes(), [7; 16], ROUNDS)
}

fn person(alloc: Global) -> Result<Person> {
    let changed = Moment::from_seconds(500)?;
    let (code, name) = both(text(alloc, "dan"), text(alloc, "Dan Dorn"))?;
    let mut newcomer = enrol(code, name, Roles::none(), None, 3)?;
    newcomer.password = Password::Chosen {
        verifier: verifier(PASSWORD),
        changed,
    };
    Ok(newcomer)
}

fn opened(alloc: Global) -> Result<Opened> {
    let tick = tick()?;
    let (dan, code) = both(person(alloc), text(alloc, "dan"))?;
    Ok(open_session(code, Some(dan), PASSWORD, &tick, 0, None)?)
}

// A person for whom a one-time password was asked.
fn asked(alloc: Global) -> Result<Person> {
    let asked = Moment::from_seconds(900)?;
    let (mut dan, asker) = both(person(alloc), text(alloc, "ann"))?;
    dan.ask = Some(Ask {
        asker,
        asked,
        first: verifier("half"),
    });
    Ok(dan)
}

fn copied_person(alloc: Global) -> Result<Person> {
    made_of(asked(alloc), |dan| dan.copy())
}

fn copied_ask(alloc: Global) -> Result<Ask> {
    let dan = asked(alloc)?;
    ask_of(&dan)
}

fn ask_of(person: &Person) -> Result<Ask> {
    Ok(person.ask.as_ref().context("an ask")?.copy()?)
}

fn copied_session(alloc: Global) -> Result<Session> {
    made_of(opened(alloc), |opened| opened.session.copy())
}
