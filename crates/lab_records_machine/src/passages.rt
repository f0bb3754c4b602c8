//! How far a command in a session gets before it is carried out.
ghost use Rattle.std.specs.Prelude.{◌≡◌};
ghost use Rattle.lab_people_access.specs.Policy.{denial};
ghost use Rattle.lab_records_machine.specs.Machine.{passage, allowed_passage};

use lab_forms_texts::Tick;
use lab_people_access::{Person, Rule, Session, allowed, live};
use lab_records_rules::Refusal;

/// How far a command in a session gets.
#[derive(Drop)]
pub enum Passage {
    /// No open session has the token.
    Stranger,
    /// The session is open, but its person may not give the command.
    Barred(Session, Refusal),
    /// The session is open, and its person may give the command.
    Passes(Session, Person),
}

/// Returns how far a command with a rule gets at a tick, in the session with the token and for its
/// person, if both exist.
pub fn pass(session: Option<Session>, caller: Option<Person>, tick: &Tick, rule: Rule) -> Passage
    ensures { result ≡ passage session caller tick.now.moment rule }
{
    match (session, caller) {
        (Some(session), Some(caller)) => {
            if live(&session, tick).is_err() {
                return Passage::Stranger;
            }
            pass_person(session, caller, tick, rule)
        }
        _ => Passage::Stranger,
    }
}

fn pass_person(session: Session, caller: Person, tick: &Tick, rule: Rule) -> Passage
    ensures { result ≡ allowed_passage session caller (denial caller rule tick.now.moment) }
{
    match allowed(&caller, rule, tick) {
        Ok(()) => Passage::Passes(session, caller),
        Err(refusal) => Passage::Barred(session, Refusal::People(refusal)),
    }
}
