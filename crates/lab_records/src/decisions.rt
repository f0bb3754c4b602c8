//! What is decided on a part of a laboratory.
ghost use Rattle.std.specs.Prelude.{◌≡◌, [], None, false, IfOk, IsTrue, OnErr};
ghost use Rattle.lab_records_laws.specs.Asking.{IsCommandFormed};
ghost use Rattle.lab_people_access.specs.Sessions.{touched_session};
ghost use Rattle.lab_records_machine.specs.Done.{done_of};
ghost use Rattle.lab_records_machine.specs.Machine.{passage};
ghost use Rattle.lab_records_machine.specs.Policy.{rule_of};
ghost use Rattle.lab_records_laws.specs.Deciding.{outcome, end_on, is_noted, noted_end, decided_in, decided_by, decided};
ghost use Rattle.lab_records.specs.Makings.{is_made_in, is_made_by, is_made};
ghost use Rattle.lab_records.specs.Private.Makings.{MakesInSession};

use crate::{done_of, opening_done};
use lab_forms_texts::{Moment, OutOfMemory, PersonCode, Series, Tick};
use lab_people_access::{PeopleRefusal, Person, Session};
use lab_records_kept::Slice;
use lab_records_laws::{Outcome, end, failed_opening, made_opening, noted_end, refusal_outcome};
use lab_records_machine::{Command, Done, Passage, RecordCommand, Reply, SessionCommand, pass};
use lab_records_rules::{Refusal, Typed};
use std::alloc::Global;

/// Decides a command at a tick, on the part of a laboratory that the command needs, and returns the
/// reply and the changes, in order. Fails only if memory runs out, and only if something is made: a
/// refusal that notes nothing is always returned. If the command makes a form, the form is well
/// formed, as `what_is_decided` wants it.
///
/// # Errors
/// Memory ran out.
pub fn decide(
    alloc: Global,
    slice: Slice,
    tick: &Tick,
    command: Command,
) -> Result<Outcome, OutOfMemory>
    ensures decided { IfOk result (λ outcome. outcome ≡ decided slice tick.now command) }
    ensures memory { OnErr result (IsTrue (is_made slice tick.now command)) }
    ensures formed { IsCommandFormed command }
{
    command_is_formed(&command);
    if tick.moment < slice.last {
        drop(slice);
        drop(command);
        return Ok(refusal_outcome(Series::new(alloc), Refusal::ClockBehind));
    }
    let mut slice = slice;
    let outcome = decide_by(alloc, &mut slice, tick, command);
    drop(slice);
    outcome
}

/// Law: the form that a command makes is well formed, as every form of the code is. The command is
/// left as it is.
pub fn command_is_formed(command: &Command)
    ensures { IsCommandFormed command.now }
{
    if let Command::In(SessionCommand::OnRecord(RecordCommand::MakeForm { form, .. })) = command {
        let _fields = form.fields();
    }
}

// Decides a command, if the moment of the tick isn't before the last one. The contract doesn't say
// what is left of the part.
fn decide_by(
    alloc: Global,
    slice: &mut Slice,
    tick: &Tick,
    command: Command,
) -> Result<Outcome, OutOfMemory>
    ensures decided { IfOk result (λ outcome. outcome ≡ decided_by slice.old tick.now command) }
    ensures memory { OnErr result (IsTrue (is_made_by slice.old tick.now command)) }
{
    match command {
        Command::Card => show_card(alloc, slice),
        Command::Open { code, password } => {
            let outcome = decide_opening(alloc, slice, tick, code, &password);
            drop(password);
            outcome
        }
        Command::In(command) => decide_in(alloc, slice, tick, command),
    }
}

// Who gives the command: the session of the token, and the person of the session, if both exist.
#[derive(Drop)]
struct Comer {
    session: Option<Session>,
    caller: Option<Person>,
}

// Takes the session and the person of the session out of a part.
fn take_comer(slice: &mut Slice) -> Comer
    ensures taken { result ≡ record { session = slice.old.session; caller = slice.old.caller } }
    ensures left { slice.new ≡ record slice.old { session = None; caller = None } }
{
    Comer {
        session: slice.session.take(),
        caller: slice.caller.take(),
    }
}

// Decides a command in a session.
#[tactic(auto, using(crate::proofs::Taken::same_decided))]
fn decide_in(
    alloc: Global,
    slice: &mut Slice,
    tick: &Tick,
    command: SessionCommand,
) -> Result<Outcome, OutOfMemory>
    ensures decided { IfOk result (λ outcome. outcome ≡ decided_in slice.old tick.now command
        (passage slice.old.session slice.old.caller tick.now.moment (rule_of command))) }
    ensures memory { OnErr result (IsTrue (is_made_in slice.old.last tick.now.moment
        (passage slice.old.session slice.old.caller tick.now.moment (rule_of command)))) }
{
    let comer = take_comer(slice);
    let reached = pass(comer.session, comer.caller, tick, command.rule());
    decide_passed(alloc, slice, tick, command, reached)
}

// Decides a command in a session, depending on how far the command gets.
fn decide_passed(
    alloc: Global,
    slice: &mut Slice,
    tick: &Tick,
    command: SessionCommand,
    reached: Passage,
) -> Result<Outcome, OutOfMemory>
    ensures decided { IfOk result
        (λ outcome. outcome ≡ decided_in slice.old tick.now command reached) }
    ensures memory { OnErr result (IsTrue (is_made_in slice.old.last tick.now.moment reached)) }
{
    match reached {
        Passage::Stranger => {
            drop(command);
            let refusal = Refusal::People(PeopleRefusal::NoSession);
            Ok(refusal_outcome(Series::new(alloc), refusal))
        }
        Passage::Barred(session, refusal) => {
            drop(command);
            barred_outcome(alloc, slice.last, tick.moment, session, refusal)
        }
        Passage::Passes(session, caller) => {
            let outcome = decide_allowed(alloc, slice, tick, session, &caller, command);
            drop(caller);
            outcome
        }
    }
}

// Refuses a command that its session may not give. The request is noted, if it isn't already noted.
// Fails only if memory runs out, and only if the request is noted.
fn barred_outcome(
    alloc: Global,
    last: Moment,
    moment: Moment,
    session: Session,
    refusal: Refusal,
) -> Result<Outcome, OutOfMemory>
    ensures told { IfOk result (λ told. told
        ≡ noted_end last moment session (outcome (Reply.Refused refusal) [])) }
    ensures memory { OnErr result (is_noted last moment session [] ≡ false) }
{
    let refused = refusal_outcome(Series::new(alloc), refusal);
    noted_end(alloc, last, moment, session, refused)
}

// Replies with the card, whose code and name are always copied. Fails only if memory runs out.
fn show_card(alloc: Global, slice: &Slice) -> Result<Outcome, OutOfMemory>
    ensures { IfOk result
        (λ shown. shown ≡ outcome (Reply.Card slice.now.code slice.now.name) []) }
{
    let lab = slice.code.copy()?;
    let name = slice.name.copy()?;
    Ok(Outcome {
        reply: Reply::Card { lab, name },
        changes: Series::new(alloc),
    })
}

// Decides an opening: its moment is noted if it is accepted, and if the password fails. The code is
// copied for the trail; if there is no memory for the copy, that is a fault only if the opening is
// accepted.
#[tactic(auto, using(crate::proofs::Taken::opened_is_made))]
fn decide_opening(
    alloc: Global,
    slice: &mut Slice,
    tick: &Tick,
    code: PersonCode,
    password: &Typed,
) -> Result<Outcome, OutOfMemory>
    ensures decided { IfOk result
        (λ outcome. outcome ≡ decided_by slice.old tick.now (Command.Open code password.now)) }
    ensures memory { OnErr result
        (IsTrue (is_made_by slice.old tick.now (Command.Open code password.now))) }
{
    let moment = tick.moment;
    let rows = slice.counts.trail;
    let sessions = slice.counts.sessions;
    let told = code.copy();
    let person = slice.person.take();
    let repeated = &slice.session;
    match opening_done(alloc, code, person, password, tick, sessions, repeated)? {
        Done::Refused(refusal) => Ok(refusal_outcome(Series::new(alloc), refusal)),
        Done::Failed(occasion, failure) => {
            failed_opening(alloc, rows, slice.strays, moment, occasion, failure)
        }
        Done::Read(reply) => Ok(Outcome {
            reply,
            changes: Series::new(alloc),
        }),
        Done::Made(reply, deed, own) => {
            made_opening(alloc, rows, moment, &told?, reply, deed, own)
        }
    }
}

// What a command in a session gets: the session after its request, and the person of the session.
struct Arrival {
    session: Session,
    caller: Person,
}

// Decides a command that its session may give: the request is noted before the other changes. The
// session and the person are always copied. Fails only if memory runs out.
fn decide_allowed(
    alloc: Global,
    slice: &mut Slice,
    tick: &Tick,
    session: Session,
    caller: &Person,
    command: SessionCommand,
) -> Result<Outcome, OutOfMemory>
    ensures { IfOk result (λ outcome. outcome
        ≡ decided_in slice.old tick.now command (Passage.Passes session caller.now)) }
{
    let last = slice.last;
    let Ok(arrival) = arrival_of(tick.moment, &session, caller) else {
        drop(session);
        drop(command);
        return Err(OutOfMemory);
    };
    match decide_touched(alloc, slice, tick, &caller.code, arrival, command) {
        Ok(ended) => noted_end(alloc, last, tick.moment, session, ended),
        Err(fault) => {
            drop(session);
            Err(fault)
        }
    }
}

// The session after a request at the moment, and the person of the session. Both are always copied.
// Fails only if memory runs out.
fn arrival_of(moment: Moment, session: &Session, caller: &Person) -> Result<Arrival, OutOfMemory>
    ensures { IfOk result (λ arrived. arrived
        ≡ record { session = touched_session moment session.now; caller = caller.now }) }
{
    let mut session = session.copy()?;
    session.touch(moment);
    match caller.copy() {
        Ok(caller) => Ok(Arrival { session, caller }),
        Err(fault) => {
            drop(session);
            Err(fault)
        }
    }
}

// Decides a command in a session that already has the moment of its request, without the note of
// the request. Fails only if memory runs out, and only if the command makes something, or if its
// result is written: a refusal is always returned.
fn decide_touched(
    alloc: Global,
    slice: &mut Slice,
    tick: &Tick,
    giver: &PersonCode,
    arrival: Arrival,
    command: SessionCommand,
) -> Result<Outcome, OutOfMemory>
    ensures decided { IfOk result (λ outcome. outcome
        ≡ end_on slice.old tick.now.moment giver.now
        (done_of slice.old tick.now arrival.session arrival.caller command)) }
    ensures memory { OnErr result
        (MakesInSession slice.old tick.now arrival.session arrival.caller command) }
{
    let Arrival { session, caller } = arrival;
    let rows = slice.counts.trail;
    let strays = slice.strays;
    match done_of(alloc, slice, tick, session, caller, command) {
        Ok(done) => end(alloc, rows, strays, tick.moment, giver, done),
        Err(fault) => Err(fault),
    }
}
