//! One session of a person, and which sessions a change of the account closes.
ghost use Rattle.std.specs.Prelude.{◌≡◌, true, false, IfOk, OnOk, IfErr};
ghost use Rattle.lab_people_access.specs.declared.refusals.PeopleRefusal.TheVariants.{NoSession};
ghost use Rattle.lab_people_access.specs.Sessions.{is_live, is_closed_by, touched_session, closed_session, signed_session};

use crate::refusals::PeopleRefusal;
use crate::times::seconds_since;
use lab_forms_texts::{Moment, Ordinal, OutOfMemory, PersonCode, Tick};
use lab_seal_hashes::Digest;
use std::alloc::AllocError;

/// The most seconds that a session stays open after its last request.
pub const REST_SPAN: u64 = 900;

/// The most seconds that a session stays open after its opening.
pub const SECONDS_OF_SESSION: u64 = 28_800;

/// One continuous period in which a person works.
#[derive(Debug)]
pub struct Session {
    /// The session's number in the laboratory.
    pub number: Ordinal,
    /// Whose session it is.
    pub person: PersonCode,
    /// The SHA-256 digest of the session's token, with which requests name the session.
    pub token: Digest,
    /// When the session was opened.
    pub opened: Moment,
    /// When the last request in the session came.
    pub last: Moment,
    /// Whether the session was closed.
    pub closed: bool,
    /// Whether the person signed in the session, so that the code needn't be given again.
    pub signed: bool,
}

// `drop` is written out, so that a caller doesn't prove again how each part is dropped.
impl Drop for Session {
    fn drop(self) {
        let Session {
            number: _,
            person: _,
            token: _,
            opened: _,
            last: _,
            closed: _,
            signed: _,
        } = self;
    }
}

impl Session {
    /// Returns a copy. The only error is that memory ran out.
    ///
    /// # Errors
    /// Memory ran out.
    pub fn copy(&self) -> Result<Session, OutOfMemory>
        ensures { IfOk result (λ copy. copy ≡ self.now) }
    {
        Ok(self.clone()?)
    }

    // Whether the session is open at the moment: not closed, and within both times.
    fn is_live(&self, moment: Moment) -> bool
        ensures { result ≡ is_live self.now moment }
    {
        !self.closed
            && seconds_since(self.last, moment) <= REST_SPAN
            && seconds_since(self.opened, moment) <= SECONDS_OF_SESSION
    }

    /// Notes a request at the moment.
    pub fn touch(&mut self, moment: Moment)
        ensures { self.new ≡ touched_session moment self.old }
    {
        self.last = moment;
    }

    /// Closes the session.
    pub fn close(&mut self)
        ensures { self.new ≡ closed_session self.old }
    {
        self.closed = true;
    }

    /// Notes an accepted signature.
    pub fn mark_signed(&mut self)
        ensures { self.new ≡ signed_session self.old }
    {
        self.signed = true;
    }
}

impl Clone for Session {
    ghost use Rattle.std.specs.Prelude.{◌≡◌};

    ghost is_clone = { λ session copy. copy ≡ session };

    fn clone(&self) -> Result<Session, AllocError> {
        let person = self.person.clone()?;
        Ok(Session {
            number: self.number,
            person,
            token: self.token,
            opened: self.opened,
            last: self.last,
            closed: self.closed,
            signed: self.signed,
        })
    }
}

/// Which sessions of a person a change of the account closes.
#[derive(Clone, Copy, Debug, PartialEq, Eq)]
pub enum Closing {
    /// No session.
    Nothing,
    /// All sessions of the person.
    All,
    /// All sessions of the person except the one with this number.
    Others(Ordinal),
}

impl Closing {
    /// Whether the session is closed, for a person with this code.
    pub fn closes(&self, person: &PersonCode, session: &Session) -> bool
        ensures { result ≡ is_closed_by self.now person.now session.now }
    {
        match self {
            Closing::Nothing => false,
            Closing::All => session.person == *person,
            Closing::Others(number) => session.person == *person && session.number != *number,
        }
    }
}

/// Lets a session be used at a tick, or refuses. It takes no memory.
///
/// # Errors
/// `NoSession` if the session is closed or its time has passed.
pub fn live(session: &Session, tick: &Tick) -> Result<(), PeopleRefusal>
    ensures live { OnOk result (is_live session.now tick.now.moment ≡ true) }
    ensures refused { IfErr result (λ refusal.
        (refusal ≡ NoSession) × (is_live session.now tick.now.moment ≡ false)) }
{
    if session.is_live(tick.moment) {
        Ok(())
    } else {
        Err(PeopleRefusal::NoSession)
    }
}
