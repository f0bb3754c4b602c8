//! What a laboratory and changes are made of.
use lab_forms_texts::{Text, TextRule};
use lab_records_kept::{
    Action, Change, Closing, Digest, Moment, Newborn, Ordinal, Person, Role, Roles, Series,
    Session, Subject, TrailRow,
};
use std::process::Abort;

// A code or a name.
pub(crate) fn text<R: TextRule>(rt: &(impl Abort + AllocGlobal), text: &str) -> Text<R> {
    Text::parse(rt.alloc(), text).expect(rt, "a text that its rule admits")
}

pub(crate) fn moment(rt: &impl Abort, seconds: i64) -> Moment {
    Moment::from_seconds(seconds).expect(rt, "a moment")
}

fn person(rt: &(impl Abort + AllocGlobal), code: &str, name: &str, roles: Roles) -> Person {
    Person::newcomer(text(rt, code), text(rt, name), roles)
}

fn ann(rt: &(impl Abort + AllocGlobal)) -> Person {
    let mut ann = person(rt, "ann", "Ann Roe", Roles::none().with(Role::Analyst));
    ann.failures = 1;
    ann
}

fn cid(rt: &(impl Abort + AllocGlobal)) -> Person {
    let roles = Roles::none().with(Role::Reviewer).with(Role::Inspector);
    let mut cid = person(rt, "cid", "Cid Lee", roles);
    cid.failures = 4;
    cid
}

fn dan(rt: &(impl Abort + AllocGlobal)) -> Person {
    let mut dan = person(rt, "dan", "Dan Poe", Roles::none().with(Role::Manager));
    dan.retired = true;
    dan
}

fn eve(rt: &(impl Abort + AllocGlobal)) -> Person {
    let mut eve = person(rt, "eve", "Eve Ng", Roles::none().with(Role::Administrator));
    eve.failures = 5;
    eve.locked = Some(moment(rt, 450));
    eve
}

/// The laboratory aqua, whose founders come in another order than that of their codes.
pub(crate) fn newborn(rt: &(impl Abort + AllocGlobal), name: &str) -> Newborn {
    Newborn {
        moment: moment(rt, 500),
        code: text(rt, "aqua"),
        name: text(rt, name),
        first: eve(rt),
        second: ann(rt),
        third: dan(rt),
    }
}

/// The digest of a token.
pub(crate) fn token() -> Digest {
    Digest::from_bytes([7; 32])
}

// The first session, of ann.
fn session(rt: &(impl Abort + AllocGlobal), last: i64, signed: bool) -> Session {
    Session {
        number: Ordinal::FIRST,
        person: text(rt, "ann"),
        token: token(),
        opened: moment(rt, 1000),
        last: moment(rt, last),
        closed: false,
        signed,
    }
}

// The second row of the trail tells that eve enrolled cid.
fn enrolment(rt: &(impl Abort + AllocGlobal)) -> TrailRow {
    let subject = String::from_str(rt.alloc(), "cid reviewer inspector").expect(rt, "memory");
    TrailRow {
        number: Ordinal::new(2).expect(rt, "an ordinal"),
        moment: moment(rt, 900),
        person: Some(text(rt, "eve")),
        action: Action::Enrol,
        subject: Subject::new(subject),
    }
}

// cid as one who has left.
fn left(rt: &(impl Abort + AllocGlobal)) -> Person {
    let mut left = cid(rt);
    left.retired = true;
    left
}

/// A later moment, four strays, a person who comes and leaves, a session in which something is
/// signed, and which is closed, and a row of the trail.
pub(crate) fn changes(rt: &(impl Abort + AllocGlobal)) -> Series<Change> {
    let mut changes = Series::new(rt.alloc());
    for change in [
        Change::Last(moment(rt, 1200)),
        Change::Strays(4),
        Change::PersonAdded(cid(rt)),
        Change::PersonSet(left(rt)),
        Change::SessionAdded(session(rt, 1000, false)),
        Change::SessionSet(session(rt, 1150, true)),
        Change::SessionsClosed {
            person: text(rt, "ann"),
            closing: Closing::All,
        },
        Change::TrailAdded(enrolment(rt)),
    ] {
        changes.push(change).expect(rt, "memory");
    }
    changes
}
