//! The parts of a laboratory.
use lab_forms::{Field, Form, Kind};
use lab_forms_texts::{Moment, Ordinal, Series, Text, TextRule};
use lab_people_access::{Ask, Person, Roles, Session};
use lab_records_kept::{
    Action, Digest, EntryRow, EntryRows, FormVersion, Format, Meaning, Origin, Record, Seal,
    Signature, Subject, TrailRow, Version,
};
use lab_seal_hashes::Verifier;
use std::process::Abort;

/// A code, a key, a name, a note or a unit.
pub(crate) fn text<R: TextRule>(rt: &(impl Abort + AllocGlobal), text: &str) -> Text<R> {
    Text::parse(rt.alloc(), text).expect(rt, "a text that its rule admits")
}

/// This number of seconds.
pub(crate) fn moment(rt: &impl Abort, seconds: i64) -> Moment {
    Moment::from_seconds(seconds).expect(rt, "a moment")
}

/// A list of one.
pub(crate) fn alone<T: Drop>(rt: &(impl Abort + AllocGlobal), one: T) -> Series<T> {
    let mut list = Series::new(rt.alloc());
    list.push(one).expect(rt, "one");
    list
}

/// A person, for whom the asker asked for a one-time word where there is an asker.
pub(crate) fn person(rt: &(impl Abort + AllocGlobal), code: &str, asker: Option<&str>) -> Person {
    let ask = match asker {
        Some(asker) => Some(Ask {
            asked: moment(rt, 900),
            first: Verifier::from_parts([7; 16], 10_000, [8; 32]),
            asker: text(rt, asker),
        }),
        None => None,
    };
    let mut person = Person::newcomer(text(rt, code), text(rt, "Somebody"), Roles::none());
    person.ask = ask;
    person
}

/// The first session, of the person.
pub(crate) fn session(rt: &(impl Abort + AllocGlobal), person: &str) -> Session {
    Session {
        number: Ordinal::FIRST,
        token: Digest::from_bytes([1; 32]),
        opened: moment(rt, 1000),
        last: moment(rt, 1100),
        closed: false,
        signed: true,
        person: text(rt, person),
    }
}

/// A form of one number.
pub(crate) fn form(rt: &(impl Abort + AllocGlobal)) -> FormVersion {
    let mut fields = Vec::new(rt.alloc());
    let field = Field {
        required: true,
        kind: Kind::Number {
            decimals: 2,
            min: None,
            max: None,
            unit: text(rt, "mg/L"),
        },
        key: text(rt, "lead"),
        label: text(rt, "Lead"),
    };
    fields.push(field).expect(rt, "a field");
    FormVersion {
        version: Ordinal::FIRST,
        form: Form::make(fields, false).expect(rt, "a form"),
        code: text(rt, "water"),
    }
}

fn entry(rt: &(impl Abort + AllocGlobal)) -> EntryRow {
    EntryRow {
        moment: moment(rt, 1100),
        reason: None,
        key: text(rt, "lead"),
        value: text(rt, "7.50"),
        unit: text(rt, "mg/L"),
        person: text(rt, "dan"),
    }
}

/// A signature of another digest than the version's.
pub(crate) fn signature(rt: &(impl Abort + AllocGlobal)) -> Signature {
    Signature {
        meaning: Meaning::Authorship,
        moment: moment(rt, 1200),
        digest: Digest::from_bytes([2; 32]),
        seal: Seal::from_bytes([3; 32]),
        person: text(rt, "dan"),
        name: text(rt, "Dan Smith"),
    }
}

fn version(rt: &(impl Abort + AllocGlobal), signatures: Series<Signature>) -> Version {
    let mut rows = Vec::new(rt.alloc());
    rows.push(entry(rt)).expect(rt, "a row");
    Version {
        format: Format::One,
        origin: Origin::first(),
        opened: moment(rt, 1050),
        rows: EntryRows::new(rows),
        signatures,
        opener: text(rt, "dan"),
    }
}

/// The first record, of one version with one row and these signatures.
pub(crate) fn record(rt: &(impl Abort + AllocGlobal), signatures: Series<Signature>) -> Record {
    Record {
        number: Ordinal::FIRST,
        form: form(rt),
        sample: text(rt, "S1"),
        versions: alone(rt, version(rt, signatures)),
    }
}

/// The first row of the trail.
pub(crate) fn told(rt: &(impl Abort + AllocGlobal)) -> TrailRow {
    let subject = String::from_str(rt.alloc(), "aqua").expect(rt, "a subject");
    TrailRow {
        number: Ordinal::FIRST,
        moment: moment(rt, 500),
        person: None,
        action: Action::Found,
        subject: Subject::new(subject),
    }
}
