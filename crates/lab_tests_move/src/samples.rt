//! A laboratory that has one of each kind.
use crate::parts::{alone, form, moment, person, record, session, signature, text, told};
use lab_forms_texts::Series;
use lab_people_access::Person;
use lab_records_kept::{Lab, Record};
use std::process::Abort;

// What was asked for the first was asked by the last, who is added behind.
fn persons(rt: &(impl Abort + AllocGlobal)) -> Series<Person> {
    let mut persons = Series::new(rt.alloc());
    persons
        .push(person(rt, "bob", Some("eve")))
        .expect(rt, "bob");
    persons.push(person(rt, "dan", None)).expect(rt, "dan");
    persons.push(person(rt, "eve", None)).expect(rt, "eve");
    persons
}

// The laboratory of that code, in which a session is of this person, with that record.
fn lab_with(rt: &(impl Abort + AllocGlobal), code: &str, worker: &str, record: Record) -> Lab {
    Lab {
        last: moment(rt, 1200),
        strays: 4,
        persons: persons(rt),
        sessions: alone(rt, session(rt, worker)),
        forms: alone(rt, form(rt)),
        records: alone(rt, record),
        trail: alone(rt, told(rt)),
        code: text(rt, code),
        name: text(rt, "Aqua Lab"),
    }
}

/// The laboratory aqua, in which a session is of this person. Its one signature is of another
/// digest.
pub(crate) fn lab(rt: &(impl Abort + AllocGlobal), worker: &str) -> Lab {
    let signatures = alone(rt, signature(rt));
    lab_with(rt, "aqua", worker, record(rt, signatures))
}

/// A laboratory of that code whose one version isn't signed.
pub(crate) fn open_lab(rt: &(impl Abort + AllocGlobal), code: &str) -> Lab {
    let signatures = Series::new(rt.alloc());
    lab_with(rt, code, "dan", record(rt, signatures))
}
