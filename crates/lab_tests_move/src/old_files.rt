//! Files of schema 2 in memory, and laboratories put into them: each is placed in a file of
//! today's, and its rows are carried over without the columns that schema 2 lacks.
use crate::calls::{File, database, made, placed};
use crate::old_texts;
use lab_records_kept::Lab;
use sqlite::types::ValueRef;
use sqlite::{Row, params};
use std::process::Abort;

/// A file of schema 2 without laboratories.
pub(crate) fn old_file(rt: &(impl Abort + AllocGlobal)) -> File {
    database(rt, old_texts::OLD_TABLES)
}

// Adds, or sets, by that statement what the row has.
fn write_row(rt: &(impl Abort + AllocGlobal), to: &mut File, write: &str, row: &Row) {
    let mut values: Vec<ValueRef<'_>> = Vec::new(rt.alloc());
    for at in 0..row.column_count() {
        let value = row.get_ref(at).expect(rt, write);
        values.push(value).expect(rt, "a value");
    }
    to.execute(write, &values).expect(rt, write);
}

// Carries over each row that the question shows.
fn carry(
    rt: &(impl Abort + AllocGlobal),
    from: &mut File,
    to: &mut File,
    apart: i64,
    texts: (&str, &str),
) {
    let rows = from.query_all(texts.0, params![apart]).expect(rt, texts.0);
    for row in &rows {
        write_row(rt, to, texts.1, row);
    }
}

fn carry_people(rt: &(impl Abort + AllocGlobal), from: &mut File, to: &mut File, apart: i64) {
    let labs = (old_texts::READ_LABS, old_texts::WRITE_LABS);
    carry(rt, from, to, apart, labs);
    let persons = (old_texts::READ_PERSONS, old_texts::WRITE_PERSONS);
    carry(rt, from, to, apart, persons);
    let asks = (old_texts::READ_ASKS, old_texts::WRITE_ASKS);
    carry(rt, from, to, apart, asks);
    let sessions = (old_texts::READ_SESSIONS, old_texts::WRITE_SESSIONS);
    carry(rt, from, to, apart, sessions);
    let trail = (old_texts::READ_TRAIL, old_texts::WRITE_TRAIL);
    carry(rt, from, to, apart, trail);
}

fn carry_work(rt: &(impl Abort + AllocGlobal), from: &mut File, to: &mut File, apart: i64) {
    let forms = (old_texts::READ_FORMS, old_texts::WRITE_FORMS);
    carry(rt, from, to, apart, forms);
    let fields = (old_texts::READ_FIELDS, old_texts::WRITE_FIELDS);
    carry(rt, from, to, apart, fields);
    let choices = (old_texts::READ_CHOICES, old_texts::WRITE_CHOICES);
    carry(rt, from, to, apart, choices);
    let records = (old_texts::READ_RECORDS, old_texts::WRITE_RECORDS);
    carry(rt, from, to, apart, records);
    let versions = (old_texts::READ_VERSIONS, old_texts::WRITE_VERSIONS);
    carry(rt, from, to, apart, versions);
    let entries = (old_texts::READ_ENTRIES, old_texts::WRITE_ENTRIES);
    carry(rt, from, to, apart, entries);
    let signatures = (old_texts::READ_SIGNATURES, old_texts::WRITE_SIGNATURES);
    carry(rt, from, to, apart, signatures);
}

/// Puts a laboratory into a file of schema 2, with ids so far behind those that it would have
/// alone. Its versions are of format 1, its forms want no approvals, and its verifiers have 10,000
/// rounds.
pub(crate) fn put(rt: &(impl Abort + AllocGlobal), to: &mut File, lab: &Lab, apart: i64) {
    let mut from = database(rt, "");
    let made = made(&mut from);
    assert_eq!(rt; made, Ok(()));
    let placed = placed(&mut from, lab);
    assert!(rt; placed.is_ok());
    carry_people(rt, &mut from, to, apart);
    carry_work(rt, &mut from, to, apart);
    drop(from);
}
