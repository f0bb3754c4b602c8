//! A crowd in brick: 400 persons and 2,000 records more.
use crate::crowd_texts::{
    CROWD_COUNTS, CROWD_ENTRY, CROWD_PERSON, CROWD_RECORD, CROWD_TRAIL, CROWD_TRAIL_BEGINS,
    CROWD_VERSION,
};
use sqlite::{Alter, Connection, Error, params};
use std::alloc::Global;

const PERSONS: u16 = 400;

const RECORDS: u16 = 2_000;

// An id that no row has which was there before.
fn id_of(number: u16) -> i64 {
    7 * i64::from(number) + 10_003
}

fn add_person<S: Alter>(alloc: Global, conn: &mut Connection<S>, number: u16) -> Result<(), Error> {
    let code = format!(in alloc; "p{number}")?;
    conn.execute(CROWD_PERSON, params![id_of(number), code.as_str()])?;
    Ok(())
}

fn add_record<S: Alter>(alloc: Global, conn: &mut Connection<S>, number: u16) -> Result<(), Error> {
    let sample = format!(in alloc; "C{number}")?;
    let id = id_of(number);
    conn.execute(
        CROWD_RECORD,
        params![id, i64::from(number), sample.as_str()],
    )?;
    conn.execute(CROWD_VERSION, params![id, id])?;
    conn.execute(CROWD_ENTRY, params![id, id])?;
    Ok(())
}

fn add_row<S: Alter>(alloc: Global, conn: &mut Connection<S>, number: u16) -> Result<(), Error> {
    let subject = format!(in alloc; "{number}")?;
    let values = params![
        id_of(number),
        CROWD_TRAIL_BEGINS + i64::from(number),
        subject.as_str()
    ];
    conn.execute(CROWD_TRAIL, values)?;
    Ok(())
}

fn add_records<S: Alter>(alloc: Global, conn: &mut Connection<S>) -> Result<(), Error> {
    for number in 1..=RECORDS {
        add_record(alloc, conn, number)?;
        add_row(alloc, conn, number)?;
    }
    Ok(())
}

/// Adds a crowd to brick, in a database whose ids are spread.
///
/// # Errors
/// Those of the database.
pub fn add_crowd<S: Alter>(alloc: Global, conn: &mut Connection<S>) -> Result<(), Error> {
    for number in 1..=PERSONS {
        add_person(alloc, conn, number)?;
    }
    add_records(alloc, conn)?;
    conn.execute(CROWD_COUNTS, params![])?;
    Ok(())
}
