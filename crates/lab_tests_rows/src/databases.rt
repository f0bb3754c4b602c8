//! Databases with the rows of laboratories, and what they say. Calls stand in functions without
//! clauses, so that the proof of a test doesn't carry what a connection holds after each.
use crate::questions::{COUNTS, QUESTIONS};
use itoa::Buffer;
use lab_seal_hashes::digest;
use lab_store_files::{FileFault, create};
use sqlite::types::ValueRef;
use sqlite::{Alter, Connection, Error, MemStore, Row, params};
use std::alloc::{AllocError, Global};

/// What stands in front of the number of an id: nothing.
pub const PLAIN: &str = "";

/// What stands in front of the number of an id: what makes it seven times that, and three.
pub const SPREAD: &str = "3+7*";

// The codes of laboratories of which the tables are asked. The last is none's.
const CODES: [&str; 3] = ["aqua", "brick", "cider"];

// The statements that put rows in, with ids of that kind.
fn statements(alloc: Global, rows: &str, ids: &str) -> Result<String, AllocError> {
    let mut told = String::new(alloc);
    for letter in rows.chars() {
        if letter == '#' {
            told.push_str(ids)?;
        } else {
            told.push(letter)?;
        }
    }
    Ok(told)
}

/// Makes the tables of a file of laboratories.
///
/// # Errors
/// Those of making a file.
pub fn make<S: Alter>(conn: &mut Connection<S>) -> Result<(), FileFault> {
    if !conn.is_autocommit() {
        return Err(FileFault::Storage);
    }
    create(conn)
}

// Puts rows in, with ids of that kind.
fn fill<S: Alter>(
    alloc: Global,
    conn: &mut Connection<S>,
    rows: &str,
    ids: &str,
) -> Result<(), Error> {
    let statements = statements(alloc, rows, ids)?;
    let filled = conn.execute_batch(statements.as_str());
    drop(statements);
    filled
}

/// A database in memory with the tables of a file of laboratories, and in them rows, one text
/// after the other, with ids of that kind; none where that failed.
pub fn database(alloc: Global, rows: &[&str], ids: &str) -> Option<Connection<MemStore>> {
    let mut conn = Connection::open_in_memory(alloc).ok()?;
    make(&mut conn).ok()?;
    fill_each(alloc, &mut conn, rows, ids).ok()?;
    Some(conn)
}

/// Puts rows in, one text after the other, with ids of that kind.
///
/// # Errors
/// Those of the database.
pub fn fill_each<S: Alter>(
    alloc: Global,
    conn: &mut Connection<S>,
    rows: &[&str],
    ids: &str,
) -> Result<(), Error> {
    for text in rows {
        fill(alloc, conn, *text, ids)?;
    }
    Ok(())
}

fn push_number(text: &mut Vec<u8>, number: i64) -> Result<(), AllocError> {
    let mut buffer = Buffer::new();
    text.extend_from_slice(buffer.format(number).as_bytes())
}

fn push_value(text: &mut Vec<u8>, value: ValueRef<'_>) -> Result<(), AllocError> {
    match value {
        ValueRef::Null => text.extend_from_slice(b"-"),
        ValueRef::Int(number) => push_number(text, number),
        ValueRef::Real(_) => text.extend_from_slice(b"real"),
        ValueRef::Text(bytes) => text.extend_from_slice(bytes),
        ValueRef::Blob(bytes) => push_digits(text, bytes),
    }
}

fn push_digits(text: &mut Vec<u8>, bytes: &[u8]) -> Result<(), AllocError> {
    let digits = hex::encode(*text.allocator(), bytes)?;
    text.extend_from_slice(digits.as_bytes())
}

// A line with the values of a row.
fn push_row(text: &mut Vec<u8>, row: &Row) -> Result<(), AllocError> {
    for at in 0..row.column_count() {
        if let Ok(value) = row.get_ref(at) {
            push_value(text, value)?;
            text.push(b'|')?;
        }
    }
    text.push(b'\n')?;
    Ok(())
}

fn push_rows(text: &mut Vec<u8>, rows: &[Row]) -> Result<(), AllocError> {
    for row in rows {
        push_row(text, row)?;
    }
    Ok(())
}

// What a question about a laboratory shows, a line for each row.
fn push_answer<S: Alter>(
    conn: &mut Connection<S>,
    (question, code): (&str, &str),
    text: &mut Vec<u8>,
) -> Result<(), Error> {
    let rows = conn.query_all(question, params![code])?;
    push_rows(text, rows.as_slice())?;
    Ok(())
}

fn push_answers<S: Alter>(
    conn: &mut Connection<S>,
    (questions, code): (&[&str], &str),
    text: &mut Vec<u8>,
) -> Result<(), Error> {
    for question in questions {
        push_answer(conn, (*question, code), text)?;
    }
    Ok(())
}

// All that the tables say, without an id.
fn push_all<S: Alter>(conn: &mut Connection<S>, text: &mut Vec<u8>) -> Result<(), Error> {
    for code in CODES {
        push_answers(conn, (QUESTIONS.as_slice(), code), text)?;
    }
    push_answers(conn, (COUNTS.as_slice(), "all"), text)
}

/// The digest of all that the tables say, without an id.
///
/// # Errors
/// Those of the database.
pub fn said<S: Alter>(alloc: Global, conn: &mut Connection<S>) -> Result<[u8; 64], Error> {
    let mut text = Vec::new(alloc);
    push_all(conn, &mut text)?;
    Ok(digest(&text).digits())
}

/// The digest of what the tables say of one laboratory, without an id.
///
/// # Errors
/// Those of the database.
pub fn said_of<S: Alter>(
    alloc: Global,
    conn: &mut Connection<S>,
    code: &str,
) -> Result<[u8; 64], Error> {
    let mut text = Vec::new(alloc);
    push_answers(conn, (QUESTIONS.as_slice(), code), &mut text)?;
    Ok(digest(&text).digits())
}
