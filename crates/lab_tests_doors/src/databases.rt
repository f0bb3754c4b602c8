//! Databases in memory, and calls without clauses, so that the proof of a test doesn't carry what a
//! connection holds after each.
use lab_store::{FileFault, create};
use sqlite::{Connection, MemStore};
use std::process::Abort;

pub(crate) type File = Connection<MemStore>;

/// A database in memory with what these statements make.
pub(crate) fn database(rt: &(impl Abort + AllocGlobal), statements: &str) -> File {
    let mut conn = Connection::open_in_memory(rt.alloc()).expect(rt, "a database");
    conn.execute_batch(statements).expect(rt, "statements");
    conn
}

pub(crate) fn make(conn: &mut File) -> Result<(), FileFault> {
    if !conn.is_autocommit() {
        return Err(FileFault::Storage);
    }
    create(conn)
}

/// A question shows this text.
pub(crate) fn assert_shown(rt: &impl Abort, conn: &mut File, question: &str, wanted: &str) {
    let row = conn.query_row(question, &[]).expect(rt, question);
    let shown: String = row.get(0).expect(rt, question);
    drop(row);
    assert_eq!(rt; shown.as_str(), wanted);
    drop(shown);
}
