//! Calls without clauses, so that the proof of a test doesn't carry what a connection holds after
//! each.
use lab_move::{MoveEnd, MoveFault, Unwatched, migrate, open_old};
use lab_move_write::{finish, make_tables, place_lab};
use lab_records_keeper::{BadStore, KeeperFault};
use lab_records_kept::Lab;
use lab_store_files::{FileFault, open};
use sqlite::{Connection, MemStore};
use std::process::Abort;

pub(crate) type File = Connection<MemStore>;

/// A database in memory with what these statements make.
pub(crate) fn database(rt: &(impl Abort + AllocGlobal), statements: &str) -> File {
    let mut conn = Connection::open_in_memory(rt.alloc()).expect(rt, "a database");
    conn.execute_batch(statements).expect(rt, "statements");
    conn
}

pub(crate) fn made(conn: &mut File) -> Result<(), FileFault> {
    if !conn.is_autocommit() {
        return Err(FileFault::Storage);
    }
    make_tables(conn)
}

pub(crate) fn placed(conn: &mut File, lab: &Lab) -> Result<(), KeeperFault> {
    if !conn.is_autocommit() {
        return Err(KeeperFault::Refused(BadStore));
    }
    place_lab(conn, lab, &mut Unwatched)
}

pub(crate) fn finished(conn: &mut File) -> Result<(), KeeperFault> {
    if !conn.is_autocommit() {
        return Err(KeeperFault::Refused(BadStore));
    }
    finish(conn)
}

pub(crate) fn opened(conn: &mut File) -> Result<(), FileFault> {
    open(conn)
}

pub(crate) fn moved(
    rt: &(impl Abort + AllocGlobal),
    conn: File,
    new: &mut File,
) -> Result<u64, MoveFault> {
    let old = match open_old(conn) {
        Ok(file) => file,
        Err(unopened) => return Err(MoveFault::File(unopened.fault)),
    };
    if !new.is_autocommit() {
        return Err(MoveFault::File(FileFault::Storage));
    }
    let MoveEnd { ending, left: _ } = migrate(rt.alloc(), old, new, &mut Unwatched);
    ending
}

/// The text that a question shows.
pub(crate) fn shown(rt: &impl Abort, conn: &mut File, question: &str) -> String {
    let row = conn.query_row(question, &[]).expect(rt, question);
    let shown = row.get(0).expect(rt, question);
    drop(row);
    shown
}

/// A question shows this text.
pub(crate) fn assert_shown(rt: &impl Abort, conn: &mut File, question: &str, wanted: &str) {
    let shown = shown(rt, conn, question);
    assert_eq!(rt; shown.as_str(), wanted);
    drop(shown);
}
