//! Where a file is made beside other tables, and what stays.
use crate::databases::{assert_shown, database, make};
use lab_store::FileFault;

#[test]
fn a_file_is_made_beside_a_table_of_another_name(rt: HostRuntime) {
    let statements = "CREATE TABLE note (x TEXT); INSERT INTO note VALUES ('kept')";
    let mut conn = database(&rt, statements);
    let made = make(&mut conn);
    assert_eq!(rt; made, Ok(()));
    let notes = "SELECT group_concat(x) FROM note";
    assert_shown(&rt, &mut conn, notes, "kept");
    let desks = "SELECT group_concat(id || ' ' || schema) FROM desk";
    assert_shown(&rt, &mut conn, desks, "1 3");
    drop(conn);
}

// A view of the name of a table is refused by the store, and takes with it the tables that were
// made before.
#[test]
fn no_file_is_made_beside_a_view_of_such_a_name(rt: HostRuntime) {
    let statements = "CREATE TABLE note (x TEXT); CREATE VIEW forms AS SELECT x FROM note";
    let mut conn = database(&rt, statements);
    let made = make(&mut conn);
    assert_eq!(rt; made, Err(FileFault::Storage));
    let things = "SELECT group_concat(name) FROM sqlite_schema";
    assert_shown(&rt, &mut conn, things, "note,forms");
    drop(conn);
}
