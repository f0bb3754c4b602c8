//! A file that is to be filled, and what it is until it is finished.
use crate::calls::{assert_shown, database, finished, made, opened};
use lab_store_files::FileFault;

#[test]
fn a_file_is_none_of_ours_until_it_is_finished(rt: HostRuntime) {
    let mut conn = database(&rt, "CREATE TABLE note (x TEXT)");
    let made = made(&mut conn);
    assert_eq!(rt; made, Ok(()));
    let before = opened(&mut conn);
    assert_eq!(rt; before, Err(FileFault::NotADeskFile));
    let finished = finished(&mut conn);
    assert!(rt; finished.is_ok());
    let after = opened(&mut conn);
    assert_eq!(rt; after, Ok(()));
    assert_shown(
        &rt,
        &mut conn,
        "SELECT group_concat(id || ' ' || schema) FROM desk",
        "1 3",
    );
    drop(conn);
}

#[test]
fn nothing_is_made_beside_a_table_of_such_a_name(rt: HostRuntime) {
    let mut conn = database(&rt, "CREATE TABLE Trail (x TEXT)");
    let made = made(&mut conn);
    assert_eq!(rt; made, Err(FileFault::NotEmpty));
    assert_shown(
        &rt,
        &mut conn,
        "SELECT group_concat(name) FROM sqlite_schema",
        "Trail",
    );
    drop(conn);
}
