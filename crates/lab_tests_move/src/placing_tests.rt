//! A laboratory that is placed whole, or not at all.
use crate::calls::{File, assert_shown, database, finished, made, opened, placed};
use crate::samples::lab;
use lab_store_files::FileFault;
use std::process::Abort;

fn unfinished(rt: &(impl Abort + AllocGlobal)) -> File {
    let mut conn = database(rt, "");
    let made = made(&mut conn);
    assert_eq!(rt; made, Ok(()));
    conn
}

// Each kind, by what its rows name.
fn assert_rows(rt: &impl Abort, conn: &mut File) {
    let labs =
        "SELECT group_concat(code || ' ' || stray || ' ' || records || sessions || trail) FROM labs";
    assert_shown(rt, conn, labs, "aqua 4 111");
    let asked = "SELECT group_concat(code || ' ' || asker) FROM persons WHERE asker IS NOT NULL";
    assert_shown(rt, conn, asked, "bob 3");
    assert_shown(
        rt,
        conn,
        "SELECT group_concat(person || ' ' || signed) FROM sessions",
        "2 1",
    );
    assert_shown(
        rt,
        conn,
        "SELECT group_concat(form || ' ' || key) FROM fields",
        "1 lead",
    );
    assert_shown(
        rt,
        conn,
        "SELECT group_concat(form || ' ' || sample) FROM records",
        "1 S1",
    );
    assert_shown(
        rt,
        conn,
        "SELECT group_concat(format || ' ' || opener) FROM versions",
        "1 2",
    );
    assert_shown(rt, conn, "SELECT group_concat(value) FROM entries", "7.50");
    assert_shown(
        rt,
        conn,
        "SELECT group_concat(meaning) FROM signatures",
        "authorship",
    );
    assert_shown(
        rt,
        conn,
        "SELECT group_concat(action || ' ' || subject) FROM trail",
        "found aqua",
    );
}

#[test]
fn a_laboratory_is_placed_whole_and_the_file_is_finished(rt: HostRuntime) {
    let lab = lab(&rt, "dan");
    let mut conn = unfinished(&rt);
    let placed = placed(&mut conn, &lab);
    drop(lab);
    assert!(rt; placed.is_ok());
    assert_rows(&rt, &mut conn);
    let before = opened(&mut conn);
    assert_eq!(rt; before, Err(FileFault::NotADeskFile));
    let finished = finished(&mut conn);
    assert!(rt; finished.is_ok());
    let after = opened(&mut conn);
    assert_eq!(rt; after, Ok(()));
    assert_rows(&rt, &mut conn);
    drop(conn);
}

// The session is of nobody whom the laboratory has: the row of the laboratory and those of its
// persons go again.
#[test]
fn a_laboratory_of_which_one_row_is_refused_leaves_none(rt: HostRuntime) {
    let lab = lab(&rt, "zoe");
    let mut conn = unfinished(&rt);
    let placed = placed(&mut conn, &lab);
    drop(lab);
    assert!(rt; placed.is_err());
    let counts = "SELECT (SELECT count(*) FROM labs) || ' ' || (SELECT count(*) FROM persons)";
    assert_shown(&rt, &mut conn, counts, "0 0");
    drop(conn);
}

#[test]
fn a_code_is_placed_once(rt: HostRuntime) {
    let lab = lab(&rt, "dan");
    let mut conn = unfinished(&rt);
    let first = placed(&mut conn, &lab);
    let second = placed(&mut conn, &lab);
    drop(lab);
    assert!(rt; first.is_ok());
    assert!(rt; second.is_err());
    assert_rows(&rt, &mut conn);
    drop(conn);
}
