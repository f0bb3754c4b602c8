//! Laboratories of a file of schema 2, carried into a new one.
use crate::calls::{File, assert_shown, database, finished, made, moved, opened, placed, shown};
use crate::old_files::{old_file, put};
use crate::samples::{lab, open_lab};
use lab_move::MoveFault;
use lab_records_kept::Lab;
use lab_store_files::FileFault;
use std::process::Abort;

/// What is compared of two files, table by table, without ids.
const QUESTIONS: [&str; 9] = [
    "SELECT group_concat(code || name || last || stray || records || sessions || trail) FROM labs",
    "SELECT group_concat(code || name || roles || retired || failures || kind) FROM persons",
    "SELECT group_concat(asked || hex(ask_salt) || ask_rounds || hex(ask_bytes)) FROM persons \
        WHERE asker IS NOT NULL",
    "SELECT group_concat(number || hex(token) || opened || last || closed || signed) FROM sessions",
    "SELECT group_concat(code || version || approval) FROM forms",
    "SELECT group_concat(place || key || label || required || kind || unit || decimals) \
        FROM fields",
    "SELECT group_concat(number || form_code || sample || current) FROM records",
    "SELECT group_concat(number || format || opened) FROM versions",
    "SELECT group_concat(place || key || value || unit || moment) FROM entries",
];

// The laboratory in a file of its own, placed there without a move.
fn alone(rt: &(impl Abort + AllocGlobal), lab: &Lab) -> File {
    let mut conn = database(rt, "");
    let made = made(&mut conn);
    assert_eq!(rt; made, Ok(()));
    let placed = placed(&mut conn, lab);
    assert!(rt; placed.is_ok());
    let finished = finished(&mut conn);
    assert!(rt; finished.is_ok());
    conn
}

// It was refused by this number, and named that laboratory, or none.
fn assert_refused(rt: &impl Abort, done: Result<u64, MoveFault>, number: u32, wanted: &str) {
    match done {
        Ok(count) => assert_eq!(rt; count, u64::MAX),
        Err(fault) => {
            assert_eq!(rt; fault.number(), Some(number));
            match &fault {
                MoveFault::NotSound { lab } => assert_eq!(rt; lab.as_str(), wanted),
                MoveFault::File(_) => assert_eq!(rt; "", wanted),
            }
        }
    }
}

#[test]
fn what_was_put_is_moved(rt: HostRuntime) {
    let lab = open_lab(&rt, "aqua");
    let (mut old, mut new, mut wanted) = (old_file(&rt), database(&rt, ""), alone(&rt, &lab));
    put(&rt, &mut old, &lab, 40);
    drop(lab);
    let done = moved(&rt, old, &mut new).expect(&rt, "a move");
    assert_eq!(rt; done, 1);
    let after = opened(&mut new);
    assert_eq!(rt; after, Ok(()));
    for question in QUESTIONS {
        let text = shown(&rt, &mut wanted, question);
        assert_shown(&rt, &mut new, question, text.as_str());
        drop(text);
    }
    drop((new, wanted));
}

#[test]
fn a_file_without_laboratories_is_moved(rt: HostRuntime) {
    let (old, mut new) = (old_file(&rt), database(&rt, ""));
    let done = moved(&rt, old, &mut new).expect(&rt, "a move");
    assert_eq!(rt; done, 0);
    let after = opened(&mut new);
    assert_eq!(rt; after, Ok(()));
    let again = moved(&rt, old_file(&rt), &mut new);
    assert_refused(&rt, again, 65, "");
    drop(new);
}

// Its one signature is of another digest.
#[test]
fn the_first_laboratory_that_is_not_sound_is_named(rt: HostRuntime) {
    let (sound, unsound) = (open_lab(&rt, "brick"), lab(&rt, "dan"));
    let (mut old, mut new) = (old_file(&rt), database(&rt, ""));
    put(&rt, &mut old, &sound, 0);
    put(&rt, &mut old, &unsound, 40);
    drop((sound, unsound));
    let done = moved(&rt, old, &mut new);
    assert_refused(&rt, done, 66, "aqua");
    let after = opened(&mut new);
    assert_eq!(rt; after, Err(FileFault::NotADeskFile));
    drop(new);
}
