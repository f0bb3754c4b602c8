//! Each call of a log, or of its file, stopped in turn: while the file is opened, and something is
//! asked of it, or a laboratory is founded in it, or it is made. Of a file that isn't opened the
//! rows are as they were. Of one that is, the reply is the request's own, or says that the store
//! refused. Whether the machine stops too or not, the file opens anew, and its rows are those
//! after the request where the reply was its own, and else those before it or after it. A
//! founding or a making is then tried again: it is done, or finds that it was.
use crate::events::{
    AMENDMENT, CONFIRMATION, COPY, ENTRY, FOUNDING, FOUNDING_FIRST, ISSUE, NO_ROWS, REVIEW,
    ROWS_AFTER_AMENDMENT, ROWS_AFTER_CONFIRMATION, ROWS_AFTER_COPY, ROWS_AFTER_ENTRY,
    ROWS_AFTER_FOUNDING, ROWS_AFTER_ISSUE, ROWS_AFTER_REVIEW, ROWS_AFTER_SIGNING, ROWS_BEFORE,
    SIGNING, STORAGE_REPLY,
};
use crate::files::{Outcome, Task};
use crate::images::{Image, Stopped};
use crate::stops::{Comes, Ends, Says, Trial, stop_each, told_by, written_by};
use lab_desk_foundings::newborn_of;
use lab_forms_texts::{LabCode, Tick};
use lab_records_kept::Newborn;
use lab_tests_rows::{AQUA_ROWS, BRICK_ROWS, Exchange, SPREAD, moment, words};
use std::process::Abort;

// How many calls of the log the opening makes, which is the same for each request, and of the file.
const OPENING_OF_LOG: u32 = 62;

const OPENING_OF_FILE: u32 = 130;

// How the runs end of a request that makes so many calls of a disk behind the opening: it is
// refused at each of them, and done where none is stopped.
fn ends(opening: u32, request: u32) -> Ends {
    Ends {
        unopened: opening,
        refused: request,
        done: 1,
    }
}

// What a log and its file hold in which brick and aqua are kept, brick first.
fn laboratories<R: Abort + AllocGlobal>(rt: &R) -> Image {
    let nothing = Image::empty(rt.alloc());
    let empty = written_by(rt.alloc(), &nothing, Task::Make).expect(rt, "tables");
    let texts = [BRICK_ROWS, AQUA_ROWS];
    let task = Task::Fill {
        texts: &texts,
        ids: SPREAD,
    };
    let filled = written_by(rt.alloc(), &empty, task).expect(rt, "rows");
    drop(nothing);
    drop(empty);
    let told = told_by(rt.alloc(), &filled);
    assert!(rt; matches!(told, Outcome::Told(said) if said == *ROWS_BEFORE));
    filled
}

// How the runs end of whose log each call is stopped in turn, and of whose file.
fn assert_ends<R: Abort + AllocGlobal>(
    rt: &R,
    image: &Image,
    trial: &Trial<'_>,
    (log, file): (Ends, Ends),
) {
    let of_log = stop_each(rt.alloc(), image, Stopped::Log, trial);
    let of_file = stop_each(rt.alloc(), image, Stopped::File, trial);
    assert_eq!(rt; (of_log, of_file), (Ok(log), Ok(file)));
}

// Behind the opening the request makes so many calls of the log, and so many of the file, of which
// each is stopped in turn.
fn assert_stops<'a, R: Abort + AllocGlobal>(
    rt: &R,
    exchange: &'a Exchange,
    after: &'a [u8; 64],
    (log, file): (u32, u32),
) {
    let image = laboratories(rt);
    let trial = Trial {
        task: Task::Ask(exchange),
        done: Comes::Reply(exchange.reply),
        refused: Comes::Reply(STORAGE_REPLY),
        again: None,
        before: Says::Rows(ROWS_BEFORE),
        after: Says::Rows(after),
    };
    let wanted = (ends(OPENING_OF_LOG, log), ends(OPENING_OF_FILE, file));
    assert_ends(rt, &image, &trial, wanted);
    drop(image);
}

// The laboratory that is founded.
fn cider<R: Abort + AllocGlobal>(rt: &R) -> Newborn {
    let code = LabCode::parse(rt.alloc(), "cider").expect(rt, "a code");
    let tick = Tick {
        moment: moment().expect(rt, "a moment"),
        words: words(FOUNDING_FIRST),
    };
    let born = newborn_of(rt.alloc(), &code, &tick, FOUNDING);
    drop(code);
    born.expect(rt, "a founding")
}

#[test]
fn a_file_is_made_whole_or_not_at_all(rt: HostRuntime) {
    let nothing = Image::empty(rt.alloc());
    let trial = Trial {
        task: Task::Make,
        done: Comes::Filled,
        refused: Comes::Refused,
        again: Some(Comes::There),
        before: Says::NotOurs,
        after: Says::Rows(NO_ROWS),
    };
    assert_ends(&rt, &nothing, &trial, (ends(17, 38), ends(14, 0)));
    drop(nothing);
}

#[test]
fn a_founding_is_there_whole_or_not_at_all(rt: HostRuntime) {
    let image = laboratories(&rt);
    let born = cider(&rt);
    let trial = Trial {
        task: Task::Found(&born),
        done: Comes::Filled,
        refused: Comes::Refused,
        again: Some(Comes::There),
        before: Says::Rows(ROWS_BEFORE),
        after: Says::Rows(ROWS_AFTER_FOUNDING),
    };
    let wanted = (ends(OPENING_OF_LOG, 21), ends(OPENING_OF_FILE, 10));
    assert_ends(&rt, &image, &trial, wanted);
    drop(born);
    drop(image);
}

#[test]
fn an_entry_is_there_whole_or_not_at_all(rt: HostRuntime) {
    assert_stops(&rt, &ENTRY, ROWS_AFTER_ENTRY, (23, 26));
}

#[test]
fn a_signing_is_there_whole_or_not_at_all(rt: HostRuntime) {
    assert_stops(&rt, &SIGNING, ROWS_AFTER_SIGNING, (23, 24));
}

#[test]
fn a_review_is_there_whole_or_not_at_all(rt: HostRuntime) {
    assert_stops(&rt, &REVIEW, ROWS_AFTER_REVIEW, (24, 25));
}

#[test]
fn an_amendment_is_there_whole_or_not_at_all(rt: HostRuntime) {
    assert_stops(&rt, &AMENDMENT, ROWS_AFTER_AMENDMENT, (26, 31));
}

#[test]
fn an_issue_is_there_whole_or_not_at_all(rt: HostRuntime) {
    assert_stops(&rt, &ISSUE, ROWS_AFTER_ISSUE, (20, 15));
}

#[test]
fn a_confirmation_is_there_whole_or_not_at_all(rt: HostRuntime) {
    assert_stops(&rt, &CONFIRMATION, ROWS_AFTER_CONFIRMATION, (21, 16));
}

#[test]
fn what_a_copy_writes_is_there_whole_or_not_at_all(rt: HostRuntime) {
    assert_stops(&rt, &COPY, ROWS_AFTER_COPY, (20, 26));
}
