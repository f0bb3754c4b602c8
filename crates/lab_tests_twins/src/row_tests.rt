//! Two desks over tables: one holds aqua alone, whose ids are numbers of its rows, and in the other
//! one brick's rows stand in front of aqua's, and each id is seven times that number, and three.
//! Both give equal replies to a day's requests.
use crate::day::{AQUA_AFTER_DAY, AQUA_BEFORE_DAY, BRICK, DAY};
use lab_desk::{Desk, Twins};
use lab_store::Store;
use lab_tests_rows::{
    AQUA_ROWS, BRICK_ROWS, Exchange, PLAIN, SPREAD, ask_both, database, database_of, desk, said_of,
};
use sqlite::{Connection, MemStore};
use std::process::Abort;

type Tables = Connection<MemStore>;

type Kept = Desk<Store<MemStore>>;

fn assert_bytes(rt: &impl Abort, bytes: &[u8], wanted: &[u8]) {
    assert_eq!(rt; bytes, wanted);
}

fn assert_said<R: Abort + AllocGlobal>(rt: &R, conn: &mut Tables, code: &str, said: &[u8; 64]) {
    let found = said_of(rt.alloc(), conn, code).expect(rt, "what is said");
    assert_bytes(rt, &found, said);
}

// A desk over these rows, with ids of that kind, of which aqua's say this.
fn desk_over<R: Abort + AllocGlobal>(rt: &R, rows: &[&str], ids: &str) -> Kept {
    let mut conn = database(rt.alloc(), rows, ids).expect(rt, "a database");
    assert_said(rt, &mut conn, "aqua", AQUA_BEFORE_DAY);
    desk(rt.alloc(), conn).expect(rt, "a desk")
}

// Both desks take the request, and give its reply.
fn assert_alike(rt: &impl Abort, one: &mut Kept, other: &mut Kept, exchange: &Exchange) {
    let twins = ask_both(one, other, exchange).expect(rt, "a moment");
    let taken = Twins {
        one: true,
        other: true,
    };
    assert_eq!(rt; twins, taken);
    assert_bytes(rt, one.reply(), exchange.reply);
    assert_bytes(rt, other.reply(), exchange.reply);
}

#[test]
fn desks_whose_rows_have_other_ids_answer_alike(rt: HostRuntime) {
    let mut one = desk_over(&rt, &[AQUA_ROWS], PLAIN);
    let mut other = desk_over(&rt, &[BRICK_ROWS, AQUA_ROWS], SPREAD);
    for exchange in &DAY {
        assert_alike(&rt, &mut one, &mut other, exchange);
    }
    let mut alone = database_of(one);
    let mut behind = database_of(other);
    assert_said(&rt, &mut alone, "aqua", AQUA_AFTER_DAY);
    assert_said(&rt, &mut behind, "aqua", AQUA_AFTER_DAY);
    assert_said(&rt, &mut behind, "brick", BRICK);
    drop(alone);
    drop(behind);
}
