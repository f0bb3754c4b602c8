//! Two stores over tables: one holds aqua alone, whose ids are numbers of its rows, and in the
//! other one brick's rows stand in front of aqua's, and each id is seven times that number, and
//! three. Where the same is needed of both, both give equal slices.
use crate::needs::needs;
use crate::slices::push_slice;
use lab_records_kept::Need;
use lab_store::Store;
use lab_tests_rows::{AQUA_ROWS, BRICK_ROWS, PLAIN, SPREAD, database, part, store};
use sqlite::MemStore;
use std::process::Abort;

type Kept = Store<MemStore>;

fn store_over<R: Abort + AllocGlobal>(rt: &R, rows: &[&str], ids: &str) -> Kept {
    let conn = database(rt.alloc(), rows, ids).expect(rt, "a database");
    store(rt.alloc(), conn).ok().expect(rt, "a store")
}

// All that the slice has which is needed.
fn slice_text<R: Abort + AllocGlobal>(rt: &R, store: &mut Kept, need: &Need) -> Vec<u8> {
    let slice = part(rt.alloc(), store, "aqua", need).expect(rt, "a laboratory");
    let mut text = Vec::new(rt.alloc());
    push_slice(&mut text, &slice).expect(rt, "memory");
    drop(slice);
    text
}

fn assert_bytes(rt: &impl Abort, bytes: &[u8], wanted: &[u8]) {
    assert_eq!(rt; bytes, wanted);
}

fn assert_told_alike<R: Abort + AllocGlobal>(
    rt: &R,
    one: &mut Kept,
    other: &mut Kept,
    need: &Need,
) {
    let first = slice_text(rt, one, need);
    let second = slice_text(rt, other, need);
    assert_bytes(rt, &second, &first);
    drop(first);
    drop(second);
}

#[test]
fn stores_whose_rows_have_other_ids_give_equal_slices(rt: HostRuntime) {
    let mut one = store_over(&rt, &[AQUA_ROWS], PLAIN);
    let mut other = store_over(&rt, &[BRICK_ROWS, AQUA_ROWS], SPREAD);
    let needs = needs(&rt);
    for need in &needs {
        assert_told_alike(&rt, &mut one, &mut other, need);
    }
    drop(needs);
    drop(one);
    drop(other);
}
